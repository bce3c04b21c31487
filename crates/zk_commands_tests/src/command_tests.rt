//! Command lines that no golden test can run: those with servers, and one with another name of the
//! program.
use std::alloc::Global;
use zk_cli_args::{
    Command, CommandLine, ComparedFolder, ErrorKind, Form, Order, read_command_line,
    read_comparisons, refusal_of_bytes,
};

/// A command line, with single spaces between words: its port, its number of servers and its number
/// of connections.
type Row = (&'static str, u16, usize, u32);

static SERVINGS: [Row; 13] = [
    ("zk serve 1 2", 1, 2, 1),
    ("zk serve 65535 15", 65_535, 15, 1),
    ("zk serve -- 2181 3", 2181, 3, 1),
    ("zk serve 2181 -- 3", 2181, 3, 1),
    ("zk serve 2181 3 --", 2181, 3, 1),
    // the option for connections is before, between or after the numbers
    ("zk serve --conns 2 2181 3", 2181, 3, 2),
    ("zk serve 2181 --conns 0 3", 2181, 3, 0),
    ("zk serve 2181 3 --conns 4294967295", 2181, 3, u32::MAX),
    ("zk serve --conns=2 2181 3", 2181, 3, 2),
    ("zk serve 2181 --conns=2 3", 2181, 3, 2),
    ("zk serve 2181 3 --conns=2", 2181, 3, 2),
    ("zk serve --conns 2 -- 2181 3", 2181, 3, 2),
    ("zk serve 2181 --conns=2 -- 3", 2181, 3, 2),
];

/// Whether the command line of a test case is for these servers.
fn names(alloc: Global, row: &Row) -> bool {
    let (line, port, servers, connections) = *row;
    let Ok(words) = line.split(' ').collect::<Vec<_>>(alloc) else {
        return false;
    };
    let read = read_command_line(alloc, words.as_slice());
    matches!(&read, Ok(CommandLine { command: Command::Serve(it), .. })
        if (it.port, it.servers, it.connections) == (port, servers, connections))
}

/// Whether a command is read under any name of the program, and a word that is not in UTF-8 is a
/// fault.
fn others_are_read(alloc: Global) -> bool {
    let read = read_command_line(alloc, &["other", "show", "@", "last", "--"]);
    let told = refusal_of_bytes(alloc);
    matches!(&read, Ok(CommandLine { command: Command::Act(job), .. }) if job.order == Order::Show { upto: None }
        && job.input == "@" && job.script.is_none() && job.output == "@")
        && matches!(&told, Ok(told) if told.is_fault() && told.kind == ErrorKind::InvalidValue)
}

/// A command line, the form of its command, and whether this follows logs; `None` for an error.
type Formed = (&'static str, Option<(Form, bool)>);

static FORMS: [Formed; 10] = [
    ("zk list d", Some((Form::Lines, false))),
    ("zk list d --json", Some((Form::Json, false))),
    ("zk list --time iso d", Some((Form::Times, false))),
    ("zk list d --follow --json", Some((Form::Json, true))),
    ("zk files d --json", Some((Form::Json, false))),
    // a directory of this name
    ("zk list d --logs --json", Some((Form::Lines, false))),
    // forms that the command does not have
    ("zk restore d /a --json", None),
    ("zk top d --by path --time iso", None),
    ("zk show d last --follow", None),
    ("zk list d --json --time iso", None),
];

/// Whether the command line of a test case asks for this form.
fn is_formed(alloc: Global, row: &Formed) -> bool {
    let (text, wanted) = *row;
    let Ok(words) = text.split(' ').collect::<Vec<_>>(alloc) else {
        return false;
    };
    match read_command_line(alloc, words.as_slice()) {
        Ok(line) => wanted == Some((line.form, line.follows)),
        Err(_) => wanted.is_none(),
    }
}

/// Directories, each with that of its logs.
type Folders = &'static [(&'static str, Option<&'static str>)];

/// A command line, its form, and the directories that it compares with the first; none for a line of
/// another command.
type Compared = (&'static str, Form, Folders);

static COMPARED: [Compared; 7] = [
    (
        "zk compare a b c",
        Form::Lines,
        &[("a", None), ("b", None), ("c", None)],
    ),
    (
        "zk compare a --logs2 x b c --json --logs=y -- -d",
        Form::Json,
        &[
            ("a", Some("y")),
            ("b", Some("x")),
            ("c", None),
            ("-d", None),
        ],
    ),
    (
        "zk compare --logs3 x a b c",
        Form::Lines,
        &[("a", None), ("b", None), ("c", Some("x"))],
    ),
    // the logs of a directory that is not there
    ("zk compare a b c --logs4 x", Form::Lines, &[]),
    ("zk compare a b", Form::Lines, &[]),
    ("zk compare a b c --time iso", Form::Lines, &[]),
    ("zk verify a b c", Form::Lines, &[]),
];

fn are_folders(found: &[ComparedFolder<'_>], folders: Folders) -> bool {
    if found.len() != folders.len() {
        return false;
    }
    for (it, (folder, logs)) in found.iter().zip(folders) {
        if it.folder != *folder || it.logs != *logs {
            return false;
        }
    }
    true
}

/// Whether the command line of a test case compares these directories.
fn is_compared(alloc: Global, row: &Compared) -> bool {
    let (text, form, folders) = *row;
    let Ok(words) = text.split(' ').collect::<Vec<_>>(alloc) else {
        return false;
    };
    match read_comparisons(alloc, words.as_slice()) {
        Ok(Some(it)) => it.form == form && are_folders(it.folders.as_slice(), folders),
        Ok(None) => folders.is_empty(),
        Err(_) => false,
    }
}

#[test]
fn command_lines_compare_several_directories(rt: HostRuntime) {
    for row in &COMPARED {
        assert!(rt; is_compared(rt.alloc(), row), "{}", row.0);
    }
}

#[test]
fn command_lines_ask_for_forms(rt: HostRuntime) {
    for row in &FORMS {
        assert!(rt; is_formed(rt.alloc(), row), "{}", row.0);
    }
}

#[test]
fn command_lines_name_jobs_or_servers(rt: HostRuntime) {
    for row in &SERVINGS {
        assert!(rt; names(rt.alloc(), row), "{}", row.0);
    }
    assert!(rt; others_are_read(rt.alloc()));
}
