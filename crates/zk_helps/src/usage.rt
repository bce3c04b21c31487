//! The message of `zk` for a command line that names no job: its usage, by `clap`.

ghost use Rattle.std.specs.Prelude.{◌≢◌, ◌↔◌, IsTrue};
ghost use Rattle.clap.specs.declared.error.kind.ErrorKind.TheVariants as kinds;

use crate::grammar::{command, order_command};
use crate::helps::{
    COMPARE, DEBUG, DIFF, ENSEMBLE, HISTORY, MEND, OrderHelp, RESTORE, SERVE, SESSION, SHOW,
    SNAPSHOT, TOP,
};
use clap::Error;
use clap::error::ErrorKind;
use std::alloc::{AllocError, Global};
use std::fmt;

/// A usage error, or the help or the version that a command line asks for.
#[derive(Debug, Drop)]
pub struct Refusal {
    pub kind: ErrorKind,
    /// The whole text, with its last newline.
    pub text: String,
}

impl Refusal {
    /// `false` for a help or the version, whose text belongs on standard output; an error's belongs
    /// on standard error.
    pub fn is_fault(&self) -> bool
        ensures { IsTrue result ↔ ((self.now.kind ≢ kinds.DisplayHelp) × (self.now.kind ≢ kinds.DisplayVersion)) }
    {
        !matches!(
            self.kind,
            ErrorKind::DisplayHelp | ErrorKind::DisplayVersion
        )
    }
}

impl fmt::Display for Refusal {
    fn fmt<W: fmt::Write>(&self, f: &mut fmt::Formatter<W>) -> fmt::Result {
        f.write_str(self.text.as_str())
    }
}

/// Returns the usage error of a command line that names no command, or the help or the version that
/// it asks for.
///
/// The usage names the program `zk`, not the first word.
pub fn refusal_of<'a>(alloc: Global, words: &'a [&'a str]) -> Result<Refusal, AllocError> {
    let error = match refused_by_clap(alloc, words)? {
        Some(error) => refused_fault(alloc, words, error)?,
        None => accepted_fault(alloc, words)?,
    };
    refusal_by(alloc, &error)
}

/// What an error of `clap` means for these words.
fn refused_fault(alloc: Global, words: &[&str], error: Error) -> Result<Error, AllocError> {
    if names_any(words, &FORMS) {
        return form_fault(alloc, error);
    }
    Ok(error)
}

/// The usage error of words that `clap` accepts.
fn accepted_fault(alloc: Global, words: &[&str]) -> Result<Error, AllocError> {
    if names(words, "--explain") {
        return explain_fault(alloc);
    }
    match words.get(1) {
        Some(order) => order_fault(alloc, words, order),
        None => zxid_fault(alloc, &SHOW),
    }
}

/// The usage error of a command that `clap` accepts.
fn order_fault(alloc: Global, words: &[&str], order: &str) -> Result<Error, AllocError> {
    match order {
        "list" => form_conflict(alloc),
        "mend" => mend_fault(alloc),
        "serve" => serve_fault(alloc),
        "ensemble" => ensemble_fault(alloc),
        "top" => top_fault(alloc, words),
        "history" => path_fault(alloc),
        "compare" => compare_fault(alloc),
        "diff" => diff_fault(alloc),
        "restore" => restore_fault(alloc),
        "snapshot" => snapshot_fault(alloc),
        "session" => session_fault(alloc),
        "debug" => debug_fault(alloc, words),
        // Of the other words that clap accepts, only a ZXID is an error.
        _ => zxid_fault(alloc, &SHOW),
    }
}

/// The error, help or version of `clap`.
fn refused_by_clap<'a>(alloc: Global, words: &'a [&'a str]) -> Result<Option<Error>, AllocError> {
    Ok(command(alloc)?.try_get_matches_from(words).err())
}

/// The options of the form of lines, each of which `clap` knows only where a command has it.
const FORMS: [&str; 3] = ["--json", "--time", "--follow"];

/// The error of `clap`, or what it means where a command does not have an option of the form.
fn form_fault(alloc: Global, error: Error) -> Result<Error, AllocError> {
    if error.kind() != ErrorKind::UnknownArgument {
        return Ok(error);
    }
    form_conflict(alloc)
}

/// The first of these options was read before.
fn explain_fault(alloc: Global) -> Result<Error, AllocError> {
    command(alloc)?.error(ErrorKind::ArgumentConflict, "--explain is given once")
}

/// Options of the form that do not go together.
fn form_conflict(alloc: Global) -> Result<Error, AllocError> {
    command(alloc)?.error(
        ErrorKind::ArgumentConflict,
        "--json is for show, list, files, history, top, sessions, session, verify, diff and compare, --time iso for list without --json, and --follow for list of a directory; each is given once",
    )
}

/// A usage error of `debug` that `clap` accepts.
fn debug_fault(alloc: Global, words: &[&str]) -> Result<Error, AllocError> {
    if names(words, "--from") {
        return zxid_fault(alloc, &DEBUG);
    }
    fault_of(
        alloc,
        &DEBUG,
        ErrorKind::ArgumentConflict,
        "FILE cannot be standard input where SCRIPT is, or where there is none",
    )
}

/// Whether a word is one of these options, with its value or before it.
fn names_any(words: &[&str], options: &[&str]) -> bool {
    let mut is_there = false;
    for option in options {
        if names(words, option) {
            is_there = true;
        }
    }
    is_there
}

/// Whether a word is this option, with its value or before it.
fn names(words: &[&str], option: &str) -> bool {
    let mut is_there = false;
    for word in words {
        if let Some(rest) = word.strip_prefix(option)
            && (rest.is_empty() || rest.starts_with("="))
        {
            is_there = true;
        }
    }
    is_there
}

/// A usage error of a command with a ZXID that `clap` accepts.
fn zxid_fault(alloc: Global, order: &OrderHelp) -> Result<Error, AllocError> {
    fault_of(
        alloc,
        order,
        ErrorKind::ValueValidation,
        "ZXID is neither sixteen lower-case hexadecimal digits, `last`, nor a time such as 2026-11-27T14:03",
    )
}

/// A usage error of `history` that `clap` accepts.
fn path_fault(alloc: Global) -> Result<Error, AllocError> {
    fault_of(
        alloc,
        &HISTORY,
        ErrorKind::ValueValidation,
        "PATH is not the path of a node, such as / or /app/lock",
    )
}

/// A usage error of `compare` that `clap` accepts.
fn compare_fault(alloc: Global) -> Result<Error, AllocError> {
    fault_of(
        alloc,
        &COMPARE,
        ErrorKind::ArgumentConflict,
        "--logsN names the logs of directory N, and there are fewer directories",
    )
}

/// A usage error of `diff` that `clap` accepts.
fn diff_fault(alloc: Global) -> Result<Error, AllocError> {
    fault_of(
        alloc,
        &DIFF,
        ErrorKind::ValueValidation,
        "FROM or TO is neither a zxid such as 0x2a4, `last`, nor a time such as 2026-11-27T14:03, or PATH is not the path of a node, such as / or /app/lock",
    )
}

/// A usage error of `restore` that `clap` accepts.
fn restore_fault(alloc: Global) -> Result<Error, AllocError> {
    fault_of(
        alloc,
        &RESTORE,
        ErrorKind::ValueValidation,
        "T is neither a zxid such as 0x2a4, `last`, nor a time such as 2026-11-27T14:03, or PATH is not the path of a node, such as / or /app/lock",
    )
}

/// A usage error of `snapshot` that `clap` accepts.
fn snapshot_fault(alloc: Global) -> Result<Error, AllocError> {
    fault_of(
        alloc,
        &SNAPSHOT,
        ErrorKind::ValueValidation,
        "T is neither a zxid such as 0x2a4, `last`, nor a time such as 2026-11-27T14:03",
    )
}

/// A usage error of `session` that `clap` accepts.
fn session_fault(alloc: Global) -> Result<Error, AllocError> {
    fault_of(
        alloc,
        &SESSION,
        ErrorKind::ValueValidation,
        "ID is not a session, such as 0x100000b69dd0002",
    )
}

/// A usage error of `top` that `clap` accepts.
fn top_fault(alloc: Global, words: &[&str]) -> Result<Error, AllocError> {
    if !names(words, "--by") {
        return fault_of(
            alloc,
            &TOP,
            ErrorKind::MissingRequiredArgument,
            "--by path or --by session is missing",
        );
    }
    fault_of(
        alloc,
        &TOP,
        ErrorKind::ValueValidation,
        "KEY is neither path nor session, T neither a zxid nor a time, or N no decimal from 0 to 4294967295",
    )
}

/// A usage error of `mend` that `clap` accepts.
fn mend_fault(alloc: Global) -> Result<Error, AllocError> {
    fault_of(
        alloc,
        &MEND,
        ErrorKind::ArgumentConflict,
        "OUT cannot be FILE or standard output, which has the report",
    )
}

/// A usage error of `serve` that `clap` accepts.
fn serve_fault(alloc: Global) -> Result<Error, AllocError> {
    fault_of(
        alloc,
        &SERVE,
        ErrorKind::ValueValidation,
        "PORT is no decimal from 1 to 65535, N none from 2 to 15, or C none from 0 to 4294967295",
    )
}

/// A usage error of `ensemble` that `clap` accepts.
fn ensemble_fault(alloc: Global) -> Result<Error, AllocError> {
    fault_of(
        alloc,
        &ENSEMBLE,
        ErrorKind::ValueValidation,
        "PORT is no decimal from 1 to 65535, N none from 1 to 15 (2 to 15 with --record), or C none from 1 to 4294967295",
    )
}

/// An error with the usage of its command.
fn fault_of(
    alloc: Global,
    order: &OrderHelp,
    kind: ErrorKind,
    text: &str,
) -> Result<Error, AllocError> {
    order_command(alloc, order)?
        .bin_name(order.title)?
        .error(kind, text)
}

/// The usage error of a command line with a word that is not in UTF-8.
pub fn refusal_of_bytes(alloc: Global) -> Result<Refusal, AllocError> {
    let error = command(alloc)?.error(ErrorKind::InvalidValue, "a word is not in UTF-8")?;
    refusal_by(alloc, &error)
}

/// The text of an error of `clap`.
fn refusal_by(alloc: Global, error: &Error) -> Result<Refusal, AllocError> {
    let kind = error.kind();
    if kind == ErrorKind::OutOfMemory {
        return Err(AllocError);
    }
    let mut text = String::new(alloc);
    write!(text, "{error}")?;
    Ok(Refusal { kind, text })
}
