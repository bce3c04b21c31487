//! The explanations of errors, by the words that name these.

ghost use Rattle.std.specs.Prelude.{◌≡◌, None};
ghost use Rattle.std.specs.List.{position};
ghost use Rattle.zk_helps.specs.Explanations.{CodeIs, code_of, asks, explain_at, first_word, is_end};

/// What the word after `zk: ` names, in words, and what helps.
#[derive(Clone, Copy)]
struct Explanation {
    code: &'static str,
    words: &'static str,
}

// Three lists: one would have more text than the prover takes at once.

const OF_LOGS: [Explanation; 13] = [
    Explanation {
        code: "G1",
        words: "It is no transaction log: a snapshot (show its directory), compressed (`zcat FILE.gz | zk list @`), empty, or something else.",
    },
    Explanation {
        code: "G2",
        words: "The entry at this byte is corrupt: its checksum does not match. `zk list` prints those before it.",
    },
    Explanation {
        code: "G3",
        words: "The record at this byte is corrupt or of an unknown server; a log of a 3.5 to 3.8 server on standard input must be given as a file.",
    },
    Explanation {
        code: "G4",
        words: "The zxid of the entry at this byte is not above the previous one: it is corrupt, or two logs were joined.",
    },
    Explanation {
        code: "G5",
        words: "The length of the entry at this byte is above 16,777,216: mostly it is corrupt. `zk list` prints those before it.",
    },
    Explanation {
        code: "G6",
        words: "A read of the log failed: look at the disk.",
    },
    Explanation {
        code: "G7",
        words: "The log did not end within 1,048,576 reads: copy it to a file first.",
    },
    Explanation {
        code: "N1",
        words: "The multi at this byte failed and does not say why, so 3.4 would apply it.",
    },
    Explanation {
        code: "N2",
        words: "The closeSession at this byte deletes a node that is not its session's; 3.4 has no such transaction.",
    },
    Explanation {
        code: "N3",
        words: "The record at this byte would have more than 16,777,216 bytes in 3.4.",
    },
    Explanation {
        code: "begins",
        words: "The log starts with this transaction, in the middle of a history, and earlier files are needed: `zk show DIR ZXID`.",
    },
    Explanation {
        code: "read",
        words: "An input cannot be opened or read; of a time, it must be a directory.",
    },
    Explanation {
        code: "write",
        words: "The output cannot be written, or its reader has closed it; a part may be written.",
    },
];

const OF_DIRECTORIES: [Explanation; 23] = [
    Explanation {
        code: "lost",
        words: "The logs lost transactions between these two, which are left out or not compared: a log is damaged, or a file is missing. `zk verify` names the bytes.",
    },
    Explanation {
        code: "compare",
        words: "The lines below are about these two directories.",
    },
    Explanation {
        code: "broken",
        words: "A log of this directory is broken from here on: `zk verify` says what helps.",
    },
    Explanation {
        code: "D1",
        words: "The directory has no snapshot.* and no log.*: name the one above version-2, and that of the logs with `--logs`.",
    },
    Explanation {
        code: "D2",
        words: "No snapshot serves, and the logs begin with this transaction: earlier files are missing. `zk files DIR` lists the snapshots.",
    },
    Explanation {
        code: "D3",
        words: "Transactions between these are missing: ask for one up to the first, or try the directory of another server.",
    },
    Explanation {
        code: "D4",
        words: "The entry at this byte of this log differs from an earlier one of its zxid: ask for an earlier zxid.",
    },
    Explanation {
        code: "D5",
        words: "The logs end before this transaction, from which the snapshot is exact: copy logs after snapshots.",
    },
    Explanation {
        code: "D6",
        words: "The snapshot is exact from this transaction on, and no earlier one serves: ask for it or a later one.",
    },
    Explanation {
        code: "D7",
        words: "What was asked for comes after this transaction, the last one in the files: name the directory of the logs with `--logs`, or ask for `last`.",
    },
    Explanation {
        code: "D8",
        words: "No log has a transaction: name the directory of the logs with `--logs`.",
    },
    Explanation {
        code: "range",
        words: "The logs hold only the transactions from the first of these to the second, with their times, of what was asked for: ask a server that has earlier or later ones.",
    },
    Explanation {
        code: "ends",
        words: "No log has a transaction after this snapshot's: if the logs are in another directory, name it with `--logs`.",
    },
    Explanation {
        code: "unproved",
        words: "Nothing shows that the first transaction is the last one of its epoch: a log between the two may be missing. Compare the directory of another server.",
    },
    Explanation {
        code: "otherDigest",
        words: "The server had another tree after this number of transactions, from this one on: it lost transactions, or files are missing.",
    },
    Explanation {
        code: "S1",
        words: "The file does not begin like a snapshot.",
    },
    Explanation {
        code: "S2",
        words: "The snapshot ends early: its server stopped while it wrote it, or the copy is incomplete.",
    },
    Explanation {
        code: "S3",
        words: "The snapshot is corrupt: a length, a path or a text is invalid.",
    },
    Explanation {
        code: "S4",
        words: "The snapshot is corrupt: its checksum does not match.",
    },
    Explanation {
        code: "S5",
        words: "Bytes follow the snapshot's end; servers from 3.9 on write such.",
    },
    Explanation {
        code: "S6",
        words: "The snapshot is compressed (snapshot.compression.method): decompress a copy of it.",
    },
    Explanation {
        code: "S7",
        words: "The snapshot's nodes are not a tree.",
    },
    Explanation {
        code: "S8",
        words: "The snapshot lacks an access control list, and no transaction of the logs has it.",
    },
];

const OF_TEXTS: [Explanation; 18] = [
    Explanation {
        code: "L1",
        words: "In this line a field is missing, empty or additional, or a separator is not one space.",
    },
    Explanation {
        code: "L2",
        words: "In this line a number has the wrong form or is out of range.",
    },
    Explanation {
        code: "L3",
        words: "In this line a quoted text has no end or an unknown escape.",
    },
    Explanation {
        code: "L4",
        words: "In this line content is neither `-` nor `x` and pairs of lower-case hexadecimal digits.",
    },
    Explanation {
        code: "L5",
        words: "In this line a word is unknown.",
    },
    Explanation {
        code: "L6",
        words: "In this line a quoted text is not a path.",
    },
    Explanation {
        code: "L7",
        words: "The last line has no newline: `echo >>TEXT`.",
    },
    Explanation {
        code: "order",
        words: "The zxid of this line is not above that of the line before: `sort` the listing.",
    },
    Explanation {
        code: "length",
        words: "The record of this line would have more than 16,777,216 bytes.",
    },
    Explanation {
        code: "long",
        words: "A text of the state has 2,147,483,648 bytes or more, or there are 2,147,483,648 sessions or access control lists: a snapshot has no field for that.",
    },
    Explanation {
        code: "script",
        words: "This line is no command: `zk debug --help` and `zk run --help` list them. Quote paths with `\"`.",
    },
    Explanation {
        code: "utf8",
        words: "The listing or script is not UTF-8.",
    },
    Explanation {
        code: "listen",
        words: "The port cannot be opened: try another from 1024 on; `ss -ltnp` shows who listens.",
    },
    Explanation {
        code: "data:",
        words: "The directory of the servers cannot be used.",
    },
    Explanation {
        code: "servers",
        words: "A server rejected its input. That is a defect: please report it.",
    },
    Explanation {
        code: "C1",
        words: "The numbers of calls, receipts and events differ. That is a defect: please report it.",
    },
    Explanation {
        code: "C2",
        words: "The receipt at this index does not match its event. That is a defect: please report it.",
    },
    Explanation {
        code: "memory",
        words: "Out of memory, or a thread could not be created; a part may be written.",
    },
];

/// What a line for an error means, in words, and what helps; `None` if it is no such line, or of an
/// error without an explanation.
pub fn explanation_of(line: &[u8]) -> Option<&'static str>
    ensures { code_of line.now ≡ None → result ≡ None }
{
    words_of(code_of(line)?)
}

/// The explanation of the error that the word after `zk: ` names.
pub fn words_of(code: &[u8]) -> Option<&'static str> {
    let lists: [&[Explanation]; 3] = [&OF_LOGS, &OF_DIRECTORIES, &OF_TEXTS];
    lists.iter().find_map(|list| words_in(list, code))
}

fn words_in(list: &[Explanation], code: &[u8]) -> Option<&'static str> {
    let found = list.iter().find(|it| it.code.as_bytes() == code)?;
    Some(found.words)
}

/// The word after `zk: `, if a line begins so.
fn code_of(line: &[u8]) -> Option<&[u8]>
    ensures { CodeIs line.now result }
{
    match line.strip_prefix(b"zk: ") {
        Some(rest) => Some(first_word(rest)),
        None => None,
    }
}

/// The bytes before the first space or newline.
fn first_word(bytes: &[u8]) -> &[u8]
    ensures { result.now ≡ first_word bytes.now }
{
    match first_end(bytes) {
        Some(end) => &bytes[..end],
        None => bytes,
    }
}

fn first_end(bytes: &[u8]) -> Option<usize>
    ensures { result ≡ position is_end bytes.now }
{
    bytes.iter().position(|b| *b == b' ' || *b == b'\n')
}

/// The place of `--explain` among the words of a command line. (A file of this name is
/// `./--explain`.)
pub fn explain_at(words: &[&str]) -> Option<usize>
    ensures { result ≡ explain_at words.now }
{
    words.iter().position(|it| *it == "--explain")
}
