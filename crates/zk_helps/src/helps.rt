//! The help texts of the program and of its commands.

use crate::notes::{
    ASM_NOTES, COMPARE_NOTES, DEBUG_LINES, DIFF_NOTES, ENSEMBLE_LINES, FILES_NOTES, HISTORY_NOTES,
    LOG_NOTES, MEND_NOTES, RESTORE_NOTES, RUN_LINES, SERVE_LINES, SESSION_NOTES, SESSIONS_NOTES,
    SNAPSHOT_NOTES, TOP_NOTES, VERIFY_NOTES,
};

/// The help of a command.
#[derive(Clone, Copy)]
pub(crate) struct OrderHelp {
    pub(crate) name: &'static str,
    /// The program's name and the command's.
    pub(crate) title: &'static str,
    pub(crate) about: &'static str,
    /// The text after the usage.
    pub(crate) notes: &'static str,
    pub(crate) values: &'static [ValueHelp],
    pub(crate) flags: &'static [FlagHelp],
    pub(crate) options: &'static [OptionHelp],
}

/// A positional value of a command.
#[derive(Clone, Copy)]
pub(crate) struct ValueHelp {
    /// Before `..`, that of any number of values.
    pub(crate) name: &'static str,
    pub(crate) help: &'static str,
    pub(crate) required: bool,
}

/// An option that takes no value.
#[derive(Clone, Copy)]
pub(crate) struct FlagHelp {
    pub(crate) name: &'static str,
    pub(crate) help: &'static str,
    /// The value that excludes it; empty if none does.
    pub(crate) without: &'static str,
}

/// An option that takes a value.
#[derive(Clone, Copy)]
pub(crate) struct OptionHelp {
    pub(crate) name: &'static str,
    pub(crate) value: &'static str,
    pub(crate) help: &'static str,
}

/// The commands that read data directories and logs, in the order of the program's help.
///
/// One list with those of servers would have more text than the prover takes at once.
pub(crate) const READING: [OrderHelp; 6] = [SHOW, LIST, FILES, ASM, MEND, DEBUG];

/// The commands that say what happened in a data directory.
pub(crate) const ASKING: [OrderHelp; 4] = [VERIFY, HISTORY, DIFF, TOP];

/// The commands that say what sessions did in a data directory.
pub(crate) const LIVES: [OrderHelp; 2] = [SESSIONS, SESSION];

/// The commands that compare data directories, or write what one holds.
pub(crate) const HOLDING: [OrderHelp; 3] = [COMPARE, RESTORE, SNAPSHOT];

/// The commands that run servers.
pub(crate) const RUNNING: [OrderHelp; 3] = [RUN, SERVE, ENSEMBLE];

pub(crate) const SHOW: OrderHelp = OrderHelp {
    name: "show",
    title: "zk show",
    about: "Prints the tree of a data directory or a log, as of a transaction",
    notes: LOG_NOTES,
    values: &[
        LOGS_OR_LOG,
        ValueHelp {
            name: "ZXID",
            help: "The last transaction to apply: sixteen lower-case hexadecimal digits, 0x and fewer, or `last`; of a directory also a time in UTC, such as 2026-11-27T14:03:05.123, for the last transaction with it or an earlier one",
            required: true,
        },
    ],
    flags: &[JSON],
    options: &[LOGS],
};

const LIST: OrderHelp = OrderHelp {
    name: "list",
    title: "zk list",
    about: "Prints the transactions of a data directory or a log, one line each",
    notes: LOG_NOTES,
    values: &[LOGS_OR_LOG],
    flags: &[JSON, FOLLOW],
    options: &[TIME, LOGS],
};

const FILES: OrderHelp = OrderHelp {
    name: "files",
    title: "zk files",
    about: "Prints a line for each snapshot and each log of a data directory",
    notes: FILES_NOTES,
    values: &[DIR],
    flags: &[JSON],
    options: &[LOGS],
};

const VERIFY: OrderHelp = OrderHelp {
    name: "verify",
    title: "zk verify",
    about: "Prints what is wrong with a data directory, and what helps",
    notes: VERIFY_NOTES,
    values: &[DIR],
    flags: &[JSON],
    options: &[LOGS],
};

pub(crate) const HISTORY: OrderHelp = OrderHelp {
    name: "history",
    title: "zk history",
    about: "Prints each transaction of a data directory that created, changed or deleted a node",
    notes: HISTORY_NOTES,
    values: &[
        DIR,
        ValueHelp {
            name: "PATH",
            help: "The path of the node",
            required: true,
        },
    ],
    flags: &[
        FlagHelp {
            name: "r",
            help: "Also those of all nodes below it, with the paths of the nodes",
            without: "",
        },
        JSON,
    ],
    options: &[LOGS],
};

pub(crate) const DIFF: OrderHelp = OrderHelp {
    name: "diff",
    title: "zk diff",
    about: "Prints what differs between the trees of a data directory as of two transactions",
    notes: DIFF_NOTES,
    values: &[
        DIR,
        ValueHelp {
            name: "FROM",
            help: "The last transaction of the first tree: a zxid, `last` or a time, as for show",
            required: true,
        },
        ValueHelp {
            name: "TO",
            help: "That of the second one, likewise",
            required: true,
        },
        ValueHelp {
            name: "PATH",
            help: "The path of a node, to compare only it and the nodes below it",
            required: false,
        },
    ],
    flags: &[JSON],
    options: &[LOGS],
};

pub(crate) const TOP: OrderHelp = OrderHelp {
    name: "top",
    title: "zk top",
    about: "Prints the paths or the sessions of a data directory with the most writes",
    notes: TOP_NOTES,
    values: &[DIR],
    flags: &[JSON],
    options: &[
        OptionHelp {
            name: "by",
            value: "KEY",
            help: "What the writes are counted by: path or session; it is required",
        },
        OptionHelp {
            name: "from",
            value: "T",
            help: "The first transaction that counts: a zxid or a time, as for show; the first of all if left out",
        },
        OptionHelp {
            name: "to",
            value: "T",
            help: "The last one, likewise",
        },
        OptionHelp {
            name: "n",
            value: "N",
            help: "The most lines, 0 to 4294967295; all if left out",
        },
        LOGS,
    ],
};

const SESSIONS: OrderHelp = OrderHelp {
    name: "sessions",
    title: "zk sessions",
    about: "Prints when each session of a data directory was opened, what it wrote, and how it ended",
    notes: SESSIONS_NOTES,
    values: &[DIR],
    flags: &[JSON],
    options: &[LOGS],
};

pub(crate) const SESSION: OrderHelp = OrderHelp {
    name: "session",
    title: "zk session",
    about: "Prints what a session of a data directory did",
    notes: SESSION_NOTES,
    values: &[
        ValueHelp {
            name: "ID",
            help: "The session: 1 to 16 lower-case hexadecimal digits, alone or after 0x",
            required: true,
        },
        DIR,
    ],
    flags: &[JSON],
    options: &[LOGS],
};

pub(crate) const RESTORE: OrderHelp = OrderHelp {
    name: "restore",
    title: "zk restore",
    about: "Prints a script of zkCli.sh that restores a node of a data directory and those below it",
    notes: RESTORE_NOTES,
    values: &[
        DIR,
        ValueHelp {
            name: "PATH",
            help: "The path of the node",
            required: true,
        },
    ],
    flags: &[],
    options: &[AT, LOGS],
};

pub(crate) const SNAPSHOT: OrderHelp = OrderHelp {
    name: "snapshot",
    title: "zk snapshot",
    about: "Writes a snapshot of a data directory, as of a transaction, from which a server starts",
    notes: SNAPSHOT_NOTES,
    values: &[
        DIR,
        ValueHelp {
            name: "OUT",
            help: "The snapshot, created or truncated: a path, or @ for standard output",
            required: true,
        },
    ],
    flags: &[],
    options: &[AT, LOGS],
};

pub(crate) const COMPARE: OrderHelp = OrderHelp {
    name: "compare",
    title: "zk compare",
    about: "Prints what servers have in common with the first, and where their logs and trees differ",
    notes: COMPARE_NOTES,
    values: &[
        DIR,
        ValueHelp {
            name: "DIR2",
            help: "Another server's",
            required: true,
        },
        ValueHelp {
            name: "DIR3..",
            help: "Those of more servers, each of which is compared with DIR",
            required: false,
        },
    ],
    flags: &[JSON],
    options: &[
        OptionHelp {
            name: "logs",
            value: "LOGS",
            help: "The directory of DIR's logs, if it is another: a data directory, or its version-2",
        },
        OptionHelp {
            name: "logs2",
            value: "LOGS2",
            help: "The same of DIR2",
        },
        OptionHelp {
            name: "logs3",
            value: "LOGS3",
            help: "The same of the third directory",
        },
        OptionHelp {
            name: "logs4",
            value: "LOGS4",
            help: "The same of the fourth",
        },
        OptionHelp {
            name: "logs5",
            value: "LOGS5",
            help: "The same of the fifth",
        },
        OptionHelp {
            name: "logs6",
            value: "LOGS6",
            help: "The same of the sixth",
        },
        OptionHelp {
            name: "logs7",
            value: "LOGS7",
            help: "The same of the seventh",
        },
        OptionHelp {
            name: "logs8",
            value: "LOGS8",
            help: "The same of the eighth",
        },
        OptionHelp {
            name: "logs9",
            value: "LOGS9",
            help: "The same of the ninth",
        },
    ],
};

const ASM: OrderHelp = OrderHelp {
    name: "asm",
    title: "zk asm",
    about: "Builds the log, with dbid 0, that a listing describes",
    notes: ASM_NOTES,
    values: &[
        ValueHelp {
            name: "TEXT",
            help: "The listing: a path, or @ for standard input",
            required: true,
        },
        ValueHelp {
            name: "FILE",
            help: "The log, created or truncated: a path, or @ for standard output",
            required: true,
        },
    ],
    flags: &[],
    options: &[],
};

pub(crate) const MEND: OrderHelp = OrderHelp {
    name: "mend",
    title: "zk mend",
    about: "Converts a log of a 3.5 to 3.8 server to one of 3.4",
    notes: MEND_NOTES,
    values: &[
        LOG,
        ValueHelp {
            name: "OUT",
            help: "The log of 3.4, created or truncated: a path other than FILE",
            required: true,
        },
    ],
    flags: &[],
    options: &[],
};

pub(crate) const DEBUG: OrderHelp = OrderHelp {
    name: "debug",
    title: "zk debug",
    about: "Runs a debug script over a data directory or a log, or an interactive session",
    notes: DEBUG_LINES,
    values: &[
        LOGS_OR_LOG,
        ValueHelp {
            name: "SCRIPT",
            help: "The script: a path, or @ for standard input. Without one, zk runs each line of standard input before it reads the next",
            required: false,
        },
    ],
    flags: &[FlagHelp {
        name: "prompt",
        help: "Prints a prompt before each line of a session even if standard input is no terminal",
        without: "SCRIPT",
    }],
    options: &[FROM, LOGS],
};

const RUN: OrderHelp = OrderHelp {
    name: "run",
    title: "zk run",
    about: "Runs a script of ensemble events and prints the results",
    notes: RUN_LINES,
    values: &[ValueHelp {
        name: "SCRIPT",
        help: "The script: a path, or @ for standard input",
        required: true,
    }],
    flags: &[],
    options: &[],
};

pub(crate) const SERVE: OrderHelp = OrderHelp {
    name: "serve",
    title: "zk serve",
    about: "Runs an ensemble and serves clients that send lines over TCP",
    notes: SERVE_LINES,
    values: &[
        ValueHelp {
            name: "PORT",
            help: "The port on 127.0.0.1, 1 to 65535",
            required: true,
        },
        ValueHelp {
            name: "N",
            help: "The number of servers, 2 to 15",
            required: true,
        },
    ],
    flags: &[],
    options: &[OptionHelp {
        name: "conns",
        value: "C",
        help: "The number of connections to serve, one after the other, 0 to 4294967295; 1 if left out",
    }],
};

pub(crate) const ENSEMBLE: OrderHelp = OrderHelp {
    name: "ensemble",
    title: "zk ensemble",
    about: "Runs an ensemble for ZooKeeper's clients: zkCli, kazoo, Curator",
    notes: ENSEMBLE_LINES,
    values: &[
        ValueHelp {
            name: "PORT",
            help: "The port of server 1, 1 to 65535; those of the others follow",
            required: true,
        },
        ValueHelp {
            name: "N",
            help: "The number of servers, 1 to 15",
            required: true,
        },
    ],
    flags: &[FlagHelp {
        name: "until-eof",
        help: "Ends at the end of standard input",
        without: "",
    }],
    options: &[
        OptionHelp {
            name: "record",
            value: "FILE",
            help: "Writes what the servers do to FILE, as a script of `zk run`; N is 2 to 15, and DIR new",
        },
        OptionHelp {
            name: "bind",
            value: "ADDR",
            help: "The IPv4 address to listen on; 127.0.0.1 if left out",
        },
        OptionHelp {
            name: "data",
            value: "DIR",
            help: "The directory of the servers' data, created if it is missing; in memory if left out",
        },
        OptionHelp {
            name: "max-connections",
            value: "C",
            help: "The most connections at once, 1 to 4294967295; 1000 if left out",
        },
    ],
};

/// The value that names a data directory or a log to read.
const LOGS_OR_LOG: ValueHelp = ValueHelp {
    name: "DIR|FILE",
    help: "The data directory, or its version-2; or one log: a path, or @ for standard input",
    required: true,
};

/// The value that names a data directory.
const DIR: ValueHelp = ValueHelp {
    name: "DIR",
    help: "The data directory, or its version-2",
    required: true,
};

/// The option of the state that is asked for.
const AT: OptionHelp = OptionHelp {
    name: "at",
    value: "T",
    help: "The last transaction of the tree: a zxid, `last` or a time, as for show; the last of all if left out",
};

/// The value that names a log to read.
const LOG: ValueHelp = ValueHelp {
    name: "FILE",
    help: "The log: a path, or @ for standard input",
    required: true,
};

/// The option of every command that explains errors.
pub(crate) const EXPLAIN: FlagHelp = FlagHelp {
    name: "explain",
    help: "Adds to an error's line a second one, with what it means and what helps",
    without: "",
};

/// The option of objects in place of lines.
const JSON: FlagHelp = FlagHelp {
    name: "json",
    help: "Prints one JSON object a line",
    without: "",
};

/// The option of a list that goes on.
const FOLLOW: FlagHelp = FlagHelp {
    name: "follow",
    help: "Goes on with what a server writes to the directory, until it is interrupted",
    without: "",
};

/// The option of times in UTC.
const TIME: OptionHelp = OptionHelp {
    name: "time",
    value: "FORM",
    help: "Prints times in UTC, where FORM is iso; without --json",
};

/// The option that names where the debugger of a directory starts.
const FROM: OptionHelp = OptionHelp {
    name: "from",
    value: "ZXID",
    help: "Place 0 of a directory: a ZXID, a time, or last, as for show. If left out, it is where the latest snapshot is exact that has transactions after it",
};

/// The option that names the directory of logs.
const LOGS: OptionHelp = OptionHelp {
    name: "logs",
    value: "DIR2",
    help: "The directory of the logs, if it is another: a data directory, or its version-2",
};
