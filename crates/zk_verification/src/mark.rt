//! What is said of a data directory.
ghost use Rattle.std.specs.Prelude.{◌≡◌};
ghost use Rattle.zk_verification.specs.Marks.{is_wrong, log_mark, moment_of, span_of};

use zk_directory::{FileEntry, Joint, LogFile, LogFileFault};
use zk_directory_state::HistoryFault;
use zk_log::Ending;
use zk_path::Path;
use zk_replay::{DigestCount, Exact};

/// A transaction, and its time, in milliseconds since 1970.
#[derive(Clone, Copy, Debug, PartialEq, Eq)]
pub struct Moment {
    pub zxid: i64,
    pub time: i64,
}

/// A place in a log that holds no entry, with intact entries after it.
#[derive(Clone, Copy, Debug, PartialEq, Eq)]
pub struct Damage {
    /// The zxid in the log's name.
    pub log: i64,
    /// Why a server reads no further.
    pub stop: Result<Ending, LogFileFault>,
    /// The byte at which it stops.
    pub at: u64,
    /// The byte of the next intact entry.
    pub to: u64,
    /// The last transaction before the place; `None` if no log has one.
    pub before: Option<Moment>,
    /// The first transaction after it.
    pub after: Moment,
}

/// A record whose digest is not that of the tree after it.
#[derive(Debug, Drop)]
pub struct Mismatch {
    pub zxid: i64,
    /// `None` if a part of the logs that holds another history hides it.
    pub facts: Option<Facts>,
}

/// What a record says of its transaction.
#[derive(Debug, Drop)]
pub struct Facts {
    /// Milliseconds since 1970.
    pub time: i64,
    pub session: i64,
    /// The path that its operation names; of a multi, that of the first part.
    pub path: Option<Path>,
}

/// What is said of a file of a data directory, or what is wrong.
#[derive(Debug, Drop)]
pub enum Mark {
    /// A log, as far as it can be read.
    Log {
        /// The zxid in its name.
        zxid: i64,
        records: usize,
        /// The zxids of the first and the last record.
        span: Option<(i64, i64)>,
        /// How it ends; `None` if it is broken.
        ending: Option<Ending>,
    },
    /// States that can be restored.
    States {
        /// The zxid in the name of the snapshot that they begin at; `None` for the empty tree.
        snapshot: Option<i64>,
        /// From which zxid on a replay of the logs over it is exact.
        exact: Exact,
        /// The zxid of the last state.
        last: i64,
        /// The digests that the records state, compared with those of the trees.
        digests: DigestCount,
    },
    /// A snapshot, or the empty tree, that leads to no state, for a reason that has its own mark.
    Stopped {
        snapshot: Option<i64>,
    },
    /// An epoch follows another, and no digest shows that the first is whole.
    Joint {
        joint: Joint,
        /// Whether a later digest shows that it is not.
        is_missing: bool,
    },
    /// Transactions are lost within a log.
    Lost(Damage),
    /// Transactions between these two are in no log.
    Gap {
        before: Option<Moment>,
        after: Moment,
    },
    /// The first record of all whose digest is not that of its tree.
    Digest(Mismatch),
    /// What else is wrong.
    Wrong(HistoryFault),
}

impl Mark {
    /// Whether it says that something is wrong.
    pub fn is_wrong(&self) -> bool
        ensures { result ≡ is_wrong self.now }
    {
        match self {
            Mark::Log { .. } => false,
            Mark::States { .. } => false,
            Mark::Stopped { .. } => false,
            Mark::Joint { is_missing, .. } => *is_missing,
            Mark::Lost(_) => true,
            Mark::Gap { .. } => true,
            Mark::Digest(_) => true,
            Mark::Wrong(_) => true,
        }
    }
}

/// The transaction of an entry.
pub(crate) fn moment_of(entry: &FileEntry<'_>) -> Moment
    ensures { result ≡ moment_of entry.now }
{
    Moment {
        zxid: entry.newer.txn.zxid,
        time: entry.newer.txn.time,
    }
}

/// The zxids of the first and the last entry.
fn span_of(entries: &[FileEntry<'_>]) -> Option<(i64, i64)>
    ensures { result ≡ span_of entries.now }
{
    match (entries.first(), entries.last()) {
        (Some(first), Some(last)) => Some((first.newer.txn.zxid, last.newer.txn.zxid)),
        _ => None,
    }
}

/// What is said of the log of this zxid.
pub(crate) fn log_mark(zxid: i64, file: &LogFile<'_>) -> Mark
    ensures { result ≡ log_mark zxid file.now }
{
    let ending = match &file.outcome {
        Ok(ending) => Some(*ending),
        Err(_) => None,
    };
    Mark::Log {
        zxid,
        records: file.entries.len(),
        span: span_of(file.entries.as_slice()),
        ending,
    }
}
