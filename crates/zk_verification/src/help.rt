//! What helps.
ghost use Rattle.std.specs.Prelude.{◌≡◌};
ghost use Rattle.zk_verification.specs.Helps.{has_kind, help_line, is_kind, is_of, kind_of};

use crate::mark::Mark;
use zk_directory_state::HistoryFault;

/// The kinds of what can be wrong, by what helps.
#[derive(Clone, Copy, Debug, PartialEq, Eq)]
pub enum Kind {
    /// A snapshot is broken.
    Snapshot,
    /// A log is broken.
    Log,
    /// Intact entries follow a damaged place of a log.
    Lost,
    /// The first transactions are missing.
    Purged,
    /// Transactions are missing between two.
    Gap,
    /// Two logs differ.
    Differs,
    /// A snapshot lacks transactions that were logged while it was written.
    Window,
    /// A file cannot be read.
    Unreadable,
    /// Records state other digests than those of the trees.
    Digests,
}

/// All kinds, in the order of their lines.
pub const KINDS: [Kind; 9] = [
    Kind::Snapshot,
    Kind::Log,
    Kind::Lost,
    Kind::Purged,
    Kind::Gap,
    Kind::Differs,
    Kind::Window,
    Kind::Unreadable,
    Kind::Digests,
];

/// The kind of a fault.
fn kind_of(fault: &HistoryFault) -> Kind
    ensures { result ≡ kind_of fault.now }
{
    match fault {
        HistoryFault::Snapshot { .. } => Kind::Snapshot,
        HistoryFault::Log { .. } => Kind::Log,
        HistoryFault::Purged { .. } => Kind::Purged,
        HistoryFault::Gap { .. } => Kind::Gap,
        HistoryFault::Differs { .. } => Kind::Differs,
        HistoryFault::Short { .. } => Kind::Window,
        HistoryFault::Early { .. } => Kind::Window,
        HistoryFault::Beyond { .. } => Kind::Unreadable,
        HistoryFault::NoTransaction => Kind::Unreadable,
        HistoryFault::Unreadable(_) => Kind::Unreadable,
        HistoryFault::Empty => Kind::Unreadable,
        HistoryFault::Read => Kind::Unreadable,
        HistoryFault::NoMemory => Kind::Unreadable,
    }
}

/// Whether both are the same kind.
fn is_kind(kind: Kind, other: Kind) -> bool
    ensures { result ≡ is_kind kind other }
{
    match (kind, other) {
        (Kind::Snapshot, Kind::Snapshot) => true,
        (Kind::Log, Kind::Log) => true,
        (Kind::Lost, Kind::Lost) => true,
        (Kind::Purged, Kind::Purged) => true,
        (Kind::Gap, Kind::Gap) => true,
        (Kind::Differs, Kind::Differs) => true,
        (Kind::Window, Kind::Window) => true,
        (Kind::Unreadable, Kind::Unreadable) => true,
        (Kind::Digests, Kind::Digests) => true,
        _ => false,
    }
}

/// Whether a mark says that something of this kind is wrong.
fn is_of(kind: Kind, mark: &Mark) -> bool
    ensures { result ≡ is_of kind mark.now }
{
    match mark {
        Mark::Log { .. } => false,
        Mark::States { .. } => false,
        Mark::Stopped { .. } => false,
        Mark::Joint { is_missing, .. } => *is_missing && is_kind(kind, Kind::Gap),
        Mark::Lost(_) => is_kind(kind, Kind::Lost),
        Mark::Gap { .. } => is_kind(kind, Kind::Gap),
        Mark::Digest(_) => is_kind(kind, Kind::Digests),
        Mark::Wrong(fault) => is_kind(kind, kind_of(fault)),
    }
}

/// Whether something of this kind is wrong.
pub fn has_kind(kind: Kind, marks: &[Mark]) -> bool
    ensures { result ≡ has_kind kind marks.now }
{
    marks.iter().any(|mark| is_of(kind, mark))
}

/// What helps against this kind.
pub fn help_line(kind: Kind) -> &'static str
    ensures { result.now ≡ help_line kind }
{
    match kind {
        Kind::Snapshot =>
            "help S1 to S8: a server passes over a broken snapshot, and begins at an earlier one; move it away\n",
        Kind::Log =>
            "help G1 to G5: a server does not start over a broken log; move the directory away, and let the server copy its leader's tree\n",
        Kind::Lost =>
            "help lost: a server reads a log no further than to a damaged place, or does not start; move the directory away, and let the server copy its leader's tree\n",
        Kind::Purged =>
            "help D2: earlier files were purged; take a snapshot and the logs after it from another server\n",
        Kind::Gap =>
            "help D3, missing: transactions are missing; take the logs of another server by --logs\n",
        Kind::Differs =>
            "help D4: the logs hold two histories; `zk compare` another server's directory, and keep the logs that agree with it\n",
        Kind::Window =>
            "help D5, D6: a log that was written with this snapshot is missing or broken; an earlier or later snapshot serves\n",
        Kind::Unreadable => "help G6: the file cannot be read; look at its mode and its disk\n",
        Kind::Digests =>
            "help otherDigest: this server's tree is not its leader's; move the directory away, and let the server copy its leader's tree\n",
    }
}
