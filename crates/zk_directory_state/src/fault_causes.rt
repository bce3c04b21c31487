//! The faults of a restoration, with the files that they are about.
ghost use Rattle.std.specs.Prelude.{◌≡◌};
ghost use Rattle.zk_directory_state.specs.Attempts.{broken_by, fault_by, history_fault, log_at, passed_fault};

use crate::{DirectoryFault, HistoryFault, PassedFault, RestoreFault};
use zk_replay::BaseFault;
use zk_snapshot::SnapshotFault;

/// The zxid in the name of a log.
pub(crate) fn log_at(logged: &[i64], place: usize) -> i64
    ensures { result ≡ log_at logged.now place }
{
    match logged.get(place) {
        Some(zxid) => *zxid,
        None => 0,
    }
}

/// The fault of a directory, from that of a restoration from the snapshot of this zxid, or 0 for the
/// empty tree, and of the log with that zxid in its name.
pub(crate) fn fault_by(fault: RestoreFault, snapshot: i64, log: i64) -> HistoryFault
    ensures { result ≡ fault_by snapshot log fault }
{
    match fault {
        RestoreFault::Purged { first } => HistoryFault::Purged { first },
        RestoreFault::Gap { from, to } => HistoryFault::Gap { from, to },
        RestoreFault::Differs { at } => HistoryFault::Differs { log, at },
        RestoreFault::Short { exact } => HistoryFault::Short { snapshot, exact },
        RestoreFault::Early { exact } => HistoryFault::Early { snapshot, exact },
        RestoreFault::Log(fault) => HistoryFault::Log { log, fault },
        RestoreFault::Tree => HistoryFault::Snapshot {
            snapshot,
            fault: PassedFault::Tree,
        },
        RestoreFault::Access => HistoryFault::Snapshot {
            snapshot,
            fault: PassedFault::Access,
        },
        RestoreFault::NoMemory => HistoryFault::NoMemory,
    }
}

/// The fault of a directory, from that of a restoration: `snapshot` is the zxid in the name of the
/// snapshot, or 0 for the empty tree, and `logged` has those in the names of the logs.
pub fn history_fault(failed: DirectoryFault, snapshot: i64, logged: &[i64]) -> HistoryFault
    ensures { result ≡ history_fault failed snapshot logged.now }
{
    fault_by(failed.fault, snapshot, log_at(logged, failed.log))
}

/// Why a snapshot that cannot be read is passed over; `None` if allocation failed.
pub(crate) fn passed_fault(fault: SnapshotFault) -> Option<PassedFault>
    ensures { result ≡ passed_fault fault }
{
    match fault {
        SnapshotFault::Header => Some(PassedFault::Header),
        SnapshotFault::Short => Some(PassedFault::Short),
        SnapshotFault::Field => Some(PassedFault::Field),
        SnapshotFault::Checksum => Some(PassedFault::Checksum),
        SnapshotFault::Trailing => Some(PassedFault::Trailing),
        SnapshotFault::Compressed => Some(PassedFault::Compressed),
        SnapshotFault::NoMemory => None,
    }
}

/// Why a snapshot that holds no state is passed over.
pub(crate) fn broken_by(fault: BaseFault) -> PassedFault
    ensures { result ≡ broken_by fault }
{
    match fault {
        BaseFault::Access => PassedFault::Access,
        BaseFault::Tree => PassedFault::Tree,
        BaseFault::NoMemory => PassedFault::Tree,
    }
}
