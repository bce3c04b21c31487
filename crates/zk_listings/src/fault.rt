//! Why a follower stops.
ghost use Rattle.std.specs.Prelude.{◌≡◌};
ghost use Rattle.zk_listings.specs.declared.fault.FollowFault.TheVariants as faults;

use std::alloc::AllocError;
use thiserror::Error;
use zk_directory::LogFileFault;
use zk_directory_state::HistoryFault;
use zk_log::WriteFault;
use zk_path::NoMemory;

/// Why a follower stops.
#[derive(Clone, Copy, Debug, PartialEq, Eq, Error)]
pub enum FollowFault {
    /// The output cannot be written.
    #[error("write")]
    Write,
    /// The entry at an offset of this log is broken.
    #[error("log")]
    Log { log: i64, fault: LogFileFault },
    /// The transactions between these two are missing.
    #[error("gap")]
    Gap { from: i64, to: i64 },
    /// The logs cannot be read.
    #[error("read")]
    Unread(HistoryFault),
    /// An allocation failed.
    #[error("memory")]
    NoMemory,
}

impl From<WriteFault> for FollowFault {
    ghost from_gives = { λ _ fault. fault ≡ faults.Write };

    fn from(_failed: WriteFault) -> FollowFault {
        FollowFault::Write
    }
}

impl From<HistoryFault> for FollowFault {
    ghost from_gives = { λ history fault. fault ≡ faults.Unread history };

    fn from(history: HistoryFault) -> FollowFault {
        FollowFault::Unread(history)
    }
}

impl From<NoMemory> for FollowFault {
    ghost from_gives = { λ _ fault. fault ≡ faults.NoMemory };

    fn from(_refused: NoMemory) -> FollowFault {
        FollowFault::NoMemory
    }
}

impl From<AllocError> for FollowFault {
    ghost from_gives = { λ _ fault. fault ≡ faults.NoMemory };

    fn from(_refused: AllocError) -> FollowFault {
        FollowFault::NoMemory
    }
}
