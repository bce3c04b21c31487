//! The device that growing logs are read from.
ghost use Rattle.std.specs.Prelude.{ℕ, ℤ, List, IfOk, pos, ⊤};

use std::alloc::Global;
use zk_directory_state::HistoryFault;

/// The logs of a directory that a server writes.
pub trait GrowingLogs {
    /// The zxids that a look may find; any, while a server adds logs.
    ghost finds: { Self → List ℤ → Type 0 } = { λ _ _. ⊤ };

    /// The bytes that a read of a log may give from an offset on; any, while a server writes it.
    ghost gives: { Self → ℤ → ℕ → List ℕ → Type 0 } = { λ _ _ _ _. ⊤ };

    /// The zxids in the names of the logs, in order.
    fn zxids(&self, alloc: Global) -> Result<Vec<i64>, HistoryFault>
        ensures { IfOk result (λ zxids. finds self.now zxids.items) };

    /// The bytes of the log of a zxid from an offset on: as many as asked for, or fewer where the log
    /// ends.
    fn read(&self, alloc: Global, zxid: i64, at: u64, count: usize) -> Result<Vec<u8>, HistoryFault>
        ensures { IfOk result (λ bytes. gives self.now zxid at bytes.items) };
}
