use sqlite_disk::Disk;
use std::alloc::Global;
use thiserror::Error;
use zab_epoch::{History, Stable};

/// Why a store failed. The store is not used afterwards: its host restarts on what the store
/// recovers.
#[derive(Clone, Copy, Debug, Drop, PartialEq, Eq, Error)]
pub enum StoreFault {
    /// Out of memory.
    #[error("H1")]
    NoMemory,
    /// The medium failed.
    #[error("H2")]
    Failed,
    /// The number of starts of the store's host is used up: it has 24 bits.
    #[error("H7")]
    BootsFull,
}

/// Keeps a server's stable part across crashes. Its clauses bound what recovery may find; while the
/// store is clean, they also say that it finds something.
pub trait Storage: Drop {
    ghost use Rattle.std.specs.Prelude.{◌≡◌, ◌≤◌, ◌+◌, ◌⊎◌, ℕ, drop, IfOk, OnOk, IsErrOf};
    ghost use Rattle.zab_epoch.specs.declared.stable.Stable.{Stable};
    ghost use Rattle.zab_host.specs.declared.storage.StoreFault.TheVariants as faults;
    ghost use Rattle.zab_host.specs.Durability.{HaveRoom, IsDurable, IsPartialStore, IsRecoverable, IsStoredUpTo, Narrows};

    /// The stable parts that recovery may find after a crash now; none if the store is not clean.
    ghost may_recover: { Self → Stable → Type 0 };

    /// No wrong answer of the medium has been taken as true.
    ghost is_clean: { Self → Type 0 };

    /// The number of starts of a host on it. No crash leaves fewer.
    ghost boots: { Self → ℕ };

    /// A crash of the first store may leave the second one to the next start.
    ghost leaves: { Self → Self → Type 0 };

    /// A call has failed. The store is not used any more, and each further call may fail.
    ghost has_failed: { Self → Type 0 };

    /// A call of its medium has failed.
    ghost medium_failed: { Self → Type 0 };

    /// Stores a stable part, of which the first `kept` entries are stored already; `kept` may be 0.
    /// After `Ok` each crash recovers it. A crash before that, or after an error, recovers what it
    /// could recover before, or a part of the write.
    fn store(&mut self, stable: &Stable, kept: usize) -> Result<(), StoreFault>
        requires kept { IsStoredUpTo (may_recover self.old) kept stable.now }
        ensures stored { OnOk result (IsDurable stable.now (may_recover self.new)) }
        ensures found { OnOk result (is_clean self.new → may_recover self.new stable.now) }
        ensures remains { is_clean self.new
            → IsRecoverable (may_recover self.old) → IsRecoverable (may_recover self.new) }
        ensures clean { is_clean self.new → is_clean self.old }
        ensures crash { (found : Stable) → may_recover self.new found
            → may_recover self.old found ⊎ IsPartialStore (may_recover self.old) stable.now found }
        ensures starts { boots self.new ≡ boots self.old }
        ensures works { OnOk result (has_failed self.new → has_failed self.old) };

    /// Stores a stable part atomically: a crash recovers what it could recover before, or all of
    /// this.
    fn store_atomically(&mut self, stable: &Stable) -> Result<(), StoreFault>
        ensures stored { OnOk result (IsDurable stable.now (may_recover self.new)) }
        ensures found { OnOk result (is_clean self.new → may_recover self.new stable.now) }
        ensures remains { is_clean self.new
            → IsRecoverable (may_recover self.old) → IsRecoverable (may_recover self.new) }
        ensures clean { is_clean self.new → is_clean self.old }
        ensures crash { (found : Stable) → may_recover self.new found
            → may_recover self.old found ⊎ (found ≡ stable.now) }
        ensures starts { boots self.new ≡ boots self.old }
        ensures works { OnOk result (has_failed self.new → has_failed self.old) };

    /// Recovers what the last crash has left.
    fn load(&mut self, alloc: Global) -> Result<Stable, StoreFault>
        ensures found { IfOk result (λ stable. is_clean self.new → may_recover self.old stable) }
        ensures durable { IfOk result (λ stable. IsDurable stable (may_recover self.new)) }
        ensures kept { IfOk result (λ stable. is_clean self.new → may_recover self.new stable) }
        ensures remains { is_clean self.new
            → IsRecoverable (may_recover self.old) → IsRecoverable (may_recover self.new) }
        ensures clean { is_clean self.new → is_clean self.old }
        ensures crash { (found : Stable) → may_recover self.new found → may_recover self.old found }
        ensures starts { boots self.new ≡ boots self.old }
        ensures works { OnOk result (has_failed self.new → has_failed self.old) }
        ensures failed { IsErrOf result faults.Failed → is_clean self.new
            → HaveRoom (may_recover self.old) → has_failed self.old ⊎ medium_failed self.new };

    /// Counts a start of the host. After `Ok` each crash recovers the new count.
    fn count_boot(&mut self) -> Result<u32, StoreFault>
        ensures counted { IfOk result (λ boot. boot ≡ boots self.old + 1) }
        ensures raised { OnOk result (boots self.new ≡ boots self.old + 1) }
        ensures rises { boots self.old ≤ boots self.new }
        ensures full { IsErrOf result faults.BootsFull → 16777215 ≤ boots self.old }
        ensures remains { is_clean self.new
            → IsRecoverable (may_recover self.old) → IsRecoverable (may_recover self.new) }
        ensures clean { is_clean self.new → is_clean self.old }
        ensures crash { (found : Stable) → may_recover self.new found → may_recover self.old found }
        ensures works { OnOk result (has_failed self.new → has_failed self.old) }
        ensures failed { IsErrOf result faults.Failed → is_clean self.new
            → has_failed self.old ⊎ medium_failed self.new };

    /// Returns a copy of the stored entries after the first `count`.
    fn entries_after(&mut self, alloc: Global, count: usize) -> Result<History, StoreFault>
        ensures entries { IfOk result (λ entries. (stable : Stable) → may_recover self.new stable
            → IsDurable stable (may_recover self.old) → entries ≡ drop count stable.history) }
        ensures remains { is_clean self.new
            → IsRecoverable (may_recover self.old) → IsRecoverable (may_recover self.new) }
        ensures clean { is_clean self.new → is_clean self.old }
        ensures crash { (found : Stable) → may_recover self.new found → may_recover self.old found }
        ensures starts { boots self.new ≡ boots self.old }
        ensures works { OnOk result (has_failed self.new → has_failed self.old) };

    /// A crash makes nothing recoverable that was not, and no recovery finds fewer starts.
    ghost crash_narrows: { (old new : Self) → leaves old new → Narrows may_recover boots old new };
}

/// A store that names its devices. Only a wrong answer of one makes it unclean, and its medium has
/// failed only after a call of one has. So all clauses hold while the devices are honest.
pub trait DeviceStorage: Storage {
    ghost use Rattle.std.specs.Prelude.{List};
    ghost use Rattle.zab_host.specs.Durability.{AreHonest, HasAnyFailed};

    /// What it reads from. A store without devices names any type.
    type Device: Disk;

    ghost devices: { Self → List Self.Device };

    ghost clean_if_honest: { (it : Self)
        → AreHonest Self.Device.is_clean (devices it) → Self.is_clean it };

    ghost failed_if_device: { (it : Self)
        → Self.medium_failed it → HasAnyFailed Self.Device.faults (devices it) };
}
