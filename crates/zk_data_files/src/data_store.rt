use crate::epoch_files::EpochFiles;
use crate::epochs::Epochs;
use crate::{FileStore, StoreFile};
use std::alloc::Global;
use zab_epoch::{History, Stable};
use zab_host::{DeviceStorage, Storage, StoreFault};

/// A store that also writes its server's epochs for other tools. They follow the store: a crash may
/// leave earlier ones.
#[derive(Drop)]
pub struct EpochStore<'a, S: Storage> {
    pub(crate) store: S,
    pub(crate) epochs: EpochFiles<'a>,
}

/// A server's store in a data directory. `S` stands for what its files hold as they are opened.
pub type DataStore<'a, S> = EpochStore<'a, FileStore<StoreFile<S>>>;

impl<S: Storage> Storage for EpochStore<'_, S> {
    ghost may_recover = { λ it found. S.may_recover it.store found };

    ghost is_clean = { λ it. S.is_clean it.store };

    ghost boots = { λ it. S.boots it.store };

    ghost leaves = { λ old new. S.leaves old.store new.store };

    ghost has_failed = { λ it. S.has_failed it.store };

    ghost medium_failed = { λ it. S.medium_failed it.store };

    fn store(&mut self, stable: &Stable, kept: usize) -> Result<(), StoreFault> {
        self.store.store(stable, kept)?;
        self.epochs.update(Epochs::of(stable));
        Ok(())
    }

    fn store_atomically(&mut self, stable: &Stable) -> Result<(), StoreFault> {
        self.store.store_atomically(stable)?;
        self.epochs.update(Epochs::of(stable));
        Ok(())
    }

    fn load(&mut self, alloc: Global) -> Result<Stable, StoreFault> {
        match self.store.load(alloc) {
            Ok(stable) => {
                self.epochs.update(Epochs::of(&stable));
                Ok(stable)
            }
            Err(fault) => Err(fault),
        }
    }

    fn count_boot(&mut self) -> Result<u32, StoreFault> {
        self.store.count_boot()
    }

    fn entries_after(&mut self, alloc: Global, count: usize) -> Result<History, StoreFault> {
        self.store.entries_after(alloc, count)
    }

    ghost crash_narrows = { λ old new left. let narrow = S.crash_narrows old.store new.store left in
        record { crash = narrow.crash; starts = narrow.starts } };
}

impl<S: DeviceStorage> DeviceStorage for EpochStore<'_, S> {
    type Device = S::Device;

    ghost devices = { λ it. S.devices it.store };

    ghost clean_if_honest = { λ it honest. S.clean_if_honest it.store honest };

    ghost failed_if_device = { λ it failed. S.failed_if_device it.store failed };
}
