//! The data directory of an ensemble: its lock, the secret of its sessions' passwords, and the
//! files of its servers' stores. A host's store in files is `Storage` over disks: what was stored
//! is recovered after each crash.
//!
//! ZooKeeper Administrator's Guide, "Data File Management".
#![tactic(auto)]

mod data_fault;
mod data_store;
mod directory;
mod epoch_files;
mod epochs;
mod file_store;
mod identity;
mod one_of;
mod open_fault;
mod opening;
mod start;
mod started;
mod stored;
mod system_files;
mod upgrade;

pub use data_fault::DataFault;
pub use data_store::{DataStore, EpochStore};
pub use directory::DataDirectory;
pub use epoch_files::EpochFiles;
pub use epochs::{Epochs, epoch_text};
pub use file_store::FileStore;
pub use identity::Identity;
pub use one_of::OneOf;
pub use open_fault::{OpenFault, Unopened};
pub use start::{BookStart, JoiningStart, LogStart, StoreStart, UnknownStart};
pub use started::StoreFile;
