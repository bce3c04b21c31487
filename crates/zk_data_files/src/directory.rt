ghost use Rattle.std.specs.Prelude.{◌≡◌, IfOk};
ghost use Rattle.zk_store.specs.Books.{book_of};
ghost use Rattle.zk_store.specs.Holding.{AreClean, MayLeave, MayRecover, seen_of};
ghost use Rattle.zk_store.specs.Stores.{Files as StoreContents};
ghost use Rattle.zk_data_files.specs.FileStores.{AreStartsOf};
ghost use Rattle.zk_data_files.specs.Started.{FindsAll, FindsOnly};
ghost use Rattle.zk_data_files.specs.Faults.{fault_of};

use crate::data_fault::DataFault;
use crate::data_store::{DataStore, EpochStore};
use crate::epoch_files::EpochFiles;
use crate::identity::{Identity, SECRET_BYTES};
use crate::start::{StoreStart, UnknownStart, starts_of};
use crate::started::{open_from, started_files};
use crate::system_files::{PRIVATE, create_directories, create_directory, replace_file};
use crate::upgrade::upgrade;
use crate::{FileStore, OpenFault, StoreFile};
use sqlite_disk::{Disk, Files};
use sqlite_std_file::open;
use std::alloc::AllocError;
use std::fs;
use std::fs::{OpenOptions, TryLockError};
use std::io::ErrorKind;
use zk_store::StoreFiles;

/// The directory of an ensemble's data, which no other process uses while this lives.
///
/// Server P's transaction log is `P/version-2/log.1`, for the tools of ZooKeeper and of this project.
/// Beside it are the tags of its entries (`P/version-2/log.1-wal`), the entries of a change of its
/// history that is not complete (`P/joining`, `P/joining-wal`), and its book (`P/book`). The files
/// `acceptedEpoch` and `currentEpoch` beside the log have the book's epochs, for other tools.
#[derive(Drop)]
pub struct DataDirectory<'a> {
    rt: &'a HostRuntime,
    path: String,
    /// Its lock lasts as long as the file is open.
    lock: fs::File,
    identity: Identity,
    is_new: bool,
}

impl<'a> DataDirectory<'a> {
    /// Opens the directory of an ensemble of this number of servers, or creates it with a new secret,
    /// and the directories above it that are missing.
    pub fn open(
        rt: &'a HostRuntime,
        path: &str,
        servers: u8,
        new_secret: [u8; SECRET_BYTES],
    ) -> Result<DataDirectory<'a>, DataFault> {
        create_directories(rt, path)?;
        let lock = lock_directory(rt, path)?;
        let found = read_identity(rt, path)?;
        let is_new = matches!(&found, None);
        let identity = match found {
            Some(identity) => identity,
            None => {
                let identity = Identity {
                    servers,
                    secret: new_secret,
                };
                write_identity(rt, path, &identity)?;
                identity
            }
        };
        if identity.servers != servers {
            return Err(DataFault::Servers(usize::from(identity.servers)));
        }
        Ok(DataDirectory {
            rt,
            path: String::from_str(rt.alloc(), path)?,
            lock,
            identity,
            is_new,
        })
    }

    /// Whether no ensemble has used it before.
    pub fn is_new(&self) -> bool {
        self.is_new
    }

    /// The secret of the sessions' passwords.
    pub fn secret(&self) -> [u8; SECRET_BYTES] {
        self.identity.secret
    }

    /// Opens a server's store, which nothing else has open. It is empty if its files are missing. It
    /// recovers what its files stand for as they are opened, and nothing else.
    pub fn open_store<S: StoreStart>(
        &self,
        start: S,
        server: usize,
    ) -> Result<FileStore<StoreFile<S>>, DataFault>
        ensures all { IfOk result (λ it. AreClean ⟦<StoreFile<S> as Disk>⟧ it.files
            → FindsAll S.files (MayRecover ⟦<StoreFile<S> as Disk>⟧ it.files)) }
        ensures only { IfOk result (λ it. FindsOnly S.files
            (MayRecover ⟦<StoreFile<S> as Disk>⟧ it.files)) }
        ensures counts { IfOk result (λ it. AreClean ⟦<StoreFile<S> as Disk>⟧ it.files
            → AreStartsOf (book_of S.files.book) it.counted.book.boots) }
    {
        let files = self.open_files(start, server)?;
        match open_from(self.rt.alloc(), files) {
            Ok(store) => Ok(store),
            Err(unopened) => Err(fault_of(server, unopened.fault)),
        }
    }

    /// Opens the store of each server, as [`DataDirectory::open_data_store`].
    pub fn open_data_stores(&self) -> Result<Vec<DataStore<'a, UnknownStart>>, DataFault> {
        let mut stores = Vec::new(self.rt.alloc());
        for server in 1..=usize::from(self.identity.servers) {
            stores.push(self.open_data_store(UnknownStart, server)?)?;
        }
        Ok(stores)
    }

    /// Opens a server's store, as [`DataDirectory::open_store`]. It also writes the server's epochs for
    /// other tools.
    pub fn open_data_store<S: StoreStart>(
        &self,
        start: S,
        server: usize,
    ) -> Result<DataStore<'a, S>, DataFault>
        ensures all { IfOk result (λ it. AreClean ⟦<StoreFile<S> as Disk>⟧ it.store.files
            → FindsAll S.files (MayRecover ⟦<StoreFile<S> as Disk>⟧ it.store.files)) }
        ensures only { IfOk result (λ it. FindsOnly S.files
            (MayRecover ⟦<StoreFile<S> as Disk>⟧ it.store.files)) }
        ensures counts { IfOk result (λ it. AreClean ⟦<StoreFile<S> as Disk>⟧ it.store.files
            → AreStartsOf (book_of S.files.book) it.store.counted.book.boots) }
    {
        let epochs = EpochFiles::new(self.rt, self.log_directory(server)?);
        let store = self.open_store(start, server)?;
        Ok(EpochStore { store, epochs })
    }

    /// The directory of a server's log.
    fn log_directory(&self, server: usize) -> Result<String, AllocError> {
        let path = self.path.as_str();
        format!(in self.rt.alloc(); "{path}/{server}/version-2")
    }

    /// Opens the files of a server's store, in the new format. Those that are missing are created, and
    /// empty.
    fn open_files<S: StoreStart>(
        &self,
        start: S,
        server: usize,
    ) -> Result<StoreFiles<StoreFile<S>>, DataFault>
        ensures seen { IfOk result (λ files. seen_of ⟦<StoreFile<S> as Disk>⟧ files ≡ S.files) }
        ensures left { IfOk result (λ files. (left : StoreContents)
            → MayLeave ⟦<StoreFile<S> as Disk>⟧ files left → left ≡ S.files) }
    {
        let alloc = self.rt.alloc();
        let path = self.path.as_str();
        let directory = format!(in alloc; "{path}/{server}")?;
        let logs = self.log_directory(server)?;
        create_directory(self.rt, directory.as_str())?;
        create_directory(self.rt, logs.as_str())?;
        upgrade(self.rt, directory.as_str(), logs.as_str())?;
        let log = format!(in alloc; "{path}/{server}/version-2/log.1")?;
        let joining = format!(in alloc; "{path}/{server}/joining")?;
        let book = format!(in alloc; "{path}/{server}/book")?;
        let (log_start, joining_start, book_start) = starts_of(start);
        let Files { db: log, log: tags } = open(self.rt, log.as_str(), log_start)?;
        let Files {
            db: joining,
            log: joining_tags,
        } = open(self.rt, joining.as_str(), joining_start)?;
        let Files { db: book, log: _ } = open(self.rt, book.as_str(), book_start)?;
        Ok(started_files(log, tags, joining, joining_tags, book))
    }
}

/// The fault of a directory whose server's store was not opened.
fn fault_of(server: usize, fault: OpenFault) -> DataFault
    ensures { result ≡ fault_of server fault }
{
    match fault {
        OpenFault::NoMemory => DataFault::NoMemory,
        OpenFault::Disk => DataFault::Store(server),
        OpenFault::NoBook => DataFault::NoBook(server),
        OpenFault::DamagedBook => DataFault::Book(server),
        OpenFault::Damaged => DataFault::Log(server),
    }
}

/// Locks a directory against other processes.
fn lock_directory(rt: &HostRuntime, path: &str) -> Result<fs::File, DataFault> {
    let name = format!(in rt.alloc(); "{path}/lock")?;
    let file = OpenOptions::new()
        .read(true)
        .write(true)
        .create(true)
        .open(rt, name.as_str())?;
    match file.try_lock() {
        Ok(()) => Ok(file),
        Err(TryLockError::WouldBlock) => Err(DataFault::InUse),
        Err(TryLockError::Error(error)) => Err(DataFault::System(error)),
    }
}

/// The identity in a directory; `None` if it is new.
fn read_identity(rt: &HostRuntime, path: &str) -> Result<Option<Identity>, DataFault> {
    let name = format!(in rt.alloc(); "{path}/ensemble")?;
    match fs::read(rt, name.as_str()) {
        Ok(bytes) => match Identity::from_bytes(&bytes) {
            Some(identity) => Ok(Some(identity)),
            None => Err(DataFault::Damaged),
        },
        Err(error) if error.kind() == ErrorKind::NotFound => Ok(None),
        Err(error) => Err(DataFault::System(error)),
    }
}

/// Writes the identity of a new directory, whole or not at all.
fn write_identity(rt: &HostRuntime, path: &str, identity: &Identity) -> Result<(), DataFault> {
    let bytes = identity.to_bytes(rt.alloc())?;
    replace_file(rt, path, "ensemble", PRIVATE, &bytes)
}
