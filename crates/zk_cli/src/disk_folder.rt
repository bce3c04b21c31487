//! A data directory on the disk.

use std::alloc::{AllocError, Global};
use std::io::{Read, Seek, SeekFrom};
use std::{fs, io};
use zk_directory::{FileName, read_file_name, read_server_name};
use zk_directory_state::{
    Folder, FolderFault, HistoryFault, logs_in, name_among, push_log_name, push_snapshot_name,
    server_files,
};
use zk_listings::GrowingLogs;

/// The name of the directory that servers create in a data directory.
const VERSION: &str = "version-2";

/// A directory, by its path.
#[derive(Drop)]
pub(crate) struct DiskFolder<'a> {
    rt: &'a HostRuntime,
    path: String,
}

impl<'a> DiskFolder<'a> {
    /// The `version-2` of a directory, or the directory itself if it has none.
    pub(crate) fn at(rt: &'a HostRuntime, path: &str) -> Result<DiskFolder<'a>, AllocError> {
        let alloc = rt.alloc();
        let inner = join(alloc, path, VERSION)?;
        if is_directory(rt, inner.as_str()) {
            return Ok(DiskFolder { rt, path: inner });
        }
        let path = String::from_str(alloc, path)?;
        Ok(DiskFolder { rt, path })
    }

    /// The names of all files, in order.
    fn file_names(&self, alloc: Global) -> Result<Vec<String>, FolderFault> {
        let entries = match fs::read_dir(self.rt, self.path.as_str()) {
            Ok(entries) => entries,
            Err(error) => return Err(fault_of(&error)),
        };
        let mut names = Vec::new(alloc);
        for entry in entries {
            match entry {
                Ok(entry) => push_name(&mut names, entry.file_name())?,
                // It is not UTF-8.
                Err(error) if error.kind() == io::ErrorKind::InvalidFilename => {}
                Err(error) => return Err(fault_of(&error)),
            }
        }
        names.sort_unstable();
        Ok(names)
    }

    /// The path of the file of this name, or of the one that a server reads as it.
    fn path_of(&self, alloc: Global, name: &str) -> Result<String, FolderFault> {
        let path = self.path_in(alloc, name)?;
        if fs::metadata(self.rt, path.as_str()).is_ok() {
            return Ok(path);
        }
        let Some(file) = read_file_name(name) else {
            return Ok(path);
        };
        let names = self.file_names(alloc)?;
        match name_among(file, names.as_slice()) {
            Some(held) => self.path_in(alloc, held.as_str()),
            None => Ok(path),
        }
    }

    /// The path of a file of this name.
    fn path_in(&self, alloc: Global, name: &str) -> Result<String, FolderFault> {
        match join(alloc, self.path.as_str(), name) {
            Ok(path) => Ok(path),
            Err(_) => Err(FolderFault::NoMemory),
        }
    }
}

impl Folder for DiskFolder<'_> {
    ghost use Rattle.std.specs.Prelude.{None};

    ghost names_in = { λ _. None };

    ghost bytes_in = { λ _ _. None };

    /// The snapshots and logs that a server reads, each by the name that a server writes: `log.d8`
    /// for `log.0D8` and `log.d8.bak`. After them the names of those that another one is read in
    /// place of.
    fn names(&self, alloc: Global) -> Result<Vec<String>, FolderFault> {
        let held = self.file_names(alloc)?;
        let Ok(files) = server_files(alloc, held.as_slice()) else {
            return Err(FolderFault::NoMemory);
        };
        let mut names = Vec::new(alloc);
        for file in &files {
            push_written_name(&mut names, *file)?;
        }
        push_unread(&mut names, held.as_slice())?;
        Ok(names)
    }

    fn read(&self, alloc: Global, name: &str) -> Result<Vec<u8>, FolderFault> {
        let path = self.path_of(alloc, name)?;
        match fs::read(self.rt, path.as_str()) {
            Ok(bytes) => Ok(bytes),
            Err(error) => Err(fault_of(&error)),
        }
    }
}

impl GrowingLogs for DiskFolder<'_> {
    fn zxids(&self, alloc: Global) -> Result<Vec<i64>, HistoryFault> {
        logs_in(alloc, self)
    }

    fn read(
        &self,
        alloc: Global,
        zxid: i64,
        at: u64,
        count: usize,
    ) -> Result<Vec<u8>, HistoryFault> {
        let mut name = String::new(alloc);
        push_log_name(&mut name, zxid)?;
        let path = match self.path_of(alloc, name.as_str()) {
            Ok(path) => path,
            Err(FolderFault::Read) => return Err(HistoryFault::Read),
            Err(FolderFault::NoMemory) => return Err(HistoryFault::NoMemory),
        };
        match read_part(self.rt, path.as_str(), at, count) {
            Ok(bytes) => Ok(bytes),
            Err(error) if error.kind() == io::ErrorKind::OutOfMemory => {
                Err(HistoryFault::NoMemory)
            }
            Err(_) => Err(HistoryFault::Unreadable(FileName::Log { zxid })),
        }
    }
}

/// The bytes of a file from an offset on, as many as asked for or to its end.
fn read_part(rt: &HostRuntime, path: &str, at: u64, count: usize) -> io::Result<Vec<u8>> {
    let mut file = fs::open(rt, path)?;
    file.seek(SeekFrom::Start(at))?;
    let mut bytes = vec![in rt.alloc(); 0; count]?;
    let mut held = 0;
    while held < count {
        let read = file.read(&mut bytes[held..])?;
        if read == 0 {
            break;
        }
        held += read;
    }
    bytes.truncate(held);
    Ok(bytes)
}

/// Whether a path leads to a directory.
pub(crate) fn is_directory(rt: &HostRuntime, path: &str) -> bool {
    match fs::metadata(rt, path) {
        Ok(metadata) => metadata.is_dir(),
        Err(_) => false,
    }
}

/// The path of a file in a directory.
fn join(alloc: Global, directory: &str, name: &str) -> Result<String, AllocError> {
    format!(in alloc; "{directory}/{name}")
}

fn push_name(names: &mut Vec<String>, name: &str) -> Result<(), FolderFault> {
    let Ok(name) = String::from_str(*names.allocator(), name) else {
        return Err(FolderFault::NoMemory);
    };
    match names.push(name) {
        Ok(()) => Ok(()),
        Err(_) => Err(FolderFault::NoMemory),
    }
}

/// Appends the name that a server writes for a file.
fn push_written_name(names: &mut Vec<String>, file: FileName) -> Result<(), FolderFault> {
    let mut name = String::new(*names.allocator());
    let pushed = match file {
        FileName::Snapshot { zxid } => push_snapshot_name(&mut name, zxid),
        FileName::Log { zxid } => push_log_name(&mut name, zxid),
    };
    if pushed.is_err() || names.push(name).is_err() {
        return Err(FolderFault::NoMemory);
    }
    Ok(())
}

/// Appends the names among these by which a server reads files, of which others are read.
fn push_unread(unread: &mut Vec<String>, names: &[String]) -> Result<(), FolderFault> {
    for name in names {
        if is_unread(name.as_str(), names) {
            push_name(unread, name.as_str())?;
        }
    }
    Ok(())
}

/// Whether a server reads a file by this name, and another one among these is read in its place.
fn is_unread(name: &str, names: &[String]) -> bool {
    if read_file_name(name).is_some() {
        return false;
    }
    let Some(file) = read_server_name(name) else {
        return false;
    };
    match name_among(file, names) {
        Some(held) => held.as_str() != name,
        None => false,
    }
}

fn fault_of(error: &io::Error) -> FolderFault {
    if error.kind() == io::ErrorKind::OutOfMemory {
        FolderFault::NoMemory
    } else {
        FolderFault::Read
    }
}
