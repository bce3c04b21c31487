//! Files and directories that a crash does not lose.

use crate::data_fault::DataFault;
use std::fs::OpenOptions;
use std::io::{ErrorKind, Write};
use std::os::unix::fs::OpenOptionsExt;
use std::{fs, io};

/// Creates a directory and those above it, as far as they are missing, as `mkdir -p` does.
pub(crate) fn create_directories(rt: &HostRuntime, path: &str) -> Result<(), DataFault> {
    for (end, byte) in path.bytes().enumerate() {
        if byte == b'/' && end > 0 {
            create_directory(rt, path.get(..end).unwrap_or(path))?;
        }
    }
    create_directory(rt, path)
}

/// Creates a directory, if it is missing, so that a crash does not lose it.
pub(crate) fn create_directory(rt: &HostRuntime, path: &str) -> Result<(), DataFault> {
    match fs::create_dir(rt, path) {
        Ok(()) => {
            let parent = format!(in rt.alloc(); "{path}/..")?;
            sync_directory(rt, parent.as_str())
        }
        Err(error) if error.kind() == ErrorKind::AlreadyExists => Ok(()),
        Err(error) => Err(DataFault::System(error)),
    }
}

/// Syncs the names of a directory.
pub(crate) fn sync_directory(rt: &HostRuntime, path: &str) -> Result<(), DataFault> {
    fs::File::open(rt, path)?.sync_all()?;
    Ok(())
}

/// The mode of a file that its owner alone can read.
pub(crate) const PRIVATE: u32 = 0o600;

/// The mode of a file that all can read.
pub(crate) const SHARED: u32 = 0o644;

/// Writes a file of a directory anew, with this mode, whole or not at all.
pub(crate) fn replace_file(
    rt: &HostRuntime,
    directory: &str,
    name: &str,
    mode: u32,
    bytes: &[u8],
) -> Result<(), DataFault> {
    write_draft(rt, directory, name, mode, bytes)?;
    place_draft(rt, directory, name)
}

/// Writes the draft of a file, so that a crash does not lose it.
pub(crate) fn write_draft(
    rt: &HostRuntime,
    directory: &str,
    name: &str,
    mode: u32,
    bytes: &[u8],
) -> Result<(), DataFault> {
    let draft = format!(in rt.alloc(); "{directory}/{name}.new")?;
    write_synced(rt, draft.as_str(), mode, bytes)?;
    sync_directory(rt, directory)
}

/// Puts the draft of a file in its place, if there is one.
pub(crate) fn place_draft(rt: &HostRuntime, directory: &str, name: &str) -> Result<(), DataFault> {
    let path = format!(in rt.alloc(); "{directory}/{name}")?;
    let draft = format!(in rt.alloc(); "{directory}/{name}.new")?;
    match fs::rename(rt, draft.as_str(), path.as_str()) {
        Ok(()) => sync_directory(rt, directory),
        Err(error) if error.kind() == ErrorKind::NotFound => Ok(()),
        Err(error) => Err(DataFault::System(error)),
    }
}

/// Reads a file of a directory; `None` if it is missing.
pub(crate) fn read_file(
    rt: &HostRuntime,
    directory: &str,
    name: &str,
) -> Result<Option<Vec<u8>>, DataFault> {
    let path = format!(in rt.alloc(); "{directory}/{name}")?;
    match fs::read(rt, path.as_str()) {
        Ok(bytes) => Ok(Some(bytes)),
        Err(error) if error.kind() == ErrorKind::NotFound => Ok(None),
        Err(error) => Err(DataFault::System(error)),
    }
}

fn write_synced(rt: &HostRuntime, path: &str, mode: u32, bytes: &[u8]) -> io::Result<()> {
    let mut file = OpenOptions::new()
        .write(true)
        .create(true)
        .truncate(true)
        .mode(mode)
        .open(rt, path)?;
    file.write_all(bytes)?;
    file.sync_all()
}
