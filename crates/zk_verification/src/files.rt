//! The files of a directory, each of which may be unreadable.
ghost use Rattle.std.specs.Prelude.{◌≡◌, IfOk, IfSome, map};
ghost use Rattle.zk_directory_state.specs.Logs.{bytes_of};
ghost use Rattle.zk_directory_state.specs.Folders.{IsGiven};
ghost use Rattle.zk_directory_state.specs.Names.{log_name, snapshot_name};
ghost use Rattle.zk_verification.specs.Verifications.{AreLoaded, IsLoaded, log_bytes};

use crate::LogBytes;
use std::alloc::Global;
use zk_directory_state::{Folder, FolderFault, push_log_name, push_snapshot_name};
use zk_path::NoMemory;

/// The bytes of a file; `None` if it cannot be read.
fn read_file<F: Folder>(alloc: Global, folder: &F, name: &str) -> Result<Option<Vec<u8>>, NoMemory>
    ensures { IfOk result (λ read. IfSome read (λ bytes. IsGiven (F.bytes_in folder.now name.now) bytes.items)) }
{
    match folder.read(alloc, name) {
        Ok(bytes) => Ok(Some(bytes)),
        Err(FolderFault::Read) => Ok(None),
        Err(FolderFault::NoMemory) => Err(NoMemory),
    }
}

/// The bytes of the snapshot of this zxid; `None` if it cannot be read.
pub(crate) fn read_snapshot_bytes<F: Folder>(
    alloc: Global,
    folder: &F,
    zxid: i64,
) -> Result<Option<Vec<u8>>, NoMemory>
    ensures { IfOk result (λ read. IfSome read (λ bytes. IsGiven (F.bytes_in folder.now (snapshot_name zxid)) bytes.items)) }
{
    let mut name = String::new(alloc);
    push_snapshot_name(&mut name, zxid)?;
    read_file(alloc, folder, name.as_str())
}

/// The log of this zxid.
fn load_log<F: Folder>(alloc: Global, folder: &F, zxid: i64) -> Result<LogBytes, NoMemory>
    ensures { IfOk result (λ log. IsLoaded (F.bytes_in folder.now) zxid log) }
{
    let mut name = String::new(alloc);
    push_log_name(&mut name, zxid)?;
    match read_file(alloc, folder, name.as_str())? {
        Some(bytes) => Ok(LogBytes {
            zxid,
            bytes,
            is_read: true,
        }),
        None => Ok(LogBytes {
            zxid,
            bytes: Vec::new(alloc),
            is_read: false,
        }),
    }
}

/// The logs of these zxids, each of which may be unreadable.
pub fn load_logs<F: Folder>(
    alloc: Global,
    folder: &F,
    logged: &[i64],
) -> Result<Vec<LogBytes>, NoMemory>
    ensures { IfOk result (λ logs. AreLoaded (F.bytes_in folder.now) logged.now logs.items) }
{
    let mut logs = Vec::new(alloc);
    for zxid in logged {
        let log = load_log(alloc, folder, *zxid)?;
        logs.push(log)?;
    }
    Ok(logs)
}

/// The bytes of logs.
pub(crate) fn slices_of(alloc: Global, logs: &[LogBytes]) -> Result<Vec<&[u8]>, NoMemory>
    ensures { IfOk result (λ slices. map bytes_of slices.items ≡ map log_bytes logs.now) }
{
    let mut slices = Vec::new(alloc);
    for log in logs {
        slices.push(log.bytes.as_slice())?;
    }
    Ok(slices)
}
