//! The bytes of a directory's files.
ghost use Rattle.std.specs.Prelude.{◌≡◌, ◌++◌, ◌∷◌, [], IfOk, IfErr, OnOk, map};
ghost use Rattle.std.specs.String.{string_bytes};
ghost use Rattle.zk_directory_state.specs.Histories.{AreIn};
ghost use Rattle.zk_directory_state.specs.Logs.{AreGiven, AreUnlisted, IsUnread, IsUnreadFile, IsUnreadLog, IsUnreadSnapshot, bytes_of, items_of};
ghost use Rattle.zk_directory_state.specs.Folders.{IsGiven};
ghost use Rattle.zk_directory_state.specs.Names.{log_name, log_zxid, snapshot_name, snapshot_zxid};

use crate::{
    Folder, FolderFault, HistoryFault, log_zxids, push_log_name, push_snapshot_name, snapshot_zxids,
};
use std::alloc::Global;
use zk_directory::FileName;
use zk_path::NoMemory;

pub(crate) fn names_of<F: Folder>(alloc: Global, folder: &F) -> Result<Vec<String>, HistoryFault>
    ensures given { IfOk result (λ names. IsGiven (F.names_in folder.now) (map string_bytes names.items)) }
    ensures unread { IfErr result (λ fault. IsUnread fault) }
    ensures unlisted { IfErr result (λ fault. AreUnlisted (F.names_in folder.now) fault) }
{
    match folder.names(alloc) {
        Ok(names) => Ok(names),
        Err(FolderFault::Read) => Err(HistoryFault::Read),
        Err(FolderFault::NoMemory) => Err(HistoryFault::NoMemory),
    }
}

/// The zxids in the names of a folder's snapshots, in order.
///
/// Fails with [`HistoryFault::Read`] if the folder cannot be read.
pub fn snapshots_in<F: Folder>(alloc: Global, folder: &F) -> Result<Vec<i64>, HistoryFault>
    ensures given { IfOk result (λ held. AreIn snapshot_zxid (F.names_in folder.now) held.items) }
    ensures unread { IfErr result (λ fault. IsUnread fault) }
    ensures unlisted { IfErr result (λ fault. AreUnlisted (F.names_in folder.now) fault) }
{
    let names = names_of(alloc, folder)?;
    Ok(snapshot_zxids(alloc, names.as_slice())?)
}

/// The zxids in the names of a folder's logs, in order.
///
/// Fails with [`HistoryFault::Read`] if the folder cannot be read.
pub fn logs_in<F: Folder>(alloc: Global, folder: &F) -> Result<Vec<i64>, HistoryFault>
    ensures given { IfOk result (λ logged. AreIn log_zxid (F.names_in folder.now) logged.items) }
    ensures unread { IfErr result (λ fault. IsUnread fault) }
    ensures unlisted { IfErr result (λ fault. AreUnlisted (F.names_in folder.now) fault) }
{
    let names = names_of(alloc, folder)?;
    Ok(log_zxids(alloc, names.as_slice())?)
}

fn read_file<F: Folder>(
    alloc: Global,
    folder: &F,
    name: &str,
    file: FileName,
) -> Result<Vec<u8>, HistoryFault>
    ensures given { IfOk result (λ bytes. IsGiven (F.bytes_in folder.now name.now) bytes.items) }
    ensures unread { IfErr result (λ fault. IsUnread fault) }
    ensures file { IfErr result (λ fault. IsUnreadFile (F.bytes_in folder.now name.now) file fault) }
{
    match folder.read(alloc, name) {
        Ok(bytes) => Ok(bytes),
        Err(FolderFault::Read) => Err(HistoryFault::Unreadable(file)),
        Err(FolderFault::NoMemory) => Err(HistoryFault::NoMemory),
    }
}

/// The bytes of the snapshot of this zxid.
///
/// Fails with [`HistoryFault::Unreadable`] if it cannot be read.
#[tactic(auto, using(crate::proofs::Unreading::unread_snapshot))]
pub fn read_snapshot_file<F: Folder>(
    alloc: Global,
    folder: &F,
    zxid: i64,
) -> Result<Vec<u8>, HistoryFault>
    ensures given { IfOk result (λ bytes. IsGiven (F.bytes_in folder.now (snapshot_name zxid)) bytes.items) }
    ensures unread { IfErr result (λ fault. IsUnread fault) }
    ensures file { IfErr result (λ fault. IsUnreadSnapshot (F.bytes_in folder.now) fault) }
{
    let mut name = String::new(alloc);
    push_snapshot_name(&mut name, zxid)?;
    read_file(alloc, folder, name.as_str(), FileName::Snapshot { zxid })
}

/// The bytes of the log of this zxid.
#[tactic(auto, using(crate::proofs::Unreading::unread_log))]
pub(crate) fn read_log<F: Folder>(
    alloc: Global,
    folder: &F,
    zxid: i64,
) -> Result<Vec<u8>, HistoryFault>
    ensures given { IfOk result (λ bytes. IsGiven (F.bytes_in folder.now (log_name zxid)) bytes.items) }
    ensures unread { IfErr result (λ fault. IsUnread fault) }
    ensures file { IfErr result (λ fault. IsUnreadLog (F.bytes_in folder.now) fault) }
{
    let mut name = String::new(alloc);
    push_log_name(&mut name, zxid)?;
    read_file(alloc, folder, name.as_str(), FileName::Log { zxid })
}

fn add_bytes(loaded: &mut Vec<Vec<u8>>, bytes: Vec<u8>) -> Result<(), NoMemory>
    ensures { OnOk result (map items_of loaded.new.items ≡ map items_of loaded.old.items ++ bytes.items ∷ []) }
{
    loaded.push(bytes)?;
    Ok(())
}

/// The bytes of the logs of these zxids, which [`logs_in`] returns.
///
/// Fails with [`HistoryFault::Unreadable`] if one of them cannot be read.
#[tactic(auto, using(crate::proofs::Chosen::given_on))]
pub fn read_logs<F: Folder>(
    alloc: Global,
    folder: &F,
    logged: &[i64],
) -> Result<Vec<Vec<u8>>, HistoryFault>
    ensures given { IfOk result (λ loaded. AreGiven (F.bytes_in folder.now) logged.now (map items_of loaded.items)) }
    ensures unread { IfErr result (λ fault. IsUnread fault) }
    ensures file { IfErr result (λ fault. IsUnreadLog (F.bytes_in folder.now) fault) }
{
    let mut loaded = Vec::new(alloc);
    for zxid in logged {
        let bytes = read_log(alloc, folder, *zxid)?;
        add_bytes(&mut loaded, bytes)?;
    }
    Ok(loaded)
}

/// Slices of the bytes of files, as [`crate::restore`] takes them.
pub fn slices_of(alloc: Global, loaded: &[Vec<u8>]) -> Result<Vec<&[u8]>, NoMemory>
    ensures { IfOk result (λ slices. map bytes_of slices.items ≡ map items_of loaded.now) }
{
    let mut slices = Vec::new(alloc);
    for bytes in loaded {
        slices.push(bytes.as_slice())?;
    }
    Ok(slices)
}
