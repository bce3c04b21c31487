//! The names and the bytes of files, as a folder gives them.
ghost use Rattle.std.specs.Prelude.{IfErr, IfOk, map};
ghost use Rattle.std.specs.String.{string_bytes};
ghost use Rattle.zk_directory_state.specs.Folders.{IsGiven};
ghost use Rattle.zk_directory_state.specs.Logs.{AreUnlisted, IsUnreadFile, IsUnreadLog};
ghost use Rattle.zk_directory_state.specs.Names.{log_name};

use crate::log_line::name_of_log;
use std::alloc::Global;
use zk_directory::FileName;
use zk_directory_state::{Folder, FolderFault, HistoryFault};

pub(crate) fn names_of<F: Folder>(alloc: Global, folder: &F) -> Result<Vec<String>, HistoryFault>
    ensures given { IfOk result (λ names. IsGiven (F.names_in folder.now) (map string_bytes names.items)) }
    ensures unlisted { IfErr result (λ fault. AreUnlisted (F.names_in folder.now) fault) }
{
    match folder.names(alloc) {
        Ok(names) => Ok(names),
        Err(FolderFault::Read) => Err(HistoryFault::Read),
        Err(FolderFault::NoMemory) => Err(HistoryFault::NoMemory),
    }
}

/// The bytes of the log of this zxid.
#[tactic(auto, using(zk_directory_state::proofs::Unreading::unread_log))]
pub(crate) fn read_log<F: Folder>(
    alloc: Global,
    folder: &F,
    zxid: i64,
) -> Result<Vec<u8>, HistoryFault>
    ensures given { IfOk result (λ bytes. IsGiven (F.bytes_in folder.now (log_name zxid)) bytes.items) }
    ensures file { IfErr result (λ fault. IsUnreadLog (F.bytes_in folder.now) fault) }
{
    let name = name_of_log(alloc, zxid)?;
    read_file(alloc, folder, name.as_str(), FileName::Log { zxid })
}

fn read_file<F: Folder>(
    alloc: Global,
    folder: &F,
    name: &str,
    file: FileName,
) -> Result<Vec<u8>, HistoryFault>
    ensures given { IfOk result (λ bytes. IsGiven (F.bytes_in folder.now name.now) bytes.items) }
    ensures file { IfErr result (λ fault. IsUnreadFile (F.bytes_in folder.now name.now) file fault) }
{
    match folder.read(alloc, name) {
        Ok(bytes) => Ok(bytes),
        Err(FolderFault::Read) => Err(HistoryFault::Unreadable(file)),
        Err(FolderFault::NoMemory) => Err(HistoryFault::NoMemory),
    }
}
