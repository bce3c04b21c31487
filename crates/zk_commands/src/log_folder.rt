//! One log of a 3.4 to 3.8 server, as a data directory that has only it.
ghost use Rattle.std.specs.Prelude.{◌≡◌, IfOk};
ghost use Rattle.std.specs.String.{string_bytes};
ghost use Rattle.zk_commands.specs.LogFolders.{FindsFirst, IsLogFolder, bytes_by, first_by};

use std::alloc::Global;
use zk_directory::{LogFile, LogFileFault, read_log_file};
use zk_directory_state::{Folder, FolderFault, push_log_name};
use zk_path::NoMemory;

/// A data directory whose only file is a log.
#[derive(Debug, Drop)]
pub struct LogFolder {
    name: String,
    bytes: Vec<u8>,
}

impl LogFolder {
    /// The directory of a log of these bytes, by the name that a server gives it.
    ///
    /// Returns `None` if the log has no entry, or a record that is not one of a 3.4 to 3.8 server.
    pub fn of(alloc: Global, bytes: Vec<u8>) -> Result<Option<LogFolder>, NoMemory>
        ensures { IfOk result (λ folder. IsLogFolder bytes.items folder) }
    {
        match first_zxid(alloc, bytes.as_slice())? {
            Some(zxid) => {
                let mut name = String::new(alloc);
                push_log_name(&mut name, zxid)?;
                Ok(Some(LogFolder { name, bytes }))
            }
            None => Ok(None),
        }
    }
}

impl Folder for LogFolder {
    ghost use Rattle.std.specs.Prelude.{Some, ◌∷◌, []};
    ghost use Rattle.std.specs.String.{string_bytes};
    ghost use Rattle.zk_commands.specs.LogFolders.{bytes_by};

    ghost names_in = { λ folder. Some (string_bytes folder.name ∷ []) };

    ghost bytes_in = { λ folder name. bytes_by (string_bytes folder.name) folder.bytes.items name };

    fn names(&self, alloc: Global) -> Result<Vec<String>, FolderFault> {
        let Ok(name) = String::from_str(alloc, self.name.as_str()) else {
            return Err(FolderFault::NoMemory);
        };
        let mut names = Vec::new(alloc);
        match names.push(name) {
            Ok(()) => Ok(names),
            Err(_) => Err(FolderFault::NoMemory),
        }
    }

    fn read(&self, alloc: Global, name: &str) -> Result<Vec<u8>, FolderFault> {
        if name != self.name.as_str() {
            return Err(FolderFault::Read);
        }
        match Vec::from_slice(alloc, self.bytes.as_slice()) {
            Ok(bytes) => Ok(bytes),
            Err(_) => Err(FolderFault::NoMemory),
        }
    }
}

/// The zxid of the first entry of a log, unless a record is not one of a 3.4 to 3.8 server.
fn first_zxid(alloc: Global, bytes: &[u8]) -> Result<Option<i64>, NoMemory>
    ensures { IfOk result (λ first. FindsFirst bytes.now first) }
{
    let file = read_log_file(alloc, bytes)?;
    Ok(first_by(&file))
}

fn first_by(file: &LogFile<'_>) -> Option<i64>
    ensures { result ≡ first_by file.now }
{
    if let Err(LogFileFault::Record(_)) = file.outcome {
        return None;
    }
    match file.entries.first() {
        Some(entry) => Some(entry.newer.txn.zxid),
        None => None,
    }
}
