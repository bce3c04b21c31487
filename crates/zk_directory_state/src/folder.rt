//! The device that a data directory is read from.
ghost use Rattle.std.specs.Prelude.{ℕ, List, Option, IfOk, IfErr, map};
ghost use Rattle.std.specs.String.{string_bytes};
ghost use Rattle.zk_directory_state.specs.Folders.{Fails, IsGiven};

use std::alloc::Global;
use thiserror::Error;

/// Why a folder, or a file in it, could not be read.
#[derive(Clone, Copy, Debug, PartialEq, Eq, Error)]
pub enum FolderFault {
    #[error("read")]
    Read,
    /// Allocation failed.
    #[error("memory")]
    NoMemory,
}

/// A folder of files.
pub trait Folder {
    /// The names of its files; `None` if they cannot be read, or are not known.
    ghost names_in: { Self → Option (List (List ℕ)) };

    /// The bytes of a file; `None` if it cannot be read, or they are not known.
    ghost bytes_in: { Self → List ℕ → Option (List ℕ) };

    /// The names of the files, in any order. Names that are not UTF-8 are left out.
    fn names(&self, alloc: Global) -> Result<Vec<String>, FolderFault>
        ensures given { IfOk result (λ names. IsGiven (names_in self.now) (map string_bytes names.items)) }
        ensures fails { IfErr result (λ fault. Fails (names_in self.now) fault) };

    /// The bytes of a file.
    fn read(&self, alloc: Global, name: &str) -> Result<Vec<u8>, FolderFault>
        ensures given { IfOk result (λ bytes. IsGiven (bytes_in self.now name.now) bytes.items) }
        ensures fails { IfErr result (λ fault. Fails (bytes_in self.now name.now) fault) };
}
