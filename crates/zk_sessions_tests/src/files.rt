//! Small files of a data directory, written by a script from the formats in `docs/FORMATS.md`.
//!
//! 1 opens session 1, 2 creates `/a`, 3 `/a/b`, 4 the ephemeral `/c`, and 5 `/d`; 6 deletes `/a/b`,
//! 7 sets the content of `/a`, 8 deletes `/d`, and 9 closes the session and lists `/c`.

use std::alloc::Global;
use zk_directory_state::{Folder, FolderFault};

/// Transactions 1 to 5, and padding.
pub(crate) const LOG_1: &[u8] =
    b"ZKLG\0\0\0\x02\0\0\0\0\0\0\0\0\0\0\0\0#1\x05\x92\0\0\0$\0\0\0\0\0\0\0\x01\0\0\0\x01\0\0\
      \0\0\0\0\0\x01\0\0\0\0\0\0\x03\xe9\xff\xff\xff\xf6\0\0\x0f\xa0B\0\0\0\0\x93\xb6\x06\xdc\
      \0\0\0K\0\0\0\0\0\0\0\x01\0\0\0\x01\0\0\0\0\0\0\0\x02\0\0\0\0\0\0\x03\xea\0\0\0\x01\0\0\
      \0\x02/a\0\0\0\x01x\0\0\0\x01\0\0\0\x1f\0\0\0\x05world\0\0\0\x06anyone\0\0\0\0\x01B\0\0\
      \0\0%\x06\x0a\xf4\0\0\0L\0\0\0\0\0\0\0\x01\0\0\0\x01\0\0\0\0\0\0\0\x03\0\0\0\0\0\0\x03\
      \xeb\0\0\0\x01\0\0\0\x04/a/b\xff\xff\xff\xff\0\0\0\x01\0\0\0\x1f\0\0\0\x05world\0\0\0\
      \x06anyone\0\0\0\0\x01B\0\0\0\0\x83\xb3\x06k\0\0\0J\0\0\0\0\0\0\0\x01\0\0\0\x01\0\0\0\0\
      \0\0\0\x04\0\0\0\0\0\0\x03\xec\0\0\0\x01\0\0\0\x02/c\0\0\0\0\0\0\0\x01\0\0\0\x1f\0\0\0\
      \x05world\0\0\0\x06anyone\x01\0\0\0\x02B\0\0\0\0\x95\xa4\x06\xe9\0\0\0K\0\0\0\0\0\0\0\
      \x01\0\0\0\x01\0\0\0\0\0\0\0\x05\0\0\0\0\0\0\x03\xed\0\0\0\x01\0\0\0\x02/d\0\0\0\x01z\0\
      \0\0\x01\0\0\0\x1f\0\0\0\x05world\0\0\0\x06anyone\0\0\0\0\x03B\0\0\0\0\0\0\0\0\0\0\0\0\0\
      \0\0\0\0\0\0\0\0\0\0\0\0\0\0\0\0\0\0\0";

/// Transactions 6 to 9.
pub(crate) const LOG_6: &[u8] =
    b"ZKLG\0\0\0\x02\0\0\0\0\0\0\0\0\0\0\0\0\x0f\xe9\x02!\0\0\0(\0\0\0\0\0\0\0\x01\0\0\0\x01\0\
      \0\0\0\0\0\0\x06\0\0\0\0\0\0\x03\xee\0\0\0\x02\0\0\0\x04/a/bB\0\0\0\0\x1c\xc5\x02\x0e\0\
      \0\0/\0\0\0\0\0\0\0\x01\0\0\0\x01\0\0\0\0\0\0\0\x07\0\0\0\0\0\0\x03\xef\0\0\0\x05\0\0\0\
      \x02/a\0\0\0\x01y\0\0\0\x01B\0\0\0\0\x0cB\x01\x95\0\0\0&\0\0\0\0\0\0\0\x01\0\0\0\x01\0\0\
      \0\0\0\0\0\x08\0\0\0\0\0\0\x03\xf0\0\0\0\x02\0\0\0\x02/dB\0\0\0\0A\xb8\x05\x87\0\0\0*\0\
      \0\0\0\0\0\0\x01\0\0\0\x01\0\0\0\0\0\0\0\x09\0\0\0\0\0\0\x03\xf1\xff\xff\xff\xf5\0\0\0\
      \x01\0\0\0\x02/cB";

/// Begun after transaction 4 and complete after 7: the root as of 4, `/a` as of 7.
pub(crate) const SNAPSHOT: &[u8] =
    b"ZKSN\0\0\0\x02\xff\xff\xff\xff\xff\xff\xff\xff\0\0\0\x01\0\0\0\0\0\0\0\x01\0\0\x0f\xa0\0\
      \0\0\0\0\0\0\0\0\0\0\0\xff\xff\xff\xff\xff\xff\xff\xff\0\0\0\0\0\0\0\0\0\0\0\0\0\0\0\0\0\
      \0\0\0\0\0\0\0\0\0\0\0\0\0\0\0\0\0\0\0\0\0\0\x02\0\0\0\0\0\0\0\0\0\0\0\0\0\0\0\0\0\0\0\
      \x04\0\0\0\x0a/zookeeper\0\0\0\0\xff\xff\xff\xff\xff\xff\xff\xff\0\0\0\0\0\0\0\0\0\0\0\0\
      \0\0\0\0\0\0\0\0\0\0\0\0\0\0\0\0\0\0\0\0\0\0\0\0\0\0\0\0\0\0\0\0\0\0\0\0\0\0\0\0\0\0\0\0\
      \0\0\0\0\0\0\0\x10/zookeeper/quota\0\0\0\0\xff\xff\xff\xff\xff\xff\xff\xff\0\0\0\0\0\0\0\
      \0\0\0\0\0\0\0\0\0\0\0\0\0\0\0\0\0\0\0\0\0\0\0\0\0\0\0\0\0\0\0\0\0\0\0\0\0\0\0\0\0\0\0\0\
      \0\0\0\0\0\0\0\0\0\0\0\0\x02/a\0\0\0\x01y\xff\xff\xff\xff\xff\xff\xff\xff\0\0\0\0\0\0\0\
      \x02\0\0\0\0\0\0\0\x07\0\0\0\0\0\0\x03\xea\0\0\0\0\0\0\x03\xef\0\0\0\x01\0\0\0\x01\0\0\0\
      \0\0\0\0\0\0\0\0\0\0\0\0\0\0\0\0\x06\0\0\0\x02/c\0\0\0\0\xff\xff\xff\xff\xff\xff\xff\xff\
      \0\0\0\0\0\0\0\x04\0\0\0\0\0\0\0\x04\0\0\0\0\0\0\x03\xec\0\0\0\0\0\0\x03\xec\0\0\0\0\0\0\
      \0\0\0\0\0\0\0\0\0\0\0\0\0\x01\0\0\0\0\0\0\0\x04\0\0\0\x01/\0\0\0\0\xc3\xd6A\xf4\0\0\0\
      \x01/\0\0\0\0\0\0\0\x07\0\0\0\x02\0\0\0\0\0\0\0\x05\0\0\0\0\x96VE\0\0\0\0\x01/";

/// A folder in memory: the names and bytes of its files.
#[derive(Clone, Copy)]
pub(crate) struct MemoryFolder<'a> {
    pub(crate) files: &'a [(&'static str, &'static [u8])],
}

impl Folder for MemoryFolder<'_> {
    ghost use Rattle.std.specs.Prelude.{None};

    ghost names_in = { λ _. None };

    ghost bytes_in = { λ _ _. None };

    fn names(&self, alloc: Global) -> Result<Vec<String>, FolderFault> {
        let mut names = Vec::new(alloc);
        for (name, _) in self.files {
            let Ok(name) = String::from_str(alloc, *name) else {
                return Err(FolderFault::NoMemory);
            };
            if names.push(name).is_err() {
                return Err(FolderFault::NoMemory);
            }
        }
        Ok(names)
    }

    fn read(&self, alloc: Global, name: &str) -> Result<Vec<u8>, FolderFault> {
        for (other, bytes) in self.files {
            if *other == name {
                return match Vec::from_slice(alloc, *bytes) {
                    Ok(copy) => Ok(copy),
                    Err(_) => Err(FolderFault::NoMemory),
                };
            }
        }
        Err(FolderFault::Read)
    }
}

/// A snapshot and the logs.
pub(crate) const ALL: &[(&str, &[u8])] = &[
    ("snapshot.4", SNAPSHOT),
    ("log.6", LOG_6),
    ("log.1", LOG_1),
];

pub(crate) const FROM_6: &[(&str, &[u8])] = &[("log.6", LOG_6), ("snapshot.4", SNAPSHOT)];
