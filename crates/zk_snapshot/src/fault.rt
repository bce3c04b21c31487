ghost use Rattle.std.specs.Prelude.{◌≡◌};
ghost use Rattle.zk_jute.specs.declared.fault.JuteFault.TheVariants as faults;
ghost use Rattle.zk_snapshot.specs.Faults.{fault_of, is_compressed};

use thiserror::Error;
use zk_jute::JuteFault;

/// The bytes of a file's header.
const HEADER: usize = 16;

/// The first bytes of a file that was compressed by GZIP.
const GZIP: [u8; 2] = [0x1f, 0x8b];

/// The first bytes of a file that was compressed by SNAPPY.
const SNAPPY: [u8; 8] = [0x82, 0x53, 0x4e, 0x41, 0x50, 0x50, 0x59, 0];

/// Why a file is rejected as a snapshot. Each prints as its name.
#[derive(Clone, Copy, Debug, PartialEq, Eq, Error)]
pub enum SnapshotFault {
    /// The file has no header of a snapshot.
    #[error("S1")]
    Header,
    /// The file ends early.
    #[error("S2")]
    Short,
    /// A negative length or count, a text that is not UTF-8, or an invalid path.
    #[error("S3")]
    Field,
    /// Checksum mismatch.
    #[error("S4")]
    Checksum,
    /// Bytes after the end.
    #[error("S5")]
    Trailing,
    /// The file is compressed.
    #[error("S6")]
    Compressed,
    /// Allocation failed.
    #[error("G8")]
    NoMemory,
}

/// The fault of a file, by the first field that could not be read.
pub(crate) fn fault_of(bytes: &[u8], field: JuteFault) -> SnapshotFault
    ensures { result ≡ fault_of bytes.now field }
{
    match field {
        JuteFault::NoMemory => SnapshotFault::NoMemory,
        JuteFault::Kind => header_fault(bytes),
        JuteFault::Short => {
            if bytes.len() < HEADER {
                SnapshotFault::Header
            } else {
                SnapshotFault::Short
            }
        }
        JuteFault::Boolean => SnapshotFault::Checksum,
        JuteFault::Trailing => SnapshotFault::Trailing,
        JuteFault::Length | JuteFault::Text | JuteFault::Path => SnapshotFault::Field,
    }
}

/// The fault of a wrong header.
fn header_fault(bytes: &[u8]) -> SnapshotFault
    ensures { result ≡ fault_of bytes.now faults.Kind }
{
    if is_compressed(bytes) {
        SnapshotFault::Compressed
    } else {
        SnapshotFault::Header
    }
}

/// Whether a file was compressed.
fn is_compressed(bytes: &[u8]) -> bool
    ensures { result ≡ is_compressed bytes.now }
{
    bytes.starts_with(&GZIP) || bytes.starts_with(&SNAPPY)
}
