use thiserror::Error;

/// Why not all bytes of a snapshot were written.
#[derive(Clone, Copy, Debug, PartialEq, Eq, Error)]
pub(crate) enum PartFault {
    /// The output failed.
    #[error("write")]
    Write,
    /// Allocation failed.
    #[error("memory")]
    NoMemory,
}
