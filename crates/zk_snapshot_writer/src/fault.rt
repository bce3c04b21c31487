use thiserror::Error;

/// Why a snapshot is not written. Each prints as its name.
#[derive(Clone, Copy, Debug, PartialEq, Eq, Error)]
pub enum WriterFault {
    /// A text, a content, or a number of sessions, of lists or of a list's entries has no field: it
    /// is 2^31 or more.
    #[error("long")]
    Long,
    /// Allocation failed.
    #[error("memory")]
    NoMemory,
}
