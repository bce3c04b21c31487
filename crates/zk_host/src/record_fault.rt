use thiserror::Error;

/// Why a record has ended. What was recorded before is a run.
#[derive(Clone, Copy, Debug, PartialEq, Eq, Error)]
pub enum RecordFault {
    /// A server's store has failed: how much of it is stored is not known.
    #[error("a store has failed")]
    Store,
    /// More events were recorded than are kept until they are taken.
    #[error("too many events at once")]
    Full,
    /// A message has no number. No run reaches this.
    #[error("a message has no number")]
    NoNumber,
    /// Out of memory.
    #[error("out of memory")]
    NoMemory,
}
