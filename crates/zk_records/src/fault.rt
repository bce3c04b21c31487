use thiserror::Error;

/// Why bytes could not be written. It is displayed as the program prints it.
#[derive(Clone, Copy, Debug, PartialEq, Eq, Error)]
pub enum WriteFault {
    /// The writer failed or took no byte; a prefix may have been written.
    #[error("G9")]
    Write,
}
