use thiserror::Error;

/// Why the first frame of a stream cannot be read.
#[derive(Clone, Copy, Debug, PartialEq, Eq, Error)]
pub enum FrameFault {
    /// The header has the wrong checksum.
    #[error("wrong checksum of a frame's header")]
    Header,
    /// The stated length is 2^63 or more.
    #[error("invalid frame length")]
    Length,
    /// The contents have the wrong checksum.
    #[error("wrong checksum of a frame")]
    Checksum,
    /// The contents are no message.
    #[error("a frame without a message")]
    Contents,
}

/// A fault of a stream, and where in it the frame begins.
#[derive(Clone, Copy, Debug, PartialEq, Eq, Error)]
#[error("byte {place}: {fault}")]
pub struct BadFrame {
    pub place: u64,
    pub fault: FrameFault,
}

/// Why no message can be taken from a stream.
#[derive(Clone, Copy, Debug, PartialEq, Eq, Error)]
pub enum DecodeFault {
    /// The stream ends at this frame.
    #[error("{0}")]
    Broken(BadFrame),
    /// An allocation failed; the message still waits.
    #[error("out of memory")]
    NoMemory,
}
