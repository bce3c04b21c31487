use crate::chunk::Chunk;

/// What happens to a server's links between two turns.
#[derive(Debug, Drop)]
pub enum LinkInput {
    /// A connection to a peer is open, in place of the earlier one. No two connections have the same
    /// number.
    Opened { peer: usize, line: u64 },
    /// A connection has brought bytes.
    Brought { line: u64, bytes: Chunk },
    /// A connection has ended.
    Closed { line: u64 },
    /// An operator makes the server lead.
    Lead,
}
