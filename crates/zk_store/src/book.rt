/// What a host's store keeps beside the entries of its history.
#[derive(Clone, Copy, Debug, PartialEq, Eq)]
pub struct Book {
    /// The greatest epoch that the server has promised.
    pub promised: u32,
    /// The epoch of the server's history.
    pub current: u32,
    /// The number of starts of the server's host.
    pub boots: u32,
    /// The number of the log's entries that are stored; entries after them do not count.
    pub entries: u64,
    /// A change of the history that is in progress.
    pub join: Option<Join>,
}

/// A history that replaces the stored one: the first `keep` entries of the log, and then the first
/// `added` entries of the joining file.
#[derive(Clone, Copy, Debug, PartialEq, Eq)]
pub struct Join {
    pub keep: u64,
    pub added: u64,
}

/// A book in memory: what its file contains.
#[derive(Clone, Copy, Debug, PartialEq, Eq)]
pub struct StoredBook {
    pub book: Book,
    /// The block that is selected: 0 or 1.
    pub slot: u8,
}
