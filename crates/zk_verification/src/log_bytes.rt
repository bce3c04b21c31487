/// A log of a data directory, as a folder returns it.
#[derive(Debug, Drop)]
pub struct LogBytes {
    /// The zxid in its name.
    pub zxid: i64,
    /// Empty if the file could not be read.
    pub bytes: Vec<u8>,
    pub is_read: bool,
}
