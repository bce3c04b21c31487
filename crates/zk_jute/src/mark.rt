/// What is known of an entry without reading it.
#[derive(Clone, Copy, Debug)]
pub(crate) struct Mark {
    /// Its transaction's zxid.
    pub(crate) zxid: i64,
    /// Its number of bytes.
    pub(crate) size: usize,
}
