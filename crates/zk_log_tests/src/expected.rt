//! Expected nodes.

use zk_table::Content;

/// A node as a server's own tools show it.
pub(crate) struct ExpectedNode {
    pub(crate) path: &'static str,
    pub(crate) content: Option<&'static [u8]>,
    /// czxid, mzxid and pzxid.
    pub(crate) zxids: [i64; 3],
    /// `version`, `creates` and `aversion`.
    pub(crate) versions: [i32; 3],
    pub(crate) owner: i64,
}

/// Whether a content has these bytes.
pub(crate) fn is_content(content: &Option<Content>, bytes: Option<&[u8]>) -> bool {
    match (content, bytes) {
        (Some(content), Some(bytes)) => content.as_slice() == bytes,
        (None, None) => true,
        _ => false,
    }
}
