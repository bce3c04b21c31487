/// The metadata of a node, in the order of the record's fields.
///
/// `zookeeper.jute`, `Stat`; Programmer's Guide, "ZooKeeper Stat Structure". Times are
/// milliseconds.
#[derive(Clone, Copy, Debug, PartialEq, Eq)]
pub struct Stat {
    /// The transaction that created the node.
    pub czxid: i64,
    /// The transaction that last changed its content.
    pub mzxid: i64,
    pub ctime: i64,
    pub mtime: i64,
    /// The version of the content.
    pub version: i32,
    /// The version of the children.
    pub cversion: i32,
    /// The version of the access control list.
    pub aversion: i32,
    /// The session that owns the node; 0 for a persistent node.
    pub ephemeral_owner: i64,
    /// In bytes.
    pub data_length: i32,
    pub num_children: i32,
    /// The transaction that last changed its children.
    pub pzxid: i64,
}
