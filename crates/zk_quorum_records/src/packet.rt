use zk_acl::Ids;
use zk_table::Content;

/// A packet between a learner and its leader: `QuorumPacket`.
#[derive(Debug, Drop)]
pub struct QuorumPacket {
    /// Its `type`, a constant of class `Leader`.
    pub kind: i32,
    pub zxid: i64,
    /// Its `data`.
    pub content: Option<Content>,
    /// The identities of a client whose request is forwarded.
    pub authinfo: Option<Ids>,
}
