use zk_acl::Ids;
use zk_requests::Call;
use zk_table::ReadCall;

/// A client's read at a server. Servers are numbered from 1.
#[derive(Debug, Drop)]
pub struct Question {
    pub server: usize,
    /// The session that reads.
    pub session: i64,
    /// The zxid of the last transaction that the client has seen. A server that has delivered less
    /// rejects the read.
    pub seen: i64,
    /// The identities that the client has proved.
    pub auths: Ids,
    pub call: ReadCall,
    /// Whether to set a watch on what is read, for one event.
    pub watch: bool,
}

/// An event of an ensemble.
#[derive(Debug, Drop)]
pub enum Event {
    /// An event of its world of servers.
    World(zab_model::Event<Call>),
    /// A client reads at a server.
    Read(Question),
}
