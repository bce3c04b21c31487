use zab_model::Moved;
use zk_table::{ReadReply, TxnResult};

/// The answer to an accepted event.
#[derive(Debug, Drop)]
pub enum Answer {
    /// The messages that it sent.
    Moved(Moved),
    /// The reply to a read.
    Looked(ReadReply),
}

/// A delivered entry's result at a server: its call's tag, its session, and the table's result.
#[derive(Debug, Drop)]
pub struct Answered {
    pub tag: u64,
    pub session: i64,
    pub result: TxnResult,
}
