use zk_table::ReadReply;

/// The reply to a read of a view, and the last zxid of the list that it was read from.
#[derive(Debug, Drop)]
pub struct Seen {
    pub zxid: i64,
    pub reply: ReadReply,
}
