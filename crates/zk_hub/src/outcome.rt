use zk_table::TxnResult;

/// The outcome of a client's request.
#[derive(Debug, Drop)]
pub enum Outcome {
    /// Of a write: the result of its transaction.
    Wrote(TxnResult),
    /// Of a sync: the server has caught up.
    Synced,
    /// Of a request whose reply was known when it came.
    Known,
}
