/// What a server has for its clients, where `V` is the type of watch events and `R` that of
/// results.
#[derive(Debug, Drop)]
pub enum News<V, R> {
    /// A watch event of a connection.
    Event { connection: u64, event: V },
    /// The result of the request that waits for this tag, here or at another server.
    Outcome { tag: u64, outcome: R },
}

/// What is written to a connection.
#[derive(Debug, Drop)]
pub enum Output<V, E, R> {
    Event {
        connection: u64,
        event: V,
    },
    Reply {
        connection: u64,
        expected: E,
        outcome: R,
    },
}
