/// A server of an ensemble, by its number.
#[derive(Clone, Copy, Debug, Drop, PartialEq, Eq)]
pub struct Member {
    /// From 1 on.
    pub number: u8,
    /// How many servers there are. The majorities are the quorums.
    pub servers: usize,
}
