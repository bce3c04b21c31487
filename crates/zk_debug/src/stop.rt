/// The end of a move.
#[derive(Clone, Copy, Debug, PartialEq, Eq)]
pub struct Stop {
    /// The number of applied transactions.
    pub place: usize,
    /// The lowest number of a breakpoint that the place matches.
    pub hit: Option<u32>,
}
