//! A directory that is compared.

/// A data directory that is compared, by the name that reports have.
#[derive(Drop)]
pub struct ComparedDirectory<'a, S, L> {
    pub name: &'a str,
    /// The folder of its snapshots.
    pub snapshots: S,
    /// The folder of its logs, which may be the same.
    pub logs: L,
}
