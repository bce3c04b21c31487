use thiserror::Error;
use zk_path::{NoMemory, Path};
use zk_table::Node;

/// A path and a node that were not put, because an allocation failed.
#[derive(Debug, Drop, Error)]
#[error("no memory")]
pub struct Refused {
    pub path: Path,
    pub node: Node,
}

impl From<Refused> for NoMemory {
    fn from(_refused: Refused) -> NoMemory {
        NoMemory
    }
}
