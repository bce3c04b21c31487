use zk_path::Path;
use zk_table::Node;

/// A node of a tree: its path, the node, and the number of its children.
#[derive(Clone, Copy, Debug)]
pub struct Entry<'a> {
    pub path: &'a Path,
    pub node: &'a Node,
    pub child_count: usize,
}
