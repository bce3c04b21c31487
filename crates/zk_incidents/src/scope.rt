//! A node, alone or with all nodes below it.
ghost use Rattle.std.specs.Prelude.{◌≡◌, IfOk};
ghost use Rattle.std.specs.String.{string_bytes};
ghost use Rattle.zk_incidents.specs.Within.{front_below, is_within};

use std::alloc::Global;
use zk_path::NoMemory;

/// A node, alone or with all nodes below it.
#[derive(Drop)]
pub struct Scope {
    /// The node's path.
    pub(crate) root: String,
    /// Whether the nodes below it are meant, too.
    pub(crate) below: bool,
    /// What their paths begin with.
    front: String,
    ghost fronts: { string_bytes front ≡ front_below (string_bytes root) },
}

impl Scope {
    /// The node at a path, and if `below` all nodes below it. A path that no node can have covers
    /// no node.
    pub fn new(alloc: Global, path: &str, below: bool) -> Result<Scope, NoMemory>
        ensures root { IfOk result (λ scope. string_bytes scope.root ≡ path.now) }
        ensures below { IfOk result (λ scope. scope.below ≡ below) }
    {
        let root = String::from_str(alloc, path)?;
        let front = front_below(alloc, path)?;
        Ok(Scope { root, below, front })
    }

    /// Whether a path is one of these nodes'.
    pub fn covers(&self, path: &str) -> bool
        ensures { result ≡ is_within (string_bytes self.now.root) self.now.below path.now }
    {
        path == self.root.as_str()
            || (self.below && path.as_bytes().starts_with(self.front.as_bytes()))
    }
}

/// What the paths below a path begin with.
fn front_below(alloc: Global, path: &str) -> Result<String, NoMemory>
    ensures { IfOk result (λ front. string_bytes front ≡ front_below path.now) }
{
    let mut front = String::from_str(alloc, path)?;
    if path != "/" {
        front.push_str("/")?;
    }
    Ok(front)
}
