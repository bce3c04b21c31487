//! Tests of `zk_tree`: lists of paths, which no command of `zk` prints, reads of absent nodes, and
//! a failed put. Trees after transactions are tested in checks/golden/records.golden.

use std::alloc::Global;
use zk_path::{NoMemory, Path};
use zk_table::Node;
use zk_tree::{Refused, Tree};

/// What is checked of the start state at a path.
#[derive(Clone, Copy)]
enum Asked {
    /// The tree has the paths of the start state, and this one as a child there, which its stat
    /// counts.
    Paths,
    /// There is no node at the path, and none below.
    Nothing,
    /// A put there that fails becomes an allocation failure.
    Refused,
}

/// Does the check at the path of a text.
fn holds(alloc: Global, text: &str, asked: Asked) -> bool {
    match Path::read(alloc, text) {
        Ok(path) => holds_at(alloc, &path, asked),
        Err(_) => false,
    }
}

/// Does the check on the start state.
fn holds_at(alloc: Global, path: &Path, asked: Asked) -> bool {
    match Tree::new(alloc) {
        Ok(tree) => is_so(alloc, &tree, path, asked),
        Err(_) => false,
    }
}

fn is_so(alloc: Global, tree: &Tree, path: &Path, asked: Asked) -> bool {
    match asked {
        Asked::Paths => has_its_paths(tree, path),
        Asked::Nothing => has_nothing(tree, path),
        Asked::Refused => refused_put(alloc, path) == Ok(NoMemory),
    }
}

/// Whether these are the paths of these texts.
fn are(paths: &Result<Vec<Path>, NoMemory>, texts: &[&str]) -> bool {
    let Ok(paths) = paths else {
        return false;
    };
    if paths.len() != texts.len() {
        return false;
    }
    for (path, text) in paths.iter().zip(texts) {
        if path.text() != *text {
            return false;
        }
    }
    true
}

fn has_its_paths(tree: &Tree, path: &Path) -> bool {
    are(&tree.paths(), &["/", "/zookeeper", "/zookeeper/quota"])
        && are(&tree.children(path), &["/zookeeper/quota"])
        && matches!(tree.stat(path), Some(stat) if stat.num_children == 1 && stat.cversion == -1)
}

fn has_nothing(tree: &Tree, path: &Path) -> bool {
    tree.stat(path).is_none()
        && tree.entry_by_text(path.text()).is_none()
        && are(&tree.children(path), &[])
}

/// Whether the tree of a root alone has its path and no other.
fn is_alone(alloc: Global) -> bool {
    let Ok(root) = Node::first(alloc) else {
        return false;
    };
    match Tree::from_root(alloc, root) {
        Ok(tree) => are(&tree.paths(), &["/"]),
        Err(_) => false,
    }
}

/// Returns the error that a failed put becomes.
fn refused_put(alloc: Global, path: &Path) -> Result<NoMemory, NoMemory> {
    let path = path.copy()?;
    let node = Node::first(alloc)?;
    Ok(NoMemory::from(Refused { path, node }))
}

static ASKED: [(&str, Asked); 4] = [
    ("/zookeeper", Asked::Paths),
    ("/quota", Asked::Nothing),
    ("/x", Asked::Nothing),
    ("/x", Asked::Refused),
];

#[test]
fn the_start_tree_answers(rt: HostRuntime) {
    for (text, asked) in &ASKED {
        assert!(rt; holds(rt.alloc(), text, *asked), "{text}");
    }
}

#[test]
fn a_tree_of_a_root_has_nothing_else(rt: HostRuntime) {
    assert!(rt; is_alone(rt.alloc()));
}
