//! The nodes of a draft, one call after the other.

use std::alloc::Global;
use zk_acl::Acls;
use zk_path::Path;
use zk_replay::{DraftNode, DraftNodes};
use zk_table::{Content, Node, Op, Txn};

/// A node that no transaction created, below the root or the root itself.
fn fresh(alloc: Global, text: &str, owner: i64) -> Option<DraftNode> {
    let mut node = Node::first(alloc).ok()?;
    node.owner = owner;
    Some(DraftNode::fresh(Path::read(alloc, text).ok()?, node))
}

/// Inserts such a node.
fn insert(nodes: &mut DraftNodes, alloc: Global, text: &str, owner: i64) -> bool {
    match fresh(alloc, text, owner) {
        Some(node) => nodes.insert(text, node).is_ok(),
        None => false,
    }
}

/// Whether `/a`, which session 5 owns, is the only node that it owns.
fn is_owned(nodes: &DraftNodes) -> bool {
    matches!(nodes.owned_by(5), Ok(paths) if matches!(paths.as_slice(), [one] if one.text() == "/a"))
        && matches!(nodes.owned_by(0), Ok(paths) if paths.is_empty())
}

/// Sets the content of `/a` by a transaction of zxid 9, and its access control list to none.
fn change(nodes: &mut DraftNodes, alloc: Global) -> bool {
    let txn = Txn {
        session: 5,
        cxid: 1,
        zxid: 9,
        time: 9000,
        op: Op::CloseSession,
    };
    nodes.write("/a", &txn, Content::read(alloc, b"new").ok(), 3);
    match Acls::new(alloc, Vec::new(alloc)) {
        Ok(acl) => {
            nodes.guard("/a", acl, 4);
            true
        }
        Err(_) => false,
    }
}

/// Whether the root counts seven children and was changed by the zxid 8, and `/a` was changed.
fn are_changed(nodes: &DraftNodes) -> bool {
    match nodes.entries() {
        Ok(entries) => match entries.as_slice() {
            [(_, root), (_, child)] => is_root(*root) && is_changed(*child),
            _ => false,
        },
        Err(_) => false,
    }
}

fn is_root(root: &DraftNode) -> bool {
    root.had_children && root.node.creates == 7 && root.node.pzxid == 8
}

fn is_changed(child: &DraftNode) -> bool {
    child.raw_owner == 5
        && child.node.mzxid == 9
        && child.node.version == 3
        && child.node.aversion == 4
        && child.node.acl.as_slice().is_empty()
}

/// Whether `/a` is found, and no other node.
fn is_found(nodes: &DraftNodes) -> bool {
    matches!(nodes.get("/a"), Some(child) if is_changed(child)) && nodes.get("/b").is_none()
}

/// Whether the nodes change as they should, and are deleted.
fn holds(nodes: &mut DraftNodes, alloc: Global) -> bool {
    nodes.add_child("/", 8, 7);
    nodes.lose_child("/", 2);
    change(nodes, alloc) && is_owned(nodes) && are_changed(nodes) && is_found(nodes)
}

/// Whether the root is deleted with `/a`.
fn is_emptied(nodes: &mut DraftNodes, alloc: Global) -> bool {
    match Path::read(alloc, "/a") {
        Ok(path) => nodes.remove_tree(&path).is_ok()
            && !nodes.contains("/a")
            && nodes.contains("/"),
        Err(_) => false,
    }
}

/// Whether a draft of two nodes keeps them, changes and deletes them.
fn keeps_two_nodes(alloc: Global) -> bool {
    let mut nodes = DraftNodes::new(alloc);
    insert(&mut nodes, alloc, "/", 0)
        && insert(&mut nodes, alloc, "/a", 5)
        && holds(&mut nodes, alloc)
        && is_emptied(&mut nodes, alloc)
}

#[test]
fn a_draft_keeps_its_nodes(rt: HostRuntime) {
    assert!(rt; keeps_two_nodes(rt.alloc()));
}
