//! What frames ask, and reads of many nodes.

use crate::traffic::{AUTH, CLOSE, GET_DATA, REMOVE_WATCHES};
use std::alloc::Global;
use std::fmt::Debug;
use zk_client_session::{Link, descendant_count, ephemerals};
use zk_path::Path;
use zk_tree::Tree;

/// Whether the debug format of a value, field by field, is `shown`.
fn is_shown<T: Debug>(alloc: Global, value: &T, shown: &str) -> bool {
    matches!(format!(in alloc; "{value:?}"), Ok(text) if text.as_str() == shown)
}

/// The session 7 has proved the password of `u` before it sends a frame.
fn is_taken(alloc: Global, frame: &[u8], shown: &str) -> bool {
    let mut link = Link::new(alloc, 7, 5);
    let authenticated = link.take(alloc, AUTH).is_ok();
    match link.take(alloc, frame) {
        Ok(action) => authenticated && is_shown(alloc, &action, shown),
        Err(_) => false,
    }
}

const READ: &str =
    "Asks { ask: Read { session: 7, seen: 5, auths: Ids { ids: [Id { scheme: Text { text: \"digest\" }, id: Text { text: \"u:Jq7wMyA/w2Vd5WIDAKdu4OIIFEQ=\" } }] }, call: GetData { path: Path { alloc: Global, text: \"/f\" } }, watch: true }, expected: ExpectedReply { xid: 6, kind: Data } }";

const WRITE: &str =
    "Asks { ask: Write { session: 7, cxid: 18, auths: Ids { ids: [Id { scheme: Text { text: \"digest\" }, id: Text { text: \"u:Jq7wMyA/w2Vd5WIDAKdu4OIIFEQ=\" } }] }, request: CloseSession }, expected: ExpectedReply { xid: 18, kind: Closed } }";

const REMOVE: &str =
    "Asks { ask: RemoveWatches { path: Path { alloc: Global, text: \"/j\" }, kind: Children }, expected: ExpectedReply { xid: 9, kind: WatchesRemoved } }";

const UNKNOWN: &str = "Replies(Unimplemented { xid: 6 })";

const UNREADABLE: &str = "Replies(Rejected { xid: 6, code: -5 })";

/// A header of type 19, which is unknown.
const CREATE_CONTAINER: &[u8] = b"\0\0\0\x06\0\0\0\x13";

/// A `getData` whose path is too short.
const SHORT_GET_DATA: &[u8] = b"\0\0\0\x06\0\0\0\x04\0\0\0\x02/";

const SHORT_HEADER: &[u8] = b"\0\0\0\x06";

#[test]
fn frames_ask(rt: HostRuntime) {
    let cases = [
        (GET_DATA, READ),
        (CLOSE, WRITE),
        (REMOVE_WATCHES, REMOVE),
        (CREATE_CONTAINER, UNKNOWN),
        (SHORT_GET_DATA, UNREADABLE),
        (SHORT_HEADER, "Closes"),
    ];
    for (frame, shown) in cases {
        assert!(rt; is_taken(rt.alloc(), frame, shown));
    }
}

/// The texts of a new tree's paths that a read of many nodes gives: none is ephemeral.
fn are_none_ephemeral(alloc: Global, tree: &Tree) -> bool {
    matches!(ephemerals(alloc, tree, 7, "/"), Ok(paths) if paths.as_slice().is_empty())
}

/// Whether the root of a new tree has two nodes below it, and `/zookeeper/quota` none.
fn are_counted(alloc: Global, tree: &Tree) -> bool {
    count_below(alloc, tree, "/") == Some(2)
        && count_below(alloc, tree, "/zookeeper") == Some(1)
        && count_below(alloc, tree, "/zookeeper/quota") == Some(0)
}

fn count_below(alloc: Global, tree: &Tree, path: &str) -> Option<i32> {
    let path = Path::read(alloc, path).ok()?;
    descendant_count(alloc, tree, &path).ok()
}

#[test]
fn trees_are_read(rt: HostRuntime) {
    let tree = Tree::new(rt.alloc());
    assert!(rt; matches!(&tree, Ok(tree) if are_none_ephemeral(rt.alloc(), tree)));
    assert!(rt; matches!(&tree, Ok(tree) if are_counted(rt.alloc(), tree)));
}
