//! A tree with watches, without a host.

use crate::trios::{is_reply, news_text, question_of};
use std::alloc::Global;
use zab_epoch::Entries;
use zk_host::WatchedTree;

/// Whether a connection's read has this reply.
fn reads(alloc: Global, tree: &mut WatchedTree, connection: u64, line: &str, text: &str) -> bool {
    match question_of(alloc, 0, line) {
        Some(question) => {
            matches!(tree.read(connection, &question), Ok(reply) if is_reply(alloc, &reply, text))
        }
        None => false,
    }
}

/// Whether a tree's news, which are taken, are these.
fn has_news(alloc: Global, tree: &mut WatchedTree, expected: &str) -> bool {
    let news = tree.take_news();
    matches!(news_text(alloc, news.as_slice()), Ok(text) if text.as_str() == expected)
}

/// Whether a machine in the state of a tree has applied up to this zxid.
fn is_copied(alloc: Global, tree: &WatchedTree, last: i64) -> bool {
    matches!(tree.machine(alloc), Ok(machine) if machine.last() == Ok(last))
}

#[test]
fn an_empty_tree_has_no_sessions_and_no_news(rt: HostRuntime) {
    let alloc = rt.alloc();
    let mut tree = WatchedTree::new(alloc);
    assert_eq!(rt; tree.deliver_all(alloc, &Entries::none()), Ok(()));
    assert_eq!(rt; tree.last(), 0);
    assert!(rt; is_copied(alloc, &tree, 0));
    assert!(rt; reads(alloc, &mut tree, 7, "get -w \"/\"", "err -112"));
    tree.close_connection(7);
    assert!(rt; has_news(alloc, &mut tree, ""));
}
