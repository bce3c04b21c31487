//! A history that continues from a fuzzy snapshot. What it leads to was worked out by hand.

use crate::base_tests::draft_of;
use crate::expected::{ExpectedNode, is_content};
use crate::files::{FUZZY, WINDOW};
use crate::log_file_tests::read;
use std::alloc::Global;
use zk_acl::Acls;
use zk_directory::{FileEntry, LogFile};
use zk_fold::Fold;
use zk_replay::{Draft, DraftNodes, Stage, finish, replay, take};
use zk_tree::Entry;

/// From where on the replay of `FUZZY` is exact.
const EXACT: i64 = 0x17;

/// The nodes after the zxid 18. The creation and the deletion of `/c/j` leave the pzxid of `/c`,
/// which a later transaction set. The deletion of `/old`, which is not in the file, sets that of the
/// root. The closed session 5 deletes `/e`, although 6 owns it, and 6 creates it anew.
static NODES: [ExpectedNode; 4] = [
    ExpectedNode {
        path: "/",
        content: Some(b""),
        zxids: [0, 0, 0x16],
        versions: [0, 4, 0],
        owner: 0,
    },
    ExpectedNode {
        path: "/c",
        content: Some(b"c"),
        zxids: [5, 5, 0x14],
        versions: [0, 3, 0],
        owner: 0,
    },
    ExpectedNode {
        path: "/c/k",
        content: Some(b"new"),
        zxids: [6, 0x18, 6],
        versions: [1, 0, 1],
        owner: 0,
    },
    ExpectedNode {
        path: "/e",
        content: Some(b"e"),
        zxids: [0x16, 0x16, 0x16],
        versions: [0, 0, 0],
        owner: 6,
    },
];

/// The schemes of their access control lists, whose only permissions are these.
static SCHEMES: [(&str, i32); 4] = [("world", 31), ("ip", 1), ("world", 31), ("world", 31)];

/// Whether the one entry of a list has this scheme and these permissions.
fn is_acl(acl: &Acls, scheme: &str, perms: i32) -> bool {
    matches!(acl.as_slice(), [one] if one.perms == perms && one.id.scheme.as_str() == scheme)
}

/// Whether an entry of the table is the expected node.
fn is_node(entry: &Entry<'_>, expected: &ExpectedNode) -> bool {
    let node = entry.node;
    entry.path.text() == expected.path
        && is_content(&node.content, expected.content)
        && [node.czxid, node.mzxid, node.pzxid] == expected.zxids
        && [node.version, node.creates, node.aversion] == expected.versions
        && node.owner == expected.owner
}

/// Whether the entries are those of `NODES`.
fn are_nodes(entries: &[Entry<'_>]) -> bool {
    let mut all = entries.len() == NODES.len();
    for (entry, node) in entries.iter().zip(NODES.iter()) {
        all = is_node(entry, node) && all;
    }
    for (entry, (scheme, perms)) in entries.iter().zip(SCHEMES.iter()) {
        all = is_acl(&entry.node.acl, *scheme, *perms) && all;
    }
    all
}

/// Whether a table has the nodes after the zxid 18, and the one session that is open then.
fn is_restored(table: &Fold) -> bool {
    table.last() == 0x18
        && matches!(table.entries(), Ok(entries) if are_nodes(entries.as_slice()))
        && matches!(table.sessions(), Ok(sessions) if sessions.as_slice() == [(6, 6000)].as_slice())
}

/// Takes the records of a log in turn.
fn taken(alloc: Global, stage: Stage, entries: &[FileEntry<'_>]) -> Option<Stage> {
    let mut stage = stage;
    for entry in entries {
        stage = take(alloc, stage, EXACT, &entry.newer).ok()?;
    }
    Some(stage)
}

/// The table after a log, from a draft on.
fn table_after(alloc: Global, draft: Draft, file: &LogFile<'_>) -> Option<Fold> {
    let stage = Stage::Window { draft, last: 0x10 };
    let stage = taken(alloc, stage, file.entries.as_slice())?;
    finish(alloc, stage).ok()
}

/// Whether a draft leads to the nodes after the zxid 18.
fn leads_there(alloc: Global, draft: Draft) -> bool {
    match read(alloc, WINDOW) {
        Some(file) =>
            matches!(table_after(alloc, draft, &file), Some(table) if is_restored(&table)),
        None => false,
    }
}

/// Whether `FUZZY` leads to the nodes after the zxid 18.
fn is_replayed(alloc: Global) -> bool {
    match draft_of(alloc, FUZZY) {
        Some(Ok(draft)) => leads_there(alloc, draft),
        _ => false,
    }
}

#[test]
fn a_window_is_replayed_before_the_table_goes_on(rt: HostRuntime) {
    assert!(rt; is_replayed(rt.alloc()));
}

/// The paths of a draft.
fn has_paths(nodes: &DraftNodes, paths: &[&str]) -> bool {
    let mut all = matches!(nodes.entries(), Ok(entries) if entries.len() == paths.len());
    for path in paths {
        all = nodes.contains(*path) && all;
    }
    all
}

/// Whether the first record of a log creates `/c/j`.
fn creates(draft: &mut Draft, file: &LogFile<'_>) -> bool {
    match file.entries.as_slice() {
        [first, ..] => {
            replay(draft, &first.newer).is_ok()
                && has_paths(&draft.nodes, &["/", "/c", "/c/j", "/c/k", "/e"])
        }
        [] => false,
    }
}

/// Whether a create is replayed on the draft of `FUZZY`.
fn is_created(alloc: Global) -> bool {
    match (draft_of(alloc, FUZZY), read(alloc, WINDOW)) {
        (Some(Ok(draft)), Some(file)) => {
            let mut draft = draft;
            creates(&mut draft, &file)
        }
        _ => false,
    }
}

#[test]
fn a_create_is_replayed_on_a_draft(rt: HostRuntime) {
    assert!(rt; is_created(rt.alloc()));
}
