//! Watches of an earlier connection, and reads of many nodes.

use crate::traffic::{CHANGED_EVENT, SET_WATCHES, SET_WATCHES_REPLY};
use std::alloc::Global;
use zk_acl::{Stat, Text};
use zk_client_session::{
    Action, Ask, ExpectedReply, Link, Reply, SavedWatch, SavedWatchKind, SavedWatches, WatchEvent,
    WatchEvents,
};
use zk_machine::ChangeKind;
use zk_table::{ReadCall, ReadReply};

/// The stat of a node whose content changed at 5 and whose children changed at 9.
const STAT: Stat = Stat {
    czxid: 2,
    mzxid: 5,
    ctime: 0,
    mtime: 0,
    version: 0,
    cversion: 0,
    aversion: 0,
    ephemeral_owner: 0,
    data_length: 0,
    num_children: 0,
    pzxid: 9,
};

/// The event of a saved watch, if the client has seen a transaction and the node is there.
fn event_of(alloc: Global, kind: SavedWatchKind, seen: i64, found: bool) -> Option<ChangeKind> {
    let path = Text::new(String::new(alloc));
    let found = if found {
        Some(ReadReply::Found(STAT))
    } else {
        None
    };
    SavedWatch { kind, path }.event(seen, &found)
}

#[test]
fn saved_watches_fire_if_something_has_happened(rt: HostRuntime) {
    let alloc = rt.alloc();
    let cases = [
        (SavedWatchKind::Data, 4, true, Some(ChangeKind::DataChanged)),
        (SavedWatchKind::Data, 5, true, None),
        (SavedWatchKind::Data, 5, false, Some(ChangeKind::Deleted)),
        (SavedWatchKind::Exist, 9, true, Some(ChangeKind::Created)),
        (SavedWatchKind::Exist, 4, false, None),
        (
            SavedWatchKind::Child,
            8,
            true,
            Some(ChangeKind::ChildrenChanged),
        ),
        (SavedWatchKind::Child, 9, true, None),
        (SavedWatchKind::Child, 9, false, Some(ChangeKind::Deleted)),
    ];
    for (kind, seen, found, event) in cases {
        assert!(rt; event_of(alloc, kind, seen, found) == event);
    }
}

/// Whether a read is of `/j`, and of its children or its existence.
fn is_at(call: &ReadCall, children: bool) -> bool {
    match call {
        ReadCall::GetChildren { path } => children && path.text() == "/j",
        ReadCall::Exists { path } => !children && path.text() == "/j",
        _ => false,
    }
}

/// Whether the watch is probed by a read of existence, and set by a read of children.
fn is_set(alloc: Global, watch: &SavedWatch) -> bool {
    let probed = matches!(&watch.probe(alloc), Ok(Some(call)) if is_at(call, false));
    let set = matches!(&watch.setting_call(alloc), Ok(Some(call)) if is_at(call, true));
    probed && set
}

/// Whether the third watch of these is that of children.
fn are_saved(alloc: Global, watches: &SavedWatches) -> bool {
    match watches.as_slice() {
        [_, _, watch] => watch.kind == SavedWatchKind::Child && is_set(alloc, watch),
        _ => false,
    }
}

fn watches_in(ask: Ask) -> Option<SavedWatches> {
    match ask {
        Ask::SetWatches { watches, .. } => Some(watches),
        _ => None,
    }
}

fn saved_by(alloc: Global, link: &mut Link) -> Option<(SavedWatches, ExpectedReply)> {
    match link.take(alloc, SET_WATCHES) {
        Ok(Action::Asks { ask, expected }) => {
            let watches = watches_in(ask)?;
            Some((watches, expected))
        }
        _ => None,
    }
}

/// Whether the reply comes after the event of one watch, which has these bytes.
fn is_sent(alloc: Global, link: &mut Link, expected: ExpectedReply, event: WatchEvent) -> bool {
    let mut events = Vec::new(alloc);
    let mut out = Vec::new(alloc);
    let mut bytes = Vec::new(alloc);
    if events.push(event).is_err() {
        return false;
    }
    let events = WatchEvents::new(events);
    bytes.extend_from_slice(CHANGED_EVENT).is_ok()
        && bytes.extend_from_slice(SET_WATCHES_REPLY).is_ok()
        && link
            .tell(
                alloc,
                &mut out,
                expected,
                Reply::WatchesSet { events, zxid: 13 },
            )
            .is_ok()
        && out.as_slice() == bytes.as_slice()
        && link.seen() == 13
}

fn fired(alloc: Global) -> Option<WatchEvent> {
    let path = Text::read(alloc, "/f").ok()?;
    let watch = SavedWatch {
        kind: SavedWatchKind::Data,
        path,
    };
    watch.fired(ChangeKind::DataChanged).ok()
}

/// Whether saved watches are read, and their events come before the reply.
fn are_watches_set(alloc: Global) -> bool {
    let mut link = Link::new(alloc, 7, 0);
    match (saved_by(alloc, &mut link), fired(alloc)) {
        (Some((watches, expected)), Some(event)) => {
            are_saved(alloc, &watches) && is_sent(alloc, &mut link, expected, event)
        }
        _ => false,
    }
}

#[test]
fn watches_are_set_after_their_events(rt: HostRuntime) {
    assert!(rt; are_watches_set(rt.alloc()));
}
