//! Tables are unchanged after an allocation failure.

ghost use Rattle.std.specs.Prelude.{◌≡◌, pos, IsTrue, Some, false};
ghost use Rattle.std.specs.FinMap as finite;
ghost use Rattle.std.specs.Option.{ForSome};
ghost use Rattle.zk_path.specs.Paths.{parent_of};
ghost use Rattle.zk_tree.specs.Trees.{owner_at};

use crate::machines::{nodes, txns};
use crate::seen::Seen;
use std::alloc::Global;
use zk_log::{Journal, NotPushed};
use zk_machine::{Change, ChangeKind};
use zk_path::{NoMemory, Path};
use zk_prepare::Tracker;
use zk_records::size;
use zk_table::{Node, Txn};
use zk_tree::{Refused, Tree};
use zk_watch::{Fired, WatchKind, Watches};

fn path_of(alloc: Global, text: &str) -> Result<Path, NoMemory> {
    Path::read(alloc, text).map_err(|_| NoMemory)
}

// ---- the sessions of a leader

/// Returns the sessions that ever expire, in order.
fn over(tracker: &Tracker) -> Result<Vec<i64>, NoMemory> {
    tracker.expired(1_000_000)
}

/// Touches a session.
fn touched(tracker: &mut Tracker, session: i64) -> Result<Option<bool>, NoMemory> {
    let before = over(tracker)?;
    if tracker.touch(session, 4000, 1000).is_ok() {
        return Ok(None);
    }
    Ok(Some(over(tracker)?.as_slice() == before.as_slice()))
}

pub(crate) fn touch(alloc: Global) -> Result<Seen, NoMemory> {
    let mut tracker = Tracker::new(alloc);
    for session in 1..=9 {
        if let Some(holds) = touched(&mut tracker, session)? {
            return Ok(Seen::refused(holds));
        }
    }
    Ok(Seen::done(over(&tracker)?.len() == 9))
}

// ---- watches

/// Returns the watches in debug format.
fn shown(alloc: Global, watches: &Watches) -> Result<String, NoMemory> {
    Ok(format!(in alloc; "{:?}", watches.as_slice())?)
}

/// Paths of watches.
const PATHS: [&str; 5] = ["/a", "/", "/a/b", "/c", "/a"];

/// Sets a watch of another session at a path.
fn waits(
    alloc: Global,
    watches: &mut Watches,
    session: u64,
    path: &str,
) -> Result<Option<bool>, NoMemory> {
    let before = shown(alloc, watches)?;
    let path = path_of(alloc, path)?;
    if watches.set(session, WatchKind::Content, &path).is_ok() {
        return Ok(None);
    }
    Ok(Some(shown(alloc, watches)?.as_str() == before.as_str()))
}

/// Sets each watch; if one fails to allocate, returns whether it left all unchanged.
fn wait_all(alloc: Global, watches: &mut Watches) -> Result<Option<bool>, NoMemory> {
    for (session, path) in PATHS.iter().enumerate() {
        if let Some(holds) = waits(alloc, watches, session as u64, path)? {
            return Ok(Some(holds));
        }
    }
    Ok(None)
}

pub(crate) fn set(alloc: Global) -> Result<Seen, NoMemory> {
    let mut watches = Watches::new(alloc);
    match wait_all(alloc, &mut watches)? {
        Some(holds) => Ok(Seen::refused(holds)),
        None => Ok(Seen::done(watches.as_slice().len() == PATHS.len())),
    }
}

/// Changes the content at `/a`, which two sessions watch.
pub(crate) fn fire(alloc: Global) -> Result<Seen, NoMemory> {
    let mut watches = Watches::new(alloc);
    if wait_all(alloc, &mut watches)?.is_some() {
        return Err(NoMemory);
    }
    let before = shown(alloc, &watches)?;
    let change = Change {
        path: path_of(alloc, "/a")?,
        kind: ChangeKind::DataChanged,
    };
    match watches.fire(&[change]) {
        Ok(told) => Ok(Seen::done(told.len() == 2 && watches.as_slice().len() == 3)),
        Err(NoMemory) => Ok(Seen::refused(shown(alloc, &watches)?.as_str() == before.as_str())),
    }
}

// ---- a tree

/// Whether a node may be put at a path.
fn can_put(tree: &Tree, path: &Path) -> bool
    ensures free { IsTrue result → finite.contains_key tree.now path.now ≡ false }
    ensures below { IsTrue result → ForSome (parent_of path.now) (λ parent. owner_at tree.now parent ≡ Some (pos 0)) }
{
    let Some(parent) = path.parent() else {
        return false;
    };
    let Some(above) = tree.get_by_text(parent) else {
        return false;
    };
    above.owner == 0 && tree.get(path).is_none()
}

/// Puts a node at a path. If that fails to allocate, returns whether the tree is unchanged, and
/// path and node are returned.
fn is_put(alloc: Global, tree: &mut Tree, text: &str) -> Result<Option<bool>, NoMemory> {
    let before = nodes(alloc, tree)?;
    let path = path_of(alloc, text)?;
    let node = Node::first(alloc)?;
    if !can_put(tree, &path) {
        return Ok(Some(false));
    }
    match tree.put(path, node) {
        Ok(()) => Ok(None),
        Err(Refused { path, node }) => Ok(Some(
            path.text() == text
                && node.owner == 0
                && nodes(alloc, tree)?.as_str() == before.as_str(),
        )),
    }
}

/// Puts nodes into a tree, up to the first that fails to allocate.
fn put_each(alloc: Global, tree: &mut Tree) -> Result<Seen, NoMemory> {
    for text in &["/a", "/b", "/a/b", "/a/c", "/c", "/d"] {
        if let Some(holds) = is_put(alloc, tree, text)? {
            return Ok(Seen::refused(holds));
        }
    }
    Ok(Seen::Done)
}

pub(crate) fn put(alloc: Global) -> Result<Seen, NoMemory> {
    let mut tree = Tree::new(alloc)?;
    put_each(alloc, &mut tree)
}

// ---- a journal

/// Appends a transaction; `None` if its zxid is not above the last one's.
fn append(journal: &mut Journal, txn: Txn) -> Option<Result<(), NotPushed>> {
    if txn.zxid <= journal.last_zxid() || size(&txn) > 16_777_216 {
        return None;
    }
    Some(journal.push(txn))
}

/// Appends a transaction. If that fails to allocate, returns whether the journal is unchanged, and
/// the transaction is returned.
fn is_pushed(journal: &mut Journal, txn: Txn, before: &[u8]) -> Option<bool> {
    let (count, zxid) = (journal.txns().len(), txn.zxid);
    match append(journal, txn) {
        None => Some(false),
        Some(Ok(())) => None,
        Some(Err(NotPushed { txn })) => Some(
            txn.zxid == zxid && journal.txns().len() == count && journal.bytes() == before,
        ),
    }
}

pub(crate) fn push(alloc: Global) -> Result<Seen, NoMemory> {
    let mut journal = Journal::new(alloc);
    for txn in txns(alloc)? {
        let before = Vec::from_slice(alloc, journal.bytes())?;
        if let Some(holds) = is_pushed(&mut journal, txn, before.as_slice()) {
            return Ok(Seen::refused(holds));
        }
    }
    Ok(Seen::Done)
}
