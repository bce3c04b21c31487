ghost use Rattle.std.specs.Prelude.{◌≡◌, ◌<◌, ◌≤◌, [], ◌++◌, filter, map, length, IfOk, OnOk, OnErr, IsOk, IsTrue, MatchResult};
ghost use Rattle.std.specs.List.{list_any};
ghost use Rattle.std.specs.List.Sorted.{IsStrictlySortedBy};
ghost use Rattle.zk_watch.specs.Places.{IsPlace, place_cmp, IsPartedBy, is_below, is_upto};
ghost use Rattle.zk_watch.specs.Watching.{IsWatchList, watch_cmp, is_at, waits_for, is_hit, spent_by, told_by, fired_by, left_after, with_watch, waits_at, without_session};

use crate::watch::{Fired, Watch, WatchKind};
use std::alloc::Global;
use std::cmp::Ordering;
use std::marker::Model;
use zk_machine::{Change, ChangeKind};
use zk_path::{NoMemory, Path};

/// The watches of a server's sessions, in the order of paths, then of sessions' digits.
///
/// ZooKeeper Programmer's Guide, "ZooKeeper Watches".
#[derive(Debug)]
pub struct Watches {
    entries: Vec<Watch>,
}

impl Drop for Watches {
    fn drop(self) {
        let Watches { entries: _ } = self;
    }
}

impl Model for Watches {
    ghost use Rattle.std.specs.Prelude.{List};
    ghost use Rattle.zk_watch.specs.declared.watch.Watch.{Watch};

    ghost Value = { List Watch };

    ghost use Rattle.zk_watch.specs.Watching.{IsWatchList};

    ghost view = { λ watches. watches.entries.items };

    ghost invariant = { λ watches. IsWatchList watches.entries.items };
}

/// Finds a session's watch at a path, or the position where it would be inserted.
fn position_of(watches: &[Watch], session: u64, path: &Path) -> Result<usize, usize>
    requires { IsStrictlySortedBy watch_cmp watches.now }
    ensures within { MatchResult result (λ at. at < length watches.now) (λ at. at ≤ length watches.now) }
    ensures place { IsPlace session path.now watches.now result }
{
    watches.binary_search_by(
        |watch: &Watch| -> Ordering
            ensures { result ≡ place_cmp watch.now.path watch.now.session path.entry.now session }
        {
            watch
                .path
                .text()
                .cmp(path.text())
                .then(watch.session.cmp(&session))
        },
    )
}

fn copy_of(watches: &Vec<Watch>) -> Result<Vec<Watch>, NoMemory>
    ensures { IfOk result (λ copy. copy.items ≡ watches.now.items) }
{
    let mut copy = Vec::new(*watches.allocator());
    for watch in watches {
        copy.push(watch.copy()?)?;
    }
    Ok(copy)
}

/// Counts the watches with lesser paths.
fn count_below(watches: &[Watch], path: &Path) -> usize
    requires { IsStrictlySortedBy watch_cmp watches.now }
    ensures within { result ≤ length watches.now }
    ensures parted { IsPartedBy (is_below path.now) watches.now result }
{
    watches.partition_point(|watch| watch.path.text().cmp(path.text()).is_lt())
}

/// Counts the watches with no greater path.
fn count_upto(watches: &[Watch], path: &Path) -> usize
    requires { IsStrictlySortedBy watch_cmp watches.now }
    ensures within { result ≤ length watches.now }
    ensures parted { IsPartedBy (is_upto path.now) watches.now result }
{
    watches.partition_point(|watch| watch.path.text().cmp(path.text()).is_le())
}

/// Borrows the watches at a path, which are adjacent.
fn watches_at<'a>(watches: &'a [Watch], path: &Path) -> &'a [Watch]
    requires { IsStrictlySortedBy watch_cmp watches.now }
    ensures { result.now ≡ filter (is_at path.now) watches.now }
{
    let from = count_below(watches, path);
    let to = count_upto(watches, path);
    &watches[from..to]
}

/// Whether any of these waits for such a change.
fn is_awaited(watches: &[Watch], kind: ChangeKind) -> bool
    ensures { result ≡ list_any (waits_for kind) watches.now }
{
    watches.iter().any(|watch| watch.waits_for(kind))
}

/// Whether a watch fires at this change.
fn is_hit(watches: &[Watch], change: &Change) -> bool
    requires { IsStrictlySortedBy watch_cmp watches.now }
    ensures { result ≡ list_any (is_hit change.now) watches.now }
{
    is_awaited(watches_at(watches, &change.path), change.kind)
}

/// Whether a watch fires at any of these changes.
fn are_hit(watches: &[Watch], changes: &[Change]) -> bool
    requires { IsStrictlySortedBy watch_cmp watches.now }
    ensures { result ≡ list_any (λ change. list_any (is_hit change) watches.now) changes.now }
{
    changes.iter().any(|change| is_hit(watches, change))
}

/// Fires a change's events, in order.
fn tell(watches: &[Watch], change: &Change, told: &mut Vec<Fired>) -> Result<(), NoMemory>
    requires { IsStrictlySortedBy watch_cmp watches.now }
    ensures { OnOk result (told.new.items ≡ told.old.items ++ told_by change.now watches.now) }
{
    for watch in watches_at(watches, &change.path) {
        if watch.waits_for(change.kind) {
            let path = change.path.copy()?;
            told.push(Fired {
                session: watch.session,
                kind: change.kind,
                path,
            })?;
        }
    }
    Ok(())
}

/// Removes the watches that a change has fired.
fn spend(watches: &mut [Watch], change: &Change)
    requires { IsStrictlySortedBy watch_cmp watches.old }
    ensures { watches.new ≡ map (spent_by change.now) watches.old }
{
    let from = count_below(watches, &change.path);
    let to = count_upto(watches, &change.path);
    for watch in &mut watches[from..to] {
        watch.spend(change.kind);
    }
}

impl Watches {
    pub fn new(alloc: Global) -> Watches
        ensures { result ≡ [] }
    {
        Watches {
            entries: Vec::new(alloc),
        }
    }

    /// Borrows the watches, in order.
    pub fn as_slice(&self) -> &[Watch]
        ensures watches { result.now ≡ self.now }
        ensures in_order { IsWatchList self.now }
    {
        self.entries.as_slice()
    }

    /// Sets a session's watch of this kind at a path: it fires once. A watch that is set twice is
    /// one watch. After [`NoMemory`] nothing has changed.
    pub fn set(&mut self, session: u64, kind: WatchKind, path: &Path) -> Result<(), NoMemory>
        ensures set { OnOk result (self.new ≡ with_watch session kind path.now self.old) }
        // If the session already has a watch at the path, nothing is allocated.
        ensures joined { IsTrue (waits_at session path.now self.old) → IsOk result }
        ensures unchanged { OnErr result (self.new ≡ self.old) }
    {
        match position_of(&self.entries, session, path) {
            Ok(at) => self.entries[at].join(kind),
            Err(at) => {
                let path = path.copy()?;
                self.entries.insert(at, Watch::first(session, kind, path))?;
            }
        }
        Ok(())
    }

    /// Fires each change in turn at the sessions that still wait for it, and returns the events: in
    /// the order of changes, and for each change in the order of the sessions' digits. A fired
    /// watch is removed. After [`NoMemory`] nothing has changed.
    pub fn fire(&mut self, changes: &[Change]) -> Result<Vec<Fired>, NoMemory>
        ensures told { IfOk result (λ told. told.items ≡ fired_by changes.now self.old) }
        ensures left { OnOk result (self.new ≡ left_after changes.now self.old) }
        // If no watch fires, nothing is allocated.
        ensures quiet { fired_by changes.now self.old ≡ [] → IsOk result }
        ensures unchanged { OnErr result (self.new ≡ self.old) }
    {
        let mut told = Vec::new(*self.entries.allocator());
        if !are_hit(&self.entries, changes) {
            return Ok(told);
        }
        let mut left = copy_of(&self.entries)?;
        for change in changes {
            tell(&left, change, &mut told)?;
            spend(&mut left, change);
        }
        left.retain(|watch| watch.is_live());
        self.entries = left;
        Ok(told)
    }

    /// Removes a session's watches.
    pub fn drop_session(&mut self, session: u64)
        ensures { self.new ≡ without_session session self.old }
    {
        self.entries.retain(|watch| watch.session != session);
    }
}
