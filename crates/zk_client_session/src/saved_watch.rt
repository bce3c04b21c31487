ghost use Rattle.std.specs.Prelude.{◌≡◌, ◌++◌, map, IfOk, OnOk, option_map};
ghost use Rattle.zk_client_session.specs.Links.{path_in};
ghost use Rattle.zk_client_session.specs.SavedWatches.{saved, saved_in, found_stat, event_if, event_by, setting_call};
ghost use Rattle.zk_table.specs.declared.read.ReadCall.TheVariants as calls;

use crate::paths::path_in;
use crate::reply::WatchEvent;
use std::alloc::Global;
use std::marker::Model;
use zk_acl::{Stat, Text};
use zk_frames::SetWatches;
use zk_machine::ChangeKind;
use zk_path::NoMemory;
use zk_table::{Names, ReadCall, ReadReply};

/// A watch that the client had at another connection.
#[derive(Debug, Drop)]
pub struct SavedWatch {
    pub kind: SavedWatchKind,
    /// Any text.
    pub path: Text,
}

/// What a saved watch waits for.
#[derive(Clone, Copy, Debug, PartialEq, Eq)]
pub enum SavedWatchKind {
    /// A change of the node's content, or its end.
    Data,
    /// The creation of a node.
    Exist,
    /// A change of the node's children, or its end.
    Child,
}

impl SavedWatch {
    /// The read that finds out whether the watch fires at once; `None` for an invalid path.
    pub fn probe(&self, alloc: Global) -> Result<Option<ReadCall>, NoMemory>
        ensures { IfOk result (λ call. call ≡ option_map calls.Exists (path_in self.now.path)) }
    {
        match path_in(alloc, self.path.as_str())? {
            Some(path) => Ok(Some(ReadCall::Exists { path })),
            None => Ok(None),
        }
    }

    /// The event that has happened since the client saw a transaction, by what the probe found.
    pub fn event(&self, seen: i64, found: &Option<ReadReply>) -> Option<ChangeKind>
        ensures { result ≡ event_by self.now.kind seen (found_stat found.now) }
    {
        event_by(self.kind, seen, found_stat(found))
    }

    /// The read that sets the watch; `None` for an invalid path.
    pub fn setting_call(&self, alloc: Global) -> Result<Option<ReadCall>, NoMemory>
        ensures { IfOk result (λ call. call ≡ option_map (setting_call self.now.kind) (path_in self.now.path)) }
    {
        let Some(path) = path_in(alloc, self.path.as_str())? else {
            return Ok(None);
        };
        match self.kind {
            SavedWatchKind::Child => Ok(Some(ReadCall::GetChildren { path })),
            SavedWatchKind::Data | SavedWatchKind::Exist => Ok(Some(ReadCall::Exists { path })),
        }
    }

    /// The event of this watch.
    pub fn fired(&self, kind: ChangeKind) -> Result<WatchEvent, NoMemory>
        ensures { IfOk result (λ event. event ≡ record { kind = kind; path = self.now.path }) }
    {
        let path = self.path.copy()?;
        Ok(WatchEvent { kind, path })
    }
}

fn found_stat(found: &Option<ReadReply>) -> Option<Stat>
    ensures { result ≡ found_stat found.now }
{
    match found {
        Some(ReadReply::Found(stat)) => Some(*stat),
        _ => None,
    }
}

fn event_if(seen: i64, zxid: i64, kind: ChangeKind) -> Option<ChangeKind>
    ensures { result ≡ event_if seen zxid kind }
{
    if seen < zxid { Some(kind) } else { None }
}

fn event_by(kind: SavedWatchKind, seen: i64, stat: Option<Stat>) -> Option<ChangeKind>
    ensures { result ≡ event_by kind seen stat }
{
    match (kind, stat) {
        (SavedWatchKind::Data, Some(stat)) => event_if(seen, stat.mzxid, ChangeKind::DataChanged),
        (SavedWatchKind::Exist, Some(_)) => Some(ChangeKind::Created),
        (SavedWatchKind::Child, Some(stat)) => {
            event_if(seen, stat.pzxid, ChangeKind::ChildrenChanged)
        }
        (SavedWatchKind::Exist, None) => None,
        (SavedWatchKind::Data | SavedWatchKind::Child, None) => Some(ChangeKind::Deleted),
    }
}

/// Saved watches in order, modelled as a list.
#[derive(Debug, Drop)]
pub struct SavedWatches {
    watches: Vec<SavedWatch>,
}

impl Model for SavedWatches {
    ghost use Rattle.std.specs.Prelude.{List};
    ghost use Rattle.zk_client_session.specs.declared.saved_watch.SavedWatch.{SavedWatch};

    ghost Value = { List SavedWatch };

    ghost view = { λ it. it.watches.items };
}

impl SavedWatches {
    ghost use Rattle.std.specs.Prelude.{◌≡◌, ◌≤◌, length, take, drop, IfOk, OnOk};
    ghost use Rattle.zk_client_session.specs.SavedWatches.{saved_in};

    /// The watches of a record, in its order.
    pub(crate) fn of(alloc: Global, r: SetWatches) -> Result<SavedWatches, NoMemory>
        ensures { IfOk result (λ watches. watches ≡ saved_in r) }
    {
        let mut watches = Vec::new(alloc);
        push_saved(&mut watches, SavedWatchKind::Data, r.data_watches)?;
        push_saved(&mut watches, SavedWatchKind::Exist, r.exist_watches)?;
        push_saved(&mut watches, SavedWatchKind::Child, r.child_watches)?;
        Ok(SavedWatches { watches })
    }

    pub fn as_slice(&self) -> &[SavedWatch]
        ensures { result.now ≡ self.now }
    {
        self.watches.as_slice()
    }

    /// Their number.
    pub(crate) fn len(&self) -> usize
        ensures { result ≡ length self.now }
    {
        self.watches.len()
    }

    /// Splits off those after the first `count`.
    pub(crate) fn split_off(&mut self, count: usize) -> Result<SavedWatches, NoMemory>
        requires { count ≤ length self.old }
        ensures first { OnOk result (self.new ≡ take count self.old) }
        ensures rest { IfOk result (λ rest. rest ≡ drop count self.old) }
    {
        let watches = self.watches.split_off(count)?;
        Ok(SavedWatches { watches })
    }
}

fn push_saved(
    watches: &mut Vec<SavedWatch>,
    kind: SavedWatchKind,
    paths: Names,
) -> Result<(), NoMemory>
    ensures { OnOk result (watches.new.items ≡ watches.old.items ++ map (saved kind) paths) }
{
    for path in paths.into_vec() {
        watches.push(SavedWatch { kind, path })?;
    }
    Ok(())
}
