ghost use Rattle.std.specs.Prelude.{◌≡◌, Some, OnErr, OnOk};
ghost use Rattle.zk_client_session.specs.ConnectionWatches.{after_read, fires, has_any, is_of_type, kind_set, left_by, no_watches, with_watch, without_any};
ghost use Rattle.zk_watch.specs.Watching.{hears};

use crate::ask::WatcherType;
use crate::path_set::PathSet;
use std::alloc::Global;
use zk_machine::ChangeKind;
use zk_path::{NoMemory, Path};
use zk_table::codes::NO_NODE;
use zk_table::{ReadCall, ReadReply};
use zk_watch::WatchKind;

fn hears(kind: WatchKind, change: ChangeKind) -> bool
    ensures { result ≡ hears kind change }
{
    match (kind, change) {
        (_, ChangeKind::Deleted) => true,
        (WatchKind::Content, ChangeKind::Created | ChangeKind::DataChanged) => true,
        (WatchKind::Children, ChangeKind::ChildrenChanged) => true,
        _ => false,
    }
}

fn is_of_type(of: WatcherType, kind: WatchKind) -> bool
    ensures { result ≡ is_of_type of kind }
{
    match (of, kind) {
        (WatcherType::Any, _) => true,
        (WatcherType::Data, WatchKind::Content) => true,
        (WatcherType::Children, WatchKind::Children) => true,
        _ => false,
    }
}

/// The kind of watch that a read with this reply sets.
fn kind_set(call: &ReadCall, reply: &ReadReply) -> Option<WatchKind>
    ensures { result ≡ kind_set call.now reply.now }
{
    match (call, reply) {
        (ReadCall::GetData { .. }, ReadReply::Content { .. }) => Some(WatchKind::Content),
        (ReadCall::Exists { .. }, ReadReply::Found(_)) => Some(WatchKind::Content),
        (ReadCall::Exists { .. }, ReadReply::Refused(code)) if *code == NO_NODE => Some(
            WatchKind::Content,
        ),
        (ReadCall::GetChildren { .. }, ReadReply::Children { .. }) => Some(WatchKind::Children),
        _ => None,
    }
}

/// The watches of one connection: the paths at which it waits. Its server has these, and maybe others
/// that the client has removed. Before an event of the server is sent, call
/// [`ConnectionWatches::fire`].
///
/// ZooKeeper Programmer's Guide, "Remove Watches".
#[derive(Debug, Drop)]
pub struct ConnectionWatches {
    /// For changes of a node's content, or its end.
    content: PathSet,
    /// For changes of a node's children, or its end.
    children: PathSet,
}

impl ConnectionWatches {
    pub fn new(alloc: Global) -> ConnectionWatches
        ensures { result ≡ no_watches }
    {
        ConnectionWatches {
            content: PathSet::new(alloc),
            children: PathSet::new(alloc),
        }
    }

    /// Adds the watch that a read with this reply has set, if any.
    pub fn set(&mut self, call: &ReadCall, reply: &ReadReply) -> Result<(), NoMemory>
        ensures set { OnOk result (self.new ≡ after_read call.now reply.now self.old) }
        ensures unchanged { OnErr result (self.new ≡ self.old) }
    {
        match kind_set(call, reply) {
            Some(kind) => self.add(kind, call.path()),
            None => Ok(()),
        }
    }

    fn add(&mut self, kind: WatchKind, path: &Path) -> Result<(), NoMemory>
        ensures set { OnOk result (self.new ≡ with_watch (Some kind) path.now self.old) }
        ensures unchanged { OnErr result (self.new ≡ self.old) }
    {
        match kind {
            WatchKind::Content => self.content.insert(path.text()),
            WatchKind::Children => self.children.insert(path.text()),
        }
    }

    /// Whether a change fires one of the watches; those that it fires are removed.
    pub fn fire(&mut self, change: ChangeKind, path: &str) -> bool
        ensures fires { result ≡ fires change path.now self.old }
        ensures left { self.new ≡ left_by change path.now self.old }
    {
        let content = self
            .content
            .remove_if(hears(WatchKind::Content, change), path);
        let children = self
            .children
            .remove_if(hears(WatchKind::Children, change), path);
        content || children
    }

    /// Removes the watches of a type at a path. Whether there were any.
    pub fn remove(&mut self, kind: WatcherType, path: &Path) -> bool
        ensures found { result ≡ has_any kind path.now self.old }
        ensures left { self.new ≡ without_any kind path.now self.old }
    {
        let content = self
            .content
            .remove_if(is_of_type(kind, WatchKind::Content), path.text());
        let children = self
            .children
            .remove_if(is_of_type(kind, WatchKind::Children), path.text());
        content || children
    }
}
