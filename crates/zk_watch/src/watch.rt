ghost use Rattle.std.specs.Prelude.{◌≡◌, IfOk};
ghost use Rattle.zk_watch.specs.Watching.{hears, waits_for, spent, is_live, first_watch, joined};

use zk_machine::ChangeKind;
use zk_path::{NoMemory, Path};

/// The part of a node that a watch waits for.
///
/// ZooKeeper Programmer's Guide, "ZooKeeper Watches": data watches and child watches.
#[derive(Clone, Copy, Debug, PartialEq, Eq)]
pub enum WatchKind {
    /// Fires when the node is created, deleted, or gets new content; set by reads of content and by
    /// Exists.
    Content,
    /// Fires when the node is deleted, or a child is created or deleted; set by GetChildren.
    Children,
}

/// A session's watches at a path; at least one of the two kinds.
#[derive(Debug, Drop)]
pub struct Watch {
    pub path: Path,
    /// The unsigned number that the session's sixteen digits write.
    pub session: u64,
    pub content: bool,
    pub children: bool,
}

/// A fired event: its session, kind and path.
#[derive(Debug, Drop)]
pub struct Fired {
    /// The unsigned number that the session's sixteen digits write.
    pub session: u64,
    pub kind: ChangeKind,
    pub path: Path,
}

impl WatchKind {
    /// Whether such a change of its node fires a watch of this kind.
    fn hears(self, kind: ChangeKind) -> bool
        ensures { result ≡ hears self kind }
    {
        match self {
            WatchKind::Content => match kind {
                ChangeKind::Created | ChangeKind::Deleted | ChangeKind::DataChanged => true,
                ChangeKind::ChildrenChanged => false,
            },
            WatchKind::Children => match kind {
                ChangeKind::Deleted | ChangeKind::ChildrenChanged => true,
                ChangeKind::Created | ChangeKind::DataChanged => false,
            },
        }
    }
}

impl Watch {
    /// A session's watches at a path after setting one.
    pub(crate) fn first(session: u64, kind: WatchKind, path: Path) -> Watch
        ensures { result ≡ first_watch session kind path }
    {
        Watch {
            path,
            session,
            content: kind == WatchKind::Content,
            children: kind == WatchKind::Children,
        }
    }

    /// Adds a watch of this kind.
    pub(crate) fn join(&mut self, kind: WatchKind)
        ensures { self.new ≡ joined (first_watch self.old.session kind self.old.path) self.old }
    {
        match kind {
            WatchKind::Content => self.content = true,
            WatchKind::Children => self.children = true,
        }
    }

    pub(crate) fn copy(&self) -> Result<Watch, NoMemory>
        ensures { IfOk result (λ copy. copy ≡ self.now) }
    {
        Ok(Watch {
            path: self.path.copy()?,
            session: self.session,
            content: self.content,
            children: self.children,
        })
    }

    /// Whether such a change of the node fires a watch here.
    pub(crate) fn waits_for(&self, kind: ChangeKind) -> bool
        ensures { result ≡ waits_for kind self.now }
    {
        self.content && WatchKind::Content.hears(kind)
            || self.children && WatchKind::Children.hears(kind)
    }

    /// Removes what such a change fires.
    pub(crate) fn spend(&mut self, kind: ChangeKind)
        ensures { self.new ≡ spent kind self.old }
    {
        self.content = self.content && !WatchKind::Content.hears(kind);
        self.children = self.children && !WatchKind::Children.hears(kind);
    }

    /// Whether any watch is left.
    pub(crate) fn is_live(&self) -> bool
        ensures { result ≡ is_live self.now }
    {
        self.content || self.children
    }
}
