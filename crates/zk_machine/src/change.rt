ghost use Rattle.std.specs.Prelude.{◌≡◌, ◌++◌, ◌∷◌, [], OnOk};
ghost use Rattle.std.specs.FinMap as finite;
ghost use Rattle.zk_machine.specs.Changes.{compared, changed_unless};

use zk_path::{NoMemory, Path};
use zk_table::Node;
use zk_tree::Tree;

/// The kind of a change at a path. The numbers are those of the 3.4 server's events.
///
/// ZooKeeper Programmer's Guide, "ZooKeeper Watches".
#[derive(Clone, Copy, Debug, PartialEq, Eq)]
pub enum ChangeKind {
    /// The node was created: `NodeCreated`.
    Created = 1,
    /// The node was deleted: `NodeDeleted`.
    Deleted = 2,
    /// The node's mzxid changed: `NodeDataChanged`.
    DataChanged = 3,
    /// The node's pzxid changed: `NodeChildrenChanged`.
    ChildrenChanged = 4,
}

/// A change at a path.
#[derive(Debug, Drop)]
pub struct Change {
    pub path: Path,
    pub kind: ChangeKind,
}

/// Appends the changes at a path, from the node before and the tree after.
pub(crate) fn compare(
    changes: &mut Vec<Change>,
    path: &Path,
    before: &Option<Node>,
    after: &Tree,
) -> Result<(), NoMemory>
    ensures { OnOk result (changes.new.items ≡ changes.old.items ++ compared path.now before.now (finite.get after.now path.now)) }
{
    match (before, after.get(path)) {
        (None, None) => Ok(()),
        (None, Some(_)) => tell_unless(changes, false, path, ChangeKind::Created),
        (Some(_), None) => tell_unless(changes, false, path, ChangeKind::Deleted),
        (Some(before), Some(after)) => {
            let same = before.mzxid == after.mzxid;
            tell_unless(changes, same, path, ChangeKind::DataChanged)?;
            let same = before.pzxid == after.pzxid;
            tell_unless(changes, same, path, ChangeKind::ChildrenChanged)
        }
    }
}

/// Appends a change unless `same`.
fn tell_unless(
    changes: &mut Vec<Change>,
    same: bool,
    path: &Path,
    kind: ChangeKind,
) -> Result<(), NoMemory>
    ensures { OnOk result (changes.new.items ≡ changes.old.items ++ changed_unless same path.now kind) }
{
    if same {
        return Ok(());
    }
    let path = path.copy()?;
    changes.push(Change { path, kind })?;
    Ok(())
}
