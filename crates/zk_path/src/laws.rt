//! Laws of all paths: functions without code, whose contracts are theorems.
ghost use Rattle.zk_path.specs.PathLaws.{PathsHaveNoFault, NamesHaveNoFault, RootHasNoParent, ParentDropsTheLastName, ChildAddsAName, PathsAreChildren};

/// A text has no fault if and only if the grammar of paths accepts it.
pub fn paths_have_no_fault()
    ensures paths { PathsHaveNoFault }
    ensures names { NamesHaveNoFault }
{}

/// The parent of a path has all its names but the last. The root has no parent.
pub fn parent_drops_the_last_name()
    ensures root { RootHasNoParent }
    ensures others { ParentDropsTheLastName }
{}

/// A child's parent is the path it was built from, and each path but the root is such a child.
pub fn child_adds_a_name()
    ensures child { ChildAddsAName }
    ensures each { PathsAreChildren }
{}
