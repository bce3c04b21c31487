//! The last transaction for each path.
ghost use Rattle.std.specs.Prelude.{◌≡◌, ◌∷◌, [], OnOk, map};
ghost use Rattle.std.specs.BTreeMap.{is_at};
ghost use Rattle.std.specs.Map.{lookup};
ghost use Rattle.zk_tree_changes.specs.Changes.{stamped};
ghost use Rattle.zk_table.specs.States.{path_cmp};

use std::alloc::Global;
use std::collections::BTreeMap;
use std::marker::Model;
use zk_path::NoMemory;

/// A transaction.
#[derive(Clone, Copy, Debug, PartialEq, Eq)]
pub struct Stamp {
    pub zxid: i64,
    /// Milliseconds since 1970.
    pub time: i64,
}

/// The last transaction for each path.
#[derive(Drop)]
pub(crate) struct Stamps {
    alloc: Global,
    stamps: BTreeMap<String, Stamp>,
}

impl Model for Stamps {
    ghost use Rattle.std.specs.Prelude.{map};
    ghost use Rattle.std.specs.String.{string_bytes};
    ghost use Rattle.zk_tree_changes.specs.Changes.{Stamped};

    ghost Value = { Stamped };

    ghost view = { λ stamps. map (λ entry. (string_bytes entry.0, entry.1)) stamps.stamps.entries };
}

impl Stamps {
    /// No path yet.
    pub(crate) fn new(alloc: Global) -> Stamps
        ensures { result ≡ [] }
    {
        Stamps {
            alloc,
            stamps: BTreeMap::new(alloc),
        }
    }

    pub(crate) fn get(&self, path: &str) -> Option<Stamp>
        ensures { result ≡ lookup (is_at (path_cmp path.now)) self.now }
    {
        self.stamps.get(path).copied()
    }

    fn set(&mut self, stamp: Stamp, path: &str) -> Result<(), NoMemory>
        ensures { OnOk result (self.new ≡ stamped self.old stamp (path.now ∷ [])) }
    {
        let text = String::from_str(self.alloc, path)?;
        self.stamps.insert(text, stamp)?;
        Ok(())
    }

    /// Sets the last transaction of each of these paths.
    pub(crate) fn set_all(&mut self, stamp: Stamp, paths: &[&str]) -> Result<(), NoMemory>
        ensures { OnOk result (self.new ≡ stamped self.old stamp (map (λ path. path.now) paths.now)) }
    {
        for path in paths {
            self.set(stamp, path)?;
        }
        Ok(())
    }
}
