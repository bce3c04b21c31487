ghost use Rattle.std.specs.Prelude.{◌≡◌, OnOk};
ghost use Rattle.std.specs.FinMap as finite;

use std::alloc::Global;
use std::collections::BTreeSet;
use std::marker::Model;
use zk_path::NoMemory;

/// A set of paths, as texts.
#[derive(Drop)]
pub(crate) struct PathSet {
    alloc: Global,
    pub(crate) texts: BTreeSet<String>,
}

impl Model for PathSet {
    ghost use Rattle.std.specs.Coded.{coded_list, coded_ℕ};
    ghost use Rattle.std.specs.FinSet as finset;
    ghost use Rattle.zk_tree.specs.Views.{PathKeys, set_of};

    ghost Value = { PathKeys };

    ghost coded = { finset.code (coded_list coded_ℕ) };

    ghost view = { λ paths. set_of paths.texts.keys };
}

impl PathSet {
    pub(crate) fn new(alloc: Global) -> PathSet
        ensures { result ≡ finite.empty }
    {
        PathSet {
            alloc,
            texts: BTreeSet::new(alloc),
        }
    }

    /// Adds a path.
    pub(crate) fn insert(&mut self, path: &str) -> Result<(), NoMemory>
        ensures { OnOk result (self.new ≡ finite.insert self.old path.now tt) }
    {
        let text = String::from_str(self.alloc, path)?;
        self.texts.insert(text)?;
        Ok(())
    }
}
