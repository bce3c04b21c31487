ghost use Rattle.std.specs.Prelude.{◌≡◌, OnOk, OnErr};
ghost use Rattle.std.specs.FinMap as finite;
ghost use Rattle.std.specs.String.{string_bytes};

use std::alloc::Global;
use std::collections::BTreeSet;
use std::marker::Model;
use zk_path::NoMemory;

/// A set of paths, as texts.
#[derive(Drop)]
pub(crate) struct PathSet {
    pub(crate) texts: BTreeSet<String>,
}

impl Model for PathSet {
    ghost use Rattle.std.specs.Coded.{coded_list, coded_ℕ};
    ghost use Rattle.std.specs.FinSet as finset;
    ghost use Rattle.zk_tree.specs.Views.{PathKeys, set_of};

    ghost Value = { PathKeys };

    ghost coded = { finset.code (coded_list coded_ℕ) };

    ghost view = { λ paths. set_of paths.texts.keys };
}

impl PathSet {
    pub(crate) fn new(alloc: Global) -> PathSet
        ensures { result ≡ finite.empty }
    {
        PathSet {
            texts: BTreeSet::new(alloc),
        }
    }

    pub(crate) fn len(&self) -> usize
        ensures { result ≡ finite.len self.now }
    {
        self.texts.len()
    }

    /// Adds a path. After [`NoMemory`] nothing is changed.
    pub(crate) fn insert(&mut self, text: String) -> Result<(), NoMemory>
        ensures inserted { OnOk result (self.new ≡ finite.insert self.old (string_bytes text) tt) }
        ensures unchanged { OnErr result (self.new ≡ self.old) }
    {
        self.texts.insert(text)?;
        Ok(())
    }

    pub(crate) fn remove(&mut self, text: &str)
        ensures { self.new ≡ finite.remove self.old text.now }
    {
        self.texts.remove(text);
    }
}
