ghost use Rattle.std.specs.Prelude.{◌≡◌, OnErr, OnOk};
ghost use Rattle.std.specs.FinMap as finite;
ghost use Rattle.std.specs.String.{string_bytes};

use std::alloc::Global;
use std::collections::BTreeSet;
use std::marker::Model;
use zk_path::NoMemory;

/// A set of paths, as texts.
#[derive(Debug, Drop)]
pub struct PathSet {
    alloc: Global,
    texts: BTreeSet<String>,
}

impl Model for PathSet {
    ghost use Rattle.std.specs.Coded.{coded_list, coded_ℕ};
    ghost use Rattle.std.specs.FinSet as finset;
    ghost use Rattle.zk_tree.specs.Views.{PathKeys, set_of};

    ghost Value = { PathKeys };

    ghost coded = { finset.code (coded_list coded_ℕ) };

    ghost view = { λ paths. set_of paths.texts.keys };
}

impl PathSet {
    ghost use Rattle.std.specs.Prelude.{◌≡◌, ◌&&◌, OnErr, OnOk};
    ghost use Rattle.std.specs.FinMap as finite;
    ghost use Rattle.zk_client_session.specs.ConnectionWatches.{without_if};

    /// Allocates nothing.
    pub(crate) fn new(alloc: Global) -> PathSet
        ensures { result ≡ finite.empty }
    {
        PathSet {
            alloc,
            texts: BTreeSet::new(alloc),
        }
    }

    /// Adds a path. After [`NoMemory`] nothing is changed.
    pub(crate) fn insert(&mut self, path: &str) -> Result<(), NoMemory>
        ensures inserted { OnOk result (self.new ≡ finite.insert self.old path.now tt) }
        ensures unchanged { OnErr result (self.new ≡ self.old) }
    {
        let text = String::from_str(self.alloc, path)?;
        self.insert_text(text)
    }

    fn insert_text(&mut self, text: String) -> Result<(), NoMemory>
        ensures inserted { OnOk result (self.new ≡ finite.insert self.old (string_bytes text) tt) }
        ensures unchanged { OnErr result (self.new ≡ self.old) }
    {
        self.texts.insert(text)?;
        Ok(())
    }

    pub(crate) fn has(&self, path: &str) -> bool
        ensures { result ≡ finite.contains_key self.now path.now }
    {
        self.texts.contains(path)
    }

    fn remove(&mut self, path: &str)
        ensures { self.new ≡ finite.remove self.old path.now }
    {
        self.texts.remove(path);
    }

    /// Removes a path, if that is asked. Whether it was there, and is removed.
    pub(crate) fn remove_if(&mut self, asked: bool, path: &str) -> bool
        ensures found { result ≡ (asked && finite.contains_key self.old path.now) }
        ensures left { self.new ≡ without_if asked path.now self.old }
    {
        if !asked {
            return false;
        }
        let found = self.has(path);
        self.remove(path);
        found
    }
}
