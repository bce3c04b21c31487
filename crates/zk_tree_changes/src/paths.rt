//! The paths of two trees.
ghost use Rattle.std.specs.Prelude.{◌≡◌, [], IfOk, OnOk, map};
ghost use Rattle.zk_tree_changes.specs.Differences.{paths_in, paths_of, texts_of, with_all, with_path};

use std::alloc::Global;
use std::collections::BTreeMap;
use std::marker::Model;
use zk_path::{NoMemory, Path};
use zk_tree::Tree;

/// Paths, each once, in order.
#[derive(Drop)]
pub struct Paths {
    alloc: Global,
    paths: BTreeMap<String, ()>,
}

impl Model for Paths {
    ghost use Rattle.std.specs.Prelude.{map};
    ghost use Rattle.std.specs.String.{string_bytes};
    ghost use Rattle.zk_tree_changes.specs.Differences.{Paths};

    ghost Value = { Paths };

    ghost view = { λ paths. map (λ entry. (string_bytes entry.0, entry.1)) paths.paths.entries };
}

impl Paths {
    /// No path yet.
    fn new(alloc: Global) -> Paths
        ensures { result ≡ [] }
    {
        Paths {
            alloc,
            paths: BTreeMap::new(alloc),
        }
    }

    /// The paths of two trees.
    pub fn of(alloc: Global, old: &Tree, new: &Tree) -> Result<Paths, NoMemory>
        ensures { IfOk result (λ paths. paths ≡ paths_of old.now new.now) }
    {
        let mut paths = Paths::new(alloc);
        paths.add_tree(old)?;
        paths.add_tree(new)?;
        Ok(paths)
    }

    /// Adds the paths of a tree.
    fn add_tree(&mut self, tree: &Tree) -> Result<(), NoMemory>
        ensures { OnOk result (self.new ≡ with_all self.old (paths_in tree.now)) }
    {
        let paths = tree.paths()?;
        self.add_all(paths.as_slice())
    }

    fn add_all(&mut self, paths: &[Path]) -> Result<(), NoMemory>
        ensures { OnOk result (self.new ≡ with_all self.old paths.now) }
    {
        for path in paths {
            self.add(path.text())?;
        }
        Ok(())
    }

    fn add(&mut self, path: &str) -> Result<(), NoMemory>
        ensures { OnOk result (self.new ≡ with_path self.old path.now) }
    {
        let text = String::from_str(self.alloc, path)?;
        self.paths.insert(text, ())?;
        Ok(())
    }

    /// The paths, in order.
    pub fn texts(&self) -> Result<Vec<&str>, NoMemory>
        ensures { IfOk result (λ texts. map (λ text. text.now) texts.items ≡ texts_of self.now) }
    {
        let mut texts = Vec::new(self.alloc);
        for (path, _) in self.paths.iter() {
            texts.push(path.as_str())?;
        }
        Ok(texts)
    }
}
