ghost use Rattle.std.specs.Prelude.{◌≡◌, ◌++◌, ◌∷◌, [], IfOk, OnOk, OnErr, map, nat_eq};
ghost use Rattle.std.specs.List.{starts_with};
ghost use Rattle.std.specs.Option.{option_copied};
ghost use Rattle.std.specs.String.{string_bytes};
ghost use Rattle.std.specs.FinMap as finite;
ghost use Rattle.zk_replay.specs.Drafts.{entry_of, changed, removed, remove_all, starting_in, without_below, had_children, owned_by, with_child, without_child, written, guarded, as_parent};

use crate::draft_node::DraftNode;
use std::alloc::Global;
use std::collections::BTreeMap;
use std::marker::Model;
use zk_acl::Acls;
use zk_path::{NoMemory, Path};
use zk_table::{Content, Txn};

/// The nodes of a draft by the texts of their paths.
#[derive(Drop)]
pub struct DraftNodes {
    alloc: Global,
    map: BTreeMap<String, DraftNode>,
}

impl Model for DraftNodes {
    ghost use Rattle.std.specs.Coded.{coded_list, coded_ℕ};
    ghost use Rattle.std.specs.FinMap as finite;
    ghost use Rattle.zk_tree.specs.Views.{map_of};
    ghost use Rattle.zk_replay.specs.Drafts.{DraftMap};
    ghost use Rattle.zk_replay.specs.contracts.draft_node.DraftNode as draft_node;

    ghost Value = { DraftMap };

    ghost coded = { finite.code (coded_list coded_ℕ) draft_node.the_row.coded };

    ghost view = { λ nodes. map_of nodes.map.entries };
}

impl DraftNodes {
    pub fn new(alloc: Global) -> DraftNodes
        ensures { result ≡ finite.empty }
    {
        DraftNodes {
            alloc,
            map: BTreeMap::new(alloc),
        }
    }

    pub fn contains(&self, path: &str) -> bool
        ensures { result ≡ finite.contains_key self.now path.now }
    {
        self.map.contains_key(path)
    }

    pub fn get(&self, path: &str) -> Option<&DraftNode>
        ensures { option_copied result ≡ finite.get self.now path.now }
    {
        self.map.get(path)
    }

    /// Inserts a node. After [`NoMemory`] nothing is changed.
    pub fn insert(&mut self, path: &str, node: DraftNode) -> Result<(), NoMemory>
        ensures inserted { OnOk result (self.new ≡ finite.insert self.old path.now node) }
        ensures unchanged { OnErr result (self.new ≡ self.old) }
    {
        let text = String::from_str(self.alloc, path)?;
        match self.map.insert(text, node) {
            Ok(_) => Ok(()),
            Err(_) => Err(NoMemory),
        }
    }

    /// Removes the node at a path with all nodes below it.
    pub fn remove_tree(&mut self, path: &Path) -> Result<(), NoMemory>
        ensures { OnOk result (self.new ≡ removed self.old path.now) }
    {
        let before = self.remove(path.text());
        if had_children(&before) {
            return self.remove_below(path);
        }
        Ok(())
    }

    fn remove(&mut self, path: &str) -> Option<DraftNode>
        ensures before { result ≡ finite.get self.old path.now }
        ensures rest { self.new ≡ finite.remove self.old path.now }
    {
        self.map.remove(path)
    }

    /// Removes the nodes below a path.
    fn remove_below(&mut self, path: &Path) -> Result<(), NoMemory>
        ensures { OnOk result (self.new ≡ without_below self.old path.now) }
    {
        let prefix = below(self.alloc, path)?;
        let paths = self.paths_starting(prefix.as_str())?;
        self.remove_all(paths.as_slice());
        Ok(())
    }

    /// The paths that begin with a prefix, in order.
    fn paths_starting(&self, prefix: &str) -> Result<Vec<Path>, NoMemory>
        ensures { IfOk result (λ paths. paths.items ≡ starting_in prefix.now (finite.entries self.now)) }
    {
        let mut paths = Vec::new(self.alloc);
        for (_, draft) in self.map.iter() {
            if starts(draft, prefix) {
                paths.push(draft.path.copy()?)?;
            }
        }
        Ok(paths)
    }

    fn remove_all(&mut self, paths: &[Path])
        ensures { self.new ≡ remove_all self.old paths.now }
    {
        for path in paths {
            self.remove_path(path);
        }
    }

    fn remove_path(&mut self, path: &Path)
        ensures { self.new ≡ finite.remove self.old path.now }
    {
        self.remove(path.text());
    }

    /// Counts a child of the node at a path, if there is one.
    pub fn add_child(&mut self, path: &str, zxid: i64, count: i32)
        ensures { self.new ≡ changed self.old path.now (with_child zxid count) }
    {
        let Some(draft) = self.map.get_mut(path) else {
            return;
        };
        draft.add_child(zxid, count);
    }

    /// Records that a child of the node at a path is deleted.
    pub fn lose_child(&mut self, path: &str, zxid: i64)
        ensures { self.new ≡ changed self.old path.now (without_child zxid) }
    {
        let Some(draft) = self.map.get_mut(path) else {
            return;
        };
        draft.lose_child(zxid);
    }

    /// Sets the content of the node at a path.
    pub fn write(&mut self, path: &str, txn: &Txn, content: Option<Content>, version: i32)
        ensures { self.new ≡ changed self.old path.now (written txn.now content version) }
    {
        let Some(draft) = self.map.get_mut(path) else {
            return;
        };
        draft.write(txn, content, version);
    }

    /// Sets the access control list of the node at a path.
    pub fn guard(&mut self, path: &str, acl: Acls, version: i32)
        ensures { self.new ≡ changed self.old path.now (guarded acl version) }
    {
        let Some(draft) = self.map.get_mut(path) else {
            return;
        };
        draft.guard(acl, version);
    }

    /// Records that a node is put below the one at a path.
    pub(crate) fn mark_parent(&mut self, path: &str)
        ensures { self.new ≡ changed self.old path.now as_parent }
    {
        let Some(draft) = self.map.get_mut(path) else {
            return;
        };
        draft.mark_parent();
    }

    /// The paths of the nodes that a session owns, in order; session 0 owns none.
    pub fn owned_by(&self, session: i64) -> Result<Vec<Path>, NoMemory>
        ensures { IfOk result (λ paths. paths.items ≡ owned_by self.now session) }
    {
        let mut paths = Vec::new(self.alloc);
        if session == 0 {
            return Ok(paths);
        }
        for (_, draft) in self.map.iter() {
            if draft.node.owner == session {
                paths.push(draft.path.copy()?)?;
            }
        }
        Ok(paths)
    }

    /// The nodes with their paths, in order.
    pub fn entries(&self) -> Result<Vec<(&str, &DraftNode)>, NoMemory>
        ensures { IfOk result (λ entries. map entry_of entries.items ≡ finite.entries self.now) }
    {
        let mut entries = Vec::with_capacity(self.alloc, self.map.len())?;
        for (text, draft) in self.map.iter() {
            entries.push((text.as_str(), draft))?;
        }
        Ok(entries)
    }
}

/// Whether a node was put below this one, if there is one.
fn had_children(draft: &Option<DraftNode>) -> bool
    ensures { result ≡ had_children draft.now }
{
    match draft {
        Some(draft) => draft.had_children,
        None => false,
    }
}

/// The prefix of the paths below a path.
fn below(alloc: Global, path: &Path) -> Result<String, NoMemory>
    ensures { IfOk result (λ prefix. string_bytes prefix ≡ path.now ++ 47 ∷ []) }
{
    let mut prefix = String::from_str(alloc, path.text())?;
    prefix.push_str("/")?;
    Ok(prefix)
}

fn starts(draft: &DraftNode, prefix: &str) -> bool
    ensures { result ≡ starts_with nat_eq draft.now.path prefix.now }
{
    text_starts(draft.path.text(), prefix)
}

fn text_starts(text: &str, prefix: &str) -> bool
    ensures { result ≡ starts_with nat_eq text.now prefix.now }
{
    text.as_bytes().starts_with(prefix.as_bytes())
}
