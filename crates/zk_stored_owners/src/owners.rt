ghost use Rattle.std.specs.Prelude.{◌≡◌, ℕ, List, IfOk, None, OnOk, if◌then◌else◌};
ghost use Rattle.std.specs.FinMap as finite;
ghost use Rattle.std.specs.List.{list_any};
ghost use Rattle.zk_mend.specs.Owning.{with_owner};
ghost use Rattle.zk_mend.specs.Following.{given_from, own_of};
ghost use Rattle.zk_replay.specs.Owning.{creates, is_rejected, owners_by, part_creates, raw_owner, stored_owners};

use std::alloc::Global;
use std::collections::HashMap;
use std::marker::Model;
use zk_newer_records::NewerRecord;
use zk_path::{NoMemory, Path};
use zk_replay::shown_owner;
use zk_snapshot::Stored;
use zk_table::{Op, Sub, hold_error};

/// The owners, on the server, of containers and of nodes with a time to live, by path. Those of
/// deleted nodes stay.
#[derive(Drop)]
pub struct Owners {
    alloc: Global,
    map: HashMap<String, i64>,
}

impl Model for Owners {
    ghost use Rattle.std.specs.Prelude.{ℕ};
    ghost use Rattle.std.specs.Coded.{coded_list, coded_ℕ, coded_ℤ};
    ghost use Rattle.std.specs.FinMap as finite;
    ghost use Rattle.zk_tree.specs.Views.{map_of};
    ghost use Rattle.zk_mend.specs.Owning.{OwnerMap};

    ghost Value = { OwnerMap };

    ghost coded = { finite.code (coded_list coded_ℕ) coded_ℤ };

    ghost view = { λ owners. map_of owners.map.entries };
}

impl Owners {
    /// No owners.
    pub fn new(alloc: Global) -> Owners
        ensures { result ≡ finite.empty }
    {
        Owners {
            alloc,
            map: HashMap::new(alloc),
        }
    }

    /// The owners that a snapshot stores.
    pub fn stored(alloc: Global, stored: &[Stored]) -> Result<Owners, NoMemory>
        ensures { IfOk result (λ owners. (path : List ℕ) → finite.get owners path ≡ stored_owners stored.now path) }
    {
        let mut owners = Owners::new(alloc);
        for one in stored {
            owners.set(one.path.text(), raw_owner(one.kept.owner))?;
        }
        Ok(owners)
    }

    /// The owner at a path.
    pub fn get(&self, path: &str) -> Option<i64>
        ensures { result ≡ finite.get self.now path.now }
    {
        self.map.get(path).copied()
    }

    /// Updates the owners after a record.
    pub(crate) fn follow(&mut self, newer: &NewerRecord) -> Result<(), NoMemory>
        ensures { OnOk result ((path : List ℕ) → finite.get self.new path ≡ owners_by (finite.get self.old) newer.now path) }
    {
        if is_rejected(&newer.txn.op) {
            return Ok(());
        }
        self.forget_created(&newer.txn.op);
        let given = newer.owners(self.alloc)?;
        self.set_all(given.as_slice())?;
        Ok(())
    }

    /// Sets the owner at a path, or removes it.
    fn set(&mut self, path: &str, owner: Option<i64>) -> Result<(), NoMemory>
        ensures { OnOk result (self.new ≡ with_owner self.old path.now owner) }
    {
        let Some(owner) = owner else {
            self.forget(path);
            return Ok(());
        };
        let text = String::from_str(self.alloc, path)?;
        self.map.insert(text, owner)?;
        Ok(())
    }

    /// Sets the owners that a list has. The last entry of a path counts.
    fn set_all(&mut self, given: &[(Path, i64)]) -> Result<(), NoMemory>
        ensures { OnOk result ((path : List ℕ) → finite.get self.new path ≡ given_from (finite.get self.old path) given.now path) }
    {
        for (path, owner) in given {
            self.set(path.text(), own_of(*owner))?;
        }
        Ok(())
    }

    /// Removes the owner at a path.
    fn forget(&mut self, path: &str)
        ensures { self.new ≡ finite.remove self.old path.now }
    {
        self.map.remove(path);
    }

    /// Removes the owner of the node that a part of a multi creates.
    fn forget_part(&mut self, part: &Sub)
        ensures { (path : List ℕ) → finite.get self.new path ≡ (if part_creates path part.now then None else finite.get self.old path) }
    {
        match part {
            Sub::Create { path, .. } => self.forget(path.text()),
            Sub::Delete { .. } | Sub::SetData { .. } | Sub::Check { .. } | Sub::Error { .. } => {}
        }
    }

    /// Removes the owners of the nodes that the parts of a multi create.
    fn forget_parts(&mut self, parts: &[Sub])
        ensures { (path : List ℕ) → finite.get self.new path ≡ (if list_any (part_creates path) parts.now then None else finite.get self.old path) }
    {
        for part in parts {
            self.forget_part(part);
        }
    }

    /// Removes the owners of the nodes that an operation creates.
    fn forget_created(&mut self, op: &Op)
        ensures { (path : List ℕ) → finite.get self.new path ≡ (if creates op.now path then None else finite.get self.old path) }
    {
        match op {
            Op::Create { path, .. } => self.forget(path.text()),
            Op::CreateOld { path, .. } => self.forget(path.text()),
            Op::Multi { parts } => self.forget_parts(parts.as_slice()),
            _ => {}
        }
    }
}

/// The stored owner, if clients see another.
fn raw_owner(owner: i64) -> Option<i64>
    ensures { result ≡ raw_owner owner }
{
    if shown_owner(owner) == owner {
        return None;
    }
    Some(owner)
}

/// `None` for 0.
fn own_of(owner: i64) -> Option<i64>
    ensures { result ≡ own_of owner }
{
    if owner == 0 {
        return None;
    }
    Some(owner)
}

/// Whether an operation is a multi that the server rejected.
fn is_rejected(op: &Op) -> bool
    ensures { result ≡ is_rejected op.now }
{
    match op {
        Op::Multi { parts } => hold_error(parts.as_slice()),
        _ => false,
    }
}
