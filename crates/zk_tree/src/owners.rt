ghost use Rattle.std.specs.Prelude.{◌≡◌, IfOk, OnOk, OnErr};
ghost use Rattle.std.specs.FinMap as finite;
ghost use Rattle.std.specs.Option.{option_copied};
ghost use Rattle.zk_tree.specs.Owners.{with_owned, without_owned};

use crate::paths::PathSet;
use std::alloc::Global;
use std::collections::BTreeMap;
use std::marker::Model;
use zk_path::NoMemory;

/// The paths of the nodes that each session owns.
#[derive(Drop)]
pub(crate) struct Owners {
    alloc: Global,
    sets: BTreeMap<i64, PathSet>,
}

impl Model for Owners {
    ghost use Rattle.std.specs.Coded.{coded_list, coded_ℕ, coded_ℤ};
    ghost use Rattle.std.specs.FinMap as finite;
    ghost use Rattle.std.specs.FinSet as finset;
    ghost use Rattle.zk_tree.specs.Views.{OwnerMap};

    ghost Value = { OwnerMap };

    ghost coded = { finite.code coded_ℤ (finset.code (coded_list coded_ℕ)) };

    ghost view = { λ owners. finite.from_entries owners.sets.entries };
}

impl Owners {
    pub(crate) fn new(alloc: Global) -> Owners
        ensures { result ≡ finite.empty }
    {
        Owners {
            alloc,
            sets: BTreeMap::new(alloc),
        }
    }

    pub(crate) fn copy(&self) -> Result<Owners, NoMemory>
        ensures { IfOk result (λ copy. copy ≡ self.now) }
    {
        Ok(Owners {
            alloc: self.alloc,
            sets: self.sets.clone()?,
        })
    }

    /// The paths of a session's nodes.
    pub(crate) fn get(&self, session: i64) -> Option<&PathSet>
        ensures { option_copied result ≡ finite.get self.now session }
    {
        self.sets.get(&session)
    }

    /// Adds a node to a session; 0 owns none. After [`NoMemory`] nothing is changed.
    pub(crate) fn add(&mut self, session: i64, path: &str) -> Result<(), NoMemory>
        ensures noted { OnOk result (self.new ≡ with_owned self.old session path.now) }
        ensures unchanged { OnErr result (self.new ≡ self.old) }
    {
        if session == 0 {
            return Ok(());
        }
        let text = String::from_str(self.alloc, path)?;
        if let Some(set) = self.sets.get_mut(&session) {
            set.insert(text)?;
            return Ok(());
        }
        let mut set = PathSet::new(self.alloc);
        set.insert(text)?;
        self.sets.insert(session, set)?;
        Ok(())
    }

    /// Removes a node from a session. A session without nodes is removed.
    pub(crate) fn lose(&mut self, session: i64, path: &str)
        ensures { self.new ≡ without_owned self.old session path.now }
    {
        if session == 0 {
            return;
        }
        let Some(set) = self.sets.get_mut(&session) else {
            return;
        };
        set.remove(path);
        if set.len() > 0 {
            return;
        }
        self.sets.remove(&session);
    }
}
