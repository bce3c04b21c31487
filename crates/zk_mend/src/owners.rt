ghost use Rattle.std.specs.Prelude.{◌≡◌, ℕ, List, IfOk, OnOk};
ghost use Rattle.std.specs.FinMap as finite;
ghost use Rattle.zk_mend.specs.Owning.{with_owner};
ghost use Rattle.zk_mend.specs.Following.{given_at, own_of};

use std::alloc::Global;
use std::collections::HashMap;
use std::marker::Model;
use zk_path::{NoMemory, Path};

/// Owners by the texts of paths, without zeros.
#[derive(Drop)]
pub(crate) struct Owners {
    alloc: Global,
    map: HashMap<String, i64>,
}

impl Model for Owners {
    ghost use Rattle.std.specs.Prelude.{ℕ};
    ghost use Rattle.std.specs.Coded.{coded_list, coded_ℕ, coded_ℤ};
    ghost use Rattle.std.specs.FinMap as finite;
    ghost use Rattle.zk_tree.specs.Views.{map_of};
    ghost use Rattle.zk_mend.specs.Owning.{OwnerMap};

    ghost Value = { OwnerMap };

    ghost coded = { finite.code (coded_list coded_ℕ) coded_ℤ };

    ghost view = { λ owners. map_of owners.map.entries };
}

impl Owners {
    pub(crate) fn new(alloc: Global) -> Owners
        ensures { result ≡ finite.empty }
    {
        Owners {
            alloc,
            map: HashMap::new(alloc),
        }
    }

    /// The owner that a list has for each path. The last entry of a path counts.
    pub(crate) fn given(alloc: Global, given: &[(Path, i64)]) -> Result<Owners, NoMemory>
        ensures { IfOk result (λ owners. (path : List ℕ) → finite.get owners path ≡ given_at given.now path) }
    {
        let mut owners = Owners::new(alloc);
        for (path, owner) in given {
            owners.set(path, own_of(*owner))?;
        }
        Ok(owners)
    }

    /// The owner at a path.
    pub(crate) fn get(&self, path: &Path) -> Option<i64>
        ensures { result ≡ finite.get self.now path.now }
    {
        self.map.get(path.text()).copied()
    }

    /// Sets the owner at a path, or removes it.
    pub(crate) fn set(&mut self, path: &Path, owner: Option<i64>) -> Result<(), NoMemory>
        ensures { OnOk result (self.new ≡ with_owner self.old path.now owner) }
    {
        let Some(owner) = owner else {
            self.map.remove(path.text());
            return Ok(());
        };
        let text = String::from_str(self.alloc, path.text())?;
        self.map.insert(text, owner)?;
        Ok(())
    }
}

/// `None` for 0.
fn own_of(owner: i64) -> Option<i64>
    ensures { result ≡ own_of owner }
{
    if owner == 0 {
        return None;
    }
    Some(owner)
}
