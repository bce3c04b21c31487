ghost use Rattle.std.specs.Prelude.{◌≡◌, OnOk};
ghost use Rattle.std.specs.FinMap as finite;
ghost use Rattle.std.specs.Option.{option_copied};

use std::alloc::Global;
use std::collections::HashMap;
use std::marker::Model;
use zk_path::NoMemory;
use zk_table::Node;

/// The node at a path of the overlay, in place of the tree's.
#[derive(Drop)]
pub(crate) struct Delta {
    /// `None` if the node was deleted.
    pub(crate) node: Option<Node>,
    /// The number of the path's children.
    pub(crate) children: usize,
}

/// The changed paths by their texts.
#[derive(Drop)]
pub(crate) struct Deltas {
    map: HashMap<String, Delta>,
}

impl Model for Deltas {
    ghost use Rattle.std.specs.Prelude.{ℕ};
    ghost use Rattle.std.specs.Coded.{coded_list, coded_ℕ};
    ghost use Rattle.std.specs.FinMap as finite;
    ghost use Rattle.zk_table.specs.States.{path_cmp};
    ghost use Rattle.zk_tree.specs.Views.{map_of};
    ghost use Rattle.zk_requests.specs.declared.deltas.Delta.{Delta};
    ghost use Rattle.zk_requests.specs.contracts.deltas.Delta as shade;

    ghost Value = { finite.FinMap path_cmp Delta };

    ghost coded = { finite.code (coded_list coded_ℕ) shade.the_row.coded };

    ghost view = { λ shades. map_of shades.map.entries };
}

impl Deltas {
    pub(crate) fn new(alloc: Global) -> Deltas
        ensures { result ≡ finite.empty }
    {
        Deltas {
            map: HashMap::new(alloc),
        }
    }

    /// The change at a path, if there is one.
    pub(crate) fn get(&self, path: &str) -> Option<&Delta>
        ensures { option_copied result ≡ finite.get self.now path.now }
    {
        self.map.get(path)
    }

    /// Sets the change at a path.
    pub(crate) fn set(&mut self, alloc: Global, path: &str, shade: Delta) -> Result<(), NoMemory>
        ensures { OnOk result (self.new ≡ finite.insert self.old path.now shade) }
    {
        let key = String::from_str(alloc, path)?;
        self.map.insert(key, shade)?;
        Ok(())
    }
}
