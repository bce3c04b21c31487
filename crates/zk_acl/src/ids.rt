ghost use Rattle.std.specs.Prelude.{◌≡◌, IfOk};

use crate::acl::Id;
use std::marker::Model;
use zk_path::NoMemory;

/// The identities that a caller has proved, modelled as a list.
#[derive(Debug, Drop)]
pub struct Ids {
    ids: Vec<Id>,
}

impl Model for Ids {
    ghost use Rattle.std.specs.Prelude.{List};
    ghost use Rattle.zk_acl.specs.declared.acl.Id.{Id};

    ghost Value = { List Id };

    ghost view = { λ ids. ids.ids.items };
}

impl Ids {
    /// Wraps `ids` without allocating.
    pub fn new(ids: Vec<Id>) -> Ids
        ensures { result ≡ ids.items }
    {
        Ids { ids }
    }

    pub fn as_slice(&self) -> &[Id]
        ensures { result.now ≡ self.now }
    {
        self.ids.as_slice()
    }

    pub fn copy(&self) -> Result<Ids, NoMemory>
        ensures { IfOk result (λ copy. copy ≡ self.now) }
    {
        let mut ids = Vec::new(*self.ids.allocator());
        for id in &self.ids {
            ids.push(id.copy()?)?;
        }
        Ok(Ids { ids })
    }
}
