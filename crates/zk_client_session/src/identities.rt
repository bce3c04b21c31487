ghost use Rattle.std.specs.Prelude.{◌≡◌, ◌∷◌, ◌++◌, [], OnOk, IfOk};
ghost use Rattle.zk_client_session.specs.Links.{are_all};

use std::alloc::Global;
use std::marker::Model;
use zk_acl::{Id, Ids};
use zk_path::NoMemory;

/// The most identities of a connection. Each request of it takes them along.
const MOST_IDENTITIES: usize = 100;

/// The identities that a connection has proved, in order, modelled as a list.
#[derive(Debug, Drop)]
pub struct Identities {
    ids: Vec<Id>,
}

impl Model for Identities {
    ghost use Rattle.std.specs.Prelude.{List};
    ghost use Rattle.zk_acl.specs.declared.acl.Id.{Id};

    ghost Value = { List Id };

    ghost view = { λ identities. identities.ids.items };
}

impl Identities {
    pub(crate) fn new(alloc: Global) -> Identities
        ensures { result ≡ [] }
    {
        Identities {
            ids: Vec::new(alloc),
        }
    }

    /// Whether there may be no more.
    pub(crate) fn are_all(&self) -> bool
        ensures { result ≡ are_all self.now }
    {
        self.ids.len() >= MOST_IDENTITIES
    }

    pub(crate) fn add(&mut self, id: Id) -> Result<(), NoMemory>
        ensures { OnOk result (self.new ≡ self.old ++ id ∷ []) }
    {
        self.ids.push(id)?;
        Ok(())
    }

    /// Copies the identities, for an ask.
    pub(crate) fn copy(&self) -> Result<Ids, NoMemory>
        ensures { IfOk result (λ ids. ids ≡ self.now) }
    {
        let mut ids = Vec::new(*self.ids.allocator());
        for id in &self.ids {
            ids.push(id.copy()?)?;
        }
        Ok(Ids::new(ids))
    }
}
