//! The lists that a session collects.

ghost use Rattle.std.specs.Prelude.{◌≡◌, ◌∷◌, ◌++◌, [], take, OnOk, IfOk};

use std::alloc::Global;
use std::marker::Model;
use zk_acl::{Id, Ids};
use zk_path::NoMemory;
use zk_requests::{Part, Parts};

/// The identities that a session has proved, in order. Its model is their list.
#[derive(Debug, Drop)]
pub struct Identities {
    ids: Vec<Id>,
}

impl Model for Identities {
    ghost use Rattle.std.specs.Prelude.{List};
    ghost use Rattle.zk_acl.specs.declared.acl.Id.{Id};

    ghost Value = { List Id };

    ghost view = { λ identities. identities.ids.items };
}

impl Identities {
    /// Returns the empty list.
    pub(crate) fn new(alloc: Global) -> Identities
        ensures { result ≡ [] }
    {
        Identities {
            ids: Vec::new(alloc),
        }
    }

    /// Appends an identity.
    pub(crate) fn add(&mut self, id: Id) -> Result<(), NoMemory>
        ensures { OnOk result (self.new ≡ self.old ++ id ∷ []) }
    {
        self.ids.push(id)?;
        Ok(())
    }

    /// Copies the identities, for an ask.
    pub(crate) fn copy(&self) -> Result<Ids, NoMemory>
        ensures { IfOk result (λ ids. ids ≡ self.now) }
    {
        let mut ids = Vec::new(*self.ids.allocator());
        for id in &self.ids {
            ids.push(id.copy()?)?;
        }
        Ok(Ids::new(ids))
    }
}

/// The parts of the open multi, in order. Its model is their list.
#[derive(Debug, Drop)]
pub struct Gathered {
    parts: Vec<Part>,
}

impl Model for Gathered {
    ghost use Rattle.std.specs.Prelude.{List};
    ghost use Rattle.zk_requests.specs.declared.call.Part.{Part};

    ghost Value = { List Part };

    ghost view = { λ gathered. gathered.parts.items };
}

impl Gathered {
    /// Returns the empty list.
    pub(crate) fn new(alloc: Global) -> Gathered
        ensures { result ≡ [] }
    {
        Gathered {
            parts: Vec::new(alloc),
        }
    }

    /// Appends a part.
    pub(crate) fn add(&mut self, part: Part) -> Result<(), NoMemory>
        ensures { OnOk result (self.new ≡ self.old ++ part ∷ []) }
    {
        self.parts.push(part)?;
        Ok(())
    }

    /// Returns the same parts, without allocating.
    pub(crate) fn into_parts(self) -> Parts
        ensures { result ≡ self }
    {
        let Gathered { parts } = self;
        Parts::new(parts)
    }
}
