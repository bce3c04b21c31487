ghost use Rattle.std.specs.Prelude.{◌≡◌, IfOk};

use crate::text::Text;
use std::alloc::Global;
use std::marker::Model;
use std::sync::Arc;
use zk_path::NoMemory;

/// An identity and its scheme.
///
/// `zookeeper.jute`, `Id`.
#[derive(Debug, Drop)]
pub struct Id {
    pub scheme: Text,
    pub id: Text,
}

impl Id {
    pub fn copy(&self) -> Result<Id, NoMemory>
        ensures { IfOk result (λ copy. copy ≡ self.now) }
    {
        let scheme = self.scheme.copy()?;
        let id = self.id.copy()?;
        Ok(Id { scheme, id })
    }
}

/// One entry of an access control list: permissions for an identity.
///
/// `zookeeper.jute`, `ACL`; the permissions are bits: read 1, write 2, create 4, delete 8, admin
/// 16.
#[derive(Debug, Drop)]
pub struct Acl {
    pub perms: i32,
    pub id: Id,
}

impl Acl {
    pub fn copy(&self) -> Result<Acl, NoMemory>
        ensures { IfOk result (λ copy. copy ≡ self.now) }
    {
        let id = self.id.copy()?;
        Ok(Acl {
            perms: self.perms,
            id,
        })
    }
}

/// An access control list, modelled as its entries in order. Copies share the entries.
#[derive(Debug, Drop)]
pub struct Acls {
    entries: Arc<Vec<Acl>>,
}

impl Model for Acls {
    ghost use Rattle.std.specs.Arc.{arc_value};
    ghost use Rattle.std.specs.Prelude.{List};
    ghost use Rattle.zk_acl.specs.declared.acl.Acl.{Acl};

    ghost Value = { List Acl };

    ghost view = { λ acls. (arc_value acls.entries).items };
}

impl Acls {
    pub fn new(alloc: Global, entries: Vec<Acl>) -> Result<Acls, NoMemory>
        ensures { IfOk result (λ acls. acls ≡ entries.items) }
    {
        Ok(Acls {
            entries: Arc::new(alloc, entries)?,
        })
    }

    pub fn as_slice(&self) -> &[Acl]
        ensures { result.now ≡ self.now }
    {
        self.entries.as_slice()
    }

    /// The allocator of the entries.
    pub(crate) fn allocator(&self) -> Global {
        *self.entries.allocator()
    }

    /// A copy that shares the entries, without allocating. Fails with [`NoMemory`] if the list's
    /// owner count is full.
    pub fn copy(&self) -> Result<Acls, NoMemory>
        ensures { IfOk result (λ copy. copy ≡ self.now) }
    {
        Ok(Acls {
            entries: Arc::try_clone(&self.entries)?,
        })
    }
}
