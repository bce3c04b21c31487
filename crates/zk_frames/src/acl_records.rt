//! Access control lists as clients write them, where a text or the whole list may be null.

ghost use Rattle.std.specs.Prelude.{◌≡◌, map, IfOk};
ghost use Rattle.zk_frames.specs.AclRecords.{text_of, acl_of, acls_of};

use std::alloc::Global;
use std::marker::Model;
use zk_acl::{Acl, Acls, Id, Text};
use zk_path::NoMemory;

/// An entry: `ACL` and its `Id`. Some clients write an empty text as null.
#[derive(Debug, Drop)]
pub struct AclRecord {
    pub perms: i32,
    pub scheme: Option<Text>,
    pub id: Option<Text>,
}

impl AclRecord {
    /// Allocates nothing.
    fn into_acl(self, alloc: Global) -> Acl
        ensures { result ≡ acl_of self }
    {
        let AclRecord { perms, scheme, id } = self;
        Acl {
            perms,
            id: Id {
                scheme: text_of(alloc, scheme),
                id: text_of(alloc, id),
            },
        }
    }
}

/// A list of entries, modelled as the list.
#[derive(Debug, Drop)]
pub struct AclRecords {
    entries: Vec<AclRecord>,
}

impl Model for AclRecords {
    ghost use Rattle.std.specs.Prelude.{List};
    ghost use Rattle.zk_frames.specs.declared.acl_records.AclRecord.{AclRecord};

    ghost Value = { List AclRecord };

    ghost view = { λ records. records.entries.items };
}

impl AclRecords {
    /// Wraps the entries; allocates nothing.
    pub fn new(entries: Vec<AclRecord>) -> AclRecords
        ensures { result ≡ entries.items }
    {
        AclRecords { entries }
    }

    /// The access control list that a client means: null is an empty text, and an empty list.
    pub fn acls_of(alloc: Global, acl: Option<AclRecords>) -> Result<Acls, NoMemory>
        ensures { IfOk result (λ acls. acls ≡ acls_of acl) }
    {
        match acl {
            Some(records) => records.into_acls(alloc),
            None => Acls::new(alloc, Vec::new(alloc)),
        }
    }

    fn into_acls(self, alloc: Global) -> Result<Acls, NoMemory>
        ensures { IfOk result (λ acls. acls ≡ map acl_of self) }
    {
        let AclRecords { entries } = self;
        let mut acls = Vec::new(alloc);
        for entry in entries {
            acls.push(entry.into_acl(alloc))?;
        }
        Acls::new(alloc, acls)
    }
}

fn text_of(alloc: Global, text: Option<Text>) -> Text
    ensures { result ≡ text_of text }
{
    match text {
        Some(text) => text,
        None => Text::new(String::new(alloc)),
    }
}
