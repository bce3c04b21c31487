//! The parts of a multi and their encodings.

ghost use Rattle.std.specs.Prelude.{◌≡◌};
ghost use Rattle.std.specs.List.{list_any, list_all};
ghost use Rattle.zk_newer_records.specs.Changes.{is_part_change, is_own_part, owner_in_part};
ghost use Rattle.zk_newer_records.specs.NewerRecords.{is_kept};

use crate::changes::{CONTAINER_OWNER, Change, ttl_owner};
use std::marker::Model;
use zk_table::Sub;

/// The encoding of a part of a multi.
#[derive(Clone, Copy, Debug, PartialEq, Eq)]
pub enum PartEncoding {
    /// That of 3.4.
    Own,
    /// A create, encoded as that of a container.
    Container,
    /// A create, encoded as that of a node with a time to live, in milliseconds.
    Ttl { ttl: i64 },
    /// A delete, encoded as that of a container.
    DeletedContainer,
    /// An error that kept the body of the request.
    Kept,
    /// An error that kept the body of a container's create.
    KeptContainer,
    /// An error that kept the body of the create of a node with a time to live, in milliseconds.
    KeptTtl { ttl: i64 },
}

impl PartEncoding {
    /// Whether an error kept the body of the request.
    pub fn is_kept(self) -> bool
        ensures { result ≡ is_kept self }
    {
        matches!(
            self,
            PartEncoding::Kept | PartEncoding::KeptContainer | PartEncoding::KeptTtl { .. }
        )
    }

    /// Whether this is the 3.4 encoding.
    pub fn is_own(self) -> bool
        ensures { result ≡ is_own_part self }
    {
        matches!(self, PartEncoding::Own)
    }

    /// Whether the conversion of the part makes this change.
    pub fn is_change(self, change: Change) -> bool
        ensures { result ≡ is_part_change change self }
    {
        match self {
            PartEncoding::Own => false,
            PartEncoding::Container => matches!(change, Change::CreateContainer),
            PartEncoding::Ttl { ttl: _ } => matches!(change, Change::CreateTtl),
            PartEncoding::DeletedContainer => matches!(change, Change::DeleteContainer),
            PartEncoding::Kept | PartEncoding::KeptContainer | PartEncoding::KeptTtl { ttl: _ } => {
                matches!(change, Change::KeptBody)
            }
        }
    }

    /// The owner, on a 3.5 to 3.8 server, of the node that the part creates; 0 for a plain node.
    pub fn owner(self) -> i64
        ensures { result ≡ owner_in_part self }
    {
        match self {
            PartEncoding::Container => CONTAINER_OWNER,
            PartEncoding::Ttl { ttl } => ttl_owner(ttl),
            _ => 0,
        }
    }
}

/// A part of a multi and its encoding.
#[derive(Debug, Drop)]
pub struct NewerPart {
    pub sub: Sub,
    pub form: PartEncoding,
}

/// The encodings of a multi's parts in order, modelled as a list.
#[derive(Debug, Drop)]
pub struct PartEncodings {
    forms: Vec<PartEncoding>,
}

impl Model for PartEncodings {
    ghost use Rattle.std.specs.Prelude.{List};
    ghost use Rattle.zk_newer_records.specs.declared.parts.PartEncoding.{PartEncoding};

    ghost Value = { List PartEncoding };

    ghost view = { λ all. all.forms.items };
}

impl PartEncodings {
    /// Wraps `forms` without allocating.
    pub fn new(forms: Vec<PartEncoding>) -> PartEncodings
        ensures { result ≡ forms.items }
    {
        PartEncodings { forms }
    }

    pub fn as_slice(&self) -> &[PartEncoding]
        ensures { result.now ≡ self.now }
    {
        self.forms.as_slice()
    }

    /// Whether a part kept the body of the request.
    pub fn has_kept(&self) -> bool
        ensures { result ≡ list_any is_kept self.now }
    {
        self.forms.iter().any(|form| form.is_kept())
    }

    /// Whether all parts have the 3.4 encoding.
    pub fn are_own(&self) -> bool
        ensures { result ≡ list_all is_own_part self.now }
    {
        self.forms.iter().all(|form| form.is_own())
    }
}
