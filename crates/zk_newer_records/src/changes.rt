//! What the conversion of a record changes.

ghost use Rattle.std.specs.Prelude.{◌≡◌, count_by};
ghost use Rattle.zk_newer_records.specs.Changes.{is_part_change, is_change, once, has_digest, count_in, count_of, is_own_form, is_unchanged, container_owner, ttl_owner};
ghost use Rattle.zk_newer_records.specs.NewerRecords.{form_tells_why, tells_why};

use crate::newer_record::{Encoding, NewerRecord};
use crate::parts::PartEncodings;
use zk_table::{Op, hold_error};

/// A kind of difference between a record and the 3.4 record of the same transaction.
#[derive(Clone, Copy, Debug, PartialEq, Eq)]
pub enum Change {
    /// The digest is dropped.
    Digest,
    /// A create that returns the node's stat becomes a create.
    Create2,
    /// A container becomes a plain node.
    CreateContainer,
    /// A node with a time to live becomes a plain node.
    CreateTtl,
    /// The removal of a container becomes a delete.
    DeleteContainer,
    /// A new list of members becomes a setData of its node, which a 3.4 tree lacks.
    Reconfig,
    /// A check that occurs alone becomes a multi of it.
    Check,
    /// The list of paths of a closed session is dropped.
    ClosePaths,
    /// An error part that kept the body of its request becomes that part.
    KeptBody,
}

/// The owner of a container, on a 3.5 to 3.8 server.
pub(crate) const CONTAINER_OWNER: i64 = -9_223_372_036_854_775_808;

/// 2^56, the unit of an owner's highest byte. Below that byte are 16 bits, and the 40 bits of the
/// milliseconds.
const TTL_STEP: i64 = 72_057_594_037_927_936;

/// The owner of a node with a time to live, on a 3.5 to 3.8 server: 0xff above the milliseconds,
/// which have 40 bits.
pub(crate) fn ttl_owner(ttl: i64) -> i64
    ensures { result ≡ ttl_owner ttl }
{
    ttl.wrapping_sub(TTL_STEP)
}

impl Encoding {
    /// Whether the conversion of an operation other than a multi makes this change.
    fn is_change(&self, change: Change) -> bool
        ensures { result ≡ is_change change self.now }
    {
        match self {
            Encoding::Own | Encoding::Parts { forms: _ } => false,
            Encoding::Create2 => matches!(change, Change::Create2),
            Encoding::Container => matches!(change, Change::CreateContainer),
            Encoding::Ttl { ttl: _ } => matches!(change, Change::CreateTtl),
            Encoding::DeletedContainer => matches!(change, Change::DeleteContainer),
            Encoding::Reconfig => matches!(change, Change::Reconfig),
            Encoding::CheckAlone => matches!(change, Change::Check),
            Encoding::ClosePaths { listed: _ } => matches!(change, Change::ClosePaths),
        }
    }

    /// How often the conversion makes this change.
    fn count(&self, change: Change) -> usize
        ensures { result ≡ count_in change self.now }
    {
        match self {
            Encoding::Parts { forms } => count_in_parts(forms, change),
            form => usize::from(form.is_change(change)),
        }
    }

    /// Whether this is the 3.4 encoding.
    fn is_own(&self) -> bool
        ensures { result ≡ is_own_form self.now }
    {
        match self {
            Encoding::Own => true,
            Encoding::Parts { forms } => forms.are_own(),
            _ => false,
        }
    }
}

/// The number of parts in which the conversion makes this change.
fn count_in_parts(forms: &PartEncodings, change: Change) -> usize
    ensures { result ≡ count_by (is_part_change change) forms.now }
{
    forms
        .as_slice()
        .iter()
        .filter(|form| form.is_change(change))
        .count()
}

impl NewerRecord {
    /// How often the conversion of this record makes this change; each part of a multi counts.
    pub fn count(&self, change: Change) -> usize
        ensures { result ≡ count_of change self.now }
    {
        match change {
            Change::Digest => usize::from(self.digest.is_some()),
            change => self.form.count(change),
        }
    }

    /// Whether the conversion changes nothing: the record is its transaction's own.
    pub fn is_unchanged(&self) -> bool
        ensures { result ≡ is_unchanged self.now }
    {
        self.digest.is_none() && self.form.is_own()
    }

    /// Whether a failed multi that kept bodies of requests has its error code.
    pub(crate) fn tells_why(&self) -> bool
        ensures { result ≡ tells_why self.now }
    {
        match (&self.txn.op, &self.form) {
            (Op::Multi { parts }, Encoding::Parts { forms }) => {
                !forms.has_kept() || hold_error(parts.as_slice())
            }
            _ => true,
        }
    }
}
