//! Owners of nodes on 3.5 to 3.8 servers.

ghost use Rattle.std.specs.Prelude.{◌≡◌, ◌++◌, IfOk, OnOk};
ghost use Rattle.zk_newer_records.specs.Changes.{owners_in_part, owners_in_parts, owners_of};
ghost use Rattle.zk_newer_records.specs.NewerRecords.{paired};

use crate::changes::{CONTAINER_OWNER, ttl_owner};
use crate::newer_record::{Encoding, NewerRecord};
use crate::parts::PartEncoding;
use std::alloc::Global;
use zk_path::{NoMemory, Path};
use zk_table::{Op, Sub};

impl NewerRecord {
    /// The containers and the nodes with a time to live that the record creates, with their owners
    /// on a 3.5 to 3.8 server, whether or not the table creates them. A multi contributes each of
    /// its creates in order, with 0 for a plain node, whose owner is the table's. The last entry of
    /// a path counts.
    pub fn owners(&self, alloc: Global) -> Result<Vec<(Path, i64)>, NoMemory>
        ensures { IfOk result (λ owners. owners.items ≡ owners_of self.now) }
    {
        let mut owners = Vec::new(alloc);
        match (&self.txn.op, &self.form) {
            (Op::Create { path, .. }, Encoding::Container) => {
                owners.push((path.copy()?, CONTAINER_OWNER))?;
            }
            (Op::Create { path, .. }, Encoding::Ttl { ttl }) => {
                owners.push((path.copy()?, ttl_owner(*ttl)))?;
            }
            (Op::Multi { parts }, Encoding::Parts { forms }) => {
                return owners_in_parts(alloc, parts.as_slice(), forms.as_slice());
            }
            _ => (),
        }
        Ok(owners)
    }
}

/// Appends the owner of the node that a part creates, if it creates one.
fn push_owner(owners: &mut Vec<(Path, i64)>, part: &Sub, form: PartEncoding) -> Result<(), NoMemory>
    ensures { OnOk result (owners.new.items ≡ owners.old.items ++ owners_in_part part.now form) }
{
    if let Sub::Create { path, .. } = part {
        owners.push((path.copy()?, form.owner()))?;
    }
    Ok(())
}

/// The owners of the nodes that the parts of a multi create.
fn owners_in_parts(
    alloc: Global,
    parts: &[Sub],
    forms: &[PartEncoding],
) -> Result<Vec<(Path, i64)>, NoMemory>
    ensures { IfOk result (λ owners. owners.items ≡ owners_in_parts (paired parts.now forms.now)) }
{
    let mut owners = Vec::new(alloc);
    for index in 0..parts.len().min(forms.len()) {
        push_owner(&mut owners, &parts[index], forms[index])?;
    }
    Ok(owners)
}
