//! The bodies of records, one for each type of operation.

ghost use Rattle.zk_jute.specs.Reading.{Takes, set_acl_at, op_at};

use crate::acls::acl_vector;
use crate::bodies::{created, set_data};
use crate::fault::JuteFault;
use crate::fields::{int, path};
use crate::multis::parts;
use std::alloc::Global;
use zk_acl::Acls;
use zk_records::kinds;
use zk_table::Op;

/// `SetACLTxn`.
#[tactic(auto, unfolding(crate::specs::Reading::set_acl_at))]
fn set_acl(alloc: Global, earlier: &mut Option<Acls>, input: &mut &[u8]) -> Result<Op, JuteFault>
    ensures { Takes result input.new.now (set_acl_at input.old.now) }
{
    let path = path(alloc, input)?;
    let acl = acl_vector(alloc, earlier, input)?;
    let version = int(input)?;
    Ok(Op::SetAcl { path, acl, version })
}

/// The body for a type.
#[tactic(auto, unfolding(crate::specs::Reading::op_at))]
pub fn op(
    alloc: Global,
    earlier: &mut Option<Acls>,
    kind: i32,
    input: &mut &[u8],
) -> Result<Op, JuteFault>
    ensures { Takes result input.new.now (op_at kind input.old.now) }
{
    match kind {
        kinds::CREATE => created(alloc, earlier, input),
        kinds::DELETE => Ok(Op::Delete {
            path: path(alloc, input)?,
        }),
        kinds::SET_DATA => Ok(set_data(alloc, input)?.into_op()),
        kinds::SET_ACL => set_acl(alloc, earlier, input),
        kinds::MULTI => Ok(Op::Multi {
            parts: parts(alloc, earlier, input)?,
        }),
        kinds::ERROR => Ok(Op::Error { code: int(input)? }),
        kinds::CREATE_SESSION => Ok(Op::OpenSession {
            timeout: int(input)?,
        }),
        kinds::CLOSE_SESSION => Ok(Op::CloseSession),
        _ => Err(JuteFault::Kind),
    }
}
