//! Bodies that 3.4 does not have.

ghost use Rattle.std.specs.Prelude.{◌≡◌};
ghost use Rattle.zk_jute.specs.Reading.{Takes, Gives};
ghost use Rattle.zk_newer_records.specs.Reading.{container_at, digest_at};

use std::alloc::Global;
use zk_acl::Acls;
use zk_jute::JuteFault;
use zk_jute::acls::acl_vector;
use zk_jute::bodies::{CreateTxn, CreateTxnV0};
use zk_jute::fields::{content, int, long, path};

/// The only known version of a digest.
const DIGEST_VERSION: i32 = 2;

/// `CreateContainerTxn`: no session owns the node.
#[tactic(auto, unfolding(crate::specs::Reading::container_at))]
pub(crate) fn container(
    alloc: Global,
    earlier: &mut Option<Acls>,
    input: &mut &[u8],
) -> Result<CreateTxn, JuteFault>
    ensures { Takes result input.new.now (container_at input.old.now) }
{
    let path = path(alloc, input)?;
    let content = content(alloc, input)?;
    let acl = acl_vector(alloc, earlier, input)?;
    let count = int(input)?;
    Ok(CreateTxn {
        front: CreateTxnV0 {
            path,
            content,
            acl,
            ephemeral: false,
        },
        count,
    })
}

/// The bytes after a body: nothing, or `TxnDigest`.
#[tactic(auto, unfolding(crate::specs::Reading::digest_at))]
pub(crate) fn digest(bytes: &[u8]) -> Result<Option<i64>, JuteFault>
    ensures { Gives result (digest_at bytes.now) }
{
    if bytes.is_empty() {
        return Ok(None);
    }
    let mut input = bytes;
    let version = int(&mut input)?;
    if version != DIGEST_VERSION {
        return Err(JuteFault::Trailing);
    }
    let sum = long(&mut input)?;
    if !input.is_empty() {
        return Err(JuteFault::Trailing);
    }
    Ok(Some(sum))
}
