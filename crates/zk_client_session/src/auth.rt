ghost use Rattle.std.specs.Prelude.{◌≡◌, IfOk};
ghost use Rattle.zk_client_session.specs.Links.{digest_in};

use std::alloc::Global;
use zk_acl::{AclFault, Id, digest_id};
use zk_path::NoMemory;
use zk_table::Content;

/// The identity of scheme digest that these bytes prove; `None` if they prove none.
#[tactic(auto, using(zk_jute::proofs::Texts::is_text, zk_jute::proofs::Texts::is_no_text))]
pub(crate) fn digest_in(alloc: Global, auth: &Option<Content>) -> Result<Option<Id>, NoMemory>
    ensures { IfOk result (λ found. found ≡ digest_in auth.now) }
{
    let Some(bytes) = auth else {
        return Ok(None);
    };
    let Ok(text) = std::str::from_utf8(bytes.as_slice()) else {
        return Ok(None);
    };
    match digest_id(alloc, text) {
        Ok(id) => Ok(Some(id)),
        Err(AclFault::Invalid) => Ok(None),
        Err(AclFault::NoMemory) => Err(NoMemory),
    }
}
