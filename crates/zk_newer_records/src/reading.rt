//! Whole records.

ghost use Rattle.std.specs.Prelude.{◌≡◌, ◌≢◌, ℕ, List, true, Ok, Err, IfOk};
ghost use Rattle.zk_jute.specs.Reading.{Gives};
ghost use Rattle.zk_newer_records.specs.NewerRecords.{IsNewer, IsSpelled, tells_why};
ghost use Rattle.zk_newer_records.specs.Reading.{Answers, spelled_at, newer_of};
ghost use Rattle.zk_newer_records.specs.declared.newer_record.NewerRecord as declared;
ghost use Rattle.zk_newer_records.specs.declared.fault.NewerFault.TheVariants as faults;

use crate::bodies::digest;
use crate::fault::NewerFault;
use crate::newer_record::NewerRecord;
use crate::operations::written;
use std::alloc::Global;
use zk_acl::Acls;
use zk_jute::{JuteFault, txn_header};
use zk_table::Txn;

/// The record of these bytes, whether or not a failed multi has its error code.
#[tactic(auto, unfolding(crate::specs::Reading::spelled_at))]
fn spelled(
    alloc: Global,
    earlier: &mut Option<Acls>,
    bytes: &[u8],
) -> Result<NewerRecord, JuteFault>
    ensures { Gives result (spelled_at bytes.now) }
{
    let mut input = bytes;
    let header = txn_header(&mut input)?;
    let written = written(alloc, earlier, header.kind, &mut input)?;
    let digest = digest(input)?;
    Ok(NewerRecord {
        txn: Txn {
            session: header.session,
            cxid: header.cxid,
            zxid: header.zxid,
            time: header.time,
            op: written.op,
        },
        form: written.form,
        digest,
    })
}

/// The record of these bytes, in which a failed multi must have its error code.
fn reasoned(
    alloc: Global,
    earlier: &mut Option<Acls>,
    bytes: &[u8],
) -> Result<NewerRecord, NewerFault>
    ensures { Answers result (newer_of bytes.now) }
{
    let newer = spelled(alloc, earlier, bytes)?;
    if !newer.tells_why() {
        return Err(NewerFault::Reasonless);
    }
    Ok(newer)
}

/// Reads a 3.5 to 3.8 server's record, all of `bytes`: the 3.4 transaction that it represents, and
/// its encoding.
///
/// Fails if the bytes are not such a record, and then if a failed multi kept bodies of requests
/// without its error code. An access control list equal to `earlier` shares its entries; any other
/// list becomes `earlier`, unless its owner count is full.
pub fn read_newer(
    alloc: Global,
    earlier: &mut Option<Acls>,
    bytes: &[u8],
) -> Result<NewerRecord, NewerFault>
    // The result is the record of these bytes.
    ensures found { IfOk result (λ newer. IsNewer bytes.now newer) }
    // If these bytes are a record, it is the result, unless an allocation fails.
    ensures only { (newer : declared.NewerRecord) → IsNewer bytes.now newer → Answers result (Ok newer) }
    // The fault is `Reasonless` if only the error code is missing.
    ensures reasonless { (newer : declared.NewerRecord) → IsSpelled bytes.now newer → tells_why newer ≢ true → Answers result (Err faults.Reasonless) }
    // There is no other error: bytes that are no such record have the fault `Record`.
    ensures refused { result ≡ Err faults.Reasonless → (newer : declared.NewerRecord) × IsSpelled bytes.now newer × (tells_why newer ≢ true) }
    ensures none { result ≡ Err faults.Record → (newer : declared.NewerRecord) → ¬ (IsSpelled bytes.now newer) }
    ensures exact { Answers result (newer_of bytes.now) }
{
    reasoned(alloc, earlier, bytes)
}
