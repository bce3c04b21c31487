ghost use Rattle.std.specs.Prelude.{◌≡◌, ◌<◌, ◌+◌, length, IfOk, IfSome, IfNone};
ghost use Rattle.zk_servers.specs.Closing.{AllFit, Fits, IsFirstUnfit, IsToldAt, Tells};

use crate::record::{Receipt, Record};
use std::alloc::{AllocError, Global};
use zk_model::Equals;

/// Returns the index of the first receipt that does not match its record, or repeats one.
pub fn first_unfit(
    alloc: Global,
    records: &[Record],
    receipts: &[Receipt],
) -> Result<Option<usize>, AllocError>
    ensures none { IfOk result (λ found. IfNone found (AllFit records.now receipts.now (length receipts.now))) }
    ensures some { IfOk result (λ found. IfSome found (λ at. IsFirstUnfit records.now receipts.now at)) }
{
    let mut met = vec![in alloc; false; records.len()]?;
    for at in 0..receipts.len() {
        match place_at(records, receipts, at) {
            Some(place) => {
                if met[place] {
                    return Ok(Some(at));
                }
                met[place] = true;
            }
            None => return Ok(Some(at)),
        }
    }
    Ok(None)
}

/// Returns the index of the record that the receipt at an index matches.
fn place_at(records: &[Record], receipts: &[Receipt], at: usize) -> Option<usize>
    ensures some { IfSome result (λ place. IsToldAt records.now receipts.now at place) }
    ensures none { IfNone result (Fits records.now receipts.now at → ⊥) }
{
    position_of(records, receipts.get(at)?)
}

/// Returns the index of the record that a receipt matches.
fn position_of(records: &[Record], receipt: &Receipt) -> Option<usize>
    ensures some { IfSome result (λ place. (receipt.now.number ≡ place + 1) × (place < length records.now) × Tells records.now receipt.now) }
    ensures none { IfNone result (Tells records.now receipt.now → ⊥) }
{
    if receipt.number == 0 {
        return None;
    }
    let place = (receipt.number - 1) as usize;
    let it = records.get(place)?;
    if it.answer.equals(&receipt.answer) && it.zxid == receipt.zxid {
        Some(place)
    } else {
        None
    }
}
