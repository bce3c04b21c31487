//! Entries and histories, read.

ghost use Rattle.std.specs.Prelude.{◌≤◌, length, IfOk, pos};
ghost use Rattle.std.specs.Int.{w64};
ghost use Rattle.zk_jute.specs.Reading.{Takes, TakesBy, many_at};
ghost use Rattle.zk_records.specs.Records.{record_of};
ghost use Rattle.zk_records.specs.Sizes.{size_of};
ghost use Rattle.zab_frames.specs.Reading.{natural_at, list_at, record_at, ends_at, entry_at, tagged_entry_at, entries_at, history_at};

use crate::fields::{long_word, word};
use bytes::Buf;
use std::alloc::Global;
use zab_epoch::{Entry, History};
use zk_acl::Acls;
use zk_jute::{JuteFault, read_txn_sharing};
use zk_records::adler;
use zk_table::Txn;

/// The most bytes of a record.
const MOST_BYTES: u32 = 16_777_216;

/// The byte at the end of an entry.
const END: u8 = 0x42;

/// A length, and the bytes of a record.
#[tactic(auto, unfolding(crate::specs::Reading::record_at))]
fn record<'a>(input: &mut &'a [u8]) -> Result<&'a [u8], JuteFault>
    ensures read { TakesBy (λ x. x.now) result input.new.now (record_at input.old.now) }
    ensures short { IfOk result (λ bytes. length bytes.now ≤ 16777216) }
{
    let count = word(input)?;
    if count > MOST_BYTES {
        return Err(JuteFault::Length);
    }
    let count = count as usize;
    if input.remaining() < count {
        return Err(JuteFault::Short);
    }
    let (front, rest) = input.split_at(count);
    *input = rest;
    Ok(front)
}

/// Whether the next byte ends an entry.
fn ends(input: &mut &[u8]) -> Result<bool, JuteFault>
    ensures { Takes result input.new.now (ends_at input.old.now) }
{
    let byte = input.try_get_u8().map_err(|_| JuteFault::Short)?;
    Ok(byte == END)
}

/// The transaction of an entry. An access control list equal to `earlier` shares its entries.
#[tactic(auto, using(crate::proofs::EntryLaws::short_record), unfolding(crate::specs::Reading::entry_at))]
fn entry(alloc: Global, earlier: &mut Option<Acls>, input: &mut &[u8]) -> Result<Txn, JuteFault>
    ensures read { Takes result input.new.now (entry_at input.old.now) }
    ensures short { IfOk result (λ txn. size_of (record_of txn) ≤ 16777216) }
{
    let sum = long_word(input)?;
    let record = record(input)?;
    let ended = ends(input)?;
    let txn = read_txn_sharing(alloc, earlier, record)?;
    if !ended || sum != u64::from(adler(record)) {
        return Err(JuteFault::Kind);
    }
    Ok(txn)
}

#[tactic(auto, unfolding(crate::specs::Reading::tagged_entry_at))]
pub(crate) fn tagged_entry(alloc: Global, input: &mut &[u8]) -> Result<Entry, JuteFault>
    ensures { Takes result input.new.now (tagged_entry_at input.old.now) }
{
    let tag = long_word(input)?;
    let txn = entry(alloc, &mut None, input)?;
    Ok(Entry { tag, txn })
}

fn some_tags(alloc: Global, count: u64, input: &mut &[u8]) -> Result<Vec<u64>, JuteFault>
    ensures { TakesBy (λ tags. tags.items) result input.new.now (many_at (natural_at w64) count input.old.now) }
{
    let mut tags = Vec::new(alloc);
    for _ in 0..count {
        tags.push(long_word(input)?)?;
    }
    Ok(tags)
}

#[tactic(auto, unfolding(crate::specs::Reading::list_at))]
fn tags(alloc: Global, input: &mut &[u8]) -> Result<Vec<u64>, JuteFault>
    ensures { TakesBy (λ tags. tags.items) result input.new.now (list_at (natural_at w64) input.old.now) }
{
    let count = long_word(input)?;
    some_tags(alloc, count, input)
}

/// The entries with these tags.
fn entries(alloc: Global, tags: &[u64], input: &mut &[u8]) -> Result<History, JuteFault>
    ensures { Takes result input.new.now (entries_at (pos 0) tags.now input.old.now) }
{
    let mut history = History::new(alloc);
    let mut earlier = None;
    for tag in tags {
        let txn = entry(alloc, &mut earlier, input)?;
        if txn.zxid <= history.last_zxid() {
            return Err(JuteFault::Kind);
        }
        history.push(Entry { tag: *tag, txn })?;
    }
    Ok(history)
}

#[tactic(auto, unfolding(crate::specs::Reading::history_at))]
pub(crate) fn history(alloc: Global, input: &mut &[u8]) -> Result<History, JuteFault>
    ensures { Takes result input.new.now (history_at input.old.now) }
{
    let tags = tags(alloc, input)?;
    entries(alloc, tags.as_slice(), input)
}
