//! Fields that records of transactions lack: nulls, and vectors of texts.

ghost use Rattle.zk_jute.specs.Reading.{Takes, many_at, text_at, vector_at};
ghost use Rattle.zk_frames.specs.Reading.{null_at, null_or, acl_record_at};

use crate::acl_records::{AclRecord, AclRecords};
use std::alloc::Global;
use zk_acl::Text;
use zk_jute::JuteFault;
use zk_jute::fields::{count, int, text};
use zk_table::Names;

/// The length of null.
const NULL: i32 = -1;

/// Whether null comes next. Otherwise the input does not advance.
#[tactic(auto, unfolding(crate::specs::Reading::null_at))]
fn null(input: &mut &[u8]) -> Result<bool, JuteFault>
    ensures { Takes result input.new.now (null_at input.old.now) }
{
    let mut rest = *input;
    if int(&mut rest)? != NULL {
        return Ok(false);
    }
    *input = rest;
    Ok(true)
}

/// A `ustring` that may be null.
#[tactic(auto, unfolding(crate::specs::Reading::null_or))]
fn text_or_null(alloc: Global, input: &mut &[u8]) -> Result<Option<Text>, JuteFault>
    ensures { Takes result input.new.now (null_or text_at input.old.now) }
{
    if null(input)? {
        return Ok(None);
    }
    Ok(Some(text(alloc, input)?))
}

/// `count` texts.
fn some_texts(alloc: Global, count: u32, input: &mut &[u8]) -> Result<Names, JuteFault>
    ensures { Takes result input.new.now (many_at text_at count input.old.now) }
{
    let mut texts = Vec::new(alloc);
    for _ in 0..count {
        texts.push(text(alloc, input)?)?;
    }
    Ok(Names::new(texts))
}

/// A vector of `ustring`.
#[tactic(auto, unfolding(zk_jute::specs::Reading::vector_at))]
pub fn texts(alloc: Global, input: &mut &[u8]) -> Result<Names, JuteFault>
    ensures { Takes result input.new.now (vector_at text_at input.old.now) }
{
    let count = count(input)?;
    some_texts(alloc, count, input)
}

#[tactic(auto, unfolding(crate::specs::Reading::acl_record_at))]
fn acl_record(alloc: Global, input: &mut &[u8]) -> Result<AclRecord, JuteFault>
    ensures { Takes result input.new.now (acl_record_at input.old.now) }
{
    let perms = int(input)?;
    let scheme = text_or_null(alloc, input)?;
    let id = text_or_null(alloc, input)?;
    Ok(AclRecord { perms, scheme, id })
}

/// `count` entries.
fn some_records(alloc: Global, count: u32, input: &mut &[u8]) -> Result<AclRecords, JuteFault>
    ensures { Takes result input.new.now (many_at acl_record_at count input.old.now) }
{
    let mut records = Vec::new(alloc);
    for _ in 0..count {
        records.push(acl_record(alloc, input)?)?;
    }
    Ok(AclRecords::new(records))
}

/// A vector of `ACL`.
#[tactic(auto, unfolding(zk_jute::specs::Reading::vector_at))]
fn acl_records(alloc: Global, input: &mut &[u8]) -> Result<AclRecords, JuteFault>
    ensures { Takes result input.new.now (vector_at acl_record_at input.old.now) }
{
    let count = count(input)?;
    some_records(alloc, count, input)
}

/// A vector of `ACL` that may be null.
#[tactic(auto, unfolding(crate::specs::Reading::null_or))]
pub fn acl_records_or_null(
    alloc: Global,
    input: &mut &[u8],
) -> Result<Option<AclRecords>, JuteFault>
    ensures { Takes result input.new.now (null_or (vector_at acl_record_at) input.old.now) }
{
    if null(input)? {
        return Ok(None);
    }
    Ok(Some(acl_records(alloc, input)?))
}
