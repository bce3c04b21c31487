//! The fields before and after the nodes.

ghost use Rattle.std.specs.Prelude.{◌≡◌};
ghost use Rattle.zk_jute.specs.Reading.{Takes, many_at, vector_at};
ghost use Rattle.zk_snapshot.specs.Reading.{header_at, lease_at, access_at, seal_at, claim_at, before};

use crate::snapshot::{Access, Accesses, Claim, Lease, Leases};
use std::alloc::Global;
use zk_acl::Acls;
use zk_jute::JuteFault;
use zk_jute::acls::acl_vector;
use zk_jute::fields::{count, int, long, utf8};
use zk_records::adler;

/// "ZKSN".
const MARK: i32 = 0x5a4b534e;

const VERSION: i32 = 2;

/// A checksum mismatch. No field of a snapshot is a boolean, which leaves this fault unused.
const WRONG_SUM: JuteFault = JuteFault::Boolean;

/// `FileHeader`.
#[tactic(auto, unfolding(crate::specs::Reading::header_at))]
pub(crate) fn header(input: &mut &[u8]) -> Result<i64, JuteFault>
    ensures { Takes result input.new.now (header_at input.old.now) }
{
    let mark = int(input)?;
    let version = int(input)?;
    let dbid = long(input)?;
    if mark != MARK || version != VERSION {
        return Err(JuteFault::Kind);
    }
    Ok(dbid)
}

#[tactic(auto, unfolding(crate::specs::Reading::lease_at))]
fn lease(input: &mut &[u8]) -> Result<Lease, JuteFault>
    ensures { Takes result input.new.now (lease_at input.old.now) }
{
    let session = long(input)?;
    let timeout = int(input)?;
    Ok(Lease { session, timeout })
}

/// `count` sessions.
fn some_leases(alloc: Global, count: u32, input: &mut &[u8]) -> Result<Leases, JuteFault>
    ensures { Takes result input.new.now (many_at lease_at count input.old.now) }
{
    let mut leases = Vec::new(alloc);
    for _ in 0..count {
        leases.push(lease(input)?)?;
    }
    Ok(Leases::new(leases))
}

#[tactic(auto, unfolding(zk_jute::specs::Reading::vector_at))]
pub(crate) fn leases(alloc: Global, input: &mut &[u8]) -> Result<Leases, JuteFault>
    ensures { Takes result input.new.now (vector_at lease_at input.old.now) }
{
    let count = count(input)?;
    some_leases(alloc, count, input)
}

#[tactic(auto, unfolding(crate::specs::Reading::access_at))]
fn access(alloc: Global, earlier: &mut Option<Acls>, input: &mut &[u8]) -> Result<Access, JuteFault>
    ensures { Takes result input.new.now (access_at input.old.now) }
{
    let number = long(input)?;
    let acl = acl_vector(alloc, earlier, input)?;
    Ok(Access { number, acl })
}

/// `count` access control lists.
fn some_accesses(alloc: Global, count: u32, input: &mut &[u8]) -> Result<Accesses, JuteFault>
    ensures { Takes result input.new.now (many_at access_at count input.old.now) }
{
    let mut earlier = None;
    let mut accesses = Vec::new(alloc);
    for _ in 0..count {
        accesses.push(access(alloc, &mut earlier, input)?)?;
    }
    Ok(Accesses::new(accesses))
}

#[tactic(auto, unfolding(zk_jute::specs::Reading::vector_at))]
pub(crate) fn accesses(alloc: Global, input: &mut &[u8]) -> Result<Accesses, JuteFault>
    ensures { Takes result input.new.now (vector_at access_at input.old.now) }
{
    let count = count(input)?;
    some_accesses(alloc, count, input)
}

/// The bytes before a rest.
pub(crate) fn before<'a>(bytes: &'a [u8], rest: &[u8]) -> &'a [u8]
    ensures { result.now ≡ before bytes.now rest.now }
{
    let len = bytes.len().saturating_sub(rest.len());
    &bytes[..len]
}

/// A seal over the bytes `front`: their Adler-32, and the path `/`.
#[tactic(auto, unfolding(crate::specs::Reading::seal_at))]
pub(crate) fn seal(front: &[u8], input: &mut &[u8]) -> Result<i64, JuteFault>
    ensures { Takes result input.new.now (seal_at front.now input.old.now) }
{
    let sum = long(input)?;
    if sum != i64::from(adler(front)) {
        return Err(WRONG_SUM);
    }
    let end = utf8(input)?;
    if end != "/" {
        return Err(JuteFault::Text);
    }
    Ok(sum)
}

/// `ZxidDigest`.
#[tactic(auto, unfolding(crate::specs::Reading::claim_at))]
pub(crate) fn claim(input: &mut &[u8]) -> Result<Claim, JuteFault>
    ensures { Takes result input.new.now (claim_at input.old.now) }
{
    let zxid = long(input)?;
    let version = int(input)?;
    let sum = long(input)?;
    Ok(Claim { zxid, version, sum })
}
