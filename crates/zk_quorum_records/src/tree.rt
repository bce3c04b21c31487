//! The tree after a SNAP, read item by item.

ghost use Rattle.std.specs.Prelude.{◌≡◌};
ghost use Rattle.zk_jute.specs.Reading.{Gives, Takes, made_of};
ghost use Rattle.zk_quorum_records.specs.Reading.{node_or_end, signature_at};
ghost use Rattle.zk_snapshot.specs.Reading.{access_at, kept_at, lease_at, moments_at, next_at, position_of, stored_at, versions_at};

use crate::item::Item;
use std::alloc::Global;
use zk_jute::JuteFault;
use zk_jute::acls::acl_vector;
use zk_jute::fields::{content, int, long, utf8};
use zk_path::Path;
use zk_snapshot::{Access, Kept, Lease, Moments, Stored, Versions};

/// What a leader writes after the nodes.
const SIGNATURE: &str = "BenWasHere";

#[tactic(auto, unfolding(zk_snapshot::specs::Reading::lease_at))]
pub(crate) fn session(input: &mut &[u8]) -> Result<Lease, JuteFault>
    ensures { Takes result input.new.now (lease_at input.old.now) }
{
    let session = long(input)?;
    let timeout = int(input)?;
    Ok(Lease { session, timeout })
}

#[tactic(auto, unfolding(zk_snapshot::specs::Reading::access_at))]
pub(crate) fn access(alloc: Global, input: &mut &[u8]) -> Result<Access, JuteFault>
    ensures { Takes result input.new.now (access_at input.old.now) }
{
    let number = long(input)?;
    let acl = acl_vector(alloc, &mut None, input)?;
    Ok(Access { number, acl })
}

#[tactic(auto, unfolding(zk_snapshot::specs::Reading::moments_at))]
fn moments(input: &mut &[u8]) -> Result<Moments, JuteFault>
    ensures { Takes result input.new.now (moments_at input.old.now) }
{
    let czxid = long(input)?;
    let mzxid = long(input)?;
    let ctime = long(input)?;
    let mtime = long(input)?;
    Ok(Moments {
        czxid,
        mzxid,
        ctime,
        mtime,
    })
}

#[tactic(auto, unfolding(zk_snapshot::specs::Reading::versions_at))]
fn versions(input: &mut &[u8]) -> Result<Versions, JuteFault>
    ensures { Takes result input.new.now (versions_at input.old.now) }
{
    let version = int(input)?;
    let creates = int(input)?;
    let aversion = int(input)?;
    Ok(Versions {
        version,
        creates,
        aversion,
    })
}

/// `DataNode`.
#[tactic(auto, unfolding(zk_snapshot::specs::Reading::kept_at))]
fn kept(alloc: Global, input: &mut &[u8]) -> Result<Kept, JuteFault>
    ensures { Takes result input.new.now (kept_at input.old.now) }
{
    let content = content(alloc, input)?;
    let access = long(input)?;
    let moments = moments(input)?;
    let versions = versions(input)?;
    let owner = long(input)?;
    let pzxid = long(input)?;
    Ok(Kept {
        content,
        access,
        moments,
        versions,
        owner,
        pzxid,
    })
}

/// The path of a text: the root is written as the empty text.
fn place(alloc: Global, text: &str) -> Result<Path, JuteFault>
    ensures { Gives result (position_of text.now) }
{
    if text.is_empty() {
        return Ok(Path::read(alloc, "/")?);
    }
    Ok(Path::read(alloc, text)?)
}

#[tactic(auto, unfolding(zk_snapshot::specs::Reading::stored_at))]
fn stored(alloc: Global, text: &str, input: &mut &[u8]) -> Result<Option<Stored>, JuteFault>
    ensures { Takes result input.new.now (stored_at text.now input.old.now) }
{
    let path = place(alloc, text)?;
    let kept = kept(alloc, input)?;
    Ok(Some(Stored { path, kept }))
}

/// The next node; `None` at the end of the nodes.
#[tactic(auto, unfolding(zk_snapshot::specs::Reading::next_at))]
fn next(alloc: Global, input: &mut &[u8]) -> Result<Option<Stored>, JuteFault>
    ensures { Takes result input.new.now (next_at input.old.now) }
{
    let text = utf8(input)?;
    if text == "/" {
        return Ok(None);
    }
    stored(alloc, text, input)
}

/// The next node, or the end of the nodes.
pub(crate) fn node_or_end(alloc: Global, input: &mut &[u8]) -> Result<Item, JuteFault>
    ensures { Takes result input.new.now (made_of node_or_end (next_at input.old.now)) }
{
    match next(alloc, input)? {
        Some(node) => Ok(Item::Node(node)),
        None => Ok(Item::TreeEnd),
    }
}

#[tactic(auto, unfolding(crate::specs::Reading::signature_at))]
pub(crate) fn signature(input: &mut &[u8]) -> Result<Item, JuteFault>
    ensures { Takes result input.new.now (signature_at input.old.now) }
{
    let text = utf8(input)?;
    if text != SIGNATURE {
        return Err(JuteFault::Kind);
    }
    Ok(Item::Signature)
}
