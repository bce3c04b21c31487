//! The nodes of a snapshot.

ghost use Rattle.std.specs.Prelude.{◌≡◌};
ghost use Rattle.zk_jute.specs.Reading.{Takes, Gives};
ghost use Rattle.zk_snapshot.specs.Reading.{moments_at, versions_at, kept_at, position_of, stored_at, next_at, nodes_at};

use crate::snapshot::{Kept, Moments, Stored, StoredNodes, Versions};
use std::alloc::Global;
use zk_jute::JuteFault;
use zk_jute::fields::{content, int, long, utf8};
use zk_path::Path;

#[tactic(auto, unfolding(crate::specs::Reading::moments_at))]
fn moments(input: &mut &[u8]) -> Result<Moments, JuteFault>
    ensures { Takes result input.new.now (moments_at input.old.now) }
{
    let czxid = long(input)?;
    let mzxid = long(input)?;
    let ctime = long(input)?;
    let mtime = long(input)?;
    Ok(Moments {
        czxid,
        mzxid,
        ctime,
        mtime,
    })
}

#[tactic(auto, unfolding(crate::specs::Reading::versions_at))]
fn versions(input: &mut &[u8]) -> Result<Versions, JuteFault>
    ensures { Takes result input.new.now (versions_at input.old.now) }
{
    let version = int(input)?;
    let creates = int(input)?;
    let aversion = int(input)?;
    Ok(Versions {
        version,
        creates,
        aversion,
    })
}

/// `DataNode`.
#[tactic(auto, unfolding(crate::specs::Reading::kept_at))]
fn kept(alloc: Global, input: &mut &[u8]) -> Result<Kept, JuteFault>
    ensures { Takes result input.new.now (kept_at input.old.now) }
{
    let content = content(alloc, input)?;
    let access = long(input)?;
    let moments = moments(input)?;
    let versions = versions(input)?;
    let owner = long(input)?;
    let pzxid = long(input)?;
    Ok(Kept {
        content,
        access,
        moments,
        versions,
        owner,
        pzxid,
    })
}

/// The path of a text: the root is written as the empty text.
fn place(alloc: Global, text: &str) -> Result<Path, JuteFault>
    ensures { Gives result (position_of text.now) }
{
    if text.is_empty() {
        return Ok(Path::read(alloc, "/")?);
    }
    Ok(Path::read(alloc, text)?)
}

#[tactic(auto, unfolding(crate::specs::Reading::stored_at))]
fn stored(alloc: Global, text: &str, input: &mut &[u8]) -> Result<Option<Stored>, JuteFault>
    ensures { Takes result input.new.now (stored_at text.now input.old.now) }
{
    let path = place(alloc, text)?;
    let kept = kept(alloc, input)?;
    Ok(Some(Stored { path, kept }))
}

/// The next node; `None` at the end of the nodes.
#[tactic(auto, unfolding(crate::specs::Reading::next_at))]
fn next(alloc: Global, input: &mut &[u8]) -> Result<Option<Stored>, JuteFault>
    ensures { Takes result input.new.now (next_at input.old.now) }
{
    let text = utf8(input)?;
    if text == "/" {
        return Ok(None);
    }
    stored(alloc, text, input)
}

/// The nodes up to their end.
pub(crate) fn nodes(alloc: Global, input: &mut &[u8]) -> Result<StoredNodes, JuteFault>
    ensures { Takes result input.new.now (nodes_at input.old.now) }
{
    let most = input.len();
    let mut nodes = Vec::new(alloc);
    for _ in 0..most {
        match next(alloc, input)? {
            Some(node) => nodes.push(node)?,
            None => return Ok(StoredNodes::new(nodes)),
        }
    }
    Err(JuteFault::Short)
}
