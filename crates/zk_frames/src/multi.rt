//! Multis: parts, each after a header of its own, up to a header that ends them. They have no
//! count.

ghost use Rattle.std.specs.Prelude.{◌≡◌};
ghost use Rattle.zk_frames.specs.Reading.{multi_header_at, part_at, item_by, item_at, parts_at, multi_at};
ghost use Rattle.zk_jute.specs.Reading.{Takes};

use crate::op_codes;
use crate::reading::{create, delete, set_data};
use crate::records::{CreateRequest, DeleteRequest, SetDataRequest};
use std::alloc::Global;
use std::marker::Model;
use zk_jute::JuteFault;
use zk_jute::fields::{boolean, int};

/// A part of a multi.
#[derive(Debug, Drop)]
pub enum MultiPart {
    Create(CreateRequest),
    Delete(DeleteRequest),
    SetData(SetDataRequest),
    Check(DeleteRequest),
    Create2(CreateRequest),
}

/// The parts of a multi, modelled as their list.
#[derive(Debug, Drop)]
pub struct MultiParts {
    parts: Vec<MultiPart>,
}

impl Model for MultiParts {
    ghost use Rattle.std.specs.Prelude.{List};
    ghost use Rattle.zk_frames.specs.declared.multi.MultiPart.{MultiPart};

    ghost Value = { List MultiPart };

    ghost view = { λ it. it.parts.items };
}

impl MultiParts {
    /// Wraps the parts; allocates nothing.
    pub fn new(parts: Vec<MultiPart>) -> MultiParts
        ensures { result ≡ parts.items }
    {
        MultiParts { parts }
    }

    pub fn as_slice(&self) -> &[MultiPart]
        ensures { result.now ≡ self.now }
    {
        self.parts.as_slice()
    }

    pub fn into_vec(self) -> Vec<MultiPart>
        ensures { result.items ≡ self }
    {
        let MultiParts { parts } = self;
        parts
    }
}

#[derive(Clone, Copy, Debug)]
pub struct MultiHeader {
    pub kind: i32,
    pub done: bool,
    pub err: i32,
}

#[tactic(auto, unfolding(crate::specs::Reading::multi_header_at))]
fn multi_header(input: &mut &[u8]) -> Result<MultiHeader, JuteFault>
    ensures { Takes result input.new.now (multi_header_at input.old.now) }
{
    let kind = int(input)?;
    let done = boolean(input)?;
    let err = int(input)?;
    Ok(MultiHeader { kind, done, err })
}

/// The body of a part, by its type.
#[tactic(auto, unfolding(crate::specs::Reading::part_at))]
fn part(alloc: Global, kind: i32, input: &mut &[u8]) -> Result<MultiPart, JuteFault>
    ensures { Takes result input.new.now (part_at kind input.old.now) }
{
    match kind {
        op_codes::CREATE => Ok(MultiPart::Create(create(alloc, input)?)),
        op_codes::DELETE => Ok(MultiPart::Delete(delete(alloc, input)?)),
        op_codes::SET_DATA => Ok(MultiPart::SetData(set_data(alloc, input)?)),
        op_codes::CHECK => Ok(MultiPart::Check(delete(alloc, input)?)),
        op_codes::CREATE_2 => Ok(MultiPart::Create2(create(alloc, input)?)),
        _ => Err(JuteFault::Kind),
    }
}

/// After a header: a part, or the end.
fn item_by(
    alloc: Global,
    header: MultiHeader,
    input: &mut &[u8],
) -> Result<Option<MultiPart>, JuteFault>
    ensures { Takes result input.new.now (item_by header input.old.now) }
{
    if header.err != op_codes::ERROR {
        return Err(JuteFault::Kind);
    }
    if header.done {
        if header.kind != op_codes::ERROR {
            return Err(JuteFault::Kind);
        }
        return Ok(None);
    }
    Ok(Some(part(alloc, header.kind, input)?))
}

/// A part; `None` at the end.
#[tactic(auto, unfolding(crate::specs::Reading::item_at))]
fn item(alloc: Global, input: &mut &[u8]) -> Result<Option<MultiPart>, JuteFault>
    ensures { Takes result input.new.now (item_at input.old.now) }
{
    let header = multi_header(input)?;
    item_by(alloc, header, input)
}

/// Fewer than `count` parts, up to the end.
fn parts(alloc: Global, count: usize, input: &mut &[u8]) -> Result<MultiParts, JuteFault>
    ensures { Takes result input.new.now (parts_at count input.old.now) }
{
    let mut parts = Vec::new(alloc);
    for _ in 0..count {
        match item(alloc, input)? {
            Some(part) => parts.push(part)?,
            None => return Ok(MultiParts::new(parts)),
        }
    }
    Err(JuteFault::Short)
}

/// The parts up to the end. Each has more than one byte, so there are no more parts than bytes.
pub(crate) fn multi(alloc: Global, input: &mut &[u8]) -> Result<MultiParts, JuteFault>
    ensures { Takes result input.new.now (multi_at input.old.now) }
{
    let count = input.len();
    parts(alloc, count, input)
}
