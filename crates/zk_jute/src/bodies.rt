//! The bodies that occur alone and as parts of a multi.

ghost use Rattle.std.specs.Prelude.{◌≡◌};
ghost use Rattle.zk_jute.specs.Reading.{Takes, front_at, create_at, created_at, set_data_at, create_op, old_create_op, set_data_op, create_part, set_data_part};

use crate::acls::acl_vector;
use crate::fault::JuteFault;
use crate::fields::{boolean, content, int, path};
use std::alloc::Global;
use zk_acl::Acls;
use zk_path::Path;
use zk_table::{Content, Op, Sub};

/// `CreateTxnV0`, the prefix of `CreateTxn`.
#[derive(Debug, Drop)]
pub struct CreateTxnV0 {
    pub path: Path,
    pub content: Option<Content>,
    pub acl: Acls,
    pub ephemeral: bool,
}

impl CreateTxnV0 {
    /// The 3.3 create, which occurs alone.
    pub fn into_op(self) -> Op
        ensures { result ≡ old_create_op self }
    {
        let CreateTxnV0 {
            path,
            content,
            acl,
            ephemeral,
        } = self;
        Op::CreateOld {
            path,
            content,
            acl,
            ephemeral,
        }
    }
}

/// `CreateTxn`.
#[derive(Debug, Drop)]
pub struct CreateTxn {
    pub front: CreateTxnV0,
    /// How many children the parent has been given, including this one; -1 if the table counts.
    pub count: i32,
}

impl CreateTxn {
    /// The create that occurs alone.
    pub fn into_op(self) -> Op
        ensures { result ≡ create_op self }
    {
        let CreateTxn { front, count } = self;
        let CreateTxnV0 {
            path,
            content,
            acl,
            ephemeral,
        } = front;
        Op::Create {
            path,
            content,
            acl,
            ephemeral,
            count,
        }
    }

    /// The part of a multi.
    pub fn into_part(self) -> Sub
        ensures { result ≡ create_part self }
    {
        let CreateTxn { front, count } = self;
        let CreateTxnV0 {
            path,
            content,
            acl,
            ephemeral,
        } = front;
        Sub::Create {
            path,
            content,
            acl,
            ephemeral,
            count,
        }
    }
}

/// `SetDataTxn`.
#[derive(Debug, Drop)]
pub struct SetDataTxn {
    pub path: Path,
    pub content: Option<Content>,
    pub version: i32,
}

impl SetDataTxn {
    /// The operation that occurs alone.
    pub fn into_op(self) -> Op
        ensures { result ≡ set_data_op self }
    {
        let SetDataTxn {
            path,
            content,
            version,
        } = self;
        Op::SetData {
            path,
            content,
            version,
        }
    }

    /// The part of a multi.
    pub fn into_part(self) -> Sub
        ensures { result ≡ set_data_part self }
    {
        let SetDataTxn {
            path,
            content,
            version,
        } = self;
        Sub::SetData {
            path,
            content,
            version,
        }
    }
}

#[tactic(auto, unfolding(crate::specs::Reading::front_at))]
fn create_front(
    alloc: Global,
    earlier: &mut Option<Acls>,
    input: &mut &[u8],
) -> Result<CreateTxnV0, JuteFault>
    ensures { Takes result input.new.now (front_at input.old.now) }
{
    let path = path(alloc, input)?;
    let content = content(alloc, input)?;
    let acl = acl_vector(alloc, earlier, input)?;
    let ephemeral = boolean(input)?;
    Ok(CreateTxnV0 {
        path,
        content,
        acl,
        ephemeral,
    })
}

/// A create as a part of a multi, which always has a count.
#[tactic(auto, unfolding(crate::specs::Reading::create_at))]
pub fn create(
    alloc: Global,
    earlier: &mut Option<Acls>,
    input: &mut &[u8],
) -> Result<CreateTxn, JuteFault>
    ensures { Takes result input.new.now (create_at input.old.now) }
{
    let front = create_front(alloc, earlier, input)?;
    let count = int(input)?;
    Ok(CreateTxn { front, count })
}

/// A create that occurs alone; that of 3.3 ends after its boolean.
#[tactic(auto, unfolding(crate::specs::Reading::created_at, crate::specs::Reading::ended_or_counted))]
pub fn created(
    alloc: Global,
    earlier: &mut Option<Acls>,
    input: &mut &[u8],
) -> Result<Op, JuteFault>
    ensures { Takes result input.new.now (created_at input.old.now) }
{
    let front = create_front(alloc, earlier, input)?;
    if input.is_empty() {
        return Ok(front.into_op());
    }
    let count = int(input)?;
    Ok(CreateTxn { front, count }.into_op())
}

/// `SetDataTxn`.
#[tactic(auto, unfolding(crate::specs::Reading::set_data_at))]
pub fn set_data(alloc: Global, input: &mut &[u8]) -> Result<SetDataTxn, JuteFault>
    ensures { Takes result input.new.now (set_data_at input.old.now) }
{
    let path = path(alloc, input)?;
    let content = content(alloc, input)?;
    let version = int(input)?;
    Ok(SetDataTxn {
        path,
        content,
        version,
    })
}
