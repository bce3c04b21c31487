//! Readers of operations: a word, and a space before each field.
ghost use Rattle.std.specs.Prelude.{◌≡◌};
ghost use Rattle.zk_listing.specs.Reading.{Takes, TakesUnit, ContinuesParts, of_field, spaced, ephemeral_at, word_from, word_at, create_at, set_data_at, set_acl_op_at, create_old_op_at, check_at, sub_by, sub_at, semicolon_from, part_at, parts_in, op_by, op_at, mapped, sub_created, sub_written, op_created, op_written};

use crate::fields::take_field;
use crate::list_fault::ListCause;
use crate::parts::{space, spaced_acl, spaced_content, spaced_int, spaced_path};
use std::alloc::Global;
use zk_acl::Acls;
use zk_path::Path;
use zk_table::{Content, Op, Sub, Subs};

/// The first word of an operation or of a multi's part.
#[derive(Clone, Copy, Debug)]
pub(crate) enum Word {
    CreateOld,
    Create,
    Delete,
    SetData,
    SetAcl,
    CreateSession,
    CloseSession,
    Error,
    Multi,
    Check,
}

#[tactic(auto, unfolding(crate::specs::Reading::word_at))]
fn next_word(input: &mut &str) -> Result<Word, ListCause>
    ensures { Takes result input.new.now (word_at input.old.now) }
{
    match take_field(input) {
        None => Err(ListCause::Fields),
        Some(field) => word_of(field).ok_or(ListCause::Word),
    }
}

#[tactic(auto, unfolding(crate::specs::Reading::word_from))]
fn word_of(field: &str) -> Option<Word>
    ensures { result ≡ word_from field.now }
{
    match field {
        "create0" => Some(Word::CreateOld),
        "create" => Some(Word::Create),
        "delete" => Some(Word::Delete),
        "setData" => Some(Word::SetData),
        "setACL" => Some(Word::SetAcl),
        "createSession" => Some(Word::CreateSession),
        "closeSession" => Some(Word::CloseSession),
        "error" => Some(Word::Error),
        "multi" => Some(Word::Multi),
        "check" => Some(Word::Check),
        _ => None,
    }
}

/// Whether a node is deleted with its session: `e` if so, else `p`.
#[tactic(auto, unfolding(crate::specs::Reading::ephemeral_at, crate::specs::Reading::ephemeral_from))]
fn ephemeral(input: &mut &str) -> Result<bool, ListCause>
    ensures { Takes result input.new.now (ephemeral_at input.old.now) }
{
    match take_field(input) {
        None => Err(ListCause::Fields),
        Some("e") => Ok(true),
        Some("p") => Ok(false),
        Some(_) => Err(ListCause::Word),
    }
}

fn spaced_ephemeral(input: &mut &str) -> Result<bool, ListCause>
    ensures { Takes result input.new.now (spaced ephemeral_at input.old.now) }
{
    space(input)?;
    ephemeral(input)
}

/// The fields of a create.
#[derive(Debug, Drop)]
pub(crate) struct Created {
    path: Path,
    content: Option<Content>,
    acl: Acls,
    ephemeral: bool,
    count: i32,
}

#[tactic(auto, unfolding(crate::specs::Reading::create_at))]
fn create(alloc: Global, input: &mut &str) -> Result<Created, ListCause>
    ensures { Takes result input.new.now (create_at input.old.now) }
{
    let path = spaced_path(alloc, input)?;
    let content = spaced_content(alloc, input)?;
    let acl = spaced_acl(alloc, input)?;
    let ephemeral = spaced_ephemeral(input)?;
    let count = spaced_int(input)?;
    Ok(Created {
        path,
        content,
        acl,
        ephemeral,
        count,
    })
}

/// The fields of a setData.
#[derive(Debug, Drop)]
pub(crate) struct Written {
    path: Path,
    content: Option<Content>,
    version: i32,
}

#[tactic(auto, unfolding(crate::specs::Reading::set_data_at))]
fn set_data(alloc: Global, input: &mut &str) -> Result<Written, ListCause>
    ensures { Takes result input.new.now (set_data_at input.old.now) }
{
    let path = spaced_path(alloc, input)?;
    let content = spaced_content(alloc, input)?;
    let version = spaced_int(input)?;
    Ok(Written {
        path,
        content,
        version,
    })
}

#[tactic(auto, unfolding(crate::specs::Reading::create_old_op_at))]
fn create_old(alloc: Global, input: &mut &str) -> Result<Op, ListCause>
    ensures { Takes result input.new.now (create_old_op_at input.old.now) }
{
    let path = spaced_path(alloc, input)?;
    let content = spaced_content(alloc, input)?;
    let acl = spaced_acl(alloc, input)?;
    let ephemeral = spaced_ephemeral(input)?;
    Ok(Op::CreateOld {
        path,
        content,
        acl,
        ephemeral,
    })
}

#[tactic(auto, unfolding(crate::specs::Reading::set_acl_op_at))]
fn set_acl(alloc: Global, input: &mut &str) -> Result<Op, ListCause>
    ensures { Takes result input.new.now (set_acl_op_at input.old.now) }
{
    let path = spaced_path(alloc, input)?;
    let acl = spaced_acl(alloc, input)?;
    let version = spaced_int(input)?;
    Ok(Op::SetAcl { path, acl, version })
}

#[tactic(auto, unfolding(crate::specs::Reading::check_at))]
fn check(alloc: Global, input: &mut &str) -> Result<Sub, ListCause>
    ensures { Takes result input.new.now (check_at input.old.now) }
{
    let path = spaced_path(alloc, input)?;
    let version = spaced_int(input)?;
    Ok(Sub::Check { path, version })
}

#[tactic(auto, unfolding(crate::specs::Reading::sub_at))]
fn sub_operation(alloc: Global, input: &mut &str) -> Result<Sub, ListCause>
    ensures { Takes result input.new.now (sub_at input.old.now) }
{
    space(input)?;
    let word = next_word(input)?;
    sub_fields(alloc, word, input)
}

#[tactic(auto, unfolding(crate::specs::Reading::sub_by))]
fn sub_fields(alloc: Global, word: Word, input: &mut &str) -> Result<Sub, ListCause>
    ensures { Takes result input.new.now (sub_by word input.old.now) }
{
    match word {
        Word::Create => sub_create(alloc, input),
        Word::Delete => Ok(Sub::Delete {
            path: spaced_path(alloc, input)?,
        }),
        Word::SetData => sub_set_data(alloc, input),
        Word::Check => check(alloc, input),
        Word::Error => Ok(Sub::Error {
            code: spaced_int(input)?,
        }),
        Word::CreateOld | Word::SetAcl | Word::CreateSession | Word::CloseSession | Word::Multi =>
            Err(ListCause::Word),
    }
}

fn sub_create(alloc: Global, input: &mut &str) -> Result<Sub, ListCause>
    ensures { Takes result input.new.now (mapped sub_created create_at input.old.now) }
{
    let fields = create(alloc, input)?;
    Ok(Sub::Create {
        path: fields.path,
        content: fields.content,
        acl: fields.acl,
        ephemeral: fields.ephemeral,
        count: fields.count,
    })
}

fn sub_set_data(alloc: Global, input: &mut &str) -> Result<Sub, ListCause>
    ensures { Takes result input.new.now (mapped sub_written set_data_at input.old.now) }
{
    let fields = set_data(alloc, input)?;
    Ok(Sub::SetData {
        path: fields.path,
        content: fields.content,
        version: fields.version,
    })
}

/// The word between the parts of a multi.
#[tactic(auto, unfolding(crate::specs::Reading::semicolon_from))]
fn semicolon(input: &mut &str) -> Result<(), ListCause>
    ensures { Takes result input.new.now (of_field semicolon_from input.old.now) }
{
    match take_field(input) {
        None => Err(ListCause::Fields),
        Some(";") => Ok(()),
        Some(_) => Err(ListCause::Word),
    }
}

/// A separator and a part.
#[tactic(auto, unfolding(crate::specs::Reading::part_at))]
fn part(alloc: Global, input: &mut &str) -> Result<Sub, ListCause>
    ensures { Takes result input.new.now (part_at input.old.now) }
{
    space(input)?;
    semicolon(input)?;
    sub_operation(alloc, input)
}

/// The next part of a multi; `None` if no space follows.
fn next_part(alloc: Global, input: &mut &str) -> Result<Option<Sub>, ListCause>
    ensures { ContinuesParts result input.new.now input.old.now }
{
    if !input.starts_with(' ') {
        return Ok(None);
    }
    let part = part(alloc, input)?;
    Ok(Some(part))
}

fn parts(alloc: Global, input: &mut &str) -> Result<Subs, ListCause>
    ensures { Takes result input.new.now (parts_in input.old.now) }
{
    let mut parts = Vec::new(alloc);
    while let Some(part) = next_part(alloc, input)? {
        parts.push(part)?;
    }
    Ok(Subs::new(parts))
}

#[tactic(auto, unfolding(crate::specs::Reading::op_at))]
pub(crate) fn operation(alloc: Global, input: &mut &str) -> Result<Op, ListCause>
    ensures { Takes result input.new.now (op_at input.old.now) }
{
    let word = next_word(input)?;
    op_fields(alloc, word, input)
}

#[tactic(auto, unfolding(crate::specs::Reading::op_by))]
fn op_fields(alloc: Global, word: Word, input: &mut &str) -> Result<Op, ListCause>
    ensures { Takes result input.new.now (op_by word input.old.now) }
{
    match word {
        Word::CreateOld => create_old(alloc, input),
        Word::Create => op_create(alloc, input),
        Word::Delete => Ok(Op::Delete {
            path: spaced_path(alloc, input)?,
        }),
        Word::SetData => op_set_data(alloc, input),
        Word::SetAcl => set_acl(alloc, input),
        Word::CreateSession => Ok(Op::OpenSession {
            timeout: spaced_int(input)?,
        }),
        Word::CloseSession => Ok(Op::CloseSession),
        Word::Error => Ok(Op::Error {
            code: spaced_int(input)?,
        }),
        Word::Multi => Ok(Op::Multi {
            parts: parts(alloc, input)?,
        }),
        Word::Check => Err(ListCause::Word),
    }
}

fn op_create(alloc: Global, input: &mut &str) -> Result<Op, ListCause>
    ensures { Takes result input.new.now (mapped op_created create_at input.old.now) }
{
    let fields = create(alloc, input)?;
    Ok(Op::Create {
        path: fields.path,
        content: fields.content,
        acl: fields.acl,
        ephemeral: fields.ephemeral,
        count: fields.count,
    })
}

fn op_set_data(alloc: Global, input: &mut &str) -> Result<Op, ListCause>
    ensures { Takes result input.new.now (mapped op_written set_data_at input.old.now) }
{
    let fields = set_data(alloc, input)?;
    Ok(Op::SetData {
        path: fields.path,
        content: fields.content,
        version: fields.version,
    })
}
