ghost use Rattle.std.specs.Prelude.{◌≡◌, ◌++◌, ◌∷◌, codes, IfOk, OnErr, OnOk};
ghost use Rattle.std.specs.List.{flat_map, AllByRecursion};
ghost use Rattle.std.specs.String.{string_bytes};
ghost use Rattle.zk_format.specs.Listings.{IsListed, HasCountedAcls, listing_of, line_of, op_text, sub_text, part_text, create_text, create_old_text, delete_text, set_data_text, set_acl_text, check_text, error_text, ephemeral_text, header_text};

use crate::ranges::{txn_is_listed, txns_are_listed};
use crate::spelling::{
    LINE, push_id, spell_acl, spell_content, spell_next_decimal, spell_next_id, spell_quoted,
};
use std::alloc::Global;
use zk_acl::Acls;
use zk_path::{NoMemory, Path};
use zk_table::{Content, Op, Sub, Txn};

/// Returns the listing of these transactions, one line for each. `assemble` of `zk_listing` reads
/// it back, unless an access control list has more entries than a line can count.
pub fn list(alloc: Global, txns: &[Txn]) -> Result<String, NoMemory>
    ensures spelled { IfOk result (λ text. string_bytes text ≡ listing_of txns.now) }
    ensures listed { AllByRecursion HasCountedAcls txns.now → AllByRecursion IsListed txns.now }
{
    txns_are_listed(txns);
    let mut text = String::new(alloc);
    for txn in txns {
        spell_line(&mut text, txn)?;
    }
    Ok(text)
}

/// Appends a transaction's line, with its newline.
pub fn push_line(text: &mut String, txn: &Txn) -> Result<(), NoMemory>
    ensures appended { OnOk result (string_bytes text.new ≡ string_bytes text.old ++ line_of txn.now) }
    ensures unchanged { OnErr result (string_bytes text.new ≡ string_bytes text.old) }
    ensures listed { HasCountedAcls txn.now → IsListed txn.now }
{
    txn_is_listed(txn);
    let mut line = String::with_capacity(*text.allocator(), LINE)?;
    spell_line(&mut line, txn)?;
    text.push_str(line.as_str())?;
    Ok(())
}

/// Appends a transaction's line, with its newline. If an allocation fails, a part of it may be
/// left, so the caller must discard the text. [`push_line`] formats the line in a buffer of its own
/// first.
pub fn spell_line(text: &mut String, txn: &Txn) -> Result<(), NoMemory>
    ensures { OnOk result (string_bytes text.new ≡ string_bytes text.old ++ line_of txn.now) }
{
    spell_header(text, txn)?;
    text.push(' ')?;
    spell_op(text, &txn.op)?;
    text.push('\n')?;
    Ok(())
}

/// Appends the header fields of a line.
fn spell_header(text: &mut String, txn: &Txn) -> Result<(), NoMemory>
    ensures { OnOk result (string_bytes text.new ≡ string_bytes text.old ++ header_text txn.now) }
{
    push_id(text, txn.zxid)?;
    spell_next_id(text, txn.session)?;
    spell_next_decimal(text, i64::from(txn.cxid))?;
    spell_next_decimal(text, txn.time)?;
    Ok(())
}

/// Appends an operation: its word, and a space before each field.
fn spell_op(text: &mut String, op: &Op) -> Result<(), NoMemory>
    ensures { OnOk result (string_bytes text.new ≡ string_bytes text.old ++ op_text op.now) }
{
    match op {
        Op::Create {
            path,
            content,
            acl,
            ephemeral,
            count,
        } => spell_create(text, path, content, acl, *ephemeral, *count),
        Op::CreateOld {
            path,
            content,
            acl,
            ephemeral,
        } => spell_create_old(text, path, content, acl, *ephemeral),
        Op::Delete { path } => spell_delete(text, path),
        Op::SetData {
            path,
            content,
            version,
        } => spell_set_data(text, path, content, *version),
        Op::SetAcl { path, acl, version } => spell_set_acl(text, path, acl, *version),
        Op::OpenSession { timeout } => Ok(write!(text, "createSession {timeout}")?),
        Op::CloseSession => Ok(text.push_str("closeSession")?),
        Op::Error { code } => spell_error(text, *code),
        Op::Multi { parts } => spell_multi(text, parts.as_slice()),
    }
}

/// Appends a multi's word, and each part after its separator.
fn spell_multi(text: &mut String, parts: &[Sub]) -> Result<(), NoMemory>
    ensures { OnOk result
        (string_bytes text.new ≡ string_bytes text.old ++ (codes "multi" ++ flat_map part_text parts.now)) }
{
    text.push_str("multi")?;
    for part in parts {
        text.push_str(" ; ")?;
        spell_sub(text, part)?;
    }
    Ok(())
}

fn spell_sub(text: &mut String, part: &Sub) -> Result<(), NoMemory>
    ensures { OnOk result (string_bytes text.new ≡ string_bytes text.old ++ sub_text part.now) }
{
    match part {
        Sub::Create {
            path,
            content,
            acl,
            ephemeral,
            count,
        } => spell_create(text, path, content, acl, *ephemeral, *count),
        Sub::Delete { path } => spell_delete(text, path),
        Sub::SetData {
            path,
            content,
            version,
        } => spell_set_data(text, path, content, *version),
        Sub::Check { path, version } => spell_check(text, path, *version),
        Sub::Error { code } => spell_error(text, *code),
    }
}

fn spell_create(
    text: &mut String,
    path: &Path,
    content: &Option<Content>,
    acl: &Acls,
    ephemeral: bool,
    count: i32,
) -> Result<(), NoMemory>
    ensures { OnOk result (string_bytes text.new
        ≡ string_bytes text.old ++ create_text path.now content.now acl.now ephemeral count) }
{
    text.push_str("create ")?;
    spell_quoted(text, path.text())?;
    text.push(' ')?;
    spell_content(text, content)?;
    text.push(' ')?;
    spell_acl(text, acl)?;
    spell_ephemeral(text, ephemeral)?;
    spell_next_decimal(text, i64::from(count))?;
    Ok(())
}

/// Appends a space, and whether a node is deleted with its session.
fn spell_ephemeral(text: &mut String, ephemeral: bool) -> Result<(), NoMemory>
    ensures { OnOk result (string_bytes text.new ≡ string_bytes text.old ++ 32 ∷ ephemeral_text ephemeral) }
{
    if ephemeral {
        text.push_str(" e")?;
    } else {
        text.push_str(" p")?;
    }
    Ok(())
}

fn spell_create_old(
    text: &mut String,
    path: &Path,
    content: &Option<Content>,
    acl: &Acls,
    ephemeral: bool,
) -> Result<(), NoMemory>
    ensures { OnOk result (string_bytes text.new
        ≡ string_bytes text.old ++ create_old_text path.now content.now acl.now ephemeral) }
{
    text.push_str("create0 ")?;
    spell_quoted(text, path.text())?;
    text.push(' ')?;
    spell_content(text, content)?;
    text.push(' ')?;
    spell_acl(text, acl)?;
    spell_ephemeral(text, ephemeral)
}

fn spell_delete(text: &mut String, path: &Path) -> Result<(), NoMemory>
    ensures { OnOk result (string_bytes text.new ≡ string_bytes text.old ++ delete_text path.now) }
{
    text.push_str("delete ")?;
    spell_quoted(text, path.text())
}

fn spell_set_data(
    text: &mut String,
    path: &Path,
    content: &Option<Content>,
    version: i32,
) -> Result<(), NoMemory>
    ensures { OnOk result
        (string_bytes text.new ≡ string_bytes text.old ++ set_data_text path.now content.now version) }
{
    text.push_str("setData ")?;
    spell_quoted(text, path.text())?;
    text.push(' ')?;
    spell_content(text, content)?;
    spell_next_decimal(text, i64::from(version))?;
    Ok(())
}

fn spell_set_acl(text: &mut String, path: &Path, acl: &Acls, version: i32) -> Result<(), NoMemory>
    ensures { OnOk result
        (string_bytes text.new ≡ string_bytes text.old ++ set_acl_text path.now acl.now version) }
{
    text.push_str("setACL ")?;
    spell_quoted(text, path.text())?;
    text.push(' ')?;
    spell_acl(text, acl)?;
    spell_next_decimal(text, i64::from(version))?;
    Ok(())
}

fn spell_check(text: &mut String, path: &Path, version: i32) -> Result<(), NoMemory>
    ensures { OnOk result (string_bytes text.new ≡ string_bytes text.old ++ check_text path.now version) }
{
    text.push_str("check ")?;
    spell_quoted(text, path.text())?;
    spell_next_decimal(text, i64::from(version))?;
    Ok(())
}

fn spell_error(text: &mut String, code: i32) -> Result<(), NoMemory>
    ensures { OnOk result (string_bytes text.new ≡ string_bytes text.old ++ error_text code) }
{
    write!(text, "error {code}")?;
    Ok(())
}
