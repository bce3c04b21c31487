//! The line of a transaction in a history.
ghost use Rattle.std.specs.Prelude.{◌≡◌, ◌++◌, ◌∷◌, OnOk, map};
ghost use Rattle.std.specs.String.{string_bytes};
ghost use Rattle.zk_format.specs.Spelling.{id_digits};
ghost use Rattle.zk_incidents.specs.Histories.{AppendsLineBy, create_word, delete_word, entry_text, expiry_of, head_text, is_expiry, op_word, path_text, paths_text};

use zk_format::{push_id, push_quoted};
use zk_json::push_time;
use zk_newer_records::{Encoding, NewerRecord};
use zk_path::NoMemory;
use zk_table::{Op, Txn};

/// The word of a create, by its encoding.
fn create_word(form: &Encoding) -> &'static str
    ensures { result.now ≡ create_word form.now }
{
    match form {
        Encoding::Container => "createContainer",
        Encoding::Ttl { .. } => "createTtl",
        _ => "create",
    }
}

/// The word of a delete, by its encoding.
fn delete_word(form: &Encoding) -> &'static str
    ensures { result.now ≡ delete_word form.now }
{
    match form {
        Encoding::DeletedContainer => "deleteContainer",
        _ => "delete",
    }
}

/// The word of an operation.
pub fn op_word(op: &Op, form: &Encoding) -> &'static str
    ensures { result.now ≡ op_word op.now form.now }
{
    match op {
        Op::Create { .. } => create_word(form),
        Op::CreateOld { .. } => "create0",
        Op::Delete { .. } => delete_word(form),
        Op::SetData { .. } => "setData",
        Op::SetAcl { .. } => "setACL",
        Op::OpenSession { .. } => "createSession",
        Op::CloseSession => "closeSession",
        Op::Multi { .. } => "multi",
        Op::Error { .. } => "error",
    }
}

/// Appends a space and the word of an operation.
fn push_word(text: &mut String, op: &Op, form: &Encoding) -> Result<(), NoMemory>
    ensures { OnOk result (string_bytes text.new ≡ string_bytes text.old ++ 32 ∷ op_word op.now form.now) }
{
    text.push(' ')?;
    text.push_str(op_word(op, form))?;
    Ok(())
}

/// Whether an operation closes a session that had expired.
pub fn is_expiry(cxid: i32, op: &Op) -> bool
    ensures { result ≡ is_expiry cxid op.now }
{
    match op {
        Op::CloseSession => cxid == 0,
        _ => false,
    }
}

/// Appends whether a session that was closed had expired.
fn push_expiry(text: &mut String, cxid: i32, op: &Op) -> Result<(), NoMemory>
    ensures { OnOk result (string_bytes text.new ≡ string_bytes text.old ++ expiry_of cxid op.now) }
{
    if is_expiry(cxid, op) {
        text.push_str(" expired")?;
    }
    Ok(())
}

/// Appends a space and a zxid or a session.
fn push_next_id(text: &mut String, id: i64) -> Result<(), NoMemory>
    ensures { OnOk result (string_bytes text.new ≡ string_bytes text.old ++ 32 ∷ id_digits id) }
{
    text.push(' ')?;
    push_id(text, id)
}

/// Appends a space and a path.
#[tactic(auto, unfolding(crate::specs::Histories::path_text))]
fn push_path(text: &mut String, path: &str) -> Result<(), NoMemory>
    ensures { OnOk result (string_bytes text.new ≡ string_bytes text.old ++ path_text path.now) }
{
    text.push(' ')?;
    push_quoted(text, path)
}

/// Appends paths, if they are to be named.
fn push_paths(text: &mut String, below: bool, paths: &[&str]) -> Result<(), NoMemory>
    ensures { OnOk result (string_bytes text.new ≡ string_bytes text.old ++ paths_text below (map (λ path. path.now) paths.now)) }
{
    if !below {
        return Ok(());
    }
    for path in paths {
        push_path(text, path)?;
    }
    Ok(())
}

/// Appends the zxid, the operation and the session.
fn push_head(text: &mut String, txn: &Txn, form: &Encoding) -> Result<(), NoMemory>
    ensures { OnOk result (string_bytes text.new ≡ string_bytes text.old ++ head_text txn.now form.now) }
{
    push_next_id(text, txn.zxid)?;
    push_word(text, &txn.op, form)?;
    push_next_id(text, txn.session)?;
    push_expiry(text, txn.cxid, &txn.op)
}

/// Appends what follows the time.
#[tactic(auto, unfolding(crate::specs::Histories::entry_text))]
fn push_entry(
    text: &mut String,
    below: bool,
    paths: &[&str],
    newer: &NewerRecord,
) -> Result<(), NoMemory>
    ensures { OnOk result (string_bytes text.new ≡ string_bytes text.old ++ entry_text below (map (λ path. path.now) paths.now) newer.now) }
{
    push_head(text, &newer.txn, &newer.form)?;
    push_paths(text, below, paths)?;
    text.push('\n')?;
    Ok(())
}

/// Appends the line of a record that creates, changes or deletes the nodes at these paths; none for
/// no path.
pub(crate) fn push_line(
    text: &mut String,
    below: bool,
    paths: &[&str],
    newer: &NewerRecord,
) -> Result<(), NoMemory>
    ensures { OnOk result (AppendsLineBy below (map (λ path. path.now) paths.now) newer.now (string_bytes text.old) (string_bytes text.new)) }
{
    if paths.is_empty() {
        return Ok(());
    }
    push_time(text, newer.txn.time)?;
    push_entry(text, below, paths, newer)
}
