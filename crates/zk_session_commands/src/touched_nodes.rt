//! The nodes that a record creates, changes or deletes.
ghost use Rattle.std.specs.Prelude.{◌≡◌, ◌++◌, ◌∷◌, [], IfOk, OnOk, map};
ghost use Rattle.zk_incidents.specs.Owners.{closed, touched};
ghost use Rattle.zk_incidents.specs.Writes.{written, written_part};
ghost use Rattle.zk_table.specs.declared.txn.Op.TheVariants as ops;

use std::alloc::Global;
use zk_newer_records::{Encoding, NewerRecord};
use zk_path::{NoMemory, Path};
use zk_sessions::Ephemerals;
use zk_table::{Op, Sub, hold_error};

/// The path alone.
fn only<'a>(alloc: Global, path: &'a Path) -> Result<Vec<&'a str>, NoMemory>
    ensures { IfOk result (λ paths. map (λ path. path.now) paths.items ≡ path.now ∷ []) }
{
    let mut paths = Vec::new(alloc);
    paths.push(path.text())?;
    Ok(paths)
}

/// The texts of paths.
fn texts_of<'a>(alloc: Global, paths: &'a [Path]) -> Result<Vec<&'a str>, NoMemory>
    ensures { IfOk result (λ texts. map (λ text. text.now) texts.items ≡ paths.now) }
{
    let mut texts = Vec::new(alloc);
    for path in paths {
        texts.push(path.text())?;
    }
    Ok(texts)
}

/// Appends the path of the node that a part creates, changes or deletes.
fn push_part<'a>(paths: &mut Vec<&'a str>, part: &'a Sub) -> Result<(), NoMemory>
    ensures { OnOk result (map (λ path. path.now) paths.new.items ≡ map (λ path. path.now) paths.old.items ++ written_part part.now) }
{
    match part {
        Sub::Create { path, .. } => paths.push(path.text())?,
        Sub::Delete { path } => paths.push(path.text())?,
        Sub::SetData { path, .. } => paths.push(path.text())?,
        Sub::Check { .. } => {}
        Sub::Error { .. } => {}
    }
    Ok(())
}

/// The paths of the nodes that the parts of a multi create, change or delete.
fn paths_of_parts<'a>(alloc: Global, parts: &'a [Sub]) -> Result<Vec<&'a str>, NoMemory>
    ensures { IfOk result (λ paths. map (λ path. path.now) paths.items ≡ written (ops.Multi parts.now)) }
{
    let mut paths = Vec::new(alloc);
    if hold_error(parts) {
        return Ok(paths);
    }
    for part in parts {
        push_part(&mut paths, part)?;
    }
    Ok(paths)
}

/// The paths of the nodes that an operation creates, changes or deletes.
fn written<'a>(alloc: Global, op: &'a Op) -> Result<Vec<&'a str>, NoMemory>
    ensures { IfOk result (λ paths. map (λ path. path.now) paths.items ≡ written op.now) }
{
    match op {
        Op::Create { path, .. } => only(alloc, path),
        Op::CreateOld { path, .. } => only(alloc, path),
        Op::Delete { path } => only(alloc, path),
        Op::SetData { path, .. } => only(alloc, path),
        Op::SetAcl { path, .. } => only(alloc, path),
        Op::Multi { parts } => paths_of_parts(alloc, parts.as_slice()),
        Op::OpenSession { .. } => Ok(Vec::new(alloc)),
        Op::CloseSession => Ok(Vec::new(alloc)),
        Op::Error { .. } => Ok(Vec::new(alloc)),
    }
}

/// The paths of the nodes that the end of a session deletes.
fn closed<'a>(
    alloc: Global,
    owners: &'a Ephemerals,
    newer: &'a NewerRecord,
) -> Result<Vec<&'a str>, NoMemory>
    ensures { IfOk result (λ paths. map (λ path. path.now) paths.items ≡ closed owners.now newer.now) }
{
    match &newer.form {
        Encoding::ClosePaths { listed } => texts_of(alloc, listed.as_slice()),
        _ => owners.owned_by(newer.txn.session),
    }
}

/// The paths of the nodes that a record creates, changes or deletes.
pub(crate) fn touched<'a>(
    alloc: Global,
    owners: &'a Ephemerals,
    newer: &'a NewerRecord,
) -> Result<Vec<&'a str>, NoMemory>
    ensures { IfOk result (λ paths. map (λ path. path.now) paths.items ≡ touched owners.now newer.now) }
{
    match &newer.txn.op {
        Op::CloseSession => closed(alloc, owners, newer),
        op => written(alloc, op),
    }
}
