//! The writes of a transaction.
ghost use Rattle.std.specs.Prelude.{◌≡◌, ◌++◌, ◌∷◌, [], IfOk, OnOk, map};
ghost use Rattle.std.specs.List.{flat_map};
ghost use Rattle.zk_incidents.specs.Writes.{written, written_part};
ghost use Rattle.zk_table.specs.declared.txn.Op.TheVariants as ops;

use std::alloc::Global;
use zk_path::{NoMemory, Path};
use zk_table::{Op, Sub, hold_error};

/// The paths of the nodes that an operation creates, changes or deletes, one for each write.
pub(crate) fn written<'a>(alloc: Global, op: &'a Op) -> Result<Vec<&'a str>, NoMemory>
    ensures { IfOk result (λ paths. map (λ path. path.now) paths.items ≡ written op.now) }
{
    match op {
        Op::Create { path, .. } => only(alloc, path),
        Op::CreateOld { path, .. } => only(alloc, path),
        Op::Delete { path } => only(alloc, path),
        Op::SetData { path, .. } => only(alloc, path),
        Op::SetAcl { path, .. } => only(alloc, path),
        Op::Multi { parts } => written_parts(alloc, parts.as_slice()),
        Op::OpenSession { .. } => Ok(Vec::new(alloc)),
        Op::CloseSession => Ok(Vec::new(alloc)),
        Op::Error { .. } => Ok(Vec::new(alloc)),
    }
}

fn only<'a>(alloc: Global, path: &'a Path) -> Result<Vec<&'a str>, NoMemory>
    ensures { IfOk result (λ paths. map (λ path. path.now) paths.items ≡ path.now ∷ []) }
{
    let mut paths = Vec::new(alloc);
    paths.push(path.text())?;
    Ok(paths)
}

/// The paths of the nodes that a multi creates, changes or deletes.
fn written_parts<'a>(alloc: Global, parts: &'a [Sub]) -> Result<Vec<&'a str>, NoMemory>
    ensures { IfOk result (λ paths. map (λ path. path.now) paths.items ≡ written (ops.Multi parts.now)) }
{
    let mut paths = Vec::new(alloc);
    if hold_error(parts) {
        return Ok(paths);
    }
    for part in parts {
        push_written(&mut paths, part)?;
    }
    Ok(paths)
}

/// Appends the path of the node that a part creates, changes or deletes.
fn push_written<'a>(paths: &mut Vec<&'a str>, part: &'a Sub) -> Result<(), NoMemory>
    ensures { OnOk result (map (λ path. path.now) paths.new.items ≡ map (λ path. path.now) paths.old.items ++ written_part part.now) }
{
    match part {
        Sub::Create { path, .. } => paths.push(path.text())?,
        Sub::Delete { path } => paths.push(path.text())?,
        Sub::SetData { path, .. } => paths.push(path.text())?,
        Sub::Check { .. } => {}
        Sub::Error { .. } => {}
    }
    Ok(())
}
