//! The nodes that a record creates or deletes, and their parents.
ghost use Rattle.std.specs.Prelude.{◌≡◌, ◌++◌, ◌∷◌, [], IfOk, OnOk, map, option_copied};
ghost use Rattle.zk_tree_changes.specs.Changes.{moved, moved_part, moved_parts, parents};
ghost use Rattle.zk_path.specs.Paths.{before_last_slash, parent_of};

use std::alloc::Global;
use zk_incidents::Owners;
use zk_newer_records::NewerRecord;
use zk_path::{NoMemory, Path};
use zk_table::{Op, Sub, hold_error};

/// The paths of the nodes that a record creates or deletes.
pub(crate) fn moved<'a>(
    alloc: Global,
    owners: &'a Owners,
    newer: &'a NewerRecord,
) -> Result<Vec<&'a str>, NoMemory>
    ensures { IfOk result (λ paths. map (λ path. path.now) paths.items ≡ moved owners.now newer.now) }
{
    match &newer.txn.op {
        Op::Create { path, .. } => only(alloc, path),
        Op::CreateOld { path, .. } => only(alloc, path),
        Op::Delete { path } => only(alloc, path),
        Op::CloseSession => owners.touched(newer),
        Op::Multi { parts } => moved_parts(alloc, parts.as_slice()),
        Op::SetData { .. } => Ok(Vec::new(alloc)),
        Op::SetAcl { .. } => Ok(Vec::new(alloc)),
        Op::OpenSession { .. } => Ok(Vec::new(alloc)),
        Op::Error { .. } => Ok(Vec::new(alloc)),
    }
}

fn only<'a>(alloc: Global, path: &'a Path) -> Result<Vec<&'a str>, NoMemory>
    ensures { IfOk result (λ paths. map (λ path. path.now) paths.items ≡ path.now ∷ []) }
{
    let mut paths = Vec::new(alloc);
    paths.push(path.text())?;
    Ok(paths)
}

/// The paths of the nodes that a multi creates or deletes.
fn moved_parts<'a>(alloc: Global, parts: &'a [Sub]) -> Result<Vec<&'a str>, NoMemory>
    ensures { IfOk result (λ paths. map (λ path. path.now) paths.items ≡ moved_parts parts.now) }
{
    let mut paths = Vec::new(alloc);
    if hold_error(parts) {
        return Ok(paths);
    }
    for part in parts {
        push_moved(&mut paths, part)?;
    }
    Ok(paths)
}

/// Appends the path of the node that a part creates or deletes.
fn push_moved<'a>(paths: &mut Vec<&'a str>, part: &'a Sub) -> Result<(), NoMemory>
    ensures { OnOk result (map (λ path. path.now) paths.new.items ≡ map (λ path. path.now) paths.old.items ++ moved_part part.now) }
{
    match part {
        Sub::Create { path, .. } => paths.push(path.text())?,
        Sub::Delete { path } => paths.push(path.text())?,
        Sub::SetData { .. } => {}
        Sub::Check { .. } => {}
        Sub::Error { .. } => {}
    }
    Ok(())
}

/// The paths of the parents, for each path that has one.
pub(crate) fn parents<'a>(alloc: Global, paths: &[&'a str]) -> Result<Vec<&'a str>, NoMemory>
    ensures { IfOk result (λ above. map (λ path. path.now) above.items ≡ parents (map (λ path. path.now) paths.now)) }
{
    let mut above = Vec::new(alloc);
    for path in paths {
        if let Some(parent) = parent_of(path) {
            above.push(parent)?;
        }
    }
    Ok(above)
}

/// The path of the parent; `None` for the root.
fn parent_of(path: &str) -> Option<&str>
    ensures { option_copied result ≡ parent_of path.now }
{
    if path == "/" {
        return None;
    }
    let above = before_last_slash(path);
    if above.is_empty() {
        return Some("/");
    }
    Some(above)
}

/// The text before the last slash.
#[tactic(auto, using(crate::proofs::Parents::at_slash, crate::proofs::Parents::without_slash))]
fn before_last_slash(path: &str) -> &str
    ensures { result.now ≡ before_last_slash path.now }
{
    match path.rsplit_once('/') {
        Some((above, _)) => above,
        None => "",
    }
}
