//! The paths whose nodes a transaction may change.
ghost use Rattle.std.specs.Prelude.{◌≡◌, IfOk, OnOk};
ghost use Rattle.zk_table.specs.States.{owned_by};
ghost use Rattle.zk_replay.specs.Touching.{touched, with_all, with_both, with_part, with_parts};

use crate::paths::PathSet;
use std::alloc::Global;
use zk_fold::Fold;
use zk_path::{NoMemory, Path};
use zk_table::{Op, Sub, Txn};

/// Adds a path and its parent's.
fn add_both(paths: &mut PathSet, path: &Path) -> Result<(), NoMemory>
    ensures { OnOk result (paths.new ≡ with_both paths.old path.now) }
{
    paths.insert(path.text())?;
    match path.parent() {
        Some(above) => {
            paths.insert(above)?;
            Ok(())
        }
        None => Ok(()),
    }
}

/// Adds these paths and their parents'.
fn add_all(paths: &mut PathSet, more: &[Path]) -> Result<(), NoMemory>
    ensures { OnOk result (paths.new ≡ with_all paths.old more.now) }
{
    for path in more {
        add_both(paths, path)?;
    }
    Ok(())
}

/// Adds the paths whose nodes a part of a multi may change.
fn add_part(paths: &mut PathSet, part: &Sub) -> Result<(), NoMemory>
    ensures { OnOk result (paths.new ≡ with_part paths.old part.now) }
{
    match part {
        Sub::Create { path, .. } | Sub::Delete { path } => add_both(paths, path),
        Sub::SetData { path, .. } => paths.insert(path.text()),
        Sub::Check { .. } | Sub::Error { .. } => Ok(()),
    }
}

/// Adds the paths whose nodes the parts of a multi may change.
fn add_parts(paths: &mut PathSet, parts: &[Sub]) -> Result<(), NoMemory>
    ensures { OnOk result (paths.new ≡ with_parts paths.old parts.now) }
{
    for part in parts {
        add_part(paths, part)?;
    }
    Ok(())
}

/// Adds the paths of the nodes that a session owns, and their parents'.
fn add_owned(paths: &mut PathSet, table: &Fold, session: i64) -> Result<(), NoMemory>
    ensures { OnOk result (paths.new ≡ with_all paths.old (owned_by table.now.state.nodes session)) }
{
    let owned = table.owned_by(session)?;
    add_all(paths, owned.as_slice())
}

/// The paths whose nodes a transaction may change in a table.
pub(crate) fn touched(alloc: Global, table: &Fold, txn: &Txn) -> Result<PathSet, NoMemory>
    ensures { IfOk result (λ paths. paths ≡ touched table.now.state.nodes txn.now) }
{
    let mut paths = PathSet::new(alloc);
    match &txn.op {
        Op::Create { path, .. } | Op::CreateOld { path, .. } | Op::Delete { path } => {
            add_both(&mut paths, path)?;
        }
        Op::SetData { path, .. } | Op::SetAcl { path, .. } => paths.insert(path.text())?,
        Op::CloseSession => add_owned(&mut paths, table, txn.session)?,
        Op::Multi { parts } => add_parts(&mut paths, parts.as_slice())?,
        Op::OpenSession { .. } | Op::Error { .. } => {}
    }
    Ok(paths)
}
