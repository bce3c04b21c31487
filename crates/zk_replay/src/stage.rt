//! A history that continues from a snapshot.

ghost use Rattle.std.specs.Prelude.{◌≡◌, false, IfOk, None};
ghost use Rattle.zk_table.specs.Steps.{step};
ghost use Rattle.zk_replay.specs.Bases.{FailsBy};
ghost use Rattle.zk_replay.specs.Restoring.{Takes, IsTableIn, IsRestored, take_fault, finish_fault};

use crate::window::replay;
use crate::{BaseFault, Draft, settle};
use std::alloc::Global;
use zk_fold::Fold;
use zk_newer_records::NewerRecord;

/// How far a history was replayed.
#[derive(Drop)]
pub enum Stage {
    /// In the window of a snapshot: the draft, and the zxid of the last record.
    Window { draft: Draft, last: i64 },
    /// After the window.
    Table { table: Fold },
}

/// Applies a record to the table.
fn advance(table: Fold, newer: &NewerRecord) -> Result<Stage, BaseFault>
    ensures applied { IfOk result (IsTableIn (step table.state newer.now.txn).0) }
    ensures exact { FailsBy None result }
{
    let mut table = table;
    if table.has_failed() {
        return Err(BaseFault::NoMemory);
    }
    table.advance(&newer.txn)?;
    Ok(Stage::Table { table })
}

/// Applies the next record. One up to the zxid `exact` is replayed on the draft. The first one
/// above it ends the window and settles the draft, which fails with [`BaseFault::Tree`] or
/// [`BaseFault::Access`] if it holds no state.
pub fn take(
    alloc: Global,
    stage: Stage,
    exact: i64,
    newer: &NewerRecord,
) -> Result<Stage, BaseFault>
    ensures taken { IfOk result (Takes stage exact newer.now) }
    ensures exact { FailsBy (take_fault stage exact newer.now) result }
{
    match stage {
        Stage::Window { draft, last } => {
            if newer.txn.zxid <= exact {
                let mut draft = draft;
                replay(&mut draft, newer)?;
                let last = newer.txn.zxid;
                return Ok(Stage::Window { draft, last });
            }
            let table = settle(alloc, draft, last)?;
            advance(table, newer)
        }
        Stage::Table { table } => advance(table, newer),
    }
}

/// Returns the table after the last record. In the window the draft is settled, which fails with
/// [`BaseFault::Tree`] or [`BaseFault::Access`] if it holds no state.
pub fn finish(alloc: Global, stage: Stage) -> Result<Fold, BaseFault>
    ensures restored { IfOk result (λ table. IsRestored stage table.state) }
    ensures exact { FailsBy (finish_fault stage) result }
{
    match stage {
        Stage::Window { draft, last } => settle(alloc, draft, last),
        Stage::Table { table } => Ok(table),
    }
}
