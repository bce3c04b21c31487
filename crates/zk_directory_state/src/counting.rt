//! Records whose digests are compared with those of the table.
ghost use Rattle.std.specs.Prelude.{◌≡◌, false, IfOk, None};
ghost use Rattle.zk_table.specs.Steps.{step};
ghost use Rattle.zk_replay.specs.Bases.{FailsBy};
ghost use Rattle.zk_replay.specs.Tallies.{IsTally, Tally};
ghost use Rattle.zk_replay.specs.Restoring.{IsTableIn, Takes, take_fault};
ghost use Rattle.zk_replay.specs.declared.stage.Stage.TheVariants as stages;
ghost use Rattle.zk_directory_state.specs.Counts.{Counts, IsTallied, tally_next};

use std::alloc::Global;
use zk_fold::Fold;
use zk_newer_records::NewerRecord;
use zk_path::NoMemory;
use zk_replay::{BaseFault, Digests, Stage, take};

/// Compares the digest of a record that led from the window of a snapshot to `stage`.
fn compare(digests: Digests, stage: &Stage, newer: &NewerRecord) -> Result<Digests, NoMemory>
    ensures { IfOk result (λ next. (tally : Tally) → IsTally digests tally → IsTallied stage.now next (tally_next tally newer.now stage.now)) }
{
    let mut digests = digests;
    match stage {
        Stage::Window { .. } => {
            digests.pass(newer)?;
            Ok(digests)
        }
        Stage::Table { table } => {
            digests.begin(table, newer)?;
            Ok(digests)
        }
    }
}

/// Applies a record to the table, and compares its digest.
fn advance(
    table: Fold,
    digests: Digests,
    newer: &NewerRecord,
) -> Result<(Stage, Digests), BaseFault>
    ensures taken { IfOk result (λ next. IsTableIn (step table.state newer.now.txn).0 next.0) }
    ensures counted { IfOk result (λ next. Counts (stages.Table table) digests newer.now next.0 next.1) }
    ensures exact { FailsBy None result }
{
    let mut table = table;
    let mut digests = digests;
    if table.has_failed() {
        return Err(BaseFault::NoMemory);
    }
    digests.advance(&mut table, newer)?;
    Ok((Stage::Table { table }, digests))
}

/// Applies the next record as [`take`] does, and compares its digest with that of the table.
pub(crate) fn take_counting(
    alloc: Global,
    stage: Stage,
    digests: Digests,
    exact: i64,
    newer: &NewerRecord,
) -> Result<(Stage, Digests), BaseFault>
    ensures taken { IfOk result (λ next. Takes stage exact newer.now next.0) }
    ensures counted { IfOk result (λ next. Counts stage digests newer.now next.0 next.1) }
    ensures exact { FailsBy (take_fault stage exact newer.now) result }
{
    match stage {
        Stage::Table { table } => advance(table, digests, newer),
        Stage::Window { draft, last } => {
            let stage = take(alloc, Stage::Window { draft, last }, exact, newer)?;
            let digests = compare(digests, &stage, newer)?;
            Ok((stage, digests))
        }
    }
}
