//! The records of a directory.
ghost use Rattle.std.specs.Prelude.{◌≡◌, IfOk};
ghost use Rattle.std.specs.String.{string_bytes};
ghost use Rattle.zk_directory_state.specs.Records.{FoldsDirectory, FoldsGiven, FoldsListed, IsNotice, Notices, range_fault};
ghost use Rattle.zk_directory_state.specs.Walks.{walked_by};

use crate::history::has_no_files;
use crate::loss_lines::push_losses;
use crate::range::Range;
use crate::span::{empty_fault, outside_fault, range_notice};
use crate::walk::{Walk, fold_logs};
use crate::{Folder, HistoryFault, logs_in, read_logs, slices_of, snapshots_in};
use std::alloc::Global;
use zk_newer_records::RecordFold;
use zk_path::NoMemory;

/// A fold that has taken the records of a directory.
#[derive(Drop)]
pub struct FoldedDirectory<F> {
    pub fold: F,
    /// A line for each damaged place with what it lost, and one for the range of transactions that the
    /// logs hold, if the range that was asked for goes beyond it.
    pub notice: String,
}

/// Folds the records of logs, which have these zxids in their names.
#[tactic(auto, using(crate::proofs::Spanning::listed_folded, crate::proofs::Spanning::listed_broken))]
fn fold_listed<'a, F: RecordFold>(
    alloc: Global,
    logged: &[i64],
    logs: &[&'a [u8]],
    fold: &mut F,
) -> Result<Walk<'a>, HistoryFault>
    ensures { FoldsListed F.follows logs.now logged.now fold.old fold.new result }
{
    let mut walk = Walk::new(alloc);
    fold_logs(alloc, fold, &mut walk, logged, logs)?;
    Ok(walk)
}

/// Why a question about a range has no answer.
fn range_fault(range: Range, held: &[i64], logged: &[i64], walk: &Walk<'_>) -> Option<HistoryFault>
    ensures { result ≡ range_fault range held.now logged.now (walked_by walk.now) }
{
    match walk.span {
        Some(span) => outside_fault(range, walk.is_whole, span),
        None => empty_fault(walk.fault, held, logged),
    }
}

/// What damaged places lost, and the range of the logs if a question goes beyond it.
#[tactic(auto, using(crate::proofs::Spanning::said))]
fn notice_text(alloc: Global, range: Range, walk: &Walk<'_>) -> Result<String, NoMemory>
    ensures { IfOk result (λ notice. IsNotice range (walked_by walk.now) (string_bytes notice)) }
{
    let losses = walk.losses(alloc)?;
    let ranged = range_notice(alloc, range, walk.is_whole, walk.span)?;
    let mut text = String::new(alloc);
    push_losses(&mut text, losses.as_slice())?;
    text.push_str(ranged.as_str())?;
    Ok(text)
}

/// The notice on the answer to a question about a range. `held` and `logged` have the zxids in the
/// names of the snapshots and logs.
///
/// Fails with
/// - [`HistoryFault::Beyond`] if the range begins after the last transaction;
/// - [`HistoryFault::Purged`] if it ends before the first one, and others were before that;
/// - [`HistoryFault::Log`] if no log has an intact entry, and one is broken;
/// - [`HistoryFault::NoTransaction`] if there is none.
fn notice_on(
    alloc: Global,
    range: Range,
    held: &[i64],
    logged: &[i64],
    walk: &Walk<'_>,
) -> Result<String, HistoryFault>
    ensures { Notices range held.now logged.now (walked_by walk.now) result }
{
    match range_fault(range, held, logged, walk) {
        Some(fault) => Err(fault),
        None => Ok(notice_text(alloc, range, walk)?),
    }
}

/// Folds the records of logs, and says what they leave of a range. `held` and `logged` have the zxids
/// in the names of the snapshots and logs.
#[tactic(auto, using(crate::proofs::Spanning::given_folded, crate::proofs::Spanning::given_broken, crate::proofs::Spanning::given_rejected))]
fn fold_given<F: RecordFold + Drop>(
    alloc: Global,
    range: Range,
    held: &[i64],
    logged: &[i64],
    logs: &[&[u8]],
    fold: F,
) -> Result<FoldedDirectory<F>, HistoryFault>
    ensures { FoldsGiven F.follows range held.now logged.now logs.now fold result }
{
    let mut fold = fold;
    let walk = fold_listed(alloc, logged, logs, &mut fold)?;
    let notice = notice_on(alloc, range, held, logged, &walk)?;
    Ok(FoldedDirectory { fold, notice })
}

/// Folds the records of the second folder's logs, each once, from the first that is logged, on both
/// sides of damaged places. The first folder has the snapshots, and may be the same. The fold keeps
/// what it is asked for of the records; `range` is what is asked for.
///
/// Fails with
/// - [`HistoryFault::Empty`] if there is no snapshot and no log;
/// - [`HistoryFault::Gap`] or [`HistoryFault::Differs`] if the logs do not continue one another;
/// - [`HistoryFault::Log`] if no log has an intact entry, and one is broken;
/// - [`HistoryFault::Beyond`] if the range begins after the last transaction;
/// - [`HistoryFault::Purged`] if it ends before the first one, and others were before that;
/// - [`HistoryFault::NoTransaction`] if no log has a transaction, unless a server has just created the
///   first one, and there is no snapshot;
/// - [`HistoryFault::Unreadable`] or [`HistoryFault::Read`] if a file or folder cannot be read.
#[tactic(auto, using(crate::proofs::Held::no_files, crate::proofs::Spanning::snapshots_unlisted, crate::proofs::Spanning::logs_unlisted, crate::proofs::Spanning::none_held))]
pub fn fold_directory<S: Folder, L: Folder, F: RecordFold + Drop>(
    alloc: Global,
    snapshots: &S,
    logs: &L,
    range: Range,
    fold: F,
) -> Result<FoldedDirectory<F>, HistoryFault>
    ensures { FoldsDirectory F.follows range (S.names_in snapshots.now) (L.names_in logs.now) (L.bytes_in logs.now) fold result }
{
    let held = snapshots_in(alloc, snapshots)?;
    let logged = logs_in(alloc, logs)?;
    if has_no_files(held.as_slice(), logged.as_slice()) {
        return Err(HistoryFault::Empty);
    }
    let loaded = read_logs(alloc, logs, logged.as_slice())?;
    let slices = slices_of(alloc, loaded.as_slice())?;
    fold_given(
        alloc,
        range,
        held.as_slice(),
        logged.as_slice(),
        slices.as_slice(),
        fold,
    )
}
