//! Transactions that a directory lost.
ghost use Rattle.std.specs.Prelude.{◌≡◌, ◌++◌, IfOk, OnOk};
ghost use Rattle.zk_comparison.specs.Comparisons.{is_above, is_lost, is_within, loss_by, losses_of};

use std::alloc::Global;
use zk_path::NoMemory;
use zk_verification::{Mark, Moment};

/// Between two transactions of a directory others are lost.
#[derive(Clone, Copy, Debug)]
pub(crate) struct Loss {
    /// `None` if no transaction is before them.
    pub before: Option<Moment>,
    pub after: Moment,
}

/// What a directory lost, by what is said of its logs.
pub(crate) fn losses_of(alloc: Global, marks: &[Mark]) -> Result<Vec<Loss>, NoMemory>
    ensures { IfOk result (λ losses. losses.items ≡ losses_of marks.now) }
{
    let mut losses = Vec::new(alloc);
    for mark in marks {
        push_loss(&mut losses, mark)?;
    }
    Ok(losses)
}

/// Appends what a mark says is lost.
fn push_loss(losses: &mut Vec<Loss>, mark: &Mark) -> Result<(), NoMemory>
    ensures { OnOk result (losses.new.items ≡ losses.old.items ++ loss_by mark.now) }
{
    match mark {
        Mark::Lost(damage) => losses.push(Loss {
            before: damage.before,
            after: damage.after,
        })?,
        Mark::Gap { before, after } => losses.push(Loss {
            before: *before,
            after: *after,
        })?,
        _ => {}
    }
    Ok(())
}

/// Whether a transaction of this zxid may be among those that are lost.
pub(crate) fn is_lost(losses: &[Loss], zxid: i64) -> bool
    ensures { result ≡ is_lost losses.now zxid }
{
    losses.iter().any(|loss| is_within(zxid, loss))
}

fn is_within(zxid: i64, loss: &Loss) -> bool
    ensures { result ≡ is_within zxid loss.now }
{
    is_above(loss.before, zxid) && zxid < loss.after.zxid
}

fn is_above(before: Option<Moment>, zxid: i64) -> bool
    ensures { result ≡ is_above before zxid }
{
    match before {
        Some(before) => before.zxid < zxid,
        None => true,
    }
}
