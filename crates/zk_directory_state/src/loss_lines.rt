//! The lines of what damaged places of logs lost.
ghost use Rattle.std.specs.Prelude.{◌≡◌, ◌++◌, IfOk, OnOk};
ghost use Rattle.std.specs.String.{string_bytes};
ghost use Rattle.zk_directory_state.specs.Losses.{AppendsLoss, AppendsLosses, IsTimeBy, loss_head, loss_line, loss_times, loss_zxids, zxid_text};

use crate::push_log_name;
use crate::span::{Moment, clock_text};
use crate::walk::Loss;
use std::alloc::Global;
use zk_format::push_id;
use zk_path::NoMemory;

/// The text of the time of a transaction, if there is one.
fn time_by(alloc: Global, moment: Option<Moment>) -> Result<String, NoMemory>
    ensures { IfOk result (λ text. IsTimeBy moment (string_bytes text)) }
{
    match moment {
        Some(moment) => clock_text(alloc, moment.time),
        None => Ok(String::from_str(alloc, "-")?),
    }
}

/// Appends a space and a transaction's zxid, if there is one.
fn push_zxid(text: &mut String, moment: Option<Moment>) -> Result<(), NoMemory>
    ensures { OnOk result (string_bytes text.new ≡ string_bytes text.old ++ zxid_text moment) }
{
    match moment {
        Some(moment) => push_id(text, moment.zxid),
        None => {
            text.push_str("-")?;
            Ok(())
        }
    }
}

/// Appends the name of a log that is damaged.
#[tactic(auto, unfolding(crate::specs::Losses::loss_head))]
fn push_head(text: &mut String, log: i64) -> Result<(), NoMemory>
    ensures { OnOk result (string_bytes text.new ≡ string_bytes text.old ++ loss_head log) }
{
    text.push_str("zk: lost ")?;
    push_log_name(text, log)?;
    text.push_str(" ")?;
    Ok(())
}

/// Appends the transactions before and after those that are lost.
#[tactic(auto, unfolding(crate::specs::Losses::loss_zxids))]
fn push_zxids(
    text: &mut String,
    before: Option<Moment>,
    after: Option<Moment>,
) -> Result<(), NoMemory>
    ensures { OnOk result (string_bytes text.new ≡ string_bytes text.old ++ loss_zxids before after) }
{
    push_zxid(text, before)?;
    text.push_str(" ")?;
    push_zxid(text, after)?;
    text.push_str(" ")?;
    Ok(())
}

/// Appends the texts of the times of both.
#[tactic(auto, unfolding(crate::specs::Losses::loss_times))]
fn push_times(text: &mut String, before: &str, after: &str) -> Result<(), NoMemory>
    ensures { OnOk result (string_bytes text.new ≡ string_bytes text.old ++ loss_times before.now after.now) }
{
    text.push_str(before)?;
    text.push_str(" ")?;
    text.push_str(after)?;
    text.push_str("\n")?;
    Ok(())
}

/// Appends the line of a loss, with the texts of its times.
fn push_with(text: &mut String, loss: &Loss, before: &str, after: &str) -> Result<(), NoMemory>
    ensures { OnOk result (string_bytes text.new ≡ string_bytes text.old ++ loss_line loss.now before.now after.now) }
{
    push_head(text, loss.log)?;
    push_zxids(text, loss.before, loss.after)?;
    push_times(text, before, after)
}

/// Appends the line of a loss.
#[tactic(auto, using(crate::proofs::Losing::as_loss))]
fn push_loss(text: &mut String, loss: &Loss) -> Result<(), NoMemory>
    ensures { OnOk result (AppendsLoss loss.now (string_bytes text.old) (string_bytes text.new)) }
{
    let alloc = *text.allocator();
    let before = time_by(alloc, loss.before)?;
    let after = time_by(alloc, loss.after)?;
    push_with(text, loss, before.as_str(), after.as_str())
}

/// Appends the lines of losses.
#[tactic(auto, using(crate::proofs::Losing::none_lost, crate::proofs::Losing::next_lost, crate::proofs::Losing::all_lost))]
pub(crate) fn push_losses(text: &mut String, losses: &[Loss]) -> Result<(), NoMemory>
    ensures { OnOk result (AppendsLosses losses.now (string_bytes text.old) (string_bytes text.new)) }
{
    for loss in losses {
        push_loss(text, loss)?;
    }
    Ok(())
}
