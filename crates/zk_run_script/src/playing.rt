//! Answers of an ensemble to a command.
ghost use Rattle.std.specs.Prelude.{◌≡◌, ◌++◌, OnOk, OnErr};
ghost use Rattle.std.specs.String.{string_bytes};
ghost use Rattle.zab_epoch.specs.Entries.{txns_of};
ghost use Rattle.zab_model.specs.Runs.{history_of};
ghost use Rattle.zk_request_syntax.specs.ReplyLines.{refusal_text};
ghost use Rattle.zk_run_script.specs.Answers.{listing_report};
ghost use Rattle.zk_run_script.specs.Playing.{Obeys, report_text};
ghost use Rattle.zk_listing.specs.Reports.{line};
ghost use Rattle.zk_table.specs.Codes.{bad_arguments};

use crate::command::{Command, Report};
use crate::reports::{push_answers, push_counted_tree, push_events, push_listing, push_syncs};
use crate::told::push_told;
use zab_epoch::Entries;
use zk_ensemble::Ensemble;
use zk_path::NoMemory;
use zk_request_syntax::push_refusal;
use zk_table::codes::BAD_ARGUMENTS;

/// Executes a command, and appends the answer's lines. If an allocation for the answer fails, the
/// command has been executed, and nothing is appended.
pub fn run_command(
    ensemble: &mut Ensemble,
    command: Command,
    answers: &mut String,
) -> Result<(), NoMemory>
    ensures obeyed { Obeys ensemble.old command (string_bytes answers.old) result
        (string_bytes answers.new) ensemble.new }
    ensures unchanged { OnErr result (string_bytes answers.new ≡ string_bytes answers.old) }
{
    let mut answer = String::new(*answers.allocator());
    obey(ensemble, command, &mut answer)?;
    answers.push_str(answer.as_str())?;
    Ok(())
}

fn obey(ensemble: &mut Ensemble, command: Command, answer: &mut String) -> Result<(), NoMemory>
    ensures { Obeys ensemble.old command (string_bytes answer.old) result
        (string_bytes answer.new) ensemble.new }
{
    match command {
        Command::Happens(event) => {
            let told = ensemble.step(event);
            push_told(answer, &told)
        }
        Command::ReadsNoPath => push_no_path(answer),
        Command::Reports { report, server } => push_report(answer, ensemble, report, server),
    }
}

/// Appends the answer to a read at a text that is no path.
fn push_no_path(answer: &mut String) -> Result<(), NoMemory>
    ensures { OnOk result (string_bytes answer.new ≡ string_bytes answer.old ++ line (refusal_text bad_arguments)) }
{
    push_refusal(answer, BAD_ARGUMENTS)?;
    answer.push('\n')?;
    Ok(())
}

/// Appends a report on a server.
fn push_report(
    answer: &mut String,
    ensemble: &Ensemble,
    report: Report,
    server: usize,
) -> Result<(), NoMemory>
    ensures { OnOk result (string_bytes answer.new ≡ string_bytes answer.old ++ report_text ensemble.now report server) }
{
    match report {
        Report::Delivered => push_entries(answer, &ensemble.delivered(server)),
        Report::History => push_history(answer, ensemble, server),
        Report::Answers => push_answers(answer, ensemble.answers(server)),
        Report::Syncs => push_syncs(answer, ensemble.syncs(server)),
        Report::Events => push_events(answer, ensemble.events_of(server)),
        Report::Tree => {
            let machine = ensemble.tree(server)?;
            push_counted_tree(answer, &machine)
        }
    }
}

/// Appends the report of a server's history.
#[tactic(auto, using(crate::proofs::Kept::history_told, crate::proofs::Kept::none_told))]
fn push_history(answer: &mut String, ensemble: &Ensemble, server: usize) -> Result<(), NoMemory>
    ensures { OnOk result (string_bytes answer.new ≡ string_bytes answer.old
        ++ listing_report (txns_of (history_of ensemble.now.below.world server))) }
{
    match ensemble.history(server) {
        Some(history) => push_entries(answer, &history.entries()),
        None => push_listing(answer, &[]),
    }
}

/// Appends the report of entries.
fn push_entries(answer: &mut String, entries: &Entries<'_>) -> Result<(), NoMemory>
    ensures { OnOk result (string_bytes answer.new ≡ string_bytes answer.old ++ listing_report (txns_of entries.now)) }
{
    let txns = entries.txns().read(*answer.allocator())?;
    push_listing(answer, txns.as_slice())
}
