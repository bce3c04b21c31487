ghost use Rattle.std.specs.Prelude.{IfOk, map};
ghost use Rattle.zk_cli_args.specs.Lines.{ReadsAsked, ReadsCommand, ReadsNamed};

use crate::command::{Job, job_of};
use crate::comparison::{CompareJob, compare_of};
use crate::debugging::{FolderDebug, directory_debug_of};
use crate::difference::{DiffJob, diff_of};
use crate::ensemble::ensemble_of;
use crate::ensemble_job::{EnsembleJob, recorded_of};
use crate::folders::{FolderJob, folder_job_of};
use crate::history::{HistoryJob, history_of};
use crate::restoration::{RestoreJob, restore_of};
use crate::serving::{Serving, serving_of};
use crate::session::{SessionJob, session_of};
use crate::sessions::{SessionsJob, sessions_of};
use crate::snapshot::{SnapshotJob, snapshot_of};
use crate::top::{TopJob, top_of};
use crate::verification::{VerifyJob, verify_of};
use std::alloc::Global;
use zk_path::NoMemory;

/// What a command line asks for, without its form.
#[derive(Clone, Copy, Debug)]
pub enum Command<'a> {
    /// A command runs, from its inputs to its output. An input of `show`, `list` and `debug` may be
    /// a data directory: [`folder_job_from`](crate::folder_job_from) and
    /// [`folder_debug_from`](crate::folder_debug_from).
    Act(Job<'a>),
    /// Reads a data directory.
    Look(FolderJob<'a>),
    /// Debugs a data directory, with an option that only a directory has.
    Debug(FolderDebug<'a>),
    /// Writes the history of a node.
    History(HistoryJob<'a>),
    /// Writes the paths or sessions with the most writes.
    Top(TopJob<'a>),
    /// Writes what the sessions did.
    Sessions(SessionsJob<'a>),
    /// Writes what one session did.
    Session(SessionJob<'a>),
    /// Compares the logs of two data directories.
    Compare(CompareJob<'a>),
    /// Verifies a data directory.
    Verify(VerifyJob<'a>),
    /// Writes what differs between two states of a data directory.
    Diff(DiffJob<'a>),
    /// Writes the script that restores nodes.
    Restore(RestoreJob<'a>),
    /// Writes the snapshot of a state of a data directory.
    Snapshot(SnapshotJob<'a>),
    /// Servers serve connections.
    Serve(Serving),
    /// An ensemble serves ZooKeeper's clients.
    Ensemble(EnsembleJob<'a>),
}

/// The command that words without options of a form name.
#[tactic(auto, using(crate::proofs::LinesLaws::names_only))]
pub(crate) fn command_of<'a>(
    alloc: Global,
    words: &[&'a str],
) -> Result<Option<Command<'a>>, NoMemory>
    ensures { IfOk result (λ read. ReadsCommand (map (λ word. word.now) words.now) read) }
{
    named_of(alloc, words)
}

/// The first command that words name; they name no other.
#[tactic(auto, using(crate::proofs::LinesLaws::asked_named, crate::proofs::LinesLaws::recorded_named))]
fn named_of<'a>(alloc: Global, words: &[&'a str]) -> Result<Option<Command<'a>>, NoMemory>
    ensures { IfOk result (λ read. ReadsNamed (map (λ word. word.now) words.now) read) }
{
    if let Some(job) = job_of(alloc, words)? {
        return Ok(Some(Command::Act(job)));
    }
    if let Some(job) = folder_job_of(alloc, words)? {
        return Ok(Some(Command::Look(job)));
    }
    if let Some(job) = directory_debug_of(alloc, words)? {
        return Ok(Some(Command::Debug(job)));
    }
    if let Some(command) = asked_of(alloc, words)? {
        return Ok(Some(command));
    }
    if let Some(serving) = serving_of(alloc, words)? {
        return Ok(Some(Command::Serve(serving)));
    }
    if let Some(ensemble) = ensemble_of(alloc, words)? {
        return Ok(Some(Command::Ensemble(EnsembleJob {
            ensemble,
            record: None,
        })));
    }
    match recorded_of(alloc, words)? {
        Some(job) => Ok(Some(Command::Ensemble(job))),
        None => Ok(None),
    }
}

/// The report, the script or the snapshot that words ask for.
fn asked_of<'a>(alloc: Global, words: &[&'a str]) -> Result<Option<Command<'a>>, NoMemory>
    ensures { IfOk result (λ read. ReadsAsked (map (λ word. word.now) words.now) read) }
{
    if let Some(job) = history_of(alloc, words)? {
        return Ok(Some(Command::History(job)));
    }
    if let Some(job) = top_of(alloc, words)? {
        return Ok(Some(Command::Top(job)));
    }
    if let Some(job) = sessions_of(alloc, words)? {
        return Ok(Some(Command::Sessions(job)));
    }
    if let Some(job) = session_of(alloc, words)? {
        return Ok(Some(Command::Session(job)));
    }
    if let Some(job) = compare_of(alloc, words)? {
        return Ok(Some(Command::Compare(job)));
    }
    if let Some(job) = verify_of(alloc, words)? {
        return Ok(Some(Command::Verify(job)));
    }
    if let Some(job) = diff_of(alloc, words)? {
        return Ok(Some(Command::Diff(job)));
    }
    if let Some(job) = restore_of(alloc, words)? {
        return Ok(Some(Command::Restore(job)));
    }
    match snapshot_of(alloc, words)? {
        Some(job) => Ok(Some(Command::Snapshot(job))),
        None => Ok(None),
    }
}
