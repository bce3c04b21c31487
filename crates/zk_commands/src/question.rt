//! What is asked of a data directory, and what is written for it.
ghost use Rattle.std.specs.Prelude.{◌≡◌, ◌-◌, ◌<◌, ◌^◌};
ghost use Rattle.zk_commands.specs.Questions.{Prints, Looks, TellsDifferenceIn, TellsHistoryIn, TellsRestore, TellsTopIn, TellsVerificationIn, asked_of, bound_of, key_of, line_form, range_of, upto_of};
ghost use Rattle.zk_commands.specs.Starts.{Directory};
ghost use Rattle.zk_records.specs.Sinks.{write_failures_of};

use std::alloc::Global;
use std::io::Write;
use zk_cli_args::{
    By, DiffJob, FolderOrder, Form, HistoryJob, RestoreJob, SessionJob, TopJob, Until,
};
use zk_directory_state::{Bound, Folder, Range, Upto, files, show};
use zk_incidents::{Key, history, top};
use zk_json_commands::{diff_json, history_json, show_json, top_json, verify_json};
use zk_json_files::files_json;
use zk_listings::list_directory;
use zk_log::Sink;
use zk_path::NoMemory;
use zk_session_commands::{AskedSession, session, sessions};
use zk_session_lines::LineForm;
use zk_tree_changes::{diff, restore};
use zk_verification::verify;

/// A question about a data directory. The directories that a job names are opened already.
#[derive(Clone, Copy, Debug)]
pub enum Question<'a> {
    /// What is in it.
    Look(FolderOrder),
    /// What happened to a node.
    History(HistoryJob<'a>),
    /// Which paths or sessions have the most writes.
    Top(TopJob<'a>),
    /// What its sessions did.
    Sessions,
    /// What one session did.
    Session(SessionJob<'a>),
    /// What is wrong with it.
    Verify,
    /// What differs between two of its states.
    Diff(DiffJob<'a>),
    /// Which script restores nodes.
    Restore(RestoreJob<'a>),
}

/// Prints what a question asks of the snapshots of one folder and the logs of another, in a
/// form; the question's own lines where it has not the form. Returns the exit status.
pub fn ask<S: Folder, L: Folder, O: Write, E: Write>(
    alloc: Global,
    form: Form,
    question: &Question,
    snapshots: &S,
    logs: &L,
    output: &mut Sink<O>,
    faults: &mut Sink<E>,
) -> Result<u8, NoMemory>
    requires output { write_failures_of output.old < 2 ^ 64 - 1 }
    requires faults { write_failures_of faults.old < 2 ^ 64 - 1 }
    ensures { Prints O.contents E.contents form question.now
        (record { snapshots = S.names_in snapshots.now; snapshot_bytes = S.bytes_in snapshots.now; logs = L.names_in logs.now; log_bytes = L.bytes_in logs.now })
        output.old output.new faults.old faults.new result }
{
    match question {
        Question::Look(order) => look(alloc, form, *order, snapshots, logs, output, faults),
        Question::History(job) => tell_history(alloc, form, job, snapshots, logs, output, faults),
        Question::Top(job) => tell_top(alloc, form, job, snapshots, logs, output, faults),
        Question::Sessions => { sessions(alloc, snapshots, logs, line_form(form), output, faults) }
        Question::Session(job) => {
            session(alloc, snapshots, logs, asked_of(job, form), output, faults)
        }
        Question::Verify => tell_verification(alloc, form, snapshots, logs, output, faults),
        Question::Diff(job) => tell_difference(alloc, form, job, snapshots, logs, output, faults),
        Question::Restore(job) => tell_script(alloc, job, snapshots, logs, output, faults),
    }
}

fn look<S: Folder, L: Folder, O: Write, E: Write>(
    alloc: Global,
    form: Form,
    order: FolderOrder,
    snapshots: &S,
    logs: &L,
    output: &mut Sink<O>,
    faults: &mut Sink<E>,
) -> Result<u8, NoMemory>
    requires output { write_failures_of output.old < 2 ^ 64 - 1 }
    requires faults { write_failures_of faults.old < 2 ^ 64 - 1 }
    ensures { Looks O.contents E.contents order form
        (record { snapshots = S.names_in snapshots.now; snapshot_bytes = S.bytes_in snapshots.now; logs = L.names_in logs.now; log_bytes = L.bytes_in logs.now })
        output.old output.new faults.old faults.new result }
{
    match order {
        FolderOrder::Files => match form {
            Form::Json => files_json(alloc, snapshots, logs, output, faults),
            Form::Lines | Form::Times => files(alloc, snapshots, logs, output, faults),
        },
        FolderOrder::List => list_directory(alloc, form, snapshots, logs, output, faults),
        FolderOrder::Show { until } => match form {
            Form::Json => show_json(alloc, snapshots, logs, upto_of(until), output, faults),
            Form::Lines | Form::Times => {
                show(alloc, snapshots, logs, upto_of(until), output, faults)
            }
        },
    }
}

fn tell_history<S: Folder, L: Folder, O: Write, E: Write>(
    alloc: Global,
    form: Form,
    job: &HistoryJob,
    snapshots: &S,
    logs: &L,
    output: &mut Sink<O>,
    faults: &mut Sink<E>,
) -> Result<u8, NoMemory>
    requires output { write_failures_of output.old < 2 ^ 64 - 1 }
    requires faults { write_failures_of faults.old < 2 ^ 64 - 1 }
    ensures { TellsHistoryIn O.contents E.contents form job.now
        (record { snapshots = S.names_in snapshots.now; snapshot_bytes = S.bytes_in snapshots.now; logs = L.names_in logs.now; log_bytes = L.bytes_in logs.now })
        output.old output.new faults.old faults.new result }
{
    match form {
        Form::Json => { history_json(alloc, snapshots, logs, job.path, job.below, output, faults) }
        Form::Lines | Form::Times => {
            history(alloc, snapshots, logs, job.path, job.below, output, faults)
        }
    }
}

fn tell_top<S: Folder, L: Folder, O: Write, E: Write>(
    alloc: Global,
    form: Form,
    job: &TopJob,
    snapshots: &S,
    logs: &L,
    output: &mut Sink<O>,
    faults: &mut Sink<E>,
) -> Result<u8, NoMemory>
    requires output { write_failures_of output.old < 2 ^ 64 - 1 }
    requires faults { write_failures_of faults.old < 2 ^ 64 - 1 }
    ensures { TellsTopIn O.contents E.contents form job.now
        (record { snapshots = S.names_in snapshots.now; snapshot_bytes = S.bytes_in snapshots.now; logs = L.names_in logs.now; log_bytes = L.bytes_in logs.now })
        output.old output.new faults.old faults.new result }
{
    let range = range_of(job);
    let key = key_of(job.by);
    let number = most_of(job.number);
    match form {
        Form::Json => top_json(alloc, snapshots, logs, range, key, number, output, faults),
        Form::Lines | Form::Times => {
            top(alloc, snapshots, logs, range, key, number, output, faults)
        }
    }
}

fn tell_verification<S: Folder, L: Folder, O: Write, E: Write>(
    alloc: Global,
    form: Form,
    snapshots: &S,
    logs: &L,
    output: &mut Sink<O>,
    faults: &mut Sink<E>,
) -> Result<u8, NoMemory>
    requires output { write_failures_of output.old < 2 ^ 64 - 1 }
    requires faults { write_failures_of faults.old < 2 ^ 64 - 1 }
    ensures { TellsVerificationIn O.contents E.contents form
        (record { snapshots = S.names_in snapshots.now; snapshot_bytes = S.bytes_in snapshots.now; logs = L.names_in logs.now; log_bytes = L.bytes_in logs.now })
        output.old output.new faults.old faults.new result }
{
    match form {
        Form::Json => verify_json(alloc, snapshots, logs, output, faults),
        Form::Lines | Form::Times => verify(alloc, snapshots, logs, output, faults),
    }
}

fn tell_difference<S: Folder, L: Folder, O: Write, E: Write>(
    alloc: Global,
    form: Form,
    job: &DiffJob,
    snapshots: &S,
    logs: &L,
    output: &mut Sink<O>,
    faults: &mut Sink<E>,
) -> Result<u8, NoMemory>
    requires output { write_failures_of output.old < 2 ^ 64 - 1 }
    requires faults { write_failures_of faults.old < 2 ^ 64 - 1 }
    ensures { TellsDifferenceIn O.contents E.contents form job.now
        (record { snapshots = S.names_in snapshots.now; snapshot_bytes = S.bytes_in snapshots.now; logs = L.names_in logs.now; log_bytes = L.bytes_in logs.now })
        output.old output.new faults.old faults.new result }
{
    let from = upto_of(job.from);
    let to = upto_of(job.to);
    match form {
        Form::Json => diff_json(alloc, snapshots, logs, from, to, job.path, output, faults),
        Form::Lines | Form::Times => {
            diff(alloc, snapshots, logs, from, to, job.path, output, faults)
        }
    }
}

fn tell_script<S: Folder, L: Folder, O: Write, E: Write>(
    alloc: Global,
    job: &RestoreJob,
    snapshots: &S,
    logs: &L,
    output: &mut Sink<O>,
    faults: &mut Sink<E>,
) -> Result<u8, NoMemory>
    requires output { write_failures_of output.old < 2 ^ 64 - 1 }
    requires faults { write_failures_of faults.old < 2 ^ 64 - 1 }
    ensures { TellsRestore O.contents E.contents job.now
        (record { snapshots = S.names_in snapshots.now; snapshot_bytes = S.bytes_in snapshots.now; logs = L.names_in logs.now; log_bytes = L.bytes_in logs.now })
        output.old output.new faults.old faults.new result }
{
    let at = upto_of(job.at);
    restore(alloc, snapshots, logs, at, job.path, output, faults)
}

/// The last transaction of a state, by the words of a command line.
pub fn upto_of(until: Until) -> Upto
    ensures { result ≡ upto_of until }
{
    match until {
        Until::Last => Upto::Last,
        Until::Zxid(zxid) => Upto::Zxid { zxid },
        Until::Time(time) => Upto::Time { time },
    }
}

fn range_of(job: &TopJob) -> Range
    ensures { result ≡ range_of job.now }
{
    Range {
        from: bound_of(job.from),
        to: bound_of(job.to),
    }
}

/// The bound of a range; the last transaction of all is none.
fn bound_of(until: Option<Until>) -> Option<Bound>
    ensures { result ≡ bound_of until }
{
    match until {
        Some(Until::Zxid(zxid)) => Some(Bound::Zxid(zxid)),
        Some(Until::Time(time)) => Some(Bound::Time(time)),
        Some(Until::Last) => None,
        None => None,
    }
}

fn asked_of(job: &SessionJob, form: Form) -> AskedSession
    ensures { result ≡ asked_of job.now form }
{
    AskedSession {
        session: job.session,
        form: line_form(form),
    }
}

fn line_form(form: Form) -> LineForm
    ensures { result ≡ line_form form }
{
    match form {
        Form::Json => LineForm::Json,
        Form::Lines | Form::Times => LineForm::Text,
    }
}

fn key_of(by: By) -> Key
    ensures { result ≡ key_of by }
{
    match by {
        By::Path => Key::Path,
        By::Session => Key::Session,
    }
}

fn most_of(number: Option<u32>) -> Option<usize>
    ensures { result ≡ number }
{
    match number {
        Some(number) => Some(number as usize),
        None => None,
    }
}
