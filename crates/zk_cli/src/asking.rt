//! The commands that read data directories.

ghost use Rattle.std.specs.Prelude.{◌-◌, ◌<◌, ◌^◌};
ghost use Rattle.zk_records.specs.Sinks.{write_failures_of};

use crate::disk_folder::DiskFolder;
use crate::faults::faults;
use crate::new_file::NewFile;
use std::io;
use std::io::Write;
use std::sync::Wait;
use std::time::Clock;
use zk_cli_args::{CompareJob, Form, SnapshotJob};
use zk_commands::{Question, upto_of};
use zk_comparison::{compare, compare_json};
use zk_directory_state::Folder;
use zk_listings::follow;
use zk_log::Sink;
use zk_path::NoMemory;
use zk_snapshot_command::write_snapshot;

/// Prints what a question asks of a data directory, whose logs may be in another. Returns the exit
/// status.
pub(crate) fn ask(
    rt: &HostRuntime,
    form: Form,
    question: &Question,
    folder: &str,
    logs: Option<&str>,
) -> Result<u8, NoMemory> {
    let snapshots = DiskFolder::at(rt, folder)?;
    let logs = DiskFolder::at(rt, logs.unwrap_or(folder))?;
    ask_folders(rt, form, question, &snapshots, &logs)
}

/// Prints what a question asks of the snapshots of one folder and the logs of another. Returns the
/// exit status.
pub(crate) fn ask_folders<S: Folder, L: Folder>(
    rt: &HostRuntime,
    form: Form,
    question: &Question,
    snapshots: &S,
    logs: &L,
) -> Result<u8, NoMemory> {
    let mut output = Sink::new(io::writer(rt));
    let mut faults = faults(rt);
    zk_commands::ask(
        rt.alloc(),
        form,
        question,
        snapshots,
        logs,
        &mut output,
        &mut faults,
    )
}

/// Follows the logs of a directory. Returns the exit status.
pub(crate) fn follow_logs<R: Wait + Clock>(
    rt: &HostRuntime,
    waiting: &R,
    form: Form,
    folder: &str,
) -> Result<u8, NoMemory> {
    let logs = DiskFolder::at(rt, folder)?;
    let mut output = Sink::new(io::writer(rt));
    let mut faults = faults(rt);
    follow(waiting, rt.alloc(), form, &logs, &mut output, &mut faults)
}

/// Compares two directories, whose logs may be in others. Returns the exit status.
pub(crate) fn tell_comparison(
    rt: &HostRuntime,
    form: Form,
    job: &CompareJob,
) -> Result<u8, NoMemory> {
    let first = DiskFolder::at(rt, job.first)?;
    let first_logs = DiskFolder::at(rt, job.first_logs.unwrap_or(job.first))?;
    let second = DiskFolder::at(rt, job.second)?;
    let second_logs = DiskFolder::at(rt, job.second_logs.unwrap_or(job.second))?;
    let alloc = rt.alloc();
    let mut output = Sink::new(io::writer(rt));
    let mut faults = faults(rt);
    match form {
        Form::Json => compare_json(
            alloc,
            &first,
            &first_logs,
            &second,
            &second_logs,
            &mut output,
            &mut faults,
        ),
        _ => compare(
            alloc,
            &first,
            &first_logs,
            &second,
            &second_logs,
            &mut output,
            &mut faults,
        ),
    }
}

/// Writes the snapshot of a directory's state, whose logs may be in another. Returns the exit status.
///
/// The output is opened once the state is known: a directory with a fault leaves it as it is.
pub(crate) fn write_state(rt: &HostRuntime, job: &SnapshotJob) -> Result<u8, NoMemory> {
    if job.output == "@" {
        let mut output = Sink::new(io::writer(rt));
        write_to(rt, job, &mut output)
    } else {
        let mut output = Sink::new(NewFile::at(rt, job.output));
        write_to(rt, job, &mut output)
    }
}

fn write_to<O: Write>(
    rt: &HostRuntime,
    job: &SnapshotJob,
    output: &mut Sink<O>,
) -> Result<u8, NoMemory>
    requires output { write_failures_of output.old < 2 ^ 64 - 1 }
{
    let snapshots = DiskFolder::at(rt, job.folder)?;
    let logs = DiskFolder::at(rt, job.logs.unwrap_or(job.folder))?;
    let mut faults = faults(rt);
    write_snapshot(
        rt.alloc(),
        &snapshots,
        &logs,
        upto_of(job.at),
        output,
        &mut faults,
    )
}
