//! A log of a 3.5 to 3.8 server, which is read as a data directory that has only it.

use crate::acting::open_and_act;
use crate::asking::ask_folders;
use crate::debugging::debug_folders;
use crate::faults::{faults, new_explaining};
use crate::held_fault::HeldFault;
use std::fs;
use zk_cli_args::{Form, Job, folder_debug_from, folder_job_from};
use zk_commands::{LogFolder, Question};
use zk_log::Sink;
use zk_path::NoMemory;

/// Runs the command on its files. Returns the exit status.
///
/// A log that only a directory's commands can read is read as a directory that has only it. It must
/// have a path, since it is read twice.
pub(crate) fn act_on_files(rt: &HostRuntime, form: Form, job: &Job) -> Result<u8, NoMemory> {
    let is_directory_command = folder_job_from(job).is_some() || folder_debug_from(job).is_some();
    if job.input == "@" || !is_directory_command {
        let mut faults = faults(rt);
        return open_and_act(rt, form, job, &mut faults);
    }
    let mut faults = Sink::new(HeldFault::new(new_explaining(rt)));
    let status = open_and_act(rt, form, job, &mut faults)?;
    let held = faults.into_inner();
    if held.is_held()
        && let Some(folder) = folder_of(rt, job.input)?
    {
        return act_on_folder(rt, form, job, &folder);
    }
    held.release();
    Ok(status)
}

/// The directory of a log; `None` if it cannot be read, or has a record of no known server.
fn folder_of(rt: &HostRuntime, path: &str) -> Result<Option<LogFolder>, NoMemory> {
    match fs::read(rt, path) {
        Ok(bytes) => LogFolder::of(rt.alloc(), bytes),
        Err(_) => Ok(None),
    }
}

/// Runs the command on a directory that has only one log. Returns the exit status.
fn act_on_folder(
    rt: &HostRuntime,
    form: Form,
    job: &Job,
    folder: &LogFolder,
) -> Result<u8, NoMemory> {
    if let Some(debug) = folder_debug_from(job) {
        return debug_folders(rt, &debug, folder, folder);
    }
    match folder_job_from(job) {
        Some(look) => ask_folders(rt, form, &Question::Look(look.order), folder, folder),
        None => Ok(1),
    }
}
