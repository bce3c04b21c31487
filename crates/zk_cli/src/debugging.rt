//! The debugger over a data directory.

use crate::disk_folder::DiskFolder;
use crate::faults::{faults, refuse};
use std::io::{IsTerminal, Read};
use std::{fs, io};
use zk_cli_args::FolderDebug;
use zk_commands::directory_session::run_repl;
use zk_commands::{debug, upto_of};
use zk_directory_state::{Folder, Upto};
use zk_log::{Sink, Source};
use zk_path::NoMemory;

/// Opens the script, if there is one, and runs the debugger over a data directory. Returns the exit
/// status.
pub(crate) fn debug_directory(rt: &HostRuntime, job: &FolderDebug) -> Result<u8, NoMemory> {
    let snapshots = DiskFolder::at(rt, job.folder)?;
    let logs = DiskFolder::at(rt, job.logs.unwrap_or(job.folder))?;
    debug_folders(rt, job, &snapshots, &logs)
}

/// Opens the script, if there is one, and runs the debugger over the snapshots of one folder and the
/// logs of another. Returns the exit status.
///
/// The lines of a session are those of standard input.
pub(crate) fn debug_folders<S: Folder, L: Folder>(
    rt: &HostRuntime,
    job: &FolderDebug,
    snapshots: &S,
    logs: &L,
) -> Result<u8, NoMemory> {
    let from = match job.from {
        Some(until) => Some(upto_of(until)),
        None => None,
    };
    match job.script {
        None => hold_session(rt, snapshots, logs, from, job.prompts),
        Some("@") => run_script(rt, snapshots, logs, from, rt.reader()),
        Some(script) => match fs::open(rt, script) {
            Ok(script) => run_script(rt, snapshots, logs, from, script),
            Err(_) => Ok(refuse(rt, "read")),
        },
    }
}

/// Runs a script over a directory, after a transaction. Returns the exit status.
fn run_script<S: Folder, L: Folder, R: Read + Drop>(
    rt: &HostRuntime,
    snapshots: &S,
    logs: &L,
    from: Option<Upto>,
    script: R,
) -> Result<u8, NoMemory> {
    let mut script = Source::new(script);
    let mut output = Sink::new(io::writer(rt));
    let mut faults = faults(rt);
    debug(
        rt.alloc(),
        snapshots,
        logs,
        from,
        &mut script,
        &mut output,
        &mut faults,
    )
}

/// Holds a session over a directory, after a transaction. Returns the exit status.
fn hold_session<S: Folder, L: Folder>(
    rt: &HostRuntime,
    snapshots: &S,
    logs: &L,
    from: Option<Upto>,
    prompts: bool,
) -> Result<u8, NoMemory> {
    let mut lines = Source::new(rt.reader());
    let mut output = Sink::new(io::writer(rt));
    let mut faults = faults(rt);
    run_repl(
        rt.alloc(),
        prompts || rt.stdin().is_terminal(),
        snapshots,
        logs,
        from,
        &mut lines,
        &mut output,
        &mut faults,
    )
}
