//! The program `zk`: reads data directories and transaction logs of ZooKeeper, and runs its
//! servers. This crate reads the command line and opens files, directories and ports.
#![tactic(auto)]

mod acting;
mod asking;
mod clock;
mod comparing;
mod debugging;
mod disk_folder;
mod ensemble;
mod faults;
mod held_fault;
mod listening;
mod new_file;
mod one_log;

use asking::{ask, follow_logs, tell_comparison, write_state};
use comparing::compare_several;
use debugging::debug_directory;
use disk_folder::is_directory;
use ensemble::run_ensemble;
use faults::refuse;
use listening::listen;
use one_log::act_on_files;
use std::net::{Net, TcpListener, TcpStream};
use std::process::ExitCode;
use std::sync::Wait;
use std::thread::Threads;
use std::{env, io, time};
use zk_cli_args::{
    Command, CommandFault, CommandLine, FolderJob, FolderOrder, Form, Job, Refusal,
    folder_debug_from, folder_job_from, read_command_line, read_comparisons, refusal_of,
    refusal_of_bytes,
};
use zk_commands::Question;
use zk_helps::explain_at;
use zk_path::NoMemory;

fn main(rt: HostRuntime) -> ExitCode {
    match run(&rt, &rt) {
        Ok(status) => ExitCode::from(status),
        Err(NoMemory) => ExitCode::from(refuse(&rt, "memory")),
    }
}

/// Parses the command line and runs the command. Returns the exit status.
fn run<R: Threads + Wait + Net<Listener = TcpListener, Stream = TcpStream> + time::Clock + Sync>(
    rt: &HostRuntime,
    threads: &R,
) -> Result<u8, NoMemory> {
    let words = match env::args(rt) {
        Ok(args) => args.collect::<Vec<_>>(rt.alloc())?,
        Err(error) if error.kind() == io::ErrorKind::InvalidData => {
            return Ok(print(rt, &refusal_of_bytes(rt.alloc())?));
        }
        Err(_) => return Err(NoMemory),
    };
    let mut texts = words
        .iter()
        .map(|word| word.as_str())
        .collect::<Vec<_>>(rt.alloc())?;
    if let Some(place) = explain_at(texts.as_slice()) {
        texts.remove(place);
    }
    match read_command_line(rt.alloc(), texts.as_slice()) {
        Ok(line) if line.follows => run_following(rt, threads, &line, texts.as_slice()),
        Ok(line) => run_command(rt, threads, &line),
        Err(CommandFault::Refused(refusal)) => compare_or_print(rt, texts.as_slice(), &refusal),
        Err(CommandFault::NoMemory) => Err(NoMemory),
    }
}

/// Runs a command. Returns the exit status.
///
/// Servers are threads, and may wait; no other command uses threads.
fn run_command<
    R: Threads + Wait + Net<Listener = TcpListener, Stream = TcpStream> + time::Clock + Sync,
>(rt: &HostRuntime, threads: &R, line: &CommandLine) -> Result<u8, NoMemory> {
    let form = line.form;
    match line.command {
        Command::Act(job) => act_or_ask(rt, form, &job),
        Command::Look(job) => look(rt, form, &job),
        Command::Debug(job) => debug_directory(rt, &job),
        Command::History(job) => ask(rt, form, &Question::History(job), job.folder, job.logs),
        Command::Top(job) => ask(rt, form, &Question::Top(job), job.folder, job.logs),
        Command::Sessions(job) => ask(rt, form, &Question::Sessions, job.folder, job.logs),
        Command::Session(job) => ask(rt, form, &Question::Session(job), job.folder, job.logs),
        Command::Compare(job) => tell_comparison(rt, form, &job),
        Command::Verify(job) => ask(rt, form, &Question::Verify, job.folder, job.logs),
        Command::Diff(job) => ask(rt, form, &Question::Diff(job), job.folder, job.logs),
        Command::Restore(job) => ask(rt, form, &Question::Restore(job), job.folder, job.logs),
        Command::Snapshot(job) => write_state(rt, &job),
        Command::Serve(serving) => listen(threads, rt, serving),
        Command::Ensemble(job) => run_ensemble(rt, threads, &job.ensemble, job.record),
    }
}

/// Compares the directories of a command line with three or more, or prints the message for the line.
/// Returns the exit status.
fn compare_or_print(rt: &HostRuntime, words: &[&str], refusal: &Refusal) -> Result<u8, NoMemory> {
    match read_comparisons(rt.alloc(), words)? {
        Some(job) => compare_several(rt, &job),
        None => Ok(print(rt, refusal)),
    }
}

/// Prints the message for a command line. Returns the exit status: 0 for a help or a version, 2 for
/// an error.
fn print(rt: &HostRuntime, refusal: &Refusal) -> u8 {
    // If the text cannot be printed, the error cannot be reported either.
    if refusal.is_fault() {
        let _ = rt.eprint(refusal.text.as_str());
        2
    } else {
        let _ = rt.print(refusal.text.as_str());
        0
    }
}

/// Runs the command on its directory, if the input is one, and else on its files. Returns the exit
/// status.
fn act_or_ask(rt: &HostRuntime, form: Form, job: &Job) -> Result<u8, NoMemory> {
    if job.input != "@" && is_directory(rt, job.input) {
        if let Some(folder_job) = folder_job_from(job) {
            return look(rt, form, &folder_job);
        }
        if let Some(debug) = folder_debug_from(job) {
            return debug_directory(rt, &debug);
        }
    }
    act_on_files(rt, form, job)
}

fn look(rt: &HostRuntime, form: Form, job: &FolderJob) -> Result<u8, NoMemory> {
    ask(rt, form, &Question::Look(job.order), job.folder, job.logs)
}

/// Follows the logs of the directory that a command lists, or prints the error of its words. Returns
/// the exit status.
fn run_following<R: Wait + time::Clock>(
    rt: &HostRuntime,
    waiting: &R,
    line: &CommandLine,
    words: &[&str],
) -> Result<u8, NoMemory> {
    match listed(rt, line) {
        Some(job) => follow_logs(rt, waiting, line.form, job.logs.unwrap_or(job.folder)),
        None => Ok(print(rt, &refusal_of(rt.alloc(), words)?)),
    }
}

/// The directory that a command lists, if it lists one.
fn listed<'a>(rt: &HostRuntime, line: &CommandLine<'a>) -> Option<FolderJob<'a>> {
    let job = match line.command {
        Command::Look(job) => Some(job),
        Command::Act(job) if job.input != "@" && is_directory(rt, job.input) => {
            folder_job_from(&job)
        }
        _ => None,
    }?;
    if job.order == FolderOrder::List {
        Some(job)
    } else {
        None
    }
}
