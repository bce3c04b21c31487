//! The commands on files and streams.

ghost use Rattle.std.specs.Prelude.{◌-◌, ◌<◌, ◌^◌};
ghost use Rattle.zk_records.specs.Sinks.{write_failures_of};

use crate::faults::refuse;
use std::io::{IsTerminal, Read, Write};
use std::{fs, io};
use zk_cli_args::{Form, Job, Order};
use zk_commands::act_in;
use zk_log::{Sink, Source};
use zk_path::NoMemory;

/// Opens the inputs and then the output, and runs the command. Returns the exit status.
pub(crate) fn open_and_act<E: Write>(
    rt: &HostRuntime,
    form: Form,
    job: &Job,
    faults: &mut Sink<E>,
) -> Result<u8, NoMemory>
    requires faults { write_failures_of faults.old < 2 ^ 64 - 1 }
{
    if job.input == "@" {
        return open_script(rt, form, job, rt.reader(), faults);
    }
    match fs::open(rt, job.input) {
        Ok(file) => open_script(rt, form, job, file, faults),
        Err(_) => Ok(refuse(rt, "read")),
    }
}

/// Opens the script, if the command has one, and then the output, and runs the command. Returns the
/// exit status.
///
/// The lines of a session are those of standard input.
fn open_script<F: Read + Drop, E: Write>(
    rt: &HostRuntime,
    form: Form,
    job: &Job,
    file: F,
    faults: &mut Sink<E>,
) -> Result<u8, NoMemory>
    requires faults { write_failures_of faults.old < 2 ^ 64 - 1 }
{
    if matches!(job.order, Order::Session { .. }) || job.script == Some("@") {
        return open_output(rt, form, job, file, rt.reader(), faults);
    }
    let Some(script) = job.script else {
        return open_output(rt, form, job, file, io::empty(), faults);
    };
    match fs::open(rt, script) {
        Ok(script) => open_output(rt, form, job, file, script, faults),
        Err(_) => Ok(refuse(rt, "read")),
    }
}

/// Opens the output and runs the command. Returns the exit status.
fn open_output<F: Read + Drop, S: Read + Drop, E: Write>(
    rt: &HostRuntime,
    form: Form,
    job: &Job,
    file: F,
    script: S,
    faults: &mut Sink<E>,
) -> Result<u8, NoMemory>
    requires faults { write_failures_of faults.old < 2 ^ 64 - 1 }
{
    if job.output == "@" {
        return act_on(
            rt,
            form,
            &job.order,
            file,
            script,
            io::writer(rt),
            io::sink(),
            faults,
        );
    }
    // A command with an output of its own may report to standard output.
    match fs::create(rt, job.output) {
        Ok(output) => act_on(
            rt,
            form,
            &job.order,
            file,
            script,
            output,
            io::writer(rt),
            faults,
        ),
        Err(_) => Ok(refuse(rt, "write")),
    }
}

/// Runs the command on open inputs and outputs, with a writer of faults. Returns the exit status.
fn act_on<F: Read + Drop, S: Read + Drop, O: Write + Drop, R: Write + Drop, E: Write>(
    rt: &HostRuntime,
    form: Form,
    order: &Order,
    file: F,
    script: S,
    output: O,
    report: R,
    faults: &mut Sink<E>,
) -> Result<u8, NoMemory>
    requires faults { write_failures_of faults.old < 2 ^ 64 - 1 }
{
    let mut file = Source::new(file);
    let mut script = Source::new(script);
    let mut output = Sink::new(output);
    let mut report = Sink::new(report);
    act_in(
        rt.alloc(),
        form,
        &prompted(rt, order),
        &mut file,
        &mut script,
        &mut output,
        &mut report,
        faults,
    )
}

/// The command, with prompts if a session's lines come from a terminal.
fn prompted(rt: &HostRuntime, order: &Order) -> Order {
    match order {
        Order::Session { prompts } => Order::Session {
            prompts: *prompts || rt.stdin().is_terminal(),
        },
        other => *other,
    }
}
