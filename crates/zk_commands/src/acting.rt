//! What each command except `serve` does.
ghost use Rattle.std.specs.Prelude.{◌+◌, ◌-◌, ◌<◌, ◌^◌};
ghost use Rattle.zk_commands.specs.Acting.{Acts, ActsIn};
ghost use Rattle.zk_records.specs.Sinks.{write_failures_of};
ghost use Rattle.zk_log.specs.Devices.{reads_of, read_failures_of};

use crate::mending::mend_log;
use crate::repl::run_repl;
use crate::running::run;
use std::alloc::Global;
use std::io::{Read, Write};
use zk_cli_args::{Form, Order};
use zk_json_commands::show_log_json;
use zk_listings::list_log;
use zk_log::{Sink, Source};
use zk_log_commands::{Report, asm, debug, tell_log};
use zk_path::NoMemory;

/// Executes a command and returns the exit status: 0, or 1 for a rejected input or a failed output,
/// with one line on `faults`.
///
/// The streams:
/// - `file`: the log; for [`Order::Asm`] the listing, for [`Order::Run`] the script
/// - `script`: the script of [`Order::Debug`], or the lines of [`Order::Session`]; otherwise not
///   read
/// - `report`: what [`Order::Mend`] reports on the log that it writes to `output`; otherwise not
///   written
pub fn act<F: Read, S: Read, O: Write, R: Write, E: Write>(
    alloc: Global,
    order: &Order,
    file: &mut Source<F>,
    script: &mut Source<S>,
    output: &mut Sink<O>,
    report: &mut Sink<R>,
    faults: &mut Sink<E>,
) -> Result<u8, NoMemory>
    requires reads { reads_of file.old + 1048576 < 2 ^ 64 }
    requires read_failures { read_failures_of file.old < 2 ^ 64 - 1 }
    requires script_reads { reads_of script.old + 1048576 < 2 ^ 64 }
    requires script_failures { read_failures_of script.old < 2 ^ 64 - 1 }
    requires output { write_failures_of output.old < 2 ^ 64 - 1 }
    requires report { write_failures_of report.old < 2 ^ 64 - 1 }
    requires faults { write_failures_of faults.old < 2 ^ 64 - 1 }
    ensures { Acts F.remaining S.remaining O.contents R.contents E.contents order.now file.old file.new
        script.old script.new output.old output.new report.old report.new faults.old faults.new result }
{
    match order {
        Order::Show { upto } => tell_log(alloc, Report::Tree { upto: *upto }, file, output, faults),
        Order::List => tell_log(alloc, Report::Listing, file, output, faults),
        Order::Asm => asm(alloc, file, output, faults),
        Order::Mend => mend_log(alloc, file, output, report, faults),
        Order::Debug => debug(alloc, file, script, output, faults),
        Order::Session { prompts } => run_repl(alloc, *prompts, file, script, output, faults),
        Order::Run => run(alloc, file, output, faults),
    }
}

/// Executes a command like [`act`], in a form; in its own lines where it has not the form.
pub fn act_in<F: Read, S: Read, O: Write, R: Write, E: Write>(
    alloc: Global,
    form: Form,
    order: &Order,
    file: &mut Source<F>,
    script: &mut Source<S>,
    output: &mut Sink<O>,
    report: &mut Sink<R>,
    faults: &mut Sink<E>,
) -> Result<u8, NoMemory>
    requires reads { reads_of file.old + 1048576 < 2 ^ 64 }
    requires read_failures { read_failures_of file.old < 2 ^ 64 - 1 }
    requires script_reads { reads_of script.old + 1048576 < 2 ^ 64 }
    requires script_failures { read_failures_of script.old < 2 ^ 64 - 1 }
    requires output { write_failures_of output.old < 2 ^ 64 - 1 }
    requires report { write_failures_of report.old < 2 ^ 64 - 1 }
    requires faults { write_failures_of faults.old < 2 ^ 64 - 1 }
    ensures { ActsIn F.remaining S.remaining O.contents R.contents E.contents order.now form file.old file.new
        script.old script.new output.old output.new report.old report.new faults.old faults.new result }
{
    match order {
        Order::Show { upto } => match form {
            Form::Json => show_log_json(alloc, *upto, file, output, faults),
            Form::Lines | Form::Times => act(alloc, order, file, script, output, report, faults),
        },
        Order::List => match form {
            Form::Lines => act(alloc, order, file, script, output, report, faults),
            Form::Json => list_log(alloc, Form::Json, file, output, faults),
            Form::Times => list_log(alloc, Form::Times, file, output, faults),
        },
        Order::Asm | Order::Mend | Order::Debug | Order::Session { .. } | Order::Run => {
            act(alloc, order, file, script, output, report, faults)
        }
    }
}
