//! The lines for a chronicle that is rejected.
ghost use Rattle.std.specs.Prelude.{◌-◌, ◌<◌, ◌≡◌, ◌^◌, IfOk, OnErr, OnOk};
ghost use Rattle.std.specs.String.{string_bytes};
ghost use Rattle.zk_log_commands.specs.Telling.{Told};
ghost use Rattle.zk_log_commands.specs.Writing.{LeavesSink};
ghost use Rattle.zk_records.specs.Sinks.{write_failures_of};
ghost use Rattle.zk_serve.specs.Serving.{mismatch_line};

use std::alloc::Global;
use std::io::Write;
use zk_log::Sink;
use zk_log_commands::tell;
use zk_path::NoMemory;

/// Writes the line for a receipt that does not match.
pub(crate) fn tell_mismatch<E: Write>(
    alloc: Global,
    faults: &mut Sink<E>,
    at: usize,
) -> Result<(), NoMemory>
    requires { write_failures_of faults.old < 2 ^ 64 - 1 }
    ensures told { OnOk result (Told E.contents faults.old faults.new (mismatch_line at)) }
    ensures refused { OnErr result (LeavesSink E.contents faults.old faults.new) }
{
    let line = mismatch_line(alloc, at)?;
    tell(faults, line.as_str());
    Ok(())
}

/// The line for the receipt at an index.
fn mismatch_line(alloc: Global, at: usize) -> Result<String, NoMemory>
    ensures { IfOk result (λ line. string_bytes line ≡ mismatch_line at) }
{
    Ok(format!(in alloc; "zk: C2 {at}\n")?)
}
