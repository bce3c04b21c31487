//! `zk list` of a log.
ghost use Rattle.std.specs.Prelude.{◌+◌, ◌-◌, ◌<◌, ◌^◌, IfOk, None};
ghost use Rattle.std.specs.String.{string_bytes};
ghost use Rattle.zk_json_commands.specs.Logs.{OutputsSuch};
ghost use Rattle.zk_listings.specs.Listings.{TellsLogLines};
ghost use Rattle.zk_log.specs.Devices.{read_failures_of, reads_of};
ghost use Rattle.zk_records.specs.Sinks.{write_failures_of};
ghost use Rattle.zk_listings.specs.Lines.{AreTxnLines};

use crate::{Form, push_txn_lines};
use std::alloc::Global;
use std::io::{Read, Write};
use zk_directory_state::put_text;
use zk_log::{LogFault, Sink, Source, load};
use zk_log_commands::{TURNS, tell_log_fault};
use zk_path::NoMemory;
use zk_table::Txn;

/// The lines of transactions.
#[tactic(auto, using(crate::proofs::Listed::all_told))]
fn lines_of(alloc: Global, form: Form, txns: &[Txn]) -> Result<String, NoMemory>
    ensures { IfOk result (λ text. AreTxnLines form txns.now (string_bytes text)) }
{
    let mut text = String::new(alloc);
    push_txn_lines(&mut text, form, txns)?;
    Ok(text)
}

/// Writes the lines of transactions. Returns the exit status.
#[tactic(auto, using(crate::proofs::Listed::put_told, zk_json_commands::proofs::Loaded::nothing_told))]
fn tell_lines<O: Write, E: Write>(
    alloc: Global,
    form: Form,
    txns: &[Txn],
    output: &mut Sink<O>,
    faults: &mut Sink<E>,
) -> Result<u8, NoMemory>
    requires output { write_failures_of output.old < 2 ^ 64 - 1 }
    requires faults { write_failures_of faults.old < 2 ^ 64 - 1 }
    ensures { OutputsSuch O.contents E.contents (AreTxnLines form txns.now) None output.old output.new faults.old faults.new result }
{
    let text = lines_of(alloc, form, txns)?;
    Ok(put_text(text.as_str(), output, faults))
}

/// Loads a log, and writes a line for each of its transactions. Returns the exit status.
pub fn list_log<F: Read, O: Write, E: Write>(
    alloc: Global,
    form: Form,
    file: &mut Source<F>,
    output: &mut Sink<O>,
    faults: &mut Sink<E>,
) -> Result<u8, NoMemory>
    requires reads { reads_of file.old + 1048576 < 2 ^ 64 }
    requires read_failures { read_failures_of file.old < 2 ^ 64 - 1 }
    requires output { write_failures_of output.old < 2 ^ 64 - 1 }
    requires faults { write_failures_of faults.old < 2 ^ 64 - 1 }
    ensures { TellsLogLines F.remaining O.contents E.contents form file.old file.new output.old output.new
        faults.old faults.new result }
{
    match load(alloc, file, TURNS) {
        Ok(loaded) => tell_lines(alloc, form, loaded.txns.as_slice(), output, faults),
        Err(LogFault::NoMemory) => Err(NoMemory),
        Err(fault) => tell_log_fault(alloc, fault, faults),
    }
}
