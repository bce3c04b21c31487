//! `zk restore`.
ghost use Rattle.std.specs.Prelude.{◌≡◌, ◌-◌, ◌<◌, ◌^◌, IfOk};
ghost use Rattle.std.specs.String.{string_bytes};
ghost use Rattle.zk_records.specs.Sinks.{write_failures_of};
ghost use Rattle.zk_tree_changes.specs.ScriptReports.{FindsScript, IsScriptIn, OutputsFound, TellsMissing, TellsScript, missing_line};

use crate::push_script;
use std::alloc::Global;
use std::io::Write;
use zk_directory_state::{
    Folder, HistoryFault, Shown, Upto, notices_text, put_with_notices, shown_of, tell_fault,
};
use zk_format::push_quoted;
use zk_log::Sink;
use zk_log_commands::tell;
use zk_path::NoMemory;

/// A script, and the notices on the state that it is of.
#[derive(Drop)]
struct Script {
    /// `None` if the state has no such node.
    text: Option<String>,
    notices: String,
}

/// The script of the node at a path and those below it, as a state holds them; `None` if it has no
/// such node.
fn script_text(alloc: Global, path: &str, shown: &Shown) -> Result<Option<String>, NoMemory>
    ensures { IfOk result (IsScriptIn shown.now.restored.table.state path.now) }
{
    if shown.restored.table.get(path).is_none() {
        return Ok(None);
    }
    let mut text = String::new(alloc);
    push_script(&mut text, path, &shown.restored.table)?;
    Ok(Some(text))
}

/// The script of the node at a path and those below it, as a directory holds them up to a
/// transaction.
#[tactic(auto, using(crate::proofs::FoundScripts::script_found))]
fn script_of<S: Folder, L: Folder>(
    alloc: Global,
    snapshots: &S,
    logs: &L,
    upto: Upto,
    path: &str,
) -> Result<Script, HistoryFault>
    ensures { FindsScript (S.names_in snapshots.now) (S.bytes_in snapshots.now) (L.names_in logs.now) (L.bytes_in logs.now) upto path.now result }
{
    let shown = shown_of(alloc, snapshots, logs, upto)?;
    let text = script_text(alloc, path, &shown)?;
    let notices = notices_text(alloc, upto, &shown.restored)?;
    Ok(Script { text, notices })
}

/// The line for a node that a state does not have.
#[tactic(auto, unfolding(crate::specs::ScriptReports::missing_line))]
fn missing_line(alloc: Global, path: &str) -> Result<String, NoMemory>
    ensures { IfOk result (λ line. string_bytes line ≡ missing_line path.now) }
{
    let mut line = String::from_str(alloc, "zk: no node ")?;
    push_quoted(&mut line, path)?;
    line.push_str("\n")?;
    Ok(line)
}

/// Writes the line for a node that a state does not have. Returns the exit status.
fn tell_missing<E: Write>(alloc: Global, path: &str, faults: &mut Sink<E>) -> Result<u8, NoMemory>
    requires { write_failures_of faults.old < 2 ^ 64 - 1 }
    ensures { TellsMissing E.contents path.now faults.old faults.new result }
{
    let line = missing_line(alloc, path)?;
    tell(faults, line.as_str());
    Ok(1)
}

/// Writes a script and its notices, or that there is no such node. Returns the exit status.
fn put_script<O: Write, E: Write>(
    alloc: Global,
    path: &str,
    script: Script,
    output: &mut Sink<O>,
    faults: &mut Sink<E>,
) -> Result<u8, NoMemory>
    requires output { write_failures_of output.old < 2 ^ 64 - 1 }
    requires faults { write_failures_of faults.old < 2 ^ 64 - 1 }
    ensures { OutputsFound O.contents E.contents path.now script.text (string_bytes script.notices) output.old output.new faults.old faults.new result }
{
    let notices = script.notices;
    match script.text {
        Some(text) => Ok(put_with_notices(text.as_str(), notices.as_str(), output, faults)),
        None => tell_missing(alloc, path, faults),
    }
}

/// Writes the script that restores the node at a path and those below it, as a data directory holds
/// them up to a transaction: lines of `zkCli.sh`. A node that it does not hold is a fault. Returns
/// the exit status.
///
/// The tree is that of `zk show`: that of the first folder's snapshots and the second folder's logs.
/// So are the notices.
pub fn restore<S: Folder, L: Folder, O: Write, E: Write>(
    alloc: Global,
    snapshots: &S,
    logs: &L,
    upto: Upto,
    path: &str,
    output: &mut Sink<O>,
    faults: &mut Sink<E>,
) -> Result<u8, NoMemory>
    requires output { write_failures_of output.old < 2 ^ 64 - 1 }
    requires faults { write_failures_of faults.old < 2 ^ 64 - 1 }
    ensures { TellsScript O.contents E.contents (S.names_in snapshots.now) (S.bytes_in snapshots.now) (L.names_in logs.now)
        (L.bytes_in logs.now) upto path.now output.old output.new faults.old faults.new result }
{
    match script_of(alloc, snapshots, logs, upto, path) {
        Ok(script) => put_script(alloc, path, script, output, faults),
        Err(fault) => tell_fault(alloc, &fault, faults),
    }
}
