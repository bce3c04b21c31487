//! The output of a debugger for a command.
ghost use Rattle.std.specs.Prelude.{◌≡◌, ◌++◌, false, None, IfOk, IfErr, OnOk, OnErr};
ghost use Rattle.std.specs.String.{string_bytes};
ghost use Rattle.zk_debug.specs.Debugging.{state_at, result_at};
ghost use Rattle.zk_debug.specs.Answers.{fault_text, place_text, move_text, set_text, done_text, node_text, result_text, seen_by, RefusesReset, Obeys};
ghost use Rattle.zk_listing.specs.Reports.{line, tree_report};

use crate::command::Command;
use crate::{DebugFault, Debugger, Stop};
use zk_listing::{push_id, push_node_line, push_result_line, spell_tree};
use zk_machine::Machine;
use zk_path::{NoMemory, Path};

/// Executes a command and appends its output. If an allocation for the output fails, the debugger
/// has executed the command, and nothing is appended.
pub fn run_command(
    debugger: &mut Debugger,
    command: Command,
    answers: &mut String,
) -> Result<(), NoMemory>
    ensures obeyed { Obeys debugger.old command (string_bytes answers.old) result
        (string_bytes answers.new) debugger.new }
    ensures unchanged { OnErr result (string_bytes answers.new ≡ string_bytes answers.old) }
{
    let mut answer = String::new(*answers.allocator());
    obey(debugger, command, &mut answer)?;
    answers.push_str(answer.as_str())?;
    Ok(())
}

fn obey(debugger: &mut Debugger, command: Command, answer: &mut String) -> Result<(), NoMemory>
    ensures { Obeys debugger.old command (string_bytes answer.old) result
        (string_bytes answer.new) debugger.new }
{
    match command {
        Command::Step => {
            let moved = debugger.step();
            push_move(answer, debugger.zxid(), moved)
        }
        Command::StepBy(count) => {
            let moved = debugger.step_by(count as usize);
            push_move(answer, debugger.zxid(), moved)
        }
        Command::Back => {
            let moved = debugger.back();
            push_move(answer, debugger.zxid(), moved)
        }
        Command::Run => {
            let moved = debugger.run();
            push_move(answer, debugger.zxid(), moved)
        }
        Command::RunBack => {
            let moved = debugger.run_back();
            push_move(answer, debugger.zxid(), moved)
        }
        Command::Goto(zxid) => {
            let moved = debugger.goto(zxid);
            push_move(answer, debugger.zxid(), moved)
        }
        Command::Tree => push_seen_tree(answer, debugger),
        Command::Node(path) => push_seen_node(answer, debugger, &path),
        Command::Last => push_seen_result(answer, debugger),
        Command::Break(breakpoint) => push_set(answer, debugger.set(breakpoint)),
        Command::Clear(number) => push_done(answer, debugger.clear(number), "ok"),
        Command::Reset => {
            let started = restart(debugger);
            push_move(answer, debugger.zxid(), started)
        }
    }
}

/// Moves to the start.
fn restart(debugger: &mut Debugger) -> Result<Stop, DebugFault>
    ensures started { IfOk result (λ stop. (stop ≡ record { place = 0; hit = None })
        × (debugger.new ≡ record debugger.old { place = 0; failed = false })) }
    ensures refused { IfErr result (λ fault. RefusesReset debugger.old fault debugger.new) }
{
    debugger.reset()?;
    Ok(Stop {
        place: 0,
        hit: None,
    })
}

/// Appends the line of a move that ended, or failed, at the place of this zxid.
fn push_move(
    answer: &mut String,
    zxid: i64,
    moved: Result<Stop, DebugFault>,
) -> Result<(), NoMemory>
    ensures { OnOk result
        (string_bytes answer.new ≡ string_bytes answer.old ++ line (move_text zxid moved)) }
{
    match moved {
        Ok(stop) => push_place(answer, zxid, stop)?,
        Err(fault) => push_fault(answer, fault)?,
    }
    answer.push('\n')?;
    Ok(())
}

/// Appends the debugger's place.
fn push_place(answer: &mut String, zxid: i64, stop: Stop) -> Result<(), NoMemory>
    ensures { OnOk result
        (string_bytes answer.new ≡ string_bytes answer.old ++ place_text stop.place zxid stop.hit) }
{
    write!(answer, "place {} ", stop.place)?;
    push_id(answer, zxid)?;
    match stop.hit {
        None => Ok(()),
        Some(number) => Ok(write!(answer, " hit {number}")?),
    }
}

/// Appends the number of a fault.
fn push_fault(answer: &mut String, fault: DebugFault) -> Result<(), NoMemory>
    ensures { OnOk result
        (string_bytes answer.new ≡ string_bytes answer.old ++ fault_text fault) }
{
    answer.push_str(number_of(fault))?;
    Ok(())
}

fn number_of(fault: DebugFault) -> &'static str
    ensures { result.now ≡ fault_text fault }
{
    match fault {
        DebugFault::AtEnd => "B1",
        DebugFault::AtStart => "B2",
        DebugFault::NoBreakpoint => "B3",
        DebugFault::NoMemory => "B4",
        DebugFault::Failed => "B5",
        DebugFault::Full => "B6",
    }
}

/// Appends the line of a breakpoint's number, or of the fault.
fn push_set(answer: &mut String, set: Result<u32, DebugFault>) -> Result<(), NoMemory>
    ensures { OnOk result
        (string_bytes answer.new ≡ string_bytes answer.old ++ line (set_text set)) }
{
    match set {
        Ok(number) => write!(answer, "break {number}")?,
        Err(fault) => push_fault(answer, fault)?,
    }
    answer.push('\n')?;
    Ok(())
}

/// Appends the line of a command that succeeded, or of its fault.
fn push_done(answer: &mut String, done: Result<(), DebugFault>, text: &str) -> Result<(), NoMemory>
    ensures { OnOk result
        (string_bytes answer.new ≡ string_bytes answer.old ++ line (done_text text.now done)) }
{
    match done {
        Ok(()) => answer.push_str(text)?,
        Err(fault) => push_fault(answer, fault)?,
    }
    answer.push('\n')?;
    Ok(())
}

/// Appends the report of the tree at the place.
fn push_seen_tree(answer: &mut String, debugger: &Debugger) -> Result<(), NoMemory>
    ensures { OnOk result (string_bytes answer.new ≡ string_bytes answer.old
        ++ seen_by debugger.now (tree_report (state_at debugger.now.base debugger.now.txns debugger.now.place))) }
{
    match debugger.tree() {
        Ok(machine) => spell_tree(answer, machine),
        Err(fault) => push_done(answer, Err(fault), ""),
    }
}

/// Appends the line of a node at the place, or `none`.
fn push_seen_node(answer: &mut String, debugger: &Debugger, path: &Path) -> Result<(), NoMemory>
    ensures { OnOk result (string_bytes answer.new ≡ string_bytes answer.old
        ++ seen_by debugger.now (line (node_text (state_at debugger.now.base debugger.now.txns debugger.now.place).nodes path.now))) }
{
    match debugger.tree() {
        Ok(machine) => push_node_at(answer, machine, path)?,
        Err(fault) => push_fault(answer, fault)?,
    }
    answer.push('\n')?;
    Ok(())
}

/// Appends the line of the node at a path, without the newline; `none` without a node.
fn push_node_at(text: &mut String, machine: &Machine, path: &Path) -> Result<(), NoMemory>
    requires { machine.now.failed ≡ false }
    ensures { OnOk result (string_bytes text.new ≡ string_bytes text.old ++ node_text machine.now.state.nodes path.now) }
{
    let Ok(tree) = machine.tree() else {
        unreachable!()
    };
    match tree.get(path) {
        Some(node) => push_node_line(text, path, node, &node.stat(tree.child_count(path))),
        None => Ok(text.push_str("none")?),
    }
}

/// Appends the line of the result of the transaction just before the place, or `none`.
fn push_seen_result(answer: &mut String, debugger: &Debugger) -> Result<(), NoMemory>
    ensures { OnOk result (string_bytes answer.new ≡ string_bytes answer.old
        ++ seen_by debugger.now (line (result_text (result_at debugger.now.base debugger.now.txns debugger.now.place)))) }
{
    match debugger.last_result() {
        Ok(Some(last)) => push_result_line(answer, last)?,
        Ok(None) => answer.push_str("none")?,
        Err(fault) => push_fault(answer, fault)?,
    }
    answer.push('\n')?;
    Ok(())
}
