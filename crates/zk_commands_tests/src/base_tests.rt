//! Tests of a debugger over transactions that continue a state.
ghost use Rattle.std.specs.Prelude.{◌≡◌, false, IfOk, IfSome};

use std::alloc::Global;
use zk_commands::run_repl_with;
use zk_debug::{DebugFault, Debugger, Stop};
use zk_listing::assemble;
use zk_log::{DripIn, DripOut, Sink, Source, Txns};
use zk_log_commands::debug_from;
use zk_machine::{Machine, MachineFault};
use zk_path::Path;
use zk_table::Txn;

/// What led to the state.
const BEFORE: &str = "0000000000000001 0000000000000007 0 1000 createSession 4000\n\
    0000000000000002 0000000000000007 0 1000 create \"/a\" x 1 31 \"world\" \"anyone\" p -1\n";

/// What comes after it.
const AFTER: &str =
    "0000000000000003 0000000000000007 0 1000 create \"/a/b\" x 1 31 \"world\" \"anyone\" p -1\n\
    0000000000000004 0000000000000007 0 1000 delete \"/a\"\n";

/// Applies transactions to a new machine.
fn advanced(alloc: Global, txns: &[Txn]) -> Result<Machine, MachineFault>
    ensures { IfOk result (λ machine. machine.failed ≡ false) }
{
    let mut machine = Machine::new(alloc)?;
    for txn in txns {
        if machine.has_failed() {
            return Err(MachineFault::NoMemory);
        }
        machine.make_countable()?;
        machine.advance(txn)?;
    }
    machine.tree()?;
    Ok(machine)
}

fn base(alloc: Global) -> Option<Machine>
    ensures { IfSome result (λ machine. machine.failed ≡ false) }
{
    match assemble(alloc, BEFORE) {
        Ok(txns) => advanced(alloc, &txns).ok(),
        Err(_) => None,
    }
}

fn debugger(alloc: Global) -> Option<Debugger> {
    let base = base(alloc)?;
    let txns = assemble(alloc, AFTER).ok()?;
    Debugger::from_base(alloc, base, Txns::from_vec(txns)).ok()
}

/// Whether the tree at the place has a node.
fn has(alloc: Global, debugger: &Debugger, path: &str) -> bool {
    match Path::read(alloc, path) {
        Ok(path) => matches!(debugger.node(&path), Ok(Some(_))),
        Err(_) => false,
    }
}

/// Whether the debugger is at its base: it shows that state, and does not move back.
fn is_at_base(alloc: Global, debugger: &mut Debugger) -> bool {
    debugger.place() == 0
        && debugger.zxid() == 2
        && has(alloc, debugger, "/a")
        && !has(alloc, debugger, "/a/b")
        && debugger.back() == Err(DebugFault::AtStart)
}

/// Whether it goes to a place where the node is there.
fn goes_on(alloc: Global, debugger: &mut Debugger) -> bool {
    debugger.goto(4)
        == Ok(Stop {
            place: 2,
            hit: None,
        })
        && debugger.zxid() == 4
        && has(alloc, debugger, "/a/b")
        && debugger.base().last() == Ok(2)
}

/// Whether it is at the base, goes on, and comes back to it.
fn comes_back(alloc: Global, debugger: &mut Debugger) -> bool {
    is_at_base(alloc, debugger)
        && goes_on(alloc, debugger)
        && debugger.goto(1)
            == Ok(Stop {
                place: 0,
                hit: None,
            })
        && is_at_base(alloc, debugger)
        && debugger.reset() == Ok(())
        && is_at_base(alloc, debugger)
}

fn holds(alloc: Global) -> bool {
    match debugger(alloc) {
        Some(mut debugger) => comes_back(alloc, &mut debugger),
        None => false,
    }
}

#[test]
fn a_debugger_goes_back_to_its_base(rt: HostRuntime) {
    assert!(rt; holds(rt.alloc()));
}

/// A script, and its output from that base.
const SCRIPT: &[u8] = b"back\nstep\nback\nreset\n";

const ANSWERS: &[u8] = b"B2\nplace 1 0000000000000003\n\
      place 0 0000000000000002\nplace 0 0000000000000002\n";

/// Whether the script has that output.
fn answers_script(alloc: Global, base: Machine) -> bool
    requires { base.failed ≡ false }
{
    let Ok(txns) = assemble(alloc, AFTER) else {
        return false;
    };
    let mut output = Sink::new(DripOut::new(alloc, 64, None));
    let mut faults = Sink::new(DripOut::new(alloc, 64, None));
    let status = debug_from(
        alloc,
        base,
        Txns::from_vec(txns),
        &mut Source::new(DripIn::new(SCRIPT, 5, None)),
        &mut output,
        &mut faults,
    );
    status == Ok(0) && output.into_inner().bytes() == ANSWERS
}

fn script_holds(alloc: Global) -> bool {
    match base(alloc) {
        Some(base) => answers_script(alloc, base),
        None => false,
    }
}

#[test]
fn a_script_starts_at_a_base(rt: HostRuntime) {
    assert!(rt; script_holds(rt.alloc()));
}

/// Whether a session shows the base in its prompts.
fn talks(alloc: Global, debugger: Debugger) -> bool {
    let mut output = Sink::new(DripOut::new(alloc, 64, None));
    let mut faults = Sink::new(DripOut::new(alloc, 64, None));
    let status = run_repl_with(
        alloc,
        true,
        debugger,
        &mut Source::new(DripIn::new(b"back\n", 5, None)),
        &mut output,
        &mut faults,
    );
    let expected = b"zk 0 0000000000000002> no earlier place (B2)\nzk 0 0000000000000002> ";
    status == Ok(0) && output.into_inner().bytes() == expected.as_slice()
}

fn session_holds(alloc: Global) -> bool {
    match debugger(alloc) {
        Some(debugger) => talks(alloc, debugger),
        None => false,
    }
}

#[test]
fn a_session_starts_at_a_base(rt: HostRuntime) {
    assert!(rt; session_holds(rt.alloc()));
}
