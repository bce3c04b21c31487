//! Tests of `zk_machine`: its results and state are those of the plain table; and its steps,
//! copies, changes and faults.

ghost use Rattle.std.specs.Prelude.{◌≡◌, ◌≢◌, ◌+◌, false, Some, IfOk, IfSome, IsTrue, OnOk};
ghost use Rattle.zk_machine.specs.Undoing.{IsState, restored};

use crate::read_tests::tell_all;
use std::alloc::Global;
use zk_acl::Stat;
use zk_listing::assemble;
use zk_machine::{Applied, Change, Machine, MachineFault, Sessions, Undo, UndoFault};
use zk_path::Path;
use zk_table::{Node, Plain, Txn, TxnResult};
use zk_tree::{Entry, Tree};

// Applied transactions are written as a listing. The machine's results and states are written into
// one text, and the expected ones into another; they are compared at the end. A function that
// appends returns whether its allocation succeeded.

/// A plain table, the text of the machine's results and states, the expected text, and the changes.
#[derive(Drop)]
pub(crate) struct Held {
    pub(crate) plain: Plain,
    pub(crate) machine: String,
    pub(crate) other: String,
    changes: String,
}

/// Appends a node, with its stat.
fn push_node(text: &mut String, path: &Path, node: &Node, stat: Stat) -> bool {
    write!(text, "{path:?} {node:?} {stat:?}\n").is_ok()
}

/// Appends these nodes.
fn push_entries(text: &mut String, entries: &[Entry<'_>]) -> bool {
    for entry in entries {
        let stat = entry.node.stat(entry.child_count);
        if !push_node(text, entry.path, entry.node, stat) {
            return false;
        }
    }
    true
}

/// Appends the nodes of a tree.
fn push_tree(text: &mut String, tree: &Tree) -> bool {
    match tree.entries() {
        Ok(entries) => push_entries(text, &entries),
        Err(_) => false,
    }
}

/// Appends the nodes, the sessions and the last transaction of a machine.
fn push_machine(text: &mut String, machine: &Machine) -> bool {
    match (machine.tree(), machine.sessions(), machine.last()) {
        (Ok(tree), Ok(sessions), Ok(last)) => {
            push_tree(text, tree) && write!(text, "{sessions:?} {last}\n").is_ok()
        }
        _ => false,
    }
}

/// Appends the nodes, the sessions and the last transaction of the plain table.
fn push_plain(text: &mut String, plain: &Plain) -> bool {
    for (path, node) in plain.nodes() {
        if !push_node(text, path, node, plain.stat(path, node)) {
            return false;
        }
    }
    write!(text, "{:?} {}\n", plain.sessions(), plain.last()).is_ok()
}

/// Applies a transaction; the tests have few.
fn applied(machine: &mut Machine, txn: &Txn) -> Result<Applied, MachineFault>
    ensures undone { IfOk result (λ applied. restored applied.undo machine.new.state ≡ machine.old.state) }
    ensures last_step { IfOk result (λ applied. applied.undo.step ≡ machine.new.steps) }
    ensures stands { OnOk result (IsState machine.old.state.nodes) }
    ensures counted { OnOk result (machine.new.steps ≡ machine.old.steps + 1) }
    ensures ran { OnOk result (machine.new.failed ≡ false) }
{
    if machine.steps()? == u64::MAX {
        return Err(MachineFault::Failed);
    }
    machine.apply(txn)
}

/// Applies a transaction, and returns its undo record.
fn record_of(machine: &mut Machine, txn: &Txn) -> Result<Undo, MachineFault>
    ensures undone { IfOk result (λ undo. restored undo machine.new.state ≡ machine.old.state) }
    ensures last_step { IfOk result (λ undo. undo.step ≡ machine.new.steps) }
    ensures stands { OnOk result (IsState machine.old.state.nodes) }
    ensures counted { OnOk result (machine.new.steps ≡ machine.old.steps + 1) }
    ensures ran { OnOk result (machine.new.failed ≡ false) }
{
    let mut stored = applied(machine, txn)?;
    stored.shrink();
    Ok(stored.undo)
}

/// Undoes a transaction, and returns whether it was undone.
fn is_taken_back(machine: &mut Machine, undo: Undo) -> bool
    requires { IsState (restored undo machine.old.state).nodes }
    ensures { IsTrue result → machine.new.state ≡ restored undo machine.old.state }
{
    machine.undo(undo).is_ok()
}

/// Applies a transaction and undoes it.
fn goes_and_comes(machine: &mut Machine, txn: &Txn) -> bool {
    match record_of(machine, txn) {
        Ok(undo) => is_taken_back(machine, undo),
        Err(_) => false,
    }
}

/// Applies a transaction for good, and returns its result; the tests have few.
fn advanced(machine: &mut Machine, txn: &Txn) -> Result<TxnResult, MachineFault> {
    if machine.steps()? == u64::MAX {
        return Err(MachineFault::Failed);
    }
    machine.advance(txn)
}

/// What is checked of a new machine and the transactions of a listing.
#[derive(Clone, Copy)]
enum Asked {
    /// The results, states and reads are those of the plain table, if each transaction is undone
    /// and applied again; and the changes are these.
    Agreeing(&'static str),
    /// Of two creates the last one is undone first.
    LastFirst,
    /// Copies change independently.
    Copies,
    /// A machine in the state of another has its tree, sessions and last zxid, and no steps.
    Given,
}

/// Does the check with a listing.
fn holds(alloc: Global, listing: &str, asked: Asked) -> bool {
    match assemble(alloc, listing) {
        Ok(txns) => holds_of(alloc, &txns, asked),
        Err(_) => false,
    }
}

/// Does the check with a new machine.
fn holds_of(alloc: Global, txns: &[Txn], asked: Asked) -> bool {
    match Machine::new(alloc) {
        Ok(mut machine) => holds_by(alloc, &mut machine, txns, asked),
        Err(_) => false,
    }
}

/// Does the check with a new plain table too, and compares the two texts.
fn holds_by(alloc: Global, machine: &mut Machine, txns: &[Txn], asked: Asked) -> bool {
    let Ok(plain) = Plain::new(alloc) else {
        return false;
    };
    let mut held = Held {
        plain,
        machine: String::new(alloc),
        other: String::new(alloc),
        changes: String::new(alloc),
    };
    is_so(alloc, &mut held, machine, txns, asked) && held.machine == held.other
}

fn is_so(
    alloc: Global,
    held: &mut Held,
    machine: &mut Machine,
    txns: &[Txn],
    asked: Asked,
) -> bool {
    match asked {
        Asked::Agreeing(changes) => agree(held, machine, txns) && held.changes.as_str() == changes,
        Asked::LastFirst => last_comes_back_first(held, machine, txns),
        Asked::Copies => copies_go(held, machine, txns),
        Asked::Given => is_given(alloc, held, machine, txns),
    }
}

/// Writes both results of each transaction; and every few steps both states and the replies to
/// reads.
fn agree(held: &mut Held, machine: &mut Machine, txns: &[Txn]) -> bool {
    for txn in txns {
        if !(goes_and_comes(machine, txn) && stays(held, machine, txn) && answers(held, txn)) {
            return false;
        }
    }
    machine.steps() == Ok(txns.len() as u64)
        && push_machine(&mut held.machine, machine)
        && push_plain(&mut held.other, &held.plain)
        && tell_all(held, machine)
}

/// Writes the machine's result and changes.
fn stays(held: &mut Held, machine: &mut Machine, txn: &Txn) -> bool {
    match applied(machine, txn) {
        Ok(applied) => {
            write!(held.machine, "{:?}\n", applied.result).is_ok()
                && push_changes(&mut held.changes, txn.zxid, &applied.changes)
        }
        Err(_) => false,
    }
}

/// Writes the plain table's result.
fn answers(held: &mut Held, txn: &Txn) -> bool {
    match held.plain.apply(txn) {
        Ok(answer) => write!(held.other, "{answer:?}\n").is_ok(),
        Err(_) => false,
    }
}

/// Appends a line for a change: the transaction, the kind of the change and its number, and the
/// path.
fn push_change(text: &mut String, zxid: i64, change: &Change) -> bool {
    let number = change.kind as u8;
    let path = change.path.text();
    write!(text, "{zxid} {:?} {number} {path}\n", change.kind).is_ok()
}

/// Appends a line for each change.
fn push_changes(text: &mut String, zxid: i64, changes: &[Change]) -> bool {
    for change in changes {
        if !push_change(text, zxid, change) {
            return false;
        }
    }
    true
}

/// Transactions of each kind: creates and deletes, sessions opened twice and closed, a session
/// without nodes, and one that isn't open. Also a create that wraps its parent's count, one of 3.3,
/// and one with an empty list, which everyone may read.
const HISTORY: &str = "0000000000000001 0000000000000007 0 1000 createSession 4000\n\
    0000000000000002 0000000000000007 0 1000 create \"/a\" x6869 1 31 \"world\" \"anyone\" p 2147483647\n\
    0000000000000003 0000000000000007 0 1000 create \"/a/e\" x6869 1 31 \"world\" \"anyone\" e -1\n\
    0000000000000004 0000000000000007 0 1000 create \"/w\" x6869 1 31 \"world\" \"anyone\" p -1\n\
    0000000000000005 0000000000000007 0 1000 create \"/w\" x6869 1 31 \"world\" \"anyone\" p -1\n\
    0000000000000006 0000000000000007 0 1000 create \"/a/e/x\" x6869 1 31 \"world\" \"anyone\" p -1\n\
    0000000000000007 0000000000000007 0 1000 setData \"/a/e\" x686f 1\n\
    0000000000000008 0000000000000007 0 1000 setACL \"/a\" 1 31 \"world\" \"anyone\" 1\n\
    0000000000000009 0000000000000007 0 1000 multi ; create \"/t\" x6869 1 31 \"world\" \"anyone\" p -1 ; delete \"/t\"\n\
    000000000000000a 0000000000000007 0 1000 createSession 5000\n\
    000000000000000b 0000000000000008 0 1000 createSession 6000\n\
    000000000000000c 0000000000000008 0 1000 closeSession\n\
    000000000000000d 0000000000000009 0 1000 closeSession\n\
    000000000000000e 0000000000000007 0 1000 delete \"/a\"\n\
    000000000000000f 0000000000000007 0 1000 delete \"/w\"\n\
    0000000000000010 0000000000000007 0 1000 error -110\n\
    0000000000000011 0000000000000007 0 1000 closeSession\n\
    0000000000000012 0000000000000008 0 1000 create0 \"/o\" x6869 1 31 \"world\" \"anyone\" p\n\
    0000000000000013 0000000000000008 0 1000 create \"/b\" x 0 p -1\n";

/// The changes of the history, with the numbers of the server's events. The opening of a session
/// changes nothing, a multi changes part by part, and the end of a session changes its node and
/// that node's parent.
const CHANGES: &str = "2 ChildrenChanged 4 /\n\
    2 Created 1 /a\n\
    3 ChildrenChanged 4 /a\n\
    3 Created 1 /a/e\n\
    4 ChildrenChanged 4 /\n\
    4 Created 1 /w\n\
    7 DataChanged 3 /a/e\n\
    9 ChildrenChanged 4 /\n\
    9 Created 1 /t\n\
    9 Deleted 2 /t\n\
    15 ChildrenChanged 4 /\n\
    15 Deleted 2 /w\n\
    17 ChildrenChanged 4 /a\n\
    17 Deleted 2 /a/e\n\
    18 ChildrenChanged 4 /\n\
    18 Created 1 /o\n\
    19 ChildrenChanged 4 /\n\
    19 Created 1 /b\n";

#[test]
fn machine_and_plain_table_agree(rt: HostRuntime) {
    assert!(rt; holds(rt.alloc(), HISTORY, Asked::Agreeing(CHANGES)));
}

/// Returns the undo record if it is another step's.
fn refused(machine: &mut Machine, undo: Undo) -> Option<Undo>
    requires running { machine.old.failed ≡ false }
    requires earlier { undo.step ≢ machine.old.steps }
    ensures unchanged { machine.new ≡ machine.old }
    ensures back { IfSome result (λ back. back ≡ undo) }
{
    match machine.undo(undo) {
        Err(
            UndoFault {
                fault: MachineFault::NotLast,
                undo,
            },
        ) => undo,
        _ => None,
    }
}

/// Whether the undo record of the first of two transactions is rejected until the second is undone.
fn come_back_in_order(machine: &mut Machine, first: &Txn, second: &Txn) -> bool {
    let Ok(earlier) = record_of(machine, first) else {
        return false;
    };
    let Ok(later) = record_of(machine, second) else {
        return false;
    };
    let Some(earlier) = refused(machine, earlier) else {
        return false;
    };
    is_taken_back(machine, later) && is_taken_back(machine, earlier)
}

/// Writes the machine's state before and after that.
fn last_comes_back_first(held: &mut Held, machine: &mut Machine, txns: &[Txn]) -> bool {
    let [_, first, second, ..] = txns else {
        return false;
    };
    push_machine(&mut held.machine, machine)
        && come_back_in_order(machine, first, second)
        && machine.steps() == Ok(0)
        && push_machine(&mut held.other, machine)
}

#[test]
fn the_last_step_is_taken_back_first(rt: HostRuntime) {
    assert!(rt; holds(rt.alloc(), HISTORY, Asked::LastFirst));
}

/// Copies a machine that has not failed.
fn copy_of(machine: &Machine) -> Result<Machine, MachineFault> {
    machine.steps()?;
    Ok(machine.copy()?)
}

/// Whether a copy has no steps, and changes independently. Writes the machine's state, and as
/// expected the copy's; after the copy has changed, the machine's again.
fn a_copy_goes(held: &mut Held, machine: &Machine, next: &Txn) -> bool {
    let Ok(mut copy) = copy_of(machine) else {
        return false;
    };
    copy.steps() == Ok(0)
        && push_machine(&mut held.machine, machine)
        && push_machine(&mut held.machine, machine)
        && push_machine(&mut held.other, &copy)
        && advanced(&mut copy, next).is_ok()
        && copy.last() == Ok(next.zxid)
        && push_machine(&mut held.other, machine)
}

/// Does the same before and after the first transaction, which is a step and opens session 7.
fn copies_go(held: &mut Held, machine: &mut Machine, txns: &[Txn]) -> bool {
    let [first, second, ..] = txns else {
        return false;
    };
    a_copy_goes(held, machine, first)
        && advanced(machine, first).is_ok()
        && machine.steps() == Ok(1)
        && machine.session(7) == Ok(Some(4000))
        && machine.last() == Ok(1)
        && !machine.has_failed()
        && a_copy_goes(held, machine, second)
}

#[test]
fn a_copy_has_the_open_sessions(rt: HostRuntime) {
    assert!(rt; holds(rt.alloc(), HISTORY, Asked::Copies));
}

/// A machine in another's state.
fn given(alloc: Global, machine: &Machine) -> Result<Machine, MachineFault> {
    let tree = machine.tree()?.copy()?;
    let mut sessions = Sessions::new(alloc);
    for (session, timeout) in machine.sessions()? {
        sessions.open(*session, *timeout)?;
    }
    Ok(Machine::from_state(alloc, tree, sessions, machine.last()?))
}

/// Writes the state of a machine after the first transactions, and as expected that of a machine in
/// its state.
fn is_given(alloc: Global, held: &mut Held, machine: &mut Machine, txns: &[Txn]) -> bool {
    let [first, second, ..] = txns else {
        return false;
    };
    if advanced(machine, first).is_err() || advanced(machine, second).is_err() {
        return false;
    }
    let Ok(other) = given(alloc, machine) else {
        return false;
    };
    other.steps() == Ok(0)
        && push_machine(&mut held.machine, machine)
        && push_machine(&mut held.other, &other)
}

#[test]
fn a_machine_has_a_given_state(rt: HostRuntime) {
    assert!(rt; holds(rt.alloc(), HISTORY, Asked::Given));
}

/// Each fault, and its number.
static FAULTS: [(MachineFault, &str); 3] = [
    (MachineFault::NoMemory, "M1"),
    (MachineFault::Failed, "M2"),
    (MachineFault::NotLast, "M3"),
];

/// Whether a fault is displayed as `shown`.
fn is_shown_as(alloc: Global, fault: MachineFault, shown: &str) -> bool {
    matches!(format!(in alloc; "{fault}"), Ok(text) if text.as_str() == shown)
}

#[test]
fn faults_are_shown_by_their_numbers(rt: HostRuntime) {
    for (fault, shown) in &FAULTS {
        assert!(rt; is_shown_as(rt.alloc(), *fault, shown), "{shown}");
    }
}
