//! A machine, or a leader's state, that fails to allocate while it changes has failed, and says so
//! from then on. A failure to prepare a transaction does not change a leader.

ghost use Rattle.std.specs.Prelude.{◌≡◌, ◌+◌, false, IfOk, OnOk};
ghost use Rattle.zk_machine.specs.Undoing.{IsState, restored};

use crate::seen::Seen;
use std::alloc::Global;
use zk_acl::{Ids, Text};
use zk_listing::assemble;
use zk_machine::{Machine, MachineFault, Undo};
use zk_path::NoMemory;
use zk_prepare::{Call, Prep, Request};
use zk_table::{Op, Txn};
use zk_tree::Tree;

/// A session is opened and makes two nodes, one of them its own. It changes the one, deletes the
/// other, and is closed; and another one is opened. Then come a create that is rejected, a multi
/// whose parts are applied and one that holds errors, the same session opened again, and the close
/// of a session that is not open.
const LISTING: &str = "0000000000000001 0000000000000007 0 1000 createSession 4000\n\
    0000000000000002 0000000000000007 1 1000 create \"/a\" x6869 1 31 \"world\" \"anyone\" p 1\n\
    0000000000000003 0000000000000007 2 2000 create \"/a/own\" x 1 31 \"world\" \"anyone\" e 1\n\
    0000000000000004 0000000000000007 3 3000 setData \"/a\" x6869686968696869 1\n\
    0000000000000005 0000000000000007 4 4000 delete \"/a/own\"\n\
    0000000000000006 0000000000000007 5 5000 closeSession\n\
    0000000000000007 0000000000000008 0 5000 createSession 4000\n\
    0000000000000008 0000000000000008 1 6000 create \"/a\" x 1 31 \"world\" \"anyone\" p 2\n\
    0000000000000009 0000000000000008 2 6000 multi ; create \"/b\" x62 1 31 \"world\" \"anyone\" e 2 \
    ; create \"/c\" - 1 31 \"world\" \"anyone\" p 3 ; setData \"/a\" x61 2 ; check \"/a\" 2 ; delete \"/c\"\n\
    000000000000000a 0000000000000008 3 6000 multi ; create \"/d\" - 1 31 \"world\" \"anyone\" p 4 ; error -103 ; error -2\n\
    000000000000000b 0000000000000008 0 6000 createSession 8000\n\
    000000000000000c 0000000000000009 0 6000 closeSession\n";

pub(crate) fn txns(alloc: Global) -> Result<Vec<Txn>, NoMemory> {
    assemble(alloc, LISTING).map_err(|_| NoMemory)
}

/// If an allocation fails, returns whether the machine then reports that it has failed, and rejects
/// the step again.
fn failed_by(machine: &mut Machine, txn: &Txn) -> Result<Option<bool>, MachineFault> {
    if machine.steps()? == u64::MAX {
        return Err(MachineFault::Failed);
    }
    let Err(fault) = machine.apply(txn) else {
        return Ok(None);
    };
    let again = machine.apply(txn).map(|_| ());
    Ok(Some(
        fault == MachineFault::NoMemory
            && machine.has_failed()
            && again == Err(MachineFault::Failed),
    ))
}

/// Applies each step.
pub(crate) fn apply(alloc: Global) -> Result<Seen, NoMemory> {
    let txns = txns(alloc)?;
    let mut machine = Machine::new(alloc)?;
    Ok(apply_each(&mut machine, &txns))
}

/// Applies each step, up to the first that fails to allocate.
fn apply_each(machine: &mut Machine, txns: &[Txn]) -> Seen {
    for txn in txns {
        match failed_by(machine, txn) {
            Ok(None) => {}
            Ok(Some(holds)) => return Seen::refused(holds),
            Err(_) => return Seen::Differs,
        }
    }
    Seen::Done
}

/// Returns the nodes of a tree with their paths in debug format.
pub(crate) fn nodes(alloc: Global, tree: &Tree) -> Result<String, NoMemory> {
    let entries = tree.entries()?;
    Ok(format!(in alloc; "{:?}", entries.as_slice())?)
}

/// Returns a machine's last transaction, its sessions and its nodes.
fn standing(alloc: Global, machine: &Machine) -> Result<String, NoMemory> {
    let (Ok(last), Ok(sessions), Ok(tree)) = (machine.last(), machine.sessions(), machine.tree())
    else {
        return Err(NoMemory);
    };
    let nodes = nodes(alloc, tree)?;
    Ok(format!(in alloc; "{last} {sessions:?} {nodes}")?)
}

/// Applies a step, and returns its undo record.
fn record_of(machine: &mut Machine, txn: &Txn) -> Result<Undo, MachineFault>
    ensures undone { IfOk result (λ undo. restored undo machine.new.state ≡ machine.old.state) }
    ensures last_step { IfOk result (λ undo. undo.step ≡ machine.new.steps) }
    ensures stands { OnOk result (IsState machine.old.state.nodes) }
    ensures ran { OnOk result (machine.new.failed ≡ false) }
{
    if machine.steps()? == u64::MAX {
        return Err(MachineFault::Failed);
    }
    Ok(machine.apply(txn)?.undo)
}

/// Applies a step and undoes it. If the undo fails to allocate, returns whether the machine has
/// failed, and says so.
fn there_and_back(machine: &mut Machine, txn: &Txn) -> Result<Option<bool>, NoMemory> {
    let Ok(undo) = record_of(machine, txn) else {
        return Err(NoMemory);
    };
    let Err(refused) = machine.undo(undo) else {
        return Ok(None);
    };
    Ok(Some(
        refused.fault == MachineFault::NoMemory
            && machine.has_failed()
            && machine.steps() == Err(MachineFault::Failed),
    ))
}

/// Does the same, checks that a machine without allocation failure has its previous state, and
/// applies the step again.
fn undone(alloc: Global, machine: &mut Machine, txn: &Txn) -> Result<Seen, NoMemory> {
    let before = standing(alloc, machine)?;
    if let Some(holds) = there_and_back(machine, txn)? {
        return Ok(Seen::refused(holds));
    }
    let after = standing(alloc, machine)?;
    match record_of(machine, txn) {
        Ok(_) => Ok(Seen::done(after.as_str() == before.as_str())),
        Err(_) => Err(NoMemory),
    }
}

/// Applies and undoes each step.
fn undo_each(alloc: Global, machine: &mut Machine, txns: &[Txn]) -> Result<Seen, NoMemory> {
    for txn in txns {
        let seen = undone(alloc, machine, txn)?;
        if seen != Seen::Done {
            return Ok(seen);
        }
    }
    Ok(Seen::Done)
}

pub(crate) fn undo(alloc: Global) -> Result<Seen, NoMemory> {
    let txns = txns(alloc)?;
    let mut machine = Machine::new(alloc)?;
    undo_each(alloc, &mut machine, &txns)
}

/// Returns a leader in the state after the listing.
fn leader(alloc: Global, tail: &[Txn]) -> Result<Prep, NoMemory>
    ensures { IfOk result (λ prep. prep.failed ≡ false) }
{
    let machine = Machine::new(alloc)?;
    Prep::start(alloc, &machine, tail)
}

/// Returns a call that deletes a node.
fn call(alloc: Global) -> Result<Call, NoMemory> {
    Ok(Call {
        tag: 1,
        session: 8,
        cxid: 6,
        auths: Ids::new(Vec::new(alloc)),
        now: 6000,
        request: Request::Delete {
            path: Text::read(alloc, "/a")?,
            version: -1,
        },
    })
}

/// Whether a transaction is the expected one of the call.
fn is_made(txn: &Txn) -> bool {
    let Op::Delete { path } = &txn.op else {
        return false;
    };
    (txn.zxid, txn.session, txn.cxid, txn.time) == (16, 8, 6, 6000) && path.text() == "/a"
}

/// Whether a leader prepares the call as expected.
fn makes(prep: &Prep, call: &Call) -> Result<bool, NoMemory>
    requires { prep.now.failed ≡ false }
{
    let txn = prep.make(call, 16)?;
    Ok(is_made(&txn) && !prep.has_failed())
}

/// Prepares a call, and prepares it again if an allocation failed.
fn made(prep: &Prep, call: &Call) -> Result<Seen, NoMemory>
    requires { prep.now.failed ≡ false }
{
    match makes(prep, call) {
        Ok(holds) => Ok(Seen::done(holds)),
        Err(NoMemory) => Ok(Seen::refused(makes(prep, call)?)),
    }
}

pub(crate) fn make(alloc: Global) -> Result<Seen, NoMemory> {
    let call = call(alloc)?;
    let txns = txns(alloc)?;
    let prep = leader(alloc, &txns)?;
    made(&prep, &call)
}

/// A leader that applies each transaction.
pub(crate) fn taken(alloc: Global) -> Result<Seen, NoMemory> {
    let txns = txns(alloc)?;
    let mut prep = leader(alloc, &[])?;
    Ok(take_each(&mut prep, &txns))
}

/// Applies each transaction, up to the first that fails to allocate.
fn take_each(prep: &mut Prep, txns: &[Txn]) -> Seen {
    for txn in txns {
        if prep.has_failed() {
            return Seen::Differs;
        }
        if prep.taken(txn).is_err() {
            return Seen::refused(prep.has_failed());
        }
    }
    Seen::Done
}
