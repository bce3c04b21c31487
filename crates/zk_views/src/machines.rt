//! The machine of a list of transactions, for reads that do not search all nodes.
ghost use Rattle.std.specs.Prelude.{◌≡◌, ◌<◌, ◌++◌, ◌∷◌, [], false, IfOk, IfSome, OnOk};
ghost use Rattle.zk_table.specs.Histories.{tree_of};
ghost use Rattle.zk_table.specs.Reads.{reply_to};
ghost use Rattle.zk_table.specs.Steps.{step};
ghost use Rattle.zk_views.specs.Machines.{IsMachineOf};

use std::alloc::Global;
use zk_acl::Id;
use zk_machine::Machine;
use zk_path::NoMemory;
use zk_table::{ReadCall, ReadReply, Txn};

/// Builds the machine of a list from the start.
pub(crate) fn machine_of(alloc: Global, txns: &[Txn]) -> Result<Machine, NoMemory>
    ensures { IfOk result (IsMachineOf txns.now) }
{
    let mut machine = Machine::new(alloc)?;
    for txn in txns {
        advance(&mut machine, txn)?;
    }
    Ok(machine)
}

/// Returns the machine of a list with one more transaction, from the list's own or, without one,
/// from the start.
pub(crate) fn machine_after(
    alloc: Global,
    machine: Option<Machine>,
    txns: &[Txn],
    txn: &Txn,
) -> Result<Machine, NoMemory>
    requires { IfSome machine (IsMachineOf txns.now) }
    ensures { IfOk result (IsMachineOf (txns.now ++ txn.now ∷ [])) }
{
    let mut machine = machine_or_anew(alloc, machine, txns)?;
    advance(&mut machine, txn)?;
    Ok(machine)
}

/// Returns the machine of a list, built from the start if there is none.
fn machine_or_anew(
    alloc: Global,
    machine: Option<Machine>,
    txns: &[Txn],
) -> Result<Machine, NoMemory>
    requires { IfSome machine (IsMachineOf txns.now) }
    ensures { IfOk result (IsMachineOf txns.now) }
{
    match machine {
        Some(machine) => Ok(machine),
        None => machine_of(alloc, txns),
    }
}

/// Applies a transaction without undo. After [`NoMemory`] the machine may have failed for good.
fn advance(machine: &mut Machine, txn: &Txn) -> Result<(), NoMemory>
    requires { machine.old.failed ≡ false }
    ensures state { OnOk result (machine.new.state ≡ (step machine.old.state txn.now).0) }
    ensures runs { OnOk result (machine.new.failed ≡ false) }
{
    machine.make_countable()?;
    let Ok(_answered) = machine.advance(txn) else {
        return Err(NoMemory);
    };
    Ok(())
}

/// Returns the last zxid of a machine that has not failed; 0 before the first.
pub(crate) fn last_of(machine: &Machine) -> i64
    requires { machine.now.failed ≡ false }
    ensures { result ≡ machine.now.state.last }
{
    let Ok(last) = machine.last() else {
        unreachable!()
    };
    last
}

/// Returns a machine's reply to a caller who has proved these identities.
pub(crate) fn read_from(
    machine: &Machine,
    call: &ReadCall,
    auths: &[Id],
) -> Result<ReadReply, NoMemory>
    ensures { IfOk result (λ reply. reply ≡ reply_to machine.now.state call.now auths.now) }
{
    machine.read(call, auths).map_err(|_| NoMemory)
}
