//! Two states of a directory.
ghost use Rattle.std.specs.Prelude.{◌≡◌, IfOk, false};
ghost use Rattle.std.specs.String.{string_bytes};
ghost use Rattle.zk_tree_changes.specs.DifferenceReports.{FindsCompared, FindsMoment, notices_of_both, track_between};

use crate::LastChanges;
use crate::logged::follow_logged;
use std::alloc::Global;
use zk_directory_state::{Folder, HistoryFault, Upto, notices_text, shown_of};
use zk_machine::Machine;
use zk_path::NoMemory;
use zk_tree::Tree;

/// The states of a directory up to two transactions.
#[derive(Drop)]
pub struct Compared {
    pub old: Machine,
    pub new: Machine,
    /// The last transactions between them.
    pub changes: LastChanges,
    /// The notices on both states.
    pub notices: String,
}

/// The state of a directory up to a transaction, and the notices on it.
#[derive(Drop)]
struct Moment {
    machine: Machine,
    notices: String,
}

/// The state of a directory up to a transaction.
#[tactic(auto, using(crate::proofs::FoundDifferences::moment_found))]
fn moment_of<S: Folder, L: Folder>(
    alloc: Global,
    snapshots: &S,
    logs: &L,
    upto: Upto,
) -> Result<Moment, HistoryFault>
    ensures { FindsMoment (S.names_in snapshots.now) (S.bytes_in snapshots.now) (L.names_in logs.now) (L.bytes_in logs.now) upto result }
{
    let shown = shown_of(alloc, snapshots, logs, upto)?;
    let notices = notices_text(alloc, upto, &shown.restored)?;
    let machine = shown.restored.table.machine()?;
    Ok(Moment { machine, notices })
}

/// The notices on two states, once if they are the same.
fn notices_of_both(old: String, new: String) -> Result<String, NoMemory>
    ensures { IfOk result (λ notices. string_bytes notices ≡ notices_of_both (string_bytes old) (string_bytes new)) }
{
    let mut notices = old;
    if notices.as_bytes() != new.as_bytes() {
        notices.push_str(new.as_str())?;
    }
    Ok(notices)
}

/// No record yet, from the earlier of two states to the later.
fn changes_between(alloc: Global, old: &Machine, new: &Machine) -> Result<LastChanges, NoMemory>
    requires old { old.now.failed ≡ false }
    requires new { new.now.failed ≡ false }
    ensures { IfOk result (λ changes. changes ≡ track_between old.now.state new.now.state) }
{
    let Ok(first) = old.last() else {
        unreachable!()
    };
    let Ok(last) = new.last() else { unreachable!() };
    if first <= last {
        LastChanges::new(alloc, tree_of(old), first, last)
    } else {
        LastChanges::new(alloc, tree_of(new), last, first)
    }
}

/// The tree of a machine that has not failed.
pub fn tree_of(machine: &Machine) -> &Tree
    requires { machine.now.failed ≡ false }
    ensures { result.now ≡ machine.now.state.nodes }
{
    let Ok(tree) = machine.tree() else {
        unreachable!()
    };
    tree
}

/// The states that a data directory holds up to two transactions, and the last transactions between
/// the two that changed nodes: those of `zk show`, of the first folder's snapshots and the second
/// folder's logs.
#[tactic(auto, using(crate::proofs::FoundDifferences::compared, crate::proofs::FoundDifferences::no_old, crate::proofs::FoundDifferences::no_new))]
pub fn compare<S: Folder, L: Folder>(
    alloc: Global,
    snapshots: &S,
    logs: &L,
    from: Upto,
    to: Upto,
) -> Result<Compared, HistoryFault>
    ensures { FindsCompared (S.names_in snapshots.now) (S.bytes_in snapshots.now) (L.names_in logs.now) (L.bytes_in logs.now) from to result }
{
    let old = moment_of(alloc, snapshots, logs, from)?;
    let new = moment_of(alloc, snapshots, logs, to)?;
    let mut changes = changes_between(alloc, &old.machine, &new.machine)?;
    follow_logged(alloc, logs, &mut changes)?;
    let notices = notices_of_both(old.notices, new.notices)?;
    Ok(Compared {
        old: old.machine,
        new: new.machine,
        changes,
        notices,
    })
}
