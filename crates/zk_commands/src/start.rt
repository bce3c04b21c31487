//! Where a debugger of a directory starts: at the state from which on a snapshot is exact.
ghost use Rattle.std.specs.Prelude.{◌≡◌, false, None, IfOk};
ghost use Rattle.zk_commands.specs.Starts.{Directory, FindsShown, FindsStart, FromEarlier, StartsWith, before, exact_of};

use crate::later::later_in;
use std::alloc::Global;
use zk_directory_state::{Folder, HistoryFault, Origin, Shown, Upto, logs_in, shown_of};
use zk_log::Txns;
use zk_machine::Machine;

/// The state that a debugger starts at, and the transactions after it.
#[derive(Drop)]
pub struct Start {
    pub base: Machine,
    pub txns: Txns,
}

/// From which zxid on the snapshot of a state is exact; 0 for the empty tree.
fn exact_of(origin: Option<Origin>) -> i64
    ensures { result ≡ exact_of origin }
{
    match origin {
        Some(origin) => origin.exact.zxid,
        None => 0,
    }
}

/// The zxid before this one.
fn before(zxid: i64) -> i64
    ensures { result ≡ before zxid }
{
    if zxid > 0 { zxid - 1 } else { 0 }
}

/// The state that a debugger starts at if the last state is `last`, and a snapshot may serve an
/// earlier one.
fn shown_before<S: Folder, L: Folder>(
    alloc: Global,
    snapshots: &S,
    logs: &L,
    last: Shown,
    earlier: Result<Shown, HistoryFault>,
) -> Result<Shown, HistoryFault>
    ensures { FromEarlier (record { snapshots = S.names_in snapshots.now; snapshot_bytes = S.bytes_in snapshots.now; logs = L.names_in logs.now; log_bytes = L.bytes_in logs.now }) last earlier result }
{
    match earlier {
        Ok(earlier) => {
            let zxid = exact_of(earlier.origin);
            shown_of(alloc, snapshots, logs, Upto::Zxid { zxid })
        }
        Err(HistoryFault::NoMemory) => Err(HistoryFault::NoMemory),
        Err(_) => Ok(last),
    }
}

/// The state from which on the latest snapshot is exact that has transactions after it.
#[tactic(auto, using(crate::proofs::Started::no_last))]
fn shown_last<S: Folder, L: Folder>(
    alloc: Global,
    snapshots: &S,
    logs: &L,
) -> Result<Shown, HistoryFault>
    ensures { FindsShown (record { snapshots = S.names_in snapshots.now; snapshot_bytes = S.bytes_in snapshots.now; logs = L.names_in logs.now; log_bytes = L.bytes_in logs.now }) None result }
{
    let last = match shown_of(alloc, snapshots, logs, Upto::Last) {
        Ok(last) => last,
        Err(fault) => return Err(fault),
    };
    let zxid = before(last.restored.table.last());
    let earlier = shown_of(alloc, snapshots, logs, Upto::Zxid { zxid });
    shown_before(alloc, snapshots, logs, last, earlier)
}

/// The state after the transaction that `from` names; or else that from which on the latest snapshot is exact that has
/// transactions after it.
fn shown_at<S: Folder, L: Folder>(
    alloc: Global,
    snapshots: &S,
    logs: &L,
    from: Option<Upto>,
) -> Result<Shown, HistoryFault>
    ensures { FindsShown (record { snapshots = S.names_in snapshots.now; snapshot_bytes = S.bytes_in snapshots.now; logs = L.names_in logs.now; log_bytes = L.bytes_in logs.now }) from result }
{
    match from {
        Some(upto) => shown_of(alloc, snapshots, logs, upto),
        None => shown_last(alloc, snapshots, logs),
    }
}

/// The state and the transactions of a folder's logs after it.
#[tactic(auto, using(crate::proofs::Started::starts_with, crate::proofs::Started::breaks_with))]
fn start_with<L: Folder>(alloc: Global, logs: &L, shown: Shown) -> Result<Start, HistoryFault>
    ensures runs { IfOk result (λ start. start.base.failed ≡ false) }
    ensures start { StartsWith (L.names_in logs.now) (L.bytes_in logs.now) shown result }
{
    let logged = match logs_in(alloc, logs) {
        Ok(logged) => logged,
        Err(fault) => return Err(fault),
    };
    let later = match later_in(alloc, logs, logged.as_slice(), shown.restored.position) {
        Ok(later) => later,
        Err(fault) => return Err(fault),
    };
    let base = shown.restored.table.machine()?;
    Ok(Start {
        base,
        txns: Txns::from_vec(later),
    })
}

/// Where a debugger starts of the directory that holds the snapshots of one folder and the logs of
/// another: after the transaction that `from` names. If that is `None`, the debugger starts at the zxid
/// from which on the latest snapshot is exact that has transactions after it.
#[tactic(auto, using(crate::proofs::Started::started, crate::proofs::Started::not_shown))]
pub fn start_of<S: Folder, L: Folder>(
    alloc: Global,
    snapshots: &S,
    logs: &L,
    from: Option<Upto>,
) -> Result<Start, HistoryFault>
    ensures runs { IfOk result (λ start. start.base.failed ≡ false) }
    ensures start { FindsStart (record { snapshots = S.names_in snapshots.now; snapshot_bytes = S.bytes_in snapshots.now; logs = L.names_in logs.now; log_bytes = L.bytes_in logs.now }) from result }
{
    match shown_at(alloc, snapshots, logs, from) {
        Ok(shown) => start_with(alloc, logs, shown),
        Err(fault) => Err(fault),
    }
}
