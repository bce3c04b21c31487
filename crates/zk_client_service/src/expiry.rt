//! Sessions that expire, and those of a new leader.

ghost use Rattle.std.specs.Prelude.{◌≡◌, true, OnOk};
ghost use Rattle.zk_client_port.specs.Execution.{RequestsTo};
ghost use Rattle.zk_client_port.specs.Listings.{sessions_in};
ghost use Rattle.zk_client_service.specs.Expiries.{adopting, closing, touching, Closes, ClosesUp, Renews};
ghost use Rattle.zk_peers.specs.Hosts.{setting_for};
ghost use Rattle.zk_peers.specs.Places.{is_up};

use std::alloc::Global;
use zab_epoch::Majority;
use zab_host::Storage;
use zk_client_port::{Admission, ServeFault, tag_after};
use zk_host::ReplicaHost;
use zk_path::NoMemory;
use zk_peers::Place;
use zk_requests::closing_call;

/// The sessions of a host's tree, and their timeouts.
#[tactic(auto, using(zk_client_port::proofs::Lists::no_sessions))]
fn sessions_of<S: Storage>(host: &ReplicaHost<S>) -> &[(u64, i32)]
    ensures { result.now ≡ sessions_in host.now.tree.tree }
{
    let Some(machine) = host.as_machine() else {
        return &[];
    };
    match machine.sessions() {
        Ok(sessions) => sessions,
        Err(_) => unreachable!(),
    }
}

/// Opens the sessions of a host's tree that are not known yet.
pub(crate) fn adopt<S: Storage>(
    host: &ReplicaHost<S>,
    admission: &mut Admission,
    now: i64,
) -> Result<(), NoMemory>
    ensures { OnOk result (admission.new ≡ adopting now host.now admission.old) }
{
    admission.adopt(sessions_of(host), now)
}

/// Gives each session of a host's tree its whole timeout again. If memory runs out, some are not
/// known yet: they are opened at a later tick.
#[tactic(auto, using(crate::proofs::Expiring::renews))]
pub(crate) fn renew<S: Storage>(host: &ReplicaHost<S>, admission: &mut Admission, now: i64)
    ensures { Renews now (sessions_in host.now.tree.tree) admission.old admission.new }
{
    let open = sessions_of(host);
    let _ = admission.adopt(open, now);
    admission.renew(open, now);
}

/// Asks a host to close a session. Returns the tag of the request; `None` if the host rejects it.
/// After an error the messages of the request may be lost.
fn close<S: Storage>(
    alloc: Global,
    host: &mut ReplicaHost<S>,
    quorums: &Majority,
    session: i64,
    now: i64,
) -> Result<Option<u64>, ServeFault>
    ensures { RequestsTo (setting_for quorums.now.servers) (closing session now) host.old host.new result }
{
    let Some(tag) = host.issue_tag() else {
        return Ok(None);
    };
    let stepped = host.submit(alloc, quorums, closing_call(alloc, tag, session, now));
    tag_after(tag, stepped)
}

/// Asks a host to close sessions, in order.
fn close_all<S: Storage>(
    alloc: Global,
    host: &mut ReplicaHost<S>,
    quorums: &Majority,
    sessions: &[i64],
    now: i64,
)
    ensures { Closes (setting_for quorums.now.servers) now sessions.now host.old host.new }
{
    for session in sessions {
        let _ = close(alloc, host, quorums, *session, now);
    }
}

/// Asks the host of a server that is up to close sessions.
pub(crate) fn close_in<S: Storage>(
    alloc: Global,
    place: &mut Place<S>,
    quorums: &Majority,
    sessions: &[i64],
    now: i64,
)
    requires { is_up place.old ≡ true }
    ensures { ClosesUp (setting_for quorums.now.servers) now sessions.now place.old place.new }
{
    match place {
        Place::Up(host) => close_all(alloc, host, quorums, sessions, now),
        _ => unreachable!(),
    }
}

/// Gives each of these sessions its whole timeout again.
pub(crate) fn touch_all(admission: &mut Admission, sessions: &[i64], now: i64)
    ensures { admission.new ≡ touching now sessions.now admission.old }
{
    for session in sessions {
        admission.sessions.touch(*session, now);
    }
}
