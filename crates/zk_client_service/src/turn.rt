//! A server's turn with its clients.

ghost use Rattle.std.specs.Prelude.{◌≡◌, true, IfOk};
ghost use Rattle.zk_client_service.specs.Ports.{port_of, ports_of};
ghost use Rattle.zk_client_service.specs.Rounds.{has_messages, served_by, without_numbers, TurnsPlace, TurnsPort};
ghost use Rattle.zk_peers.specs.Hosts.{setting_for};
ghost use Rattle.zk_peers.specs.Peers.{host_at};
ghost use Rattle.zk_peers.specs.Places.{is_up};

use crate::client_service::cut_off;
use std::alloc::Global;
use zab_epoch::Majority;
use zab_host::Storage;
use zk_client_port::{Admission, ClientPort, Moment, Selection, Turned};
use zk_host::{ReleaseFault, ReplicaHost};
use zk_peers::{Peers, Place};

/// A turn of a server's host, and of its port.
fn turn_port<S: Storage>(
    alloc: Global,
    host: &mut ReplicaHost<S>,
    port: &mut ClientPort,
    quorums: &Majority,
    admission: &mut Admission,
    moment: Moment,
) -> Result<Turned, ReleaseFault>
    ensures turns { IfOk result (λ it. TurnsPort (setting_for quorums.now.servers) moment
        (served_by host.old (port_of port.old) admission.old) (served_by host.new (port_of port.new) admission.new) it.displaced.items) }
    ensures sent { IfOk result (λ it. it.messages ≡ host.old.host.outbox) }
{
    let turned = port.turn(alloc, host, quorums, admission, moment)?;
    // If memory runs out, the lists are written in a later turn.
    let _ = port.write_listings(alloc, host);
    Ok(turned)
}

/// A turn of a server that is up, and of its port.
pub(crate) fn turn_place<S: Storage>(
    alloc: Global,
    place: &mut Place<S>,
    port: &mut ClientPort,
    quorums: &Majority,
    admission: &mut Admission,
    moment: Moment,
) -> Result<Turned, ReleaseFault>
    requires { is_up place.old ≡ true }
    ensures { TurnsPlace (setting_for quorums.now.servers) moment place.old (port_of port.old) admission.old
        place.new (port_of port.new) admission.new result }
{
    match place {
        Place::Up(host) => turn_port(alloc, host, port, quorums, admission, moment),
        _ => unreachable!(),
    }
}

/// Whether a server is up, and its host has messages.
pub(crate) fn has_messages<S: Storage>(peers: &Peers<S>, server: usize) -> bool
    ensures { result ≡ has_messages (host_at peers.now.places.items server) }
{
    match peers.host(server) {
        Some(host) => host.outbox_len() > 0,
        None => false,
    }
}

/// Cuts off connections, at whichever servers they are.
pub(crate) fn cut_off_numbers(ports: &mut Vec<ClientPort>, numbers: &[u64])
    ensures { ports_of ports.new.items ≡ without_numbers numbers.now (ports_of ports.old.items) }
{
    for number in numbers {
        cut_off(ports, Selection::Number(*number));
    }
}
