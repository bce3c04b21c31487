//! A turn of a server that runs, with its clients.

ghost use Rattle.std.specs.Prelude.{◌≡◌, ◌⊎◌, [], map, IfOk, OnOk, OnErr};
ghost use Rattle.zab_epoch.specs.declared.stable.Stable.{Stable};
ghost use Rattle.zab_host.specs.Durability.{IsPartialStore};
ghost use Rattle.zab_host.specs.Hosts.{IsStored};
ghost use Rattle.zk_client_port.specs.Asking.{FailsAsking, HasAsked};
ghost use Rattle.zk_client_port.specs.Serving.{KeepsTree};
ghost use Rattle.zk_client_port.specs.Turns.{server};
ghost use Rattle.zk_quorum_server.specs.Turns.{begun, mode_of, without_numbers, unserved, HasRoom, HasServed, HasStopped, ServesClients, WritesAll};
ghost use Rattle.zk_server.specs.Deeds.{setting_for};
ghost use Rattle.zk_server.specs.Sites.{IsReady};

use std::alloc::Global;
use zab_epoch::{Majority, Messages, Role};
use zab_host::Storage;
use zk_client_port::{Admission, ClientPort, Moment, Selection};
use zk_connections::{Connection, Mode};
use zk_host::{ReleaseFault, ReplicaHost};
use zk_model::Preparer;
use zk_peer_links::Arrival;
use zk_requests::Call;
use zk_server::{Election, Member, Stopped, decide, hear};
use zk_server_laws::stores_keep_first_inputs;

/// Takes what peers have sent, what the election decides, and what clients have sent; then stores, and
/// writes. Returns the messages for peers. After an error nothing may be sent or written.
#[tactic(auto, using(crate::proofs::Turning::served, crate::proofs::Turning::hearing_fails, crate::proofs::Turning::acting_fails, crate::proofs::Turning::asking_fails))]
pub(crate) fn step<S: Storage>(
    alloc: Global,
    me: Member,
    election: &mut Election,
    host: &mut ReplicaHost<S>,
    port: &mut ClientPort,
    admission: &mut Admission,
    arrivals: &[Arrival],
    now: i64,
) -> Result<Messages<Call>, Stopped>
    requires ready { IsReady S.may_recover me host.old }
    requires written { host.old.tree.news ≡ [] }
    ensures turns { IfOk result (λ messages. HasRoom host.new → HasServed S.may_recover S.boots me arrivals.now now election.old
        (server host.old port.old.hub port.old.connections.items admission.old) election.new
        (server host.new port.new.hub port.new.connections.items admission.new) messages) }
    ensures stops { OnErr result (HasRoom host.new → HasStopped S.may_recover S.boots me arrivals.now
        host.old host.new.host.storage) }
{
    let quorums = Majority {
        servers: me.servers,
    };
    stores_keep_first_inputs::<Preparer, Majority, S>(&quorums);
    hear(alloc, me, election, host, arrivals)?;
    decide(alloc, me, election, host)?;
    serve(alloc, me, host, port, admission, now)?;
    write(alloc, host, port, admission, now)
}

/// Takes what the clients have sent. A server without a leader closes their connections first.
#[tactic(auto, using(crate::proofs::Serving::serves_clients))]
fn serve<S: Storage>(
    alloc: Global,
    me: Member,
    host: &mut ReplicaHost<S>,
    port: &mut ClientPort,
    admission: &mut Admission,
    now: i64,
) -> Result<(), Stopped>
    requires { host.old.tree.news ≡ [] }
    ensures serves { OnOk result (ServesClients me now
        (server host.old port.old.hub port.old.connections.items admission.old)
        (server host.new port.new.hub port.new.connections.items admission.new)) }
    ensures asks { OnOk result (HasAsked (setting_for me.servers) host.old host.new) }
    ensures kept { OnOk result (KeepsTree host.old host.new) }
    ensures fails { OnErr result (FailsAsking (setting_for me.servers) host.old host.new) }
{
    cut_off_unserved(host, port);
    begin_turns(&mut port.connections);
    let moment = Moment {
        server: usize::from(me.number),
        now,
        mode: mode_of(host.role()),
        connections: port.connections.len(),
    };
    let quorums = Majority {
        servers: me.servers,
    };
    port.serve_all(alloc, host, &quorums, admission, moment)?;
    Ok(())
}

/// Cuts off the clients of a server that serves none.
fn cut_off_unserved<S: Storage>(host: &ReplicaHost<S>, port: &mut ClientPort)
    ensures connections { port.new.connections.items ≡ unserved host.now port.old.connections.items }
    ensures hub { port.new.hub ≡ port.old.hub }
{
    if !host.is_serving() {
        port.cut_off(Selection::Served);
    }
}

/// Each connection begins its turn.
fn begin_turns(connections: &mut Vec<Connection>)
    ensures { connections.new.items ≡ map begun connections.old.items }
{
    for index in 0..connections.len() {
        begin_turn(&mut connections[index]);
    }
}

fn begin_turn(connection: &mut Connection)
    ensures { connection.new ≡ begun connection.old }
{
    connection.begin_turn();
}

/// What four-letter words print of a server in a role.
fn mode_of(role: &Role) -> Mode
    ensures { result ≡ mode_of role.now }
{
    match role {
        Role::Broadcast => Mode::Leader,
        Role::Following { synced: true, .. } => Mode::Follower,
        _ => Mode::Looking,
    }
}

/// Stores what the host has, and writes what it has delivered. Cuts off the connections whose sessions
/// others have got.
#[tactic(auto, using(crate::proofs::Serving::writes_all))]
fn write<S: Storage>(
    alloc: Global,
    host: &mut ReplicaHost<S>,
    port: &mut ClientPort,
    admission: &mut Admission,
    now: i64,
) -> Result<Messages<Call>, Stopped>
    ensures messages { IfOk result (λ messages. messages ≡ host.old.host.outbox) }
    ensures stored { OnOk result (IsStored S.may_recover host.new.host) }
    ensures writes { OnOk result (WritesAll now
        (server host.old port.old.hub port.old.connections.items admission.old)
        (server host.new port.new.hub port.new.connections.items admission.new)) }
    ensures tags { host.new.tags ≡ host.old.tags }
    ensures crash { (found : Stable) → S.may_recover host.new.host.storage found
        → S.may_recover host.old.host.storage found
        ⊎ IsPartialStore (S.may_recover host.old.host.storage) host.old.host.state.peer.stable found }
    ensures boots { S.boots host.new.host.storage ≡ S.boots host.old.host.storage }
{
    match port.release(alloc, host, admission, now) {
        Ok(turned) => {
            cut_off_numbers(port, &turned.displaced);
            Ok(turned.into_messages(alloc))
        }
        Err(ReleaseFault::Store(fault)) => Err(Stopped::Store(fault)),
        Err(ReleaseFault::Shrunk) => Err(Stopped::Shrunk),
        Err(ReleaseFault::NoMemory) => Err(Stopped::NoMemory),
    }
}

/// Cuts off connections.
fn cut_off_numbers(port: &mut ClientPort, numbers: &[u64])
    ensures connections { port.new.connections.items ≡ without_numbers numbers.now port.old.connections.items }
    ensures hub { port.new.hub ≡ port.old.hub }
{
    for number in numbers {
        port.cut_off(Selection::Number(*number));
    }
}
