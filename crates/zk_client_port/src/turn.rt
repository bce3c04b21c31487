//! What a server does with the input of a connection.

ghost use Rattle.std.specs.Prelude.{◌≡◌, [], OnOk, OnErr, IfErr};
ghost use Rattle.zk_hub.specs.Reads.{reader};
ghost use Rattle.zk_client_port.specs.Execution.{served};
ghost use Rattle.zk_client_port.specs.Flushing.{with_replies, HasFlushed, KeepsServer, LosesReplies, Reads};
ghost use Rattle.zk_client_port.specs.Results.{with_outcome};
ghost use Rattle.zk_client_port.specs.Serving.{hearing, may_take_of, Breaks, BreaksFrames, BreaksTaken, FlushesIf, KeepsTree, Serves, ServesAll, ServesTaken};
ghost use Rattle.zk_model.specs.Ensembles.{profile_by};

use crate::admission::Admission;
use crate::demand::demand_of;
use crate::execution::{Moment, execute};
use crate::expected::Expected;
use crate::fault::ServeFault;
use crate::result::write_outcome;
use std::alloc::Global;
use zab_epoch::Quorums;
use zab_host::Storage;
use zk_connections::{Connection, Taken};
use zk_host::{ReadFault, ReplicaHost};
use zk_hub::{Hub, MOST_OUTSTANDING, Outcome, Reply, reply_to};
use zk_path::NoMemory;

/// Writes replies that need no session.
fn write_replies(
    alloc: Global,
    connection: &mut Connection,
    admission: &Admission,
    last: i64,
    replies: Vec<Reply<Expected, Outcome>>,
) -> Result<(), NoMemory>
    ensures { OnOk result (connection.new ≡ with_replies admission.now last replies.items connection.old) }
{
    for reply in replies {
        write_one(alloc, connection, admission, last, reply)?;
    }
    Ok(())
}

fn write_one(
    alloc: Global,
    connection: &mut Connection,
    admission: &Admission,
    last: i64,
    reply: Reply<Expected, Outcome>,
) -> Result<(), NoMemory>
    ensures { OnOk result (connection.new ≡ with_outcome admission.now last reply.expected reply.result connection.old) }
{
    let Reply { expected, result } = reply;
    match write_outcome(alloc, admission, last, connection, expected, result) {
        Ok(_) => Ok(()),
        Err(_) => Err(NoMemory),
    }
}

/// Makes a read, and writes its reply.
fn read<S: Storage>(
    alloc: Global,
    host: &mut ReplicaHost<S>,
    connection: &mut Connection,
    server: usize,
    expected: Expected,
) -> Result<(), NoMemory>
    requires written { host.old.tree.news ≡ [] }
    ensures reads { Reads server expected (reader host.old.tree connection.old) (reader host.new.tree connection.new) result }
    ensures kept { KeepsServer host.old host.new }
{
    let Expected::Read { ask, expected } = expected else {
        connection.cut_off();
        return Ok(());
    };
    match reply_to(alloc, host, server, connection, ask) {
        Ok(reply) => match connection.write_reply(alloc, expected, reply) {
            Ok(()) => Ok(()),
            Err(_) => Err(NoMemory),
        },
        Err(ReadFault::Behind { .. }) => {
            connection.cut_off();
            Ok(())
        }
        Err(ReadFault::NoMemory) => Err(NoMemory),
    }
}

/// Writes the replies that a connection can have now, and makes the reads that nothing waits before.
/// After an error, the connection is lost.
#[tactic(auto, using(crate::proofs::Reading::none_read, crate::proofs::Reading::reads_more, crate::proofs::Reading::none_taken, crate::proofs::Reading::fewer_ready, crate::proofs::Reading::fewer_read))]
fn flush<S: Storage>(
    alloc: Global,
    host: &mut ReplicaHost<S>,
    hub: &mut Hub<Expected, Outcome>,
    connection: &mut Connection,
    admission: &Admission,
    server: usize,
) -> Result<(), NoMemory>
    requires written { host.old.tree.news ≡ [] }
    ensures flushed { OnOk result (HasFlushed admission.now server (served host.old hub.old connection.old) (served host.new hub.new connection.new)) }
    ensures loses { OnErr result (LosesReplies (served host.old hub.old connection.old) (served host.new hub.new connection.new)) }
    ensures kept { KeepsServer host.old host.new }
{
    let number = connection.number();
    'reads: for made in 0..=hub.len() {
        let last = host.last();
        let replies = hub.take_replies(alloc, number)?;
        write_replies(alloc, connection, admission, last, replies)?;
        let Some(expected) = hub.take_read(number) else {
            return Ok(());
        };
        read(alloc, host, connection, server, expected)?;
    }
    Ok(())
}

/// Whether another frame of a connection may be taken.
fn may_take(hub: &Hub<Expected, Outcome>, connection: &Connection) -> bool
    ensures { result ≡ may_take_of hub.now connection.now }
{
    !hub.is_blocked(connection.number()) && !connection.is_slow() && hub.len() < MOST_OUTSTANDING
}

/// Records that the client of a connection's session was heard of.
fn hear(admission: &mut Admission, connection: &Connection, now: i64)
    ensures { admission.new ≡ hearing now connection.now admission.old }
{
    if let Some(session) = connection.session() {
        admission.sessions.touch(session, now);
    }
}

/// Flushes a connection if a reply or a read of it may be ready.
fn flush_if<S: Storage>(
    alloc: Global,
    host: &mut ReplicaHost<S>,
    hub: &mut Hub<Expected, Outcome>,
    connection: &mut Connection,
    admission: &Admission,
    server: usize,
    ready: bool,
) -> Result<(), NoMemory>
    requires written { host.old.tree.news ≡ [] }
    ensures flushed { OnOk result (FlushesIf ready admission.now server (served host.old hub.old connection.old) (served host.new hub.new connection.new)) }
    ensures loses { OnErr result (LosesReplies (served host.old hub.old connection.old) (served host.new hub.new connection.new)) }
    ensures kept { KeepsServer host.old host.new }
{
    if ready {
        return flush(alloc, host, hub, connection, admission, server);
    }
    Ok(())
}

/// Executes what was taken of a connection. After [`ServeFault::Connection`] the connection is lost.
fn serve_taken<S: Storage, Q: Quorums>(
    alloc: Global,
    host: &mut ReplicaHost<S>,
    quorums: &Q,
    hub: &mut Hub<Expected, Outcome>,
    connection: &mut Connection,
    admission: &mut Admission,
    moment: Moment,
    taken: Taken,
) -> Result<(), ServeFault>
    requires written { host.old.tree.news ≡ [] }
    ensures serves { OnOk result (ServesTaken (profile_by (Q.passes quorums.now)).setting moment taken
        (served host.old hub.old connection.old) admission.old (served host.new hub.new connection.new) admission.new) }
    ensures breaks { IfErr result (BreaksTaken (profile_by (Q.passes quorums.now)).setting moment taken
        (served host.old hub.old connection.old) admission.old (served host.new hub.new connection.new) admission.new) }
    ensures kept { KeepsTree host.old host.new }
{
    hear(admission, connection, moment.now);
    let demand = demand_of(alloc, admission, host.last(), moment.now, taken);
    let ready = execute(alloc, host, quorums, hub, connection, moment, demand)?;
    flush_if(
        alloc,
        host,
        hub,
        connection,
        admission,
        moment.server,
        ready,
    )?;
    Ok(())
}

/// Takes a connection's frames, and executes each. After [`ServeFault::Connection`] the connection is
/// lost.
#[tactic(auto, using(crate::proofs::Frames::none_served, crate::proofs::Frames::one_more, crate::proofs::Idle::idle))]
fn serve_frames<S: Storage, Q: Quorums>(
    alloc: Global,
    host: &mut ReplicaHost<S>,
    quorums: &Q,
    hub: &mut Hub<Expected, Outcome>,
    connection: &mut Connection,
    admission: &mut Admission,
    moment: Moment,
) -> Result<(), ServeFault>
    requires written { host.old.tree.news ≡ [] }
    ensures serves { OnOk result (ServesAll (profile_by (Q.passes quorums.now)).setting moment
        (served host.old hub.old connection.old) admission.old (served host.new hub.new connection.new) admission.new) }
    ensures breaks { IfErr result (BreaksFrames (profile_by (Q.passes quorums.now)).setting moment
        (served host.old hub.old connection.old) admission.old (served host.new hub.new connection.new) admission.new) }
    ensures kept { KeepsTree host.old host.new }
{
    if connection.unread_len() == 0 {
        return Ok(());
    }
    'frames: for count in 0..=connection.unread_len() {
        if !may_take(hub, connection) {
            return Ok(());
        }
        let Some(taken) = connection.take(alloc)? else {
            return Ok(());
        };
        serve_taken(
            alloc, host, quorums, hub, connection, admission, moment, taken,
        )?;
    }
    Ok(())
}

/// Takes what a connection has sent: frame by frame, until an earlier read of it waits, too many of
/// its bytes are unsent, or the server has too many requests. After [`ServeFault::Connection`] the
/// connection is lost, and the host has what the frames before have asked.
pub(crate) fn serve<S: Storage, Q: Quorums>(
    alloc: Global,
    host: &mut ReplicaHost<S>,
    quorums: &Q,
    hub: &mut Hub<Expected, Outcome>,
    connection: &mut Connection,
    admission: &mut Admission,
    moment: Moment,
) -> Result<(), ServeFault>
    requires written { host.old.tree.news ≡ [] }
    ensures serves { OnOk result (Serves (profile_by (Q.passes quorums.now)).setting moment
        (served host.old hub.old connection.old) admission.old (served host.new hub.new connection.new) admission.new) }
    ensures breaks { IfErr result (Breaks (profile_by (Q.passes quorums.now)).setting moment
        (served host.old hub.old connection.old) admission.old (served host.new hub.new connection.new) admission.new) }
    ensures kept { KeepsTree host.old host.new }
{
    let blocked = hub.is_blocked(connection.number());
    flush_if(
        alloc,
        host,
        hub,
        connection,
        admission,
        moment.server,
        blocked,
    )?;
    serve_frames(alloc, host, quorums, hub, connection, admission, moment)
}
