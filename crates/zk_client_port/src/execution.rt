//! What a connection's demand does at its server's host.

ghost use Rattle.std.specs.Prelude.{◌≡◌, ◌++◌, ◌∷◌, [], length, IfOk, OnOk, OnErr};
ghost use Rattle.zab_host.specs.Hosts.{Submits, Syncs};
ghost use Rattle.zk_client_port.specs.Execution.{call_of, is_ready, known, outstanding, printed, request, served, status_of, tag_after, ExecutesTo, IsRejected, Pushes, RequestsTo, Tells, Writes};
ghost use Rattle.zk_connections.specs.Connections.{with_no_session};
ghost use Rattle.zk_hub.specs.declared.request.Stage.TheVariants as stages;
ghost use Rattle.zk_model.specs.Ensembles.{profile_by};

use crate::demand::Demand;
use crate::expected::Expected;
use crate::fault::ServeFault;
use std::alloc::Global;
use zab_epoch::Quorums;
use zab_host::{HostFault, Storage};
use zk_acl::Ids;
use zk_connections::{Connection, Mode, Status, Word, text_of};
use zk_host::ReplicaHost;
use zk_hub::{Hub, Outcome, Outstanding, Stage};
use zk_path::NoMemory;
use zk_requests::{Call, Request};
use zk_tree::Tree;

/// A server at a moment.
#[derive(Clone, Copy, Debug)]
pub struct Moment {
    /// The server's number, from 1.
    pub server: usize,
    /// The time in milliseconds.
    pub now: i64,
    pub mode: Mode,
    /// The number of its connections.
    pub connections: usize,
}

/// The tag of a request, if its host has taken it; an error if an allocation of the host failed.
pub fn tag_after(tag: u64, stepped: Result<(), HostFault>) -> Result<Option<u64>, ServeFault>
    ensures { result ≡ tag_after tag stepped }
{
    match stepped {
        Ok(()) => Ok(Some(tag)),
        Err(HostFault::NoMemory) => Err(ServeFault::Host),
        Err(_) => Ok(None),
    }
}

/// Submits a request at a host. Returns the tag of its outcome; `None` if the host takes no
/// requests now.
fn submit<S: Storage, Q: Quorums>(
    alloc: Global,
    host: &mut ReplicaHost<S>,
    quorums: &Q,
    session: i64,
    cxid: i32,
    auths: Ids,
    now: i64,
    request: Request,
) -> Result<Option<u64>, ServeFault>
    ensures { RequestsTo (profile_by (Q.passes quorums.now)).setting (call_of session cxid auths now request) host.old host.new result }
{
    let Some(tag) = host.issue_tag() else {
        return Ok(None);
    };
    let call = Call {
        tag,
        session,
        cxid,
        auths,
        now,
        request,
    };
    let stepped = host.submit(alloc, quorums, call);
    tag_after(tag, stepped)
}

/// Asks a host to catch up with its leader. Returns the tag of its outcome; `None` if the host
/// cannot.
fn sync<S: Storage, Q: Quorums>(
    alloc: Global,
    host: &mut ReplicaHost<S>,
    quorums: &Q,
) -> Result<Option<u64>, ServeFault>
    ensures { RequestsTo (profile_by (Q.passes quorums.now)).setting Syncs host.old host.new result }
{
    let Some(tag) = host.issue_tag() else {
        return Ok(None);
    };
    let stepped = host.sync(alloc, quorums, tag);
    tag_after(tag, stepped)
}

/// A request of a connection, which waits for the outcome with a tag. Without a tag, the connection
/// closes in its turn.
fn outstanding(
    connection: u64,
    tag: Option<u64>,
    expected: Expected,
) -> Outstanding<Expected, Outcome>
    ensures { result ≡ outstanding connection tag expected }
{
    match tag {
        Some(tag) => Outstanding {
            connection,
            stage: Stage::Waits { tag },
            expected,
        },
        None => known(connection, Expected::Closed),
    }
}

fn known(connection: u64, expected: Expected) -> Outstanding<Expected, Outcome>
    ensures { result ≡ known connection expected }
{
    Outstanding {
        connection,
        stage: Stage::Done(Outcome::Known),
        expected,
    }
}

fn reading(connection: u64, expected: Expected) -> Outstanding<Expected, Outcome>
    ensures { result ≡ request connection stages.Reads expected }
{
    Outstanding {
        connection,
        stage: Stage::Reads,
        expected,
    }
}

/// Takes a request. Returns whether its reply or its read may be ready.
fn push(
    hub: &mut Hub<Expected, Outcome>,
    request: Outstanding<Expected, Outcome>,
) -> Result<bool, ServeFault>
    ensures { Pushes request hub.old hub.new result }
{
    let is_ready = !matches!(&request.stage, Stage::Waits { tag: _ });
    match hub.push(request) {
        Ok(()) => Ok(is_ready),
        Err(_) => Err(ServeFault::Connection),
    }
}

/// What a server replies to four-letter words.
fn status_of<S: Storage>(
    alloc: Global,
    host: &ReplicaHost<S>,
    hub: &Hub<Expected, Outcome>,
    moment: Moment,
) -> Result<Status, NoMemory>
    ensures { IfOk result (λ it. it ≡ status_of host.now.tree.tree (length hub.now) moment) }
{
    let nodes = match host.tree() {
        Some(tree) => tree.paths()?.len(),
        None => Tree::new(alloc)?.paths()?.len(),
    };
    Ok(Status {
        mode: moment.mode,
        last: host.last().cast_unsigned(),
        nodes,
        connections: moment.connections,
        outstanding: hub.len(),
    })
}

/// Writes the reply to a four-letter word, and closes the connection; if the reply is a list, it is
/// written after the turn of all connections.
fn print<S: Storage>(
    alloc: Global,
    host: &ReplicaHost<S>,
    hub: &Hub<Expected, Outcome>,
    connection: &mut Connection,
    moment: Moment,
    word: Word,
) -> Result<bool, ServeFault>
    ensures { Writes (printed moment word (served host.now hub.now connection.old)) connection.new result }
{
    let status = status_of(alloc, host, hub, moment)?;
    match text_of(alloc, word, &status)? {
        Some(text) => connection.write_text(text.as_str())?,
        None => connection.await_listing(word),
    }
    Ok(false)
}

fn reject(
    alloc: Global,
    connection: &mut Connection,
    read_only: Option<bool>,
) -> Result<bool, ServeFault>
    ensures { Writes (with_no_session read_only connection.old) connection.new result }
{
    connection.reject_session(alloc, read_only)?;
    Ok(false)
}

/// Executes a demand of a connection. Returns whether a reply or a read may be ready. After
/// [`ServeFault::Connection`] the connection is lost.
pub(crate) fn execute<S: Storage, Q: Quorums>(
    alloc: Global,
    host: &mut ReplicaHost<S>,
    quorums: &Q,
    hub: &mut Hub<Expected, Outcome>,
    connection: &mut Connection,
    moment: Moment,
    demand: Demand,
) -> Result<bool, ServeFault>
    ensures { ExecutesTo (profile_by (Q.passes quorums.now)).setting moment demand (served host.old hub.old connection.old) (served host.new hub.new connection.new) result }
{
    let number = connection.number();
    match demand {
        Demand::Submit {
            session,
            cxid,
            auths,
            request,
            expected,
        } => {
            let now = moment.now;
            let tag = submit(alloc, host, quorums, session, cxid, auths, now, request)?;
            push(hub, outstanding(number, tag, expected))
        }
        Demand::Sync(expected) => {
            let tag = sync(alloc, host, quorums)?;
            push(hub, outstanding(number, tag, expected))
        }
        Demand::Read(expected) => push(hub, reading(number, expected)),
        Demand::Reply(expected) => push(hub, known(number, expected)),
        Demand::Print(word) => print(alloc, host, hub, connection, moment, word),
        Demand::Reject { read_only } => reject(alloc, connection, read_only),
        Demand::CutOff => {
            connection.cut_off();
            Ok(false)
        }
    }
}
