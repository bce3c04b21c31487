ghost use Rattle.std.specs.Prelude.{◌≡◌, ◌++◌, ◌∷◌, [], map, IfOk, OnOk};
ghost use Rattle.zk_hub.specs.Reads.{reader, KeepsNodes, Looks};
ghost use Rattle.zk_hub.specs.Replies.{children_at, count_by, is_refused, Counts, Replies};
ghost use Rattle.zk_table.specs.Replies.{path_read};
ghost use Rattle.zk_hub.specs.Resumptions.{after_watch, after_watches, event_of, events_of, found_at, named_in, question_for, set_by, setter, with_watch_at, Resumes};
ghost use Rattle.zk_client_session.specs.Links.{path_in};
ghost use Rattle.zk_client_session.specs.TreeReads.{descendant_count, ephemerals_of};

use crate::read;
use std::alloc::Global;
use zab_host::Storage;
use zk_acl::{Acl, Ids, Text};
use zk_client_session::{
    Ask, Reply, SavedWatch, SavedWatchKind, SavedWatches, WatchEvent, WatchEvents,
    descendant_count, ephemerals,
};
use zk_connections::Connection;
use zk_host::{ReadFault, ReplicaHost};
use zk_model::Question;
use zk_path::{NoMemory, Path};
use zk_table::{Names, ReadCall, ReadReply};
use zk_tree::Tree;

/// Reads for a connection, and sets its watch.
fn look<S: Storage>(
    host: &mut ReplicaHost<S>,
    connection: &mut Connection,
    question: &Question,
) -> Result<ReadReply, ReadFault>
    requires written { host.old.tree.news ≡ [] }
    ensures looks { Looks question.now (reader host.old.tree connection.old) (reader host.new.tree connection.new) result }
    ensures nodes { KeepsNodes (reader host.old.tree connection.old) (reader host.new.tree connection.new) }
    ensures written { host.new.tree.news ≡ [] }
    ensures rest { (host.new.host ≡ host.old.host) × ((host.new.shown ≡ host.old.shown) × (host.new.tags ≡ host.old.tags)) }
{
    let reply = read(host, connection.number(), question)?;
    if question.watch {
        connection.set_watch(&question.call, &reply)?;
    }
    Ok(reply)
}

/// The reply to a read by a connection of server `server`, from all that the server has delivered
/// and written. After an error, the connection is lost.
pub fn reply_to<S: Storage>(
    alloc: Global,
    host: &mut ReplicaHost<S>,
    server: usize,
    connection: &mut Connection,
    ask: Ask,
) -> Result<Reply, ReadFault>
    requires written { host.old.tree.news ≡ [] }
    ensures replies { Replies server ask (reader host.old.tree connection.old) (reader host.new.tree connection.new) result }
    ensures nodes { KeepsNodes (reader host.old.tree connection.old) (reader host.new.tree connection.new) }
    ensures written { host.new.tree.news ≡ [] }
    ensures rest { (host.new.host ≡ host.old.host) × ((host.new.shown ≡ host.old.shown) × (host.new.tags ≡ host.old.tags)) }
{
    let zxid = host.last();
    match ask {
        Ask::Read {
            session,
            seen,
            auths,
            call,
            watch,
        } => {
            let question = Question {
                server,
                session,
                seen,
                auths,
                call,
                watch,
            };
            let reply = look(host, connection, &question)?;
            Ok(Reply::Read { reply, zxid })
        }
        Ask::SetWatches {
            session,
            relative_zxid,
            auths,
            watches,
        } => {
            let resumption = Resumption {
                server,
                session,
                relative_zxid,
                auths,
            };
            let events = resume_watches(alloc, host, connection, &resumption, &watches)?;
            Ok(Reply::WatchesSet { events, zxid })
        }
        Ask::RemoveWatches { path, kind } => {
            let found = connection.remove_watches(kind, &path);
            Ok(Reply::WatchesRemoved { found, zxid })
        }
        Ask::Ephemerals { session, prefix } => {
            let paths = ephemerals_at(alloc, host, session, &prefix)?;
            Ok(Reply::Paths { paths, zxid })
        }
        Ask::CountDescendants {
            session,
            seen,
            auths,
            path,
        } => count(alloc, host, server, connection, session, seen, auths, path),
        Ask::Write { .. } | Ask::Sync { session: _ } => Ok(Reply::CaughtUp { zxid }),
    }
}

fn ephemerals_at<S: Storage>(
    alloc: Global,
    host: &ReplicaHost<S>,
    session: i64,
    prefix: &Text,
) -> Result<Names, NoMemory>
    ensures { IfOk result (λ names. names ≡ ephemerals_of host.now.tree.tree.nodes session prefix.now) }
{
    match host.tree() {
        Some(tree) => ephemerals(alloc, tree, session, prefix.as_str()),
        None => ephemerals(alloc, &Tree::new(alloc)?, session, prefix.as_str()),
    }
}

/// The number of nodes below a path, for a caller who may read its children.
fn count<S: Storage>(
    alloc: Global,
    host: &mut ReplicaHost<S>,
    server: usize,
    connection: &mut Connection,
    session: i64,
    seen: i64,
    auths: Ids,
    path: Path,
) -> Result<Reply, ReadFault>
    requires written { host.old.tree.news ≡ [] }
    ensures counts { Counts (children_at server session seen auths path) (reader host.old.tree connection.old) (reader host.new.tree connection.new) result }
    ensures nodes { KeepsNodes (reader host.old.tree connection.old) (reader host.new.tree connection.new) }
    ensures written { host.new.tree.news ≡ [] }
    ensures rest { (host.new.host ≡ host.old.host) × ((host.new.shown ≡ host.old.shown) × (host.new.tags ≡ host.old.tags)) }
{
    let question = Question {
        server,
        session,
        seen,
        auths,
        call: ReadCall::GetChildren { path },
        watch: false,
    };
    let reply = look(host, connection, &question)?;
    Ok(counted(alloc, host, &question, reply)?)
}

/// The number of nodes below the path whose children the caller has read.
fn counted<S: Storage>(
    alloc: Global,
    host: &ReplicaHost<S>,
    question: &Question,
    reply: ReadReply,
) -> Result<Reply, NoMemory>
    ensures { IfOk result (λ it. it ≡ count_by reply (path_read question.now.call) host.now.tree) }
{
    let zxid = host.last();
    if is_refused(&reply) {
        return Ok(Reply::Read { reply, zxid });
    }
    let count = count_at(alloc, host, question.call.path())?;
    Ok(Reply::Count { count, zxid })
}

fn is_refused(reply: &ReadReply) -> bool
    ensures { result ≡ is_refused reply.now }
{
    matches!(reply, ReadReply::Refused(_))
}

fn count_at<S: Storage>(alloc: Global, host: &ReplicaHost<S>, path: &Path) -> Result<i32, NoMemory>
    ensures { IfOk result (λ it. it ≡ descendant_count host.now.tree.tree.nodes path.now) }
{
    match host.tree() {
        Some(tree) => descendant_count(alloc, tree, path),
        None => descendant_count(alloc, &Tree::new(alloc)?, path),
    }
}

/// A client that has come back, and the last transaction that it has seen.
#[derive(Debug, Drop)]
struct Resumption {
    server: usize,
    session: i64,
    relative_zxid: i64,
    auths: Ids,
}

impl Resumption {
    fn question(&self, call: ReadCall, watch: bool) -> Result<Question, NoMemory>
        ensures { IfOk result (λ it. it ≡ question_for self.now call watch) }
    {
        Ok(self.question_by(self.auths.copy()?, call, watch))
    }

    /// A read by these identities in place of the client's.
    fn question_by(&self, auths: Ids, call: ReadCall, watch: bool) -> Question
        ensures { result ≡ question_for (record self.now { auths = auths }) call watch }
    {
        Question {
            server: self.server,
            session: self.session,
            seen: 0,
            auths,
            call,
            watch,
        }
    }
}

/// Sets the watches that a client had at another connection. Returns the events of those that have
/// fired since.
fn resume_watches<S: Storage>(
    alloc: Global,
    host: &mut ReplicaHost<S>,
    connection: &mut Connection,
    resumption: &Resumption,
    watches: &SavedWatches,
) -> Result<WatchEvents, ReadFault>
    requires written { host.old.tree.news ≡ [] }
    ensures resumes { Resumes (events_of resumption.now watches.now (reader host.old.tree connection.old))
        (after_watches resumption.now watches.now (reader host.old.tree connection.old))
        (reader host.old.tree connection.old) (reader host.new.tree connection.new) result }
    ensures nodes { KeepsNodes (reader host.old.tree connection.old) (reader host.new.tree connection.new) }
    ensures written { host.new.tree.news ≡ [] }
    ensures rest { (host.new.host ≡ host.old.host) × ((host.new.shown ≡ host.old.shown) × (host.new.tags ≡ host.old.tags)) }
{
    let mut events = Vec::new(alloc);
    for watch in watches.as_slice() {
        if let Some(event) = resume_watch(alloc, host, connection, resumption, watch)? {
            push(&mut events, event)?;
        }
    }
    Ok(WatchEvents::new(events))
}

fn push(events: &mut Vec<WatchEvent>, event: WatchEvent) -> Result<(), NoMemory>
    ensures { OnOk result (events.new.items ≡ events.old.items ++ event ∷ []) }
{
    events.push(event)?;
    Ok(())
}

/// Reads the node by which a watch may fire at once.
fn probe<S: Storage>(
    alloc: Global,
    host: &mut ReplicaHost<S>,
    connection: &mut Connection,
    resumption: &Resumption,
    watch: &SavedWatch,
) -> Result<Option<ReadReply>, ReadFault>
    requires written { host.old.tree.news ≡ [] }
    ensures probes { Resumes (found_at resumption.now watch.now (reader host.old.tree connection.old))
        (reader host.old.tree connection.old) (reader host.old.tree connection.old) (reader host.new.tree connection.new) result }
    ensures nodes { KeepsNodes (reader host.old.tree connection.old) (reader host.new.tree connection.new) }
    ensures written { host.new.tree.news ≡ [] }
    ensures rest { (host.new.host ≡ host.old.host) × ((host.new.shown ≡ host.old.shown) × (host.new.tags ≡ host.old.tags)) }
{
    let Some(call) = watch.probe(alloc)? else {
        return Ok(None);
    };
    let reply = look(host, connection, &resumption.question(call, false)?)?;
    Ok(Some(reply))
}

/// Sets a watch, unless its path is invalid.
#[tactic(auto, using(crate::proofs::Setting::by_call, crate::proofs::Setting::by_none))]
fn set_watch<S: Storage>(
    alloc: Global,
    host: &mut ReplicaHost<S>,
    connection: &mut Connection,
    resumption: &Resumption,
    watch: &SavedWatch,
) -> Result<(), ReadFault>
    requires written { host.old.tree.news ≡ [] }
    ensures sets { Resumes tt (with_watch_at resumption.now watch.now (path_in watch.now.path) (reader host.old.tree connection.old))
        (reader host.old.tree connection.old) (reader host.new.tree connection.new) result }
    ensures nodes { KeepsNodes (reader host.old.tree connection.old) (reader host.new.tree connection.new) }
    ensures written { host.new.tree.news ≡ [] }
    ensures rest { (host.new.host ≡ host.old.host) × ((host.new.shown ≡ host.old.shown) × (host.new.tags ≡ host.old.tags)) }
{
    match watch.setting_call(alloc)? {
        Some(call) => set_by(alloc, host, connection, resumption, watch.kind, call),
        None => Ok(()),
    }
}

/// Sets a watch of a kind by this read.
fn set_by<S: Storage>(
    alloc: Global,
    host: &mut ReplicaHost<S>,
    connection: &mut Connection,
    resumption: &Resumption,
    kind: SavedWatchKind,
    call: ReadCall,
) -> Result<(), ReadFault>
    requires written { host.old.tree.news ≡ [] }
    ensures sets { Resumes tt (set_by kind resumption.now call (reader host.old.tree connection.old))
        (reader host.old.tree connection.old) (reader host.new.tree connection.new) result }
    ensures nodes { KeepsNodes (reader host.old.tree connection.old) (reader host.new.tree connection.new) }
    ensures written { host.new.tree.news ≡ [] }
    ensures rest { (host.new.host ≡ host.old.host) × ((host.new.shown ≡ host.old.shown) × (host.new.tags ≡ host.old.tags)) }
{
    let auths = setter(alloc, host, connection, resumption, kind, call.path())?;
    let question = resumption.question_by(auths, call, true);
    look(host, connection, &question)?;
    Ok(())
}

/// The identities that set a watch: the client's, or for one of children all that the node's access
/// control list names.
fn setter<S: Storage>(
    alloc: Global,
    host: &mut ReplicaHost<S>,
    connection: &mut Connection,
    resumption: &Resumption,
    kind: SavedWatchKind,
    path: &Path,
) -> Result<Ids, ReadFault>
    requires written { host.old.tree.news ≡ [] }
    ensures sets { Resumes (setter kind resumption.now path.now (reader host.old.tree connection.old)).auths
        (reader host.old.tree connection.old) (reader host.old.tree connection.old) (reader host.new.tree connection.new) result }
    ensures nodes { KeepsNodes (reader host.old.tree connection.old) (reader host.new.tree connection.new) }
    ensures written { host.new.tree.news ≡ [] }
    ensures rest { (host.new.host ≡ host.old.host) × ((host.new.shown ≡ host.old.shown) × (host.new.tags ≡ host.old.tags)) }
{
    match kind {
        SavedWatchKind::Data | SavedWatchKind::Exist => Ok(resumption.auths.copy()?),
        SavedWatchKind::Child => {
            let path = path.copy()?;
            let list = ReadCall::GetAcl { path };
            let reply = look(host, connection, &resumption.question(list, false)?)?;
            Ok(named_in(alloc, &reply)?)
        }
    }
}

/// The identities that an access control list names.
fn named_in(alloc: Global, reply: &ReadReply) -> Result<Ids, NoMemory>
    ensures { IfOk result (λ ids. ids ≡ named_in reply.now) }
{
    let ReadReply::AclIs { acl, .. } = reply else {
        return Ok(Ids::new(Vec::new(alloc)));
    };
    ids_of(alloc, acl.as_slice())
}

fn ids_of(alloc: Global, entries: &[Acl]) -> Result<Ids, NoMemory>
    ensures { IfOk result (λ ids. ids ≡ map (λ entry. entry.id) entries.now) }
{
    let mut ids = Vec::new(alloc);
    for entry in entries {
        ids.push(entry.id.copy()?)?;
    }
    Ok(Ids::new(ids))
}

/// Sets a watch, unless it has fired since. Returns its event if it has.
fn resume_watch<S: Storage>(
    alloc: Global,
    host: &mut ReplicaHost<S>,
    connection: &mut Connection,
    resumption: &Resumption,
    watch: &SavedWatch,
) -> Result<Option<WatchEvent>, ReadFault>
    requires written { host.old.tree.news ≡ [] }
    ensures resumes { Resumes (event_of resumption.now watch.now (reader host.old.tree connection.old))
        (after_watch resumption.now watch.now (reader host.old.tree connection.old))
        (reader host.old.tree connection.old) (reader host.new.tree connection.new) result }
    ensures nodes { KeepsNodes (reader host.old.tree connection.old) (reader host.new.tree connection.new) }
    ensures written { host.new.tree.news ≡ [] }
    ensures rest { (host.new.host ≡ host.old.host) × ((host.new.shown ≡ host.old.shown) × (host.new.tags ≡ host.old.tags)) }
{
    let found = probe(alloc, host, connection, resumption, watch)?;
    if let Some(kind) = watch.event(resumption.relative_zxid, &found) {
        return Ok(Some(watch.fired(kind)?));
    }
    set_watch(alloc, host, connection, resumption, watch)?;
    Ok(None)
}
