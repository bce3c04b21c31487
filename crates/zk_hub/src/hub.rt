use crate::delivery::deliver_all;
use crate::news::{News, Output};
use crate::request::{Outstanding, Reply, Stage};
use std::alloc::{AllocFailed, Global};
use std::marker::Model;
use std::mem::replace;
use thiserror::Error;
use zk_path::NoMemory;

/// The most outstanding requests of a server, as `zookeeper.globalOutstandingLimit`.
pub const MOST_OUTSTANDING: usize = 1000;

/// Why a hub takes no request.
#[derive(Clone, Copy, Debug, PartialEq, Eq, Error)]
pub enum HubFault {
    /// An earlier read of the connection waits. A write after it is not to be applied before it.
    #[error("blocked")]
    Blocked,
    /// It has [`MOST_OUTSTANDING`].
    #[error("full")]
    Full,
    /// Out of memory.
    #[error("out of memory")]
    NoMemory,
}

impl<T: Drop> From<AllocFailed<T>> for HubFault {
    ghost use Rattle.std.specs.Prelude.{◌≡◌};
    ghost use Rattle.zk_hub.specs.declared.hub.HubFault.TheVariants as faults;

    ghost from_gives = { λ _ e. e ≡ faults.NoMemory };

    fn from(_failed: AllocFailed<T>) -> HubFault {
        HubFault::NoMemory
    }
}

/// The outstanding requests of a server's connections, in the order in which they came. Contracts
/// see their list.
#[derive(Debug, Drop)]
pub struct Hub<E: Drop, R: Drop> {
    requests: Vec<Outstanding<E, R>>,
    /// Whether some request may be a read. If none is, no connection is blocked.
    reading: bool,
}

impl<E: Drop, R: Drop> Model for Hub<E, R> {
    ghost use Rattle.std.specs.Prelude.{◌≡◌, false, List};
    ghost use Rattle.zk_hub.specs.Hubs.{has_read};
    ghost use Rattle.zk_hub.specs.declared.request.Outstanding.{Outstanding};

    ghost Value = { List (Outstanding E R) };

    ghost view = { λ hub. hub.requests.items };

    ghost invariant = { λ hub. hub.reading ≡ false → has_read hub.requests.items ≡ false };
}

impl<E: Drop, R: Drop> Hub<E, R> {
    ghost use Rattle.std.specs.Prelude.{◌≡◌, ◌≢◌, ◌++◌, ◌∷◌, [], length, find, Some, None, IfOk, IfSome, IsErrOf, OnOk, OnErr, IfErr};
    ghost use Rattle.zk_hub.specs.Hubs.{is_blocked, push_fault, waits_for, with_result, connection_of, replies_for, without_ready, next_read, without_read, without_connection};
    ghost use Rattle.zk_hub.specs.Deliveries.{outputs_of, left_after};
    ghost use Rattle.zk_hub.specs.declared.hub.HubFault.TheVariants as faults;

    /// Allocates no memory.
    pub fn new(alloc: Global) -> Hub<E, R>
        ensures { result ≡ [] }
    {
        Hub {
            requests: Vec::new(alloc),
            reading: false,
        }
    }

    pub fn len(&self) -> usize
        ensures { result ≡ length self.now }
    {
        self.requests.len()
    }

    /// Whether a read of the connection waits for the replies to earlier requests.
    pub fn is_blocked(&self, connection: u64) -> bool
        ensures { result ≡ is_blocked connection self.now }
    {
        self.reading && is_blocked_in(&self.requests, connection)
    }

    fn push_fault(&self, connection: u64) -> Option<HubFault>
        ensures { result ≡ push_fault MOST_OUTSTANDING connection self.now }
    {
        if self.is_blocked(connection) {
            return Some(HubFault::Blocked);
        }
        if self.requests.len() >= MOST_OUTSTANDING {
            return Some(HubFault::Full);
        }
        None
    }

    /// Takes a request of a connection. After an error the hub is unchanged.
    pub fn push(&mut self, request: Outstanding<E, R>) -> Result<(), HubFault>
        ensures pushed { OnOk result (self.new ≡ self.old ++ request ∷ []) }
        ensures fits { OnOk result (push_fault MOST_OUTSTANDING request.connection self.old ≡ None) }
        ensures fault { IfSome (push_fault MOST_OUTSTANDING request.connection self.old) (λ fault. IsErrOf result fault) }
        ensures only { IfErr result (λ fault. fault ≢ faults.NoMemory
            → push_fault MOST_OUTSTANDING request.connection self.old ≡ Some fault) }
        ensures unchanged { OnErr result (self.new ≡ self.old) }
    {
        if let Some(fault) = self.push_fault(request.connection) {
            return Err(fault);
        }
        let reads = request.stage.is_read();
        self.requests.push(request)?;
        self.reading = self.reading || reads;
        Ok(())
    }

    /// Gives the first request that waits for this tag its result. Returns its connection; `None`
    /// if no request waits for it.
    pub(crate) fn complete(&mut self, tag: u64, outcome: R) -> Option<u64>
        ensures completed { self.new ≡ with_result tag outcome self.old }
        ensures connection { result ≡ connection_of (find (waits_for tag) self.old) }
    {
        complete_in(&mut self.requests, tag, outcome)
    }

    /// Takes a connection's replies up to its first request without a result. After [`NoMemory`]
    /// the hub is empty, and the caller closes all connections.
    #[tactic(auto, using(crate::proofs::Requests::all_replies, crate::proofs::Requests::all_kept))]
    pub fn take_replies(
        &mut self,
        alloc: Global,
        connection: u64,
    ) -> Result<Vec<Reply<E, R>>, NoMemory>
        ensures replies { IfOk result (λ replies. replies.items ≡ replies_for connection self.old) }
        ensures rest { OnOk result (self.new ≡ without_ready connection self.old) }
        ensures lost { OnErr result (self.new ≡ []) }
    {
        let requests = replace(&mut self.requests, Vec::new(alloc));
        let (replies, rest) = split_ready(alloc, connection, requests)?;
        self.requests = rest;
        Ok(replies)
    }

    /// Takes what the server's news writes, in the order of the news: an event, or the replies that
    /// a result makes ready. After [`NoMemory`] the hub is empty, and the caller closes all
    /// connections.
    pub fn deliver<V: Drop>(
        &mut self,
        alloc: Global,
        news: Vec<News<V, R>>,
    ) -> Result<Vec<Output<V, E, R>>, NoMemory>
        ensures outputs { IfOk result (λ outputs. outputs.items ≡ outputs_of news.items self.old) }
        ensures rest { OnOk result (self.new ≡ left_after news.items self.old) }
        ensures lost { OnErr result (self.new ≡ []) }
    {
        match deliver_all(alloc, self, news) {
            Ok(outputs) => Ok(outputs),
            Err(NoMemory) => {
                self.requests.clear();
                Err(NoMemory)
            }
        }
    }

    /// Takes the read that a connection's first request is.
    pub fn take_read(&mut self, connection: u64) -> Option<E>
        ensures read { result ≡ next_read connection self.old }
        ensures rest { self.new ≡ without_read connection self.old }
    {
        let expected = take_read_in(&mut self.requests, connection);
        self.note_reads();
        expected
    }

    /// Notes whether a read is left.
    fn note_reads(&mut self)
        ensures { self.new ≡ self.old }
    {
        self.reading = self.reading && has_read(&self.requests);
    }

    /// Drops the requests of a connection that has ended.
    pub fn close(&mut self, connection: u64)
        ensures { self.new ≡ without_connection connection self.old }
    {
        close_in(&mut self.requests, connection);
        self.note_reads();
    }
}

ghost use Rattle.std.specs.Prelude.{◌≡◌, ◌==◌, ◌++◌, not, true, filter, find, IfOk, OnOk};
ghost use Rattle.zk_hub.specs.Hubs.{has_read, is_blocked, waits_for, with_result, connection_of, next_read, without_read};
ghost use Rattle.zk_hub.specs.Sorting.{reply_now, kept_now, still_ready, replies_from, kept_from};

fn has_read<E: Drop, R: Drop>(requests: &[Outstanding<E, R>]) -> bool
    ensures { result ≡ has_read requests.now }
{
    requests.iter().any(|it| it.stage.is_read())
}

fn is_blocked_in<E: Drop, R: Drop>(requests: &[Outstanding<E, R>], connection: u64) -> bool
    ensures { result ≡ is_blocked connection requests.now }
{
    for request in requests {
        if request.connection == connection && request.stage.is_read() {
            return true;
        }
    }
    false
}

#[tactic(auto, using(crate::proofs::Requests::set_is))]
fn complete_in<E: Drop, R: Drop>(
    requests: &mut Vec<Outstanding<E, R>>,
    tag: u64,
    outcome: R,
) -> Option<u64>
    ensures completed { requests.new.items ≡ with_result tag outcome requests.old.items }
    ensures connection { result ≡ connection_of (find (waits_for tag) requests.old.items) }
{
    for index in 0..requests.len() {
        let request = &mut requests[index];
        if request.stage.awaits(tag) {
            request.stage = Stage::Done(outcome);
            return Some(request.connection);
        }
    }
    None
}

/// A connection's replies that can be written, and the requests that are left.
fn split_ready<E: Drop, R: Drop>(
    alloc: Global,
    connection: u64,
    requests: Vec<Outstanding<E, R>>,
) -> Result<(Vec<Reply<E, R>>, Vec<Outstanding<E, R>>), NoMemory>
    ensures replies { IfOk result (λ it. it.0.items ≡ replies_from true connection requests.items) }
    ensures rest { IfOk result (λ it. it.1.items ≡ kept_from true connection requests.items) }
{
    let mut replies = Vec::new(alloc);
    let mut rest = Vec::new(alloc);
    let mut ready = true;
    for request in requests {
        ready = sort_request(&mut replies, &mut rest, ready, connection, request)?;
    }
    Ok((replies, rest))
}

/// Appends a request's reply if it can be written, and the request itself if not. Returns whether
/// the replies after it can be.
fn sort_request<E: Drop, R: Drop>(
    replies: &mut Vec<Reply<E, R>>,
    rest: &mut Vec<Outstanding<E, R>>,
    ready: bool,
    connection: u64,
    request: Outstanding<E, R>,
) -> Result<bool, NoMemory>
    ensures replies { OnOk result (replies.new.items ≡ replies.old.items ++ reply_now ready connection request) }
    ensures rest { OnOk result (rest.new.items ≡ rest.old.items ++ kept_now ready connection request) }
    ensures ready { IfOk result (λ it. it ≡ still_ready ready connection request) }
{
    if !ready || request.connection != connection {
        rest.push(request)?;
        return Ok(ready);
    }
    let Outstanding {
        connection,
        stage,
        expected,
    } = request;
    match stage {
        Stage::Done(result) => {
            replies.push(Reply { expected, result })?;
            Ok(true)
        }
        stage => {
            rest.push(Outstanding {
                connection,
                stage,
                expected,
            })?;
            Ok(false)
        }
    }
}

fn take_read_in<E: Drop, R: Drop>(
    requests: &mut Vec<Outstanding<E, R>>,
    connection: u64,
) -> Option<E>
    ensures read { result ≡ next_read connection requests.old.items }
    ensures rest { requests.new.items ≡ without_read connection requests.old.items }
{
    for index in 0..requests.len() {
        let request = &requests[index];
        if request.connection == connection {
            if !request.stage.is_read() {
                return None;
            }
            let Outstanding { expected, .. } = requests.remove(index);
            return Some(expected);
        }
    }
    None
}

fn close_in<E: Drop, R: Drop>(requests: &mut Vec<Outstanding<E, R>>, connection: u64)
    ensures { requests.new.items ≡ filter (λ it. not (it.connection == connection)) requests.old.items }
{
    requests.retain(|it| it.connection != connection);
}
