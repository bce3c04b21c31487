ghost use Rattle.std.specs.List.Sorted.{IsStrictlySortedBy};
ghost use Rattle.std.specs.Ordering.{int_cmp};
ghost use Rattle.std.specs.Prelude.{◌≡◌, ◌<◌, ◌≤◌, length, IfOk, MatchResult};
ghost use Rattle.zk_connections.specs.Sessions.{is_at, with_first, detached, without_session, expired_at, session_cmp, IsSessionPlace};

use crate::session::Session;
use std::alloc::Global;
use std::cmp::Ordering;
use std::marker::Model;
use zk_path::NoMemory;

/// The sessions of an ensemble's clients, in the order of their numbers. Contracts see their list.
#[derive(Debug, Drop)]
pub struct ClientSessions {
    sessions: Vec<Session>,
}

impl Model for ClientSessions {
    ghost use Rattle.std.specs.Prelude.{List};
    ghost use Rattle.std.specs.List.Sorted.{IsStrictlySortedBy};
    ghost use Rattle.zk_connections.specs.Sessions.{session_cmp};
    ghost use Rattle.zk_connections.specs.declared.session.Session.{Session};

    ghost Value = { List Session };

    ghost view = { λ it. it.sessions.items };

    ghost invariant = { λ it. IsStrictlySortedBy session_cmp it.sessions.items };
}

/// The position of a session, or else the one where it would be inserted.
fn position_of(sessions: &[Session], id: i64) -> Result<usize, usize>
    requires { IsStrictlySortedBy session_cmp sessions.now }
    ensures within { MatchResult result (λ at. at < length sessions.now) (λ at. at ≤ length sessions.now) }
    ensures place { IsSessionPlace id sessions.now result }
{
    sessions.binary_search_by(
        |it: &Session| -> Ordering
            ensures { result ≡ int_cmp it.now.id id }
        { it.id.cmp(&id) },
    )
}

impl ClientSessions {
    ghost use Rattle.std.specs.Prelude.{◌≡◌, [], find, IfOk, OnOk, OnErr};
    ghost use Rattle.std.specs.Option.{option_copied};
    ghost use Rattle.zk_connections.specs.Sessions.{new_session, has_id, is_at, with_first, with_opened, touched, attached, detached, without_session, expired_at};

    /// Allocates no memory.
    pub fn new(alloc: Global) -> ClientSessions
        ensures { result ≡ [] }
    {
        ClientSessions {
            sessions: Vec::new(alloc),
        }
    }

    /// Adds a session that was opened now, and that no connection has yet. One that is there stays as
    /// it is.
    pub fn open(&mut self, id: i64, timeout: i32, now: i64) -> Result<(), NoMemory>
        ensures opened { OnOk result (self.new ≡ with_opened (new_session id timeout now) self.old) }
        ensures unchanged { OnErr result (self.new ≡ self.old) }
    {
        match position_of(&self.sessions, id) {
            Ok(_) => {}
            Err(at) => self.sessions.insert(at, Session::new(id, timeout, now))?,
        }
        Ok(())
    }

    /// The session with this number; `None` if it was never opened, or has ended.
    pub fn session(&self, id: i64) -> Option<&Session>
        ensures { option_copied result ≡ find (has_id id) self.now }
    {
        match position_of(&self.sessions, id) {
            Ok(at) => Some(&self.sessions[at]),
            Err(_) => None,
        }
    }

    /// Records that a session's client was heard of now: the session expires its timeout later.
    pub fn touch(&mut self, id: i64, now: i64)
        ensures { self.new ≡ with_first (has_id id) (touched now) self.old }
    {
        match position_of(&self.sessions, id) {
            Ok(at) => self.sessions[at].touch(now),
            Err(_) => {}
        }
    }

    /// Gives a session to a connection, which takes it from the one that had it. The timeout is that
    /// of the new connection, from now on.
    pub fn attach(&mut self, id: i64, connection: u64, timeout: i32, now: i64)
        ensures { self.new ≡ with_first (has_id id) (attached connection timeout now) self.old }
    {
        match position_of(&self.sessions, id) {
            Ok(at) => self.sessions[at].attach(connection, timeout, now),
            Err(_) => {}
        }
    }

    /// Records that a connection has ended. Its session lives on until its deadline.
    pub fn detach(&mut self, connection: u64)
        ensures { self.new ≡ with_first (is_at connection) detached self.old }
    {
        detach_in(&mut self.sessions, connection);
    }

    /// Removes a session that has ended.
    pub fn end(&mut self, id: i64)
        ensures { self.new ≡ without_session id self.old }
    {
        end_in(&mut self.sessions, id);
    }

    /// The numbers of the sessions that have expired.
    pub fn expired(&self, alloc: Global, now: i64) -> Result<Vec<i64>, NoMemory>
        ensures { IfOk result (λ ids. ids.items ≡ expired_at now self.now) }
    {
        expired_in(alloc, &self.sessions, now)
    }
}

fn expired_in(alloc: Global, sessions: &[Session], now: i64) -> Result<Vec<i64>, NoMemory>
    ensures { IfOk result (λ ids. ids.items ≡ expired_at now sessions.now) }
{
    let mut ids = Vec::new(alloc);
    for session in sessions {
        if session.has_expired(now) {
            ids.push(session.id)?;
        }
    }
    Ok(ids)
}

fn end_in(sessions: &mut Vec<Session>, id: i64)
    ensures { sessions.new.items ≡ without_session id sessions.old.items }
{
    sessions.retain(|it| it.id != id);
}

fn detach_in(sessions: &mut Vec<Session>, connection: u64)
    ensures { sessions.new.items ≡ with_first (is_at connection) detached sessions.old.items }
{
    for index in 0..sessions.len() {
        let session = &mut sessions[index];
        if session.is_at(connection) {
            session.detach();
            return;
        }
    }
}
