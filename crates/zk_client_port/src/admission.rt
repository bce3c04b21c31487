ghost use Rattle.std.specs.Prelude.{◌≡◌, ◌++◌, ◌∷◌, [], find, OnErr, OnOk};
ghost use Rattle.zk_client_port.specs.Demands.{is_admitted, is_open, is_right};
ghost use Rattle.zk_client_port.specs.Sessions.{adopted, adopted_one, after_attach, after_attachments, after_ends, displaced_by, displaced_by_all, holder_at, opened_if_new, renewed};
ghost use Rattle.zk_connections.specs.Sessions.{has_id};

use crate::result::Attachment;
use zk_connections::{ClientSessions, PASSWORD_BYTES, is_password};
use zk_path::NoMemory;
use zk_table::Content;

/// What decides whether a client may have a session: the ensemble's sessions, and the secret of
/// their passwords.
#[derive(Debug, Drop)]
pub struct Admission {
    pub sessions: ClientSessions,
    pub secret: [u8; PASSWORD_BYTES],
}

impl Admission {
    /// Whether there is such a session.
    pub(crate) fn is_open(&self, session: i64) -> bool
        ensures { result ≡ is_open session self.now.sessions }
    {
        self.sessions.session(session).is_some()
    }

    /// Whether a client that sends this password may have the session.
    pub(crate) fn admits(&self, session: i64, password: &Option<Content>) -> bool
        ensures { result ≡ is_admitted session password.now self.now }
    {
        is_right(&self.secret, session, password) && self.is_open(session)
    }

    /// Gives sessions to connections, in order. Appends the connections that had them. After an
    /// allocation failure, the caller closes all connections.
    pub(crate) fn attach_all(
        &mut self,
        gained: &[Attachment],
        now: i64,
        displaced: &mut Vec<u64>,
    ) -> Result<(), NoMemory>
        ensures sessions { OnOk result (self.new ≡ record self.old { sessions = after_attachments now gained.now self.old.sessions }) }
        ensures displaced { OnOk result (displaced.new.items ≡ displaced.old.items ++ displaced_by_all now gained.now self.old.sessions) }
    {
        for attachment in gained {
            self.attach(attachment, now, displaced)?;
        }
        Ok(())
    }

    /// Gives a session to a connection, and opens it if it is new. Appends the connection that had
    /// it.
    fn attach(
        &mut self,
        attachment: &Attachment,
        now: i64,
        displaced: &mut Vec<u64>,
    ) -> Result<(), NoMemory>
        ensures sessions { OnOk result (self.new ≡ record self.old { sessions = after_attach now attachment.now self.old.sessions }) }
        ensures displaced { OnOk result (displaced.new.items ≡ displaced.old.items ++ displaced_by attachment.now self.old.sessions) }
    {
        let Attachment {
            session,
            connection,
            timeout,
        } = *attachment;
        if let Some(holder) = self.holder(session) {
            displaced.push(holder)?;
        }
        self.open_if_new(session, timeout, now)?;
        self.sessions.attach(session, connection, timeout, now);
        Ok(())
    }

    /// The connection that has a session.
    fn holder(&self, session: i64) -> Option<u64>
        ensures { result ≡ holder_at session self.now.sessions }
    {
        match self.sessions.session(session) {
            Some(session) => session.connection,
            None => None,
        }
    }

    fn open_if_new(&mut self, session: i64, timeout: i32, now: i64) -> Result<(), NoMemory>
        ensures opened { OnOk result (self.new ≡ record self.old { sessions = opened_if_new session timeout now self.old.sessions }) }
        ensures unchanged { OnErr result (self.new ≡ self.old) }
    {
        self.sessions.open(session, timeout, now)
    }

    /// Removes sessions that have ended.
    pub(crate) fn end_all(&mut self, closed: &[i64])
        ensures { self.new ≡ record self.old { sessions = after_ends closed.now self.old.sessions } }
    {
        for session in closed {
            self.sessions.end(*session);
        }
    }

    /// Gives each of these sessions its whole timeout again. The numbers are unsigned.
    pub fn renew(&mut self, known: &[(u64, i32)], now: i64)
        ensures { self.new ≡ record self.old { sessions = renewed now known.now self.old.sessions } }
    {
        for (session, _) in known {
            self.sessions.touch(session.cast_signed(), now);
        }
    }

    /// Opens the sessions that a tree has and that are not known yet: those of clients that were
    /// lost before the reply. The numbers are unsigned. After an allocation failure, some are
    /// not opened.
    pub fn adopt(&mut self, known: &[(u64, i32)], now: i64) -> Result<(), NoMemory>
        ensures { OnOk result (self.new ≡ record self.old { sessions = adopted now known.now self.old.sessions }) }
    {
        for one in known {
            self.adopt_one(one, now)?;
        }
        Ok(())
    }

    fn adopt_one(&mut self, known: &(u64, i32), now: i64) -> Result<(), NoMemory>
        ensures { OnOk result (self.new ≡ record self.old { sessions = adopted_one now known.now self.old.sessions }) }
    {
        let (session, timeout) = *known;
        self.open_if_new(session.cast_signed(), timeout, now)
    }
}

fn is_right(secret: &[u8; PASSWORD_BYTES], session: i64, password: &Option<Content>) -> bool
    ensures { result ≡ is_right secret.now session password.now }
{
    match password {
        Some(password) => is_password(secret, session, password.as_slice()),
        None => false,
    }
}
