ghost use Rattle.std.specs.Prelude.{◌≡◌, Ok, OnOk, IfOk, option_map};
ghost use Rattle.std.specs.String.{string_bytes};
ghost use Rattle.zk_line_protocol.specs.Connections.{fresh, doing, deed_alone, gone_on, seeing, when_told, session_after, session_read, unless_expired, IsTold};
ghost use Rattle.zk_line_protocol.specs.declared.parsed_line.ParsedLine.TheVariants as saids;

use crate::ask::{Action, Ask, Immediate};
use crate::session::Session;
use crate::telling::{push_answer, push_events};
use crate::told::{Reply, ServiceFault, Told};
use crate::{ExpectedReply, ParsedLine, meaning_of};
use std::alloc::Global;
use zk_acl::Ids;
use zk_path::NoMemory;
use zk_requests::Request;
use zk_table::codes::{BAD_ARGUMENTS, SESSION_EXPIRED};
use zk_table::{ReadReply, TxnResult};

/// The state of a connection between two lines.
///
/// ZooKeeper Programmer's Guide, "ZooKeeper Sessions". A session ends with `close`, or when one of
/// its requests or reads fails because it has expired; never with its connection.
#[derive(Debug)]
pub struct ConnectionState {
    /// The session that it has opened, and that has neither closed nor expired.
    session: Option<Session>,
    /// The greatest transaction that it has seen.
    seen: i64,
}

impl Drop for ConnectionState {
    fn drop(self) {
        let ConnectionState {
            session: _,
            seen: _,
        } = self;
    }
}

impl ConnectionState {
    /// Returns the state of a new connection.
    pub fn new() -> ConnectionState
        ensures { result ≡ fresh }
    {
        ConnectionState {
            session: None,
            seen: 0,
        }
    }

    /// Executes a line; `None` is a line that is too long or not UTF-8. After an allocation
    /// failure, the connection is lost.
    pub fn take(&mut self, alloc: Global, line: Option<&str>) -> Result<Action, NoMemory>
        ensures { IfOk result (λ deed. doing self.old (option_map (λ text. text.now) line.entry) ≡ (self.new, deed)) }
    {
        match &mut self.session {
            Some(session) => session.take(alloc, self.seen, line),
            None => Ok(deed_alone(alloc, &meaning_of(alloc, line)?)),
        }
    }

    /// Writes the result of an ask: the events before the reply. After an allocation failure, here
    /// or in the service, the connection is lost.
    pub fn tell(
        &mut self,
        alloc: Global,
        page: &mut String,
        wish: &ExpectedReply,
        told: &Result<Told, ServiceFault>,
    ) -> Result<(), NoMemory>
        ensures { OnOk result (IsTold (when_told self.old wish.now told.now) self.new (string_bytes page.old) (string_bytes page.new)) }
    {
        match told {
            Ok(told) => self.tell_all(alloc, page, wish, told),
            Err(ServiceFault::Server) => Ok(page.push_str("err server\n")?),
            Err(ServiceFault::Behind) => Ok(page.push_str("err behind\n")?),
            Err(ServiceFault::Memory) => Err(NoMemory),
        }
    }

    /// Writes the events and the reply. A reply that does not fit the ask changes no state.
    fn tell_all(
        &mut self,
        alloc: Global,
        page: &mut String,
        wish: &ExpectedReply,
        told: &Told,
    ) -> Result<(), NoMemory>
        ensures { OnOk result (IsTold (when_told self.old wish.now (Ok told.now)) self.new (string_bytes page.old) (string_bytes page.new)) }
    {
        push_events(page, told.events.as_slice())?;
        if push_answer(page, wish, &told.reply)? {
            self.go_on(alloc, wish, &told.reply);
        }
        Ok(())
    }

    /// Updates what is seen, and the session if the reply opened or closed it.
    fn go_on(&mut self, alloc: Global, wish: &ExpectedReply, reply: &Reply)
        ensures { self.new ≡ gone_on self.old wish.now reply.now }
    {
        match reply {
            Reply::Wrote(answer) => {
                self.see(answer.zxid);
                self.change_session(alloc, wish, answer);
            }
            Reply::Looked { reply, zxid } => {
                self.see(*zxid);
                self.end_expired_reader(reply);
            }
            Reply::Caught => {}
        }
    }

    /// Updates the greatest transaction seen, which never decreases.
    fn see(&mut self, zxid: i64)
        ensures { self.new ≡ seeing self.old zxid }
    {
        if zxid > self.seen {
            self.seen = zxid;
        }
    }

    /// Ends the session if a read failed because it has expired.
    fn end_expired_reader(&mut self, reply: &ReadReply)
        ensures { self.new ≡ record self.old { session = session_read self.old.session reply.now } }
    {
        match reply {
            ReadReply::Refused(code) => self.end_expired(*code),
            ReadReply::Content { .. }
            | ReadReply::Found(_)
            | ReadReply::Children { .. }
            | ReadReply::AclIs { .. } => {}
        }
    }

    /// Ends the session if this code says that it has expired.
    fn end_expired(&mut self, code: i32)
        ensures { self.new ≡ record self.old { session = unless_expired self.old.session code } }
    {
        if code == SESSION_EXPIRED {
            self.session = None;
        }
    }

    /// A transaction that succeeded may have opened or closed the session; one that failed may say
    /// that it has expired.
    fn change_session(&mut self, alloc: Global, wish: &ExpectedReply, answer: &TxnResult)
        ensures { self.new ≡ record self.old { session = session_after self.old.session wish.now answer.now } }
    {
        if answer.err != 0 {
            self.end_expired(answer.err);
            return;
        }
        match wish {
            ExpectedReply::Opened { .. } => self.session = Some(Session::opened(
                alloc,
                answer.zxid,
            )),
            ExpectedReply::Closed => self.session = None,
            _ => {}
        }
    }
}

/// Returns the action of a line without a session.
fn deed_alone(alloc: Global, said: &ParsedLine) -> Action
    ensures { result ≡ deed_alone said.now }
{
    match said {
        ParsedLine::Opens { timeout } => opening(alloc, *timeout),
        ParsedLine::AsksWhetherWell => Action::Says(Immediate::Well),
        ParsedLine::Nothing => Action::Says(Immediate::Refused(BAD_ARGUMENTS)),
        _ => Action::Says(Immediate::Refused(SESSION_EXPIRED)),
    }
}

/// Returns the ask for a session.
fn opening(alloc: Global, timeout: i32) -> Action
    ensures { result ≡ deed_alone (saids.Opens timeout) }
{
    let ask = Ask::Write {
        session: 0,
        cxid: 0,
        auths: Ids::new(Vec::new(alloc)),
        request: Request::OpenSession { timeout },
    };
    let wish = ExpectedReply::Opened { timeout };
    Action::Asks { ask, wish }
}
