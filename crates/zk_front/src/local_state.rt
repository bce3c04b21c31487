//! Server 1, and the events that each session has received.

ghost use Rattle.std.specs.Prelude.{◌≡◌, Ok, IfOk, OnOk, OnErr};
ghost use Rattle.zk_front.specs.Locals.{Asks, IsNewLocalState, IsToldAll, Settles, Tells, cursor_of, reply_by, undelivered_events};

use crate::ensemble_servers::Servers;
use crate::event::{HOME, event_of, session_of};
use crate::happening::happen;
use crate::reply::service_fault_of;
use crate::reply_kind::{ReplyKind, sought_by};
use std::alloc::Global;
use std::collections::BTreeMap;
use zk_ensemble::Answer;
use zk_line_protocol::{Ask, Events, Reply, ServiceFault, Told};
use zk_path::NoMemory;

/// The ensemble, and for each session the number of server 1's events at its last reply.
pub(crate) struct LocalState {
    pub servers: Servers,
    pub told: BTreeMap<i64, usize>,
}

impl Drop for LocalState {
    fn drop(self) {
        let LocalState {
            servers: _,
            told: _,
        } = self;
    }
}

impl LocalState {
    /// Has sent no session any event.
    pub(crate) fn new(alloc: Global, servers: Servers) -> LocalState
        ensures { IsNewLocalState servers result }
    {
        LocalState {
            servers,
            told: BTreeMap::new(alloc),
        }
    }

    /// Executes an ask at server 1, with this tag and at this time, in milliseconds.
    pub(crate) fn ask(&mut self, ask: Ask, tag: u64, now: i64) -> Result<Told, ServiceFault>
        ensures { Asks self.old ask tag now result self.new }
    {
        let session = session_of(&ask);
        let sought = sought_by(&ask);
        match happen(&mut self.servers.ensemble, event_of(ask, tag, now)) {
            Ok(answer) => self.settle(session, sought, answer, tag),
            Err(fault) => Err(service_fault_of(fault)),
        }
    }

    /// Delivers all messages, and then returns the reply.
    fn settle(
        &mut self,
        session: i64,
        sought: ReplyKind,
        answer: Answer,
        tag: u64,
    ) -> Result<Told, ServiceFault>
        ensures { Settles self.old session sought answer tag result self.new }
    {
        match self.servers.deliver() {
            Ok(()) => self.tell(session, sought, answer, tag),
            Err(fault) => Err(fault),
        }
    }

    /// Returns the reply, with the session's events that it was not sent before.
    fn tell(
        &mut self,
        session: i64,
        sought: ReplyKind,
        answer: Answer,
        tag: u64,
    ) -> Result<Told, ServiceFault>
        ensures tells { Tells self.old session (reply_by sought answer tag self.old.servers.ensemble) result self.new }
        ensures servers { self.new.servers ≡ self.old.servers }
    {
        match self.servers.reply(sought, answer, tag) {
            Ok(reply) => self.tell_with(session, reply),
            Err(fault) => Err(fault),
        }
    }

    /// Adds to a reply the session's events that it was not sent before.
    fn tell_with(&mut self, session: i64, reply: Reply) -> Result<Told, ServiceFault>
        ensures tells { Tells self.old session (Ok reply) result self.new }
        ensures servers { self.new.servers ≡ self.old.servers }
    {
        match self.news(session) {
            Ok(events) => Ok(Told { events, reply }),
            Err(NoMemory) => Err(ServiceFault::Memory),
        }
    }

    /// Returns the session's events that it was not sent before, and marks them as sent.
    fn news(&mut self, session: i64) -> Result<Events, NoMemory>
        ensures ok { IfOk result (λ events. events ≡ undelivered_events self.old session) }
        ensures told { OnOk result (IsToldAll self.old session self.new) }
        ensures err { OnErr result (self.new.told.entries ≡ self.old.told.entries) }
        ensures servers { self.new.servers ≡ self.old.servers }
    {
        let from = cursor_of(&self.told, session);
        let events = self.servers.ensemble.news(HOME, session, from)?;
        let count = self.servers.ensemble.events_of(HOME).len();
        match self.told.insert(session, count) {
            Ok(_) => Ok(Events::new(events)),
            Err(_) => Err(NoMemory),
        }
    }
}

/// Returns the number of the server's events at the session's last reply.
fn cursor_of(told: &BTreeMap<i64, usize>, session: i64) -> usize
    ensures { result ≡ cursor_of told.now session }
{
    told.get(&session).copied().unwrap_or(0)
}
