//! Executes an ask, and returns its reply.

ghost use Rattle.std.specs.Prelude.{◌≡◌, ◌⊎◌, ◌+◌, ◌∷◌, [], IfOk, OnOk, OnErr};
ghost use Rattle.zk_front.specs.Calling.{Calls};
ghost use Rattle.zk_front.specs.Keeping.{KeepsOrNot, due_once, heard, keeping_of, kept, let_go, settled, turn_of};
ghost use Rattle.zk_front.specs.Reading.{HasEventsOf, IsFound, IsToldReadBy};
ghost use Rattle.zk_front.specs.Remotes.{AsksAt, Expires, IsTold, Misses, Stops, expiry, serving};
ghost use Rattle.zk_front.specs.Asks.{event_of, session_of, sought_by};
ghost use Rattle.zk_front.specs.declared.reply_kind.ReplyKind.TheVariants as seeks;
ghost use Rattle.zk_prepare.specs.Deadlines.{expired_at};
ghost use Rattle.zk_requests.specs.Timeouts.{clamp};

use crate::seat_caller::SeatCaller;
use crate::session_effect::{SessionEffect, turn_of};
use crate::session_table::SessionTable;
use crate::{
    Ask, Events, HOME, Reply, ReplyKind, ServiceFault, Told, caught_by, event_of, service_fault_of,
    session_of, sought_by,
};
use std::sync::Wait;
use std::time;
use zk_model::{Answered, Event};
use zk_prepare::clamp;
use zk_servers::{CallLedger, Mark, Outcome};

/// Executes asks: the calls, the sessions that are kept, and the number of the server's results and
/// syncs that were read.
#[derive(Drop)]
pub(crate) struct RequestDriver<'s, L: CallLedger, R: Wait> {
    pub caller: SeatCaller<'s, L, R>,
    pub clients: SessionTable,
    pub mark: Mark,
}

/// An ask whose event was called.
#[derive(Clone, Copy, Debug, Drop)]
pub(crate) struct Asked {
    session: i64,
    sought: ReplyKind,
    turn: SessionEffect,
    tag: u64,
    now: i64,
}

/// An ask that was called, with the outcome if it is a read.
#[derive(Drop)]
pub(crate) struct Made {
    asked: Asked,
    outcome: Option<Outcome>,
}

impl<L: CallLedger, R: Wait> RequestDriver<'_, L, R> {
    /// Closes and forgets each expired session.
    fn expire_due(&mut self, now: i64) -> Result<(), ServiceFault>
        ensures expired { OnOk result (Expires now (expired_at self.old.clients.tracker now) (serving self.old.caller self.old.clients) (serving self.new.caller self.new.clients)) }
        ensures stopped { OnErr result (Stops now (expired_at self.old.clients.tracker now) (serving self.old.caller self.old.clients) (serving self.new.caller self.new.clients)) }
    {
        let due = self.clients.tracker.expired(now)?;
        self.expire_all(due, now)
    }

    fn expire_all(&mut self, due: Vec<i64>, now: i64) -> Result<(), ServiceFault>
        ensures expired { OnOk result (Expires now due.items (serving self.old.caller self.old.clients) (serving self.new.caller self.new.clients)) }
        ensures stopped { OnErr result (Stops now due.items (serving self.old.caller self.old.clients) (serving self.new.caller self.new.clients)) }
    {
        for session in due {
            self.expire(session, now)?;
        }
        Ok(())
    }

    /// Closes an expired session, and forgets it if the close was called, with any result.
    fn expire(&mut self, session: i64, now: i64) -> Result<(), ServiceFault>
        ensures called { OnOk result (Calls self.old.caller (expiry (self.old.caller.tag + 1) session now ∷ []) self.new.caller) }
        ensures tag { OnOk result (self.new.caller.tag ≡ self.old.caller.tag + 1) }
        ensures let_go { OnOk result (keeping_of self.new.clients ≡ let_go session (keeping_of self.old.clients)) }
        ensures stopped { OnErr result (Stops now (session ∷ []) (serving self.old.caller self.old.clients) (serving self.new.caller self.new.clients)) }
    {
        let tag = self.caller.next_tag()?;
        self.caller.make(Event::World(zab_model::Event::Expire {
            server: HOME,
            tag,
            session,
            now,
        }))?;
        self.clients.forget(session);
        self.accepted()
    }

    /// Fails if the last event failed.
    fn accepted(&self) -> Result<(), ServiceFault> {
        match self.caller.refusal() {
            Some(fault) => Err(service_fault_of(fault)),
            None => Ok(()),
        }
    }

    /// Calls the event of an ask. Moves the deadline of its session, if it is kept.
    fn make_own(&mut self, ask: Ask, now: i64) -> Result<Made, ServiceFault>
        ensures called { OnOk result (Calls self.old.caller (event_of ask (self.old.caller.tag + 1) now ∷ []) self.new.caller) }
        ensures asked { IfOk result (λ made. made.asked.sought ≡ sought_by ask) }
        ensures turn { IfOk result (λ made. (made.asked.turn ≡ turn_of ask) × (made.asked.session ≡ session_of ask) × (made.asked.now ≡ now)) }
        ensures read { IfOk result (λ made. IsToldReadBy made.asked.sought ask self.new.caller.receipts made.outcome) }
        ensures heard { OnOk result (keeping_of self.new.clients ≡ heard (session_of ask) now (keeping_of self.old.clients)) }
        ensures missed { OnErr result (Misses now (serving self.old.caller self.old.clients) ask (serving self.new.caller self.new.clients)) }
    {
        let session = session_of(&ask);
        self.clients.hear(session, now)?;
        let tag = self.caller.next_tag()?;
        let asked = Asked {
            session,
            sought: sought_by(&ask),
            turn: turn_of(&ask),
            tag,
            now,
        };
        let from = self.clients.cursor_of(session, self.mark);
        let outcome = self
            .caller
            .ask(event_of(ask, tag, now), asked.sought, tag, session, from)?;
        self.accepted()?;
        Ok(Made { asked, outcome })
    }
}

impl<L: CallLedger, R: Wait + time::Clock> RequestDriver<'_, L, R> {
    /// Executes an ask at this time, in milliseconds.
    pub(crate) fn ask(&mut self, ask: Ask, now: i64) -> Result<Told, ServiceFault>
        ensures { AsksAt now (expired_at self.old.clients.tracker now) (serving self.old.caller self.old.clients) ask result (serving self.new.caller self.new.clients) }
    {
        self.expire_due(now)?;
        let made = self.make_own(ask, now)?;
        self.told(made)
    }

    /// Waits for the reply.
    #[tactic(auto, using(crate::proofs::Keeping::none_opened))]
    fn told(&mut self, made: Made) -> Result<Told, ServiceFault>
        ensures told { IfOk result (λ told. IsTold made.asked.sought self.new.caller.receipts told.reply) }
        ensures events { IfOk result (λ told. HasEventsOf made.outcome told.events) }
        ensures same { self.new.caller ≡ self.old.caller }
        ensures kept { IfOk result (λ told. keeping_of self.new.clients ≡ settled made.asked.turn made.asked.session made.asked.now told.reply (keeping_of self.old.clients)) }
        ensures left { OnErr result (KeepsOrNot made.asked.turn made.asked.now (keeping_of self.old.clients) (keeping_of self.new.clients)) }
    {
        let Made { asked, outcome } = made;
        let outcome = self.found(asked, outcome)?;
        let Outcome {
            answered,
            caught,
            events,
            mark,
        } = outcome;
        self.mark = mark;
        self.clients.tell(asked.session, mark.events)?;
        let reply = self.reply(asked, answered, caught)?;
        let events = Events::new(events);
        Ok(Told { events, reply })
    }

    /// Returns the outcome of an ask: of a read at once, of any other ask once it is there.
    fn found(&self, asked: Asked, outcome: Option<Outcome>) -> Result<Outcome, ServiceFault>
        ensures { IfOk result (IsFound outcome) }
    {
        if let Some(outcome) = outcome {
            return Ok(outcome);
        }
        let from = self.clients.cursor_of(asked.session, self.mark);
        self.caller
            .wait_for(asked.sought, asked.tag, asked.session, from)
    }

    #[tactic(auto, using(crate::proofs::Keeping::none_opened))]
    fn reply(
        &mut self,
        asked: Asked,
        answered: Option<Answered>,
        caught: Option<u64>,
    ) -> Result<Reply, ServiceFault>
        ensures told { IfOk result (λ reply. IsTold asked.sought self.new.caller.receipts reply) }
        ensures same { self.new.caller ≡ self.old.caller }
        ensures kept { IfOk result (λ reply. keeping_of self.new.clients ≡ settled asked.turn asked.session asked.now reply (keeping_of self.old.clients)) }
        ensures left { OnErr result (KeepsOrNot asked.turn asked.now (keeping_of self.old.clients) (keeping_of self.new.clients)) }
    {
        match asked.sought {
            ReplyKind::Written => self.wrote(asked, answered),
            ReplyKind::Looked => self.caller.looked(),
            ReplyKind::Caught => caught_by(caught),
        }
    }

    /// Returns the reply to a write, and keeps the session that it opened or forgets the one that
    /// it closed.
    #[tactic(auto, using(crate::proofs::Keeping::none_opened))]
    fn wrote(&mut self, asked: Asked, answered: Option<Answered>) -> Result<Reply, ServiceFault>
        ensures told { IfOk result (λ reply. IsTold seeks.Written self.new.caller.receipts reply) }
        ensures same { self.new.caller ≡ self.old.caller }
        ensures kept { IfOk result (λ reply. keeping_of self.new.clients ≡ settled asked.turn asked.session asked.now reply (keeping_of self.old.clients)) }
        ensures left { OnErr result (KeepsOrNot asked.turn asked.now (keeping_of self.old.clients) (keeping_of self.new.clients)) }
    {
        let Some(Answered { result: wrote, .. }) = answered else {
            return Err(ServiceFault::Server);
        };
        if wrote.err == 0 {
            match asked.turn {
                SessionEffect::Opens(timeout) => self.keep(wrote.zxid, timeout, asked.now)?,
                SessionEffect::Closes => self.clients.close(asked.session),
                SessionEffect::Neither => {}
            }
        }
        Ok(Reply::Wrote(wrote))
    }

    /// Keeps a session from now on, which receives the events from now on.
    fn keep(&mut self, session: i64, timeout: i32, now: i64) -> Result<(), ServiceFault>
        ensures same { self.new.caller ≡ self.old.caller }
        ensures kept { OnOk result (keeping_of self.new.clients ≡ kept session (clamp timeout) now (keeping_of self.old.clients)) }
        ensures left { OnErr result ((keeping_of self.new.clients ≡ keeping_of self.old.clients) ⊎ (keeping_of self.new.clients ≡ due_once session (clamp timeout) now (keeping_of self.old.clients))) }
    {
        self.clients
            .keep(session, clamp(timeout), now, self.mark.events)?;
        Ok(())
    }
}
