//! Starts a service over servers: server 1 leads, and the others follow it.

ghost use Rattle.std.specs.Prelude.{◌≡◌, ◌≤◌, ◌-◌, OnOk};
ghost use Rattle.zab_model.specs.declared.event.Event.TheVariants.{Arrive, Follow, Lead};
ghost use Rattle.zk_front.specs.Calling.{Calls, CallsOne};
ghost use Rattle.zk_front.specs.Starting.{Arrives, Begins, followings};
ghost use Rattle.zk_model.specs.declared.event.Event.TheVariants as events;

use crate::seat_caller::{SeatCaller, sent_by};
use crate::{HOME, ServiceFault, service_fault_of};
use std::sync::Wait;
use zab_model::Event as WorldEvent;
use zk_model::{EnsembleFault, Event};
use zk_servers::CallLedger;

/// The most messages that arrive until the servers are ready.
const MOST_ARRIVALS: usize = 1_048_576;

impl<L: CallLedger, R: Wait> SeatCaller<'_, L, R> {
    /// Has server 1 lead, the others follow it, and each message arrive once. Messages are not sent
    /// to inboxes.
    #[tactic(auto, using(crate::proofs::Beginning::begun))]
    pub(crate) fn begin(&mut self, servers: usize) -> Result<(), ServiceFault>
        ensures { OnOk result (Begins servers self.old self.new) }
    {
        self.lead()?;
        self.follow_all(servers)?;
        self.arrive_all()
    }

    fn lead(&mut self) -> Result<(), ServiceFault>
        ensures { OnOk result (CallsOne self.old (events.World (Lead 1)) self.new) }
    {
        self.call(Event::World(WorldEvent::Lead { server: HOME }))?;
        self.not_refused()
    }

    fn follow_all(&mut self, servers: usize) -> Result<(), ServiceFault>
        ensures { OnOk result (Calls self.old (followings (servers - 1)) self.new) }
    {
        for others in 1..servers {
            self.follow(others + 1)?;
        }
        Ok(())
    }

    fn follow(&mut self, server: usize) -> Result<(), ServiceFault>
        ensures { OnOk result (CallsOne self.old (events.World (Follow server 1)) self.new) }
    {
        self.call(Event::World(WorldEvent::Follow {
            server,
            leader: HOME,
        }))?;
        self.not_refused()
    }

    fn not_refused(&self) -> Result<(), ServiceFault> {
        match self.refusal() {
            Some(fault) => Err(service_fault_of(fault)),
            None => Ok(()),
        }
    }

    fn arrive_all(&mut self) -> Result<(), ServiceFault>
        ensures { OnOk result (Arrives self.old self.new) }
    {
        let mut last = self.last_sent()?;
        for arrived in 0..MOST_ARRIVALS {
            if arrived >= last {
                return Ok(());
            }
            self.arrive(arrived + 1)?;
            last = last.max(self.sent()?);
        }
        if last > MOST_ARRIVALS {
            return Err(ServiceFault::Server);
        }
        Ok(())
    }

    /// Delivers a message. A message that is rejected is no fault, unless its server died.
    fn arrive(&mut self, message: usize) -> Result<(), ServiceFault>
        ensures { OnOk result (CallsOne self.old (events.World (Arrive message)) self.new) }
    {
        self.call(Event::World(WorldEvent::Arrive { message }))?;
        match self.refusal() {
            Some(EnsembleFault::Died(_)) => Err(ServiceFault::Memory),
            _ => Ok(()),
        }
    }

    /// Returns the number of the last message that was sent so far.
    fn last_sent(&self) -> Result<usize, ServiceFault> {
        let mut last = 0;
        for receipt in &self.receipts {
            last = last.max(sent_by(receipt)?);
        }
        Ok(last)
    }
}
