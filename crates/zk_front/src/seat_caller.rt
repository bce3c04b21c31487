//! The calls of a service by its seat, and their receipts.

ghost use Rattle.std.specs.Prelude.{◌≡◌, ◌+◌, IfOk, OnOk, OnErr};
ghost use Rattle.zk_front.specs.Calling.{CallsOne, IsGiven};
ghost use Rattle.zk_front.specs.Reading.{IsRead, IsReadBy};
ghost use Rattle.zk_front.specs.Remotes.{TellsIn, TellsLast};
ghost use Rattle.zk_servers.specs.Turns.{numbers_of, numbers_told};

use crate::{HOME, Reply, ReplyKind, ServiceFault, looked_by, service_fault_of};
use std::alloc::Global;
use std::marker::Model;
use std::sync::Wait;
use zk_model::{Answer, EnsembleFault, Event};
use zk_servers::{CallFault, CallLedger, Looked, Mark, Outcome, Receipt, Seat, Senders, Shared};

/// Calls by a seat, and keeps a receipt for each call.
#[derive(Drop)]
pub(crate) struct SeatCaller<'s, L: CallLedger, R: Wait> {
    pub rt: &'s R,
    pub alloc: Global,
    pub shared: &'s Shared<L>,
    pub senders: Senders,
    pub seat: Seat<L>,
    pub receipts: Vec<Receipt>,
    /// The last tag that was used: no call of the seat has a greater one.
    pub tag: u64,
}

impl<'s, L: CallLedger, R: Wait> Model for SeatCaller<'s, L, R> {
    ghost use Rattle.zk_front.specs.Calling.{Calling, IsKept};

    ghost Value = { Calling };

    ghost view = { λ it. record { calls = it.seat; receipts = it.receipts.items; tag = it.tag } };

    ghost invariant = { λ it. IsKept (record { calls = it.seat; receipts = it.receipts.items; tag = it.tag }) };
}

impl<L: CallLedger, R: Wait> SeatCaller<'_, L, R> {
    /// Returns a tag that no call of this seat has.
    #[tactic(auto, using(crate::proofs::Calling::kept_tag))]
    pub(crate) fn next_tag(&mut self) -> Result<u64, ServiceFault>
        ensures next { IfOk result (λ tag. tag ≡ self.old.tag + 1) }
        ensures given { IfOk result (λ tag. self.new.tag ≡ tag) }
        ensures last { OnErr result (self.new.tag ≡ self.old.tag) }
        ensures same { (self.new.calls ≡ self.old.calls) × (self.new.receipts ≡ self.old.receipts) }
    {
        let tag = self.tag.checked_add(1).ok_or(ServiceFault::Server)?;
        self.tag = tag;
        Ok(tag)
    }

    /// Calls an event, and keeps its receipt. The result may be an error.
    #[tactic(auto, using(crate::proofs::Calling::kept_call))]
    pub(crate) fn call(&mut self, event: Event) -> Result<(), ServiceFault>
        requires given { IsGiven self.old.tag event }
        ensures called { OnOk result (CallsOne self.old event self.new) }
        ensures tag { self.new.tag ≡ self.old.tag }
        ensures refused { OnErr result (self.new ≡ self.old) }
    {
        if self.receipts.reserve(1).is_err() {
            return Err(ServiceFault::Memory);
        }
        match self.shared.call(self.rt, &mut self.seat, event) {
            Ok(receipt) => {
                self.receipts.push_reserved(receipt);
                Ok(())
            }
            Err(fault) => Err(fault_of_call(fault)),
        }
    }

    /// Calls an event, and sends the numbers of its messages to their addressees.
    #[tactic(auto, using(crate::proofs::Calling::kept_call))]
    pub(crate) fn make(&mut self, event: Event) -> Result<(), ServiceFault>
        requires given { IsGiven self.old.tag event }
        ensures called { OnOk result (CallsOne self.old event self.new) }
        ensures tag { self.new.tag ≡ self.old.tag }
        ensures refused { OnErr result (self.new ≡ self.old) }
    {
        if self.receipts.reserve(1).is_err() {
            return Err(ServiceFault::Memory);
        }
        match self
            .shared
            .call_routed(self.rt, &self.senders, &mut self.seat, event)
        {
            Ok(receipt) => {
                self.receipts.push_reserved(receipt);
                Ok(())
            }
            Err(fault) => Err(fault_of_call(fault)),
        }
    }

    /// Calls the event of an ask. Returns a read with the events of its session that fired before
    /// it, and nothing yet for any other ask.
    pub(crate) fn ask(
        &mut self,
        event: Event,
        sought: ReplyKind,
        tag: u64,
        session: i64,
        from: Mark,
    ) -> Result<Option<Outcome>, ServiceFault>
        requires given { IsGiven self.old.tag event }
        ensures called { OnOk result (CallsOne self.old event self.new) }
        ensures tag { self.new.tag ≡ self.old.tag }
        ensures refused { OnErr result (self.new ≡ self.old) }
        ensures read { IfOk result (IsReadBy sought event tag session self.new.receipts) }
    {
        match sought {
            ReplyKind::Looked => {
                let outcome = self.look(event, tag, session, from)?;
                Ok(Some(outcome))
            }
            ReplyKind::Written | ReplyKind::Caught => {
                self.make(event)?;
                Ok(None)
            }
        }
    }

    /// Calls a read, and keeps its receipt.
    #[tactic(auto, using(crate::proofs::Calling::kept_call, crate::proofs::Reading::is_read))]
    fn look(
        &mut self,
        event: Event,
        tag: u64,
        session: i64,
        from: Mark,
    ) -> Result<Outcome, ServiceFault>
        requires given { IsGiven self.old.tag event }
        ensures called { OnOk result (CallsOne self.old event self.new) }
        ensures tag { self.new.tag ≡ self.old.tag }
        ensures refused { OnErr result (self.new ≡ self.old) }
        ensures read { IfOk result (IsRead event tag session self.new.receipts) }
    {
        if self.receipts.reserve(1).is_err() {
            return Err(ServiceFault::Memory);
        }
        match self
            .shared
            .look(self.rt, &mut self.seat, event, HOME, tag, session, from)
        {
            Ok(looked) => {
                let Looked { receipt, outcome } = looked;
                self.receipts.push_reserved(receipt);
                Ok(outcome)
            }
            Err(fault) => Err(fault_of_call(fault)),
        }
    }

    /// Returns the error of the last event, if it failed.
    pub(crate) fn refusal(&self) -> Option<EnsembleFault> {
        match self.receipts.last() {
            Some(receipt) => refusal_in(receipt),
            None => None,
        }
    }

    /// Returns the reply to the last call, a read.
    pub(crate) fn looked(&self) -> Result<Reply, ServiceFault>
        ensures { IfOk result (λ reply. TellsLast self.now.receipts reply) }
    {
        match self.receipts.last() {
            Some(receipt) => told_by(receipt),
            None => Err(ServiceFault::Server),
        }
    }

    /// Returns the seat and the receipts.
    pub(crate) fn end(self) -> (Seat<L>, Vec<Receipt>)
        ensures seat { result.0 ≡ self.entry.calls }
        ensures receipts { result.1.items ≡ self.entry.receipts }
        ensures told { numbers_told result.1.items ≡ numbers_of result.0 }
    {
        let SeatCaller { seat, receipts, .. } = self;
        (seat, receipts)
    }

    /// Returns the number of the last message that the last call sent; 0 if it sent none.
    pub(crate) fn sent(&self) -> Result<usize, ServiceFault> {
        match self.receipts.last() {
            Some(receipt) => sent_by(receipt),
            None => Ok(0),
        }
    }
}

fn refusal_in(receipt: &Receipt) -> Option<EnsembleFault> {
    match &receipt.answer {
        Ok(_) => None,
        Err(fault) => Some(*fault),
    }
}

fn told_by(receipt: &Receipt) -> Result<Reply, ServiceFault>
    ensures { IfOk result (λ reply. TellsIn receipt.now reply) }
{
    match &receipt.answer {
        Ok(answer) => looked_by(answer.copy()?, receipt.zxid),
        Err(fault) => Err(service_fault_of(*fault)),
    }
}

pub(crate) fn sent_by(receipt: &Receipt) -> Result<usize, ServiceFault> {
    match &receipt.answer {
        Ok(Answer::Moved(moved)) => match moved.first.checked_add(moved.count) {
            Some(next) => Ok(next.saturating_sub(1)),
            None => Err(ServiceFault::Server),
        },
        _ => Ok(0),
    }
}

fn fault_of_call(fault: CallFault) -> ServiceFault {
    match fault {
        CallFault::NoMemory => ServiceFault::Memory,
        CallFault::Full => ServiceFault::Server,
    }
}
