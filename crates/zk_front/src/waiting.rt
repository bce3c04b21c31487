//! Waits for the outcome of a call at the server.

use crate::seat_caller::SeatCaller;
use crate::{HOME, ReplyKind, ServiceFault};
use std::sync::Wait;
use std::time::Duration;
use std::{thread, time};
use zk_servers::{CallLedger, Mark, Outcome};

/// The most times that the caller looks for a change.
const MOST_LOOKS: u32 = 1_048_576;

/// The most times that other threads are let run in between, before this one sleeps.
const YIELDS: u32 = 256;

/// Microseconds of a sleep.
const PAUSE: u64 = 50;

impl<L: CallLedger, R: Wait + time::Clock> SeatCaller<'_, L, R> {
    /// Waits until an ask has its outcome, and returns it with the session's events. Takes the lock
    /// only if the server had a call since the lock was taken last.
    pub(crate) fn wait_for(
        &self,
        sought: ReplyKind,
        tag: u64,
        session: i64,
        from: Mark,
    ) -> Result<Outcome, ServiceFault> {
        let mut from = from;
        let mut seen = None;
        for looks in 0..MOST_LOOKS {
            let called = Some(self.shared.called(HOME));
            if called != seen {
                let outcome = self.shared.outcome(self.rt, HOME, tag, session, from)?;
                if is_found(sought, &outcome) {
                    return Ok(outcome);
                }
                from = Mark {
                    events: from.events,
                    ..outcome.mark
                };
                seen = called;
            }
            self.pause(looks);
        }
        Err(ServiceFault::Server)
    }

    /// Lets the servers run.
    fn pause(&self, looks: u32) {
        if looks < YIELDS {
            thread::yield_now();
        } else {
            thread::sleep(self.rt, Duration::from_micros(PAUSE));
        }
    }
}

fn is_found(sought: ReplyKind, outcome: &Outcome) -> bool {
    match sought {
        ReplyKind::Written => outcome.answered.is_some(),
        ReplyKind::Looked => true,
        ReplyKind::Caught => outcome.caught.is_some(),
    }
}
