//! An ensemble whose messages arrive in order of number, each once, and the reply to an ask there.

ghost use Rattle.std.specs.Prelude.{◌≡◌, ◌<◌, ◌≤◌, ◌+◌, ◌^◌, length, true, false, OnOk, OnErr, IfErr};
ghost use Rattle.zk_front.specs.Asks.{caught_by, wrote_by};
ghost use Rattle.zk_front.specs.Arriving.{ArrivesNext, Delivered, LacksNext, IsUndelivered};
ghost use Rattle.zk_front.specs.Locals.{MayReply, home_of, reply_by};
ghost use Rattle.zk_ensemble.specs.Outcomes.{answered_with, caught_with};
ghost use Rattle.zk_ensemble.specs.Views.{answers_in};
ghost use Rattle.zab_model.specs.Runs.{syncs_of};

use crate::event::HOME;
use crate::happening::{happen, is_lack};
use crate::reply::{caught_by, looked_by};
use crate::reply_kind::ReplyKind;
use zk_ensemble::{Answer, Ensemble, Event};
use zk_line_protocol::{Reply, ServiceFault};
use zk_path::NoMemory;

/// The most messages that arrive at a time.
const MOST_ARRIVALS: u32 = 1_048_576;

/// An ensemble, and how many of its messages have arrived.
pub(crate) struct Servers {
    pub ensemble: Ensemble,
    pub arrived: usize,
}

impl Drop for Servers {
    fn drop(self) {
        let Servers {
            ensemble: _,
            arrived: _,
        } = self;
    }
}

impl Servers {
    /// Delivers all messages that have not arrived, in order of number.
    pub(crate) fn deliver(&mut self) -> Result<(), ServiceFault>
        ensures ok { OnOk result (Delivered self.old self.new) }
        ensures err { IfErr result (λ fault. IsUndelivered self.old fault self.new) }
    {
        let mut left = MOST_ARRIVALS;
        'messages: while self.has_more() {
            if left == 0 {
                return Err(ServiceFault::Server);
            }
            left -= 1;
            self.arrive()?;
        }
        Ok(())
    }

    /// Whether a message has not arrived.
    fn has_more(&self) -> bool
        ensures no { result ≡ false → length self.now.ensemble.below.world.messages ≤ self.now.arrived }
        ensures yes { result ≡ true → self.now.arrived < length self.now.ensemble.below.world.messages }
        ensures room { result ≡ true → self.now.arrived + 1 < 2 ^ 64 }
    {
        self.arrived < self.ensemble.messages().len()
    }

    /// Delivers the next message, and ignores its answer. After an allocation failure, it has not
    /// arrived.
    fn arrive(&mut self) -> Result<(), NoMemory>
        requires { self.old.arrived + 1 < 2 ^ 64 }
        ensures ok { OnOk result (ArrivesNext self.old self.new) }
        ensures err { OnErr result (LacksNext self.old self.new) }
    {
        let message = self.arrived + 1;
        let answer = happen(
            &mut self.ensemble,
            Event::World(zab_model::Event::Arrive { message }),
        );
        if is_lack(&answer) {
            return Err(NoMemory);
        }
        self.arrived = message;
        Ok(())
    }

    /// Returns the reply to an ask at server 1.
    pub(crate) fn reply(
        &self,
        sought: ReplyKind,
        answer: Answer,
        tag: u64,
    ) -> Result<Reply, ServiceFault>
        ensures { MayReply (reply_by sought answer tag self.now.ensemble) result }
    {
        match sought {
            ReplyKind::Written => self.wrote(tag),
            ReplyKind::Looked => looked_by(answer, self.ensemble.last(HOME)),
            ReplyKind::Caught => caught_by(self.ensemble.caught(HOME, tag)),
        }
    }

    /// Returns the result, at server 1, of the call with this tag.
    fn wrote(&self, tag: u64) -> Result<Reply, ServiceFault>
        ensures { MayReply (wrote_by (answered_with tag (answers_in (home_of self.now.ensemble)))) result }
    {
        match self.ensemble.answered(HOME, tag) {
            Some(answered) => Ok(Reply::Wrote(answered.result.copy()?)),
            None => Err(ServiceFault::Server),
        }
    }
}
