ghost use Rattle.std.specs.Prelude.{IfOk, IfErr};
ghost use Rattle.zk_front.specs.Locals.{IsStarted};
ghost use Rattle.zk_front.specs.ServiceStarting.{IsUnbegun};

use crate::Service;
use crate::clock::Clock;
use crate::event::next_tag;
use crate::local_state::LocalState;
use crate::start::start;
use std::alloc::Global;
use zk_line_protocol::{Ask, ServiceFault, Told};

/// A service over an ensemble in this process: server 1 leads and executes the asks, and all
/// messages arrive before the reply.
pub struct Local<C: Clock> {
    home: LocalState,
    clock: C,
    /// The tag of the last ask.
    tag: u64,
}

impl<C: Clock + Drop> Drop for Local<C> {
    fn drop(self) {
        let Local {
            home: _,
            clock: _,
            tag: _,
        } = self;
    }
}

impl<C: Clock> Local<C> {
    /// Starts a service over a new ensemble of `servers` servers. Server 1 leads, the others follow
    /// it, and all messages have arrived.
    ///
    /// Fails with [`ServiceFault::Server`] if there is no server, or if more than 1,048,576
    /// messages would have to arrive; with [`ServiceFault::Memory`] if an allocation fails.
    pub fn start(alloc: Global, servers: usize, clock: C) -> Result<Local<C>, ServiceFault>
        ensures ok { IfOk result (λ it. IsStarted servers clock it) }
        ensures err { IfErr result (λ fault. IsUnbegun servers fault) }
    {
        let servers = start(alloc, servers)?;
        Ok(Local {
            home: LocalState::new(alloc, servers),
            clock,
            tag: 0,
        })
    }
}

impl<C: Clock> Service for Local<C> {
    ghost use Rattle.zk_front.specs.Locals.{Asked};

    ghost does = { λ old ask told new. Asked C.tells old ask told new };

    fn ask(&mut self, ask: Ask) -> Result<Told, ServiceFault> {
        self.tag = next_tag(self.tag);
        let now = self.clock.now();
        self.home.ask(ask, self.tag, now)
    }
}
