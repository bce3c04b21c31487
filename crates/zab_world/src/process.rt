use crate::rollback::{RollbackState, kept_before};
use std::alloc::Global;
use std::marker::Model;
use zab_broadcast::{Primary, Server};
use zab_epoch::Stable;

/// A server of a world, up or down. One that is down has the state in which it will restart.
#[derive(Drop)]
pub struct Process<P: Primary> {
    pub up: bool,
    pub server: Server<P>,
}

/// Contracts see a `ProcessState`.
impl<P: Primary> Model for Process<P> {
    ghost use Rattle.zab_model.specs.ProcessStates.{ProcessState, standing};

    ghost Value = { ProcessState };

    ghost view = { λ place. standing place.up place.server };
}

impl<P: Primary> Process<P> {
    ghost use Rattle.std.specs.Prelude.{◌≡◌, false};
    ghost use Rattle.zab_model.specs.ProcessStates.{standing, new_server};
    ghost use Rattle.zab_model.specs.Worlds.{crashed};
    ghost use Rattle.zab_world.specs.Rollbacks.{back_of};

    pub fn new(alloc: Global, servers: usize, me: usize) -> Process<P>
        ensures { result ≡ new_server servers me }
    {
        Process {
            up: true,
            server: Server::restored(alloc, servers, me, Stable::new(alloc)),
        }
    }

    /// Crashes the server.
    pub fn crash(&mut self, alloc: Global)
        ensures { self.new ≡ standing false (crashed self.old.state) }
    {
        let peer = &self.server.state().peer;
        let (servers, me) = (peer.servers, peer.me);
        let blank = Server::restored(alloc, servers, me, Stable::new(alloc));
        let stable = std::mem::replace(&mut self.server, blank).into_stable();
        self.server = Server::restored(alloc, servers, me, stable);
        self.up = false;
    }

    /// Crashes the server, with its stable part as recorded.
    pub fn put_back(&mut self, alloc: Global, kept: RollbackState)
        ensures { self.new ≡ back_of kept self.old.state.peer.stable.history }
    {
        let RollbackState {
            servers,
            me,
            promised,
            current,
            length,
            replaced,
        } = kept;
        let blank = Server::restored(alloc, servers, me, Stable::new(alloc));
        let Stable { history: now, .. } = std::mem::replace(&mut self.server, blank).into_stable();
        let history = kept_before(length, replaced, now);
        let stable = Stable {
            promised,
            current,
            history,
        };
        self.server = Server::restored(alloc, servers, me, stable);
        self.up = false;
    }
}
