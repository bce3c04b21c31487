ghost use Rattle.std.specs.Prelude.{◌≡◌, Some};
ghost use Rattle.zk_connections.specs.Connections.{new_connection};

use crate::byte_queue::ByteQueue;
use crate::word::Word;
use std::alloc::Global;
use std::net::SocketAddr;
use zk_client_session::{Action, ConnectionWatches, Link};

/// How far a connection has come.
#[derive(Debug, Drop)]
pub enum Phase {
    /// It has sent no whole frame.
    New,
    /// It has asked for a session, and has none yet.
    Connecting,
    /// It has a session.
    Connected(Link),
}

/// A client's connection.
///
/// ZooKeeper Programmer's Guide, "ZooKeeper Sessions".
#[derive(Debug, Drop)]
pub struct Connection {
    /// Its number. No other connection of the ensemble has or had it.
    pub(crate) number: u64,
    /// Its client's address, once that is set.
    pub(crate) peer: Option<SocketAddr>,
    pub(crate) phase: Phase,
    pub(crate) watches: ConnectionWatches,
    /// What was heard, and is not taken yet.
    pub(crate) input: ByteQueue,
    /// What was written, and is not sent yet.
    pub(crate) output: ByteQueue,
    /// What is left of the action of the first frame, if some of it was taken.
    pub(crate) left: Option<Action>,
    /// How much more may be taken in this turn: frames, and watches of a `setWatches`.
    pub(crate) work: usize,
    /// The word that it has sent, if the reply is a list that is not written yet.
    pub(crate) listing: Option<Word>,
    /// No more is taken.
    pub(crate) ends: bool,
    /// It closes once its output is sent.
    pub(crate) closes: bool,
}

impl Connection {
    /// The most bytes of output that may wait, before a client that does not read is cut off.
    pub const MOST_OUTPUT: usize = 4_194_304;

    /// The most bytes of output that may wait while more of the client's input is taken.
    pub const ENOUGH_OUTPUT: usize = 1_048_576;

    /// The most that is taken in a turn: frames, and watches of a `setWatches`.
    pub const MOST_WORK: usize = 1024;

    /// Allocates no memory.
    pub fn new(alloc: Global, number: u64) -> Connection
        ensures { result ≡ new_connection number }
    {
        Connection {
            number,
            peer: None,
            phase: Phase::New,
            watches: ConnectionWatches::new(alloc),
            input: ByteQueue::new(alloc),
            output: ByteQueue::new(alloc),
            left: None,
            work: Connection::MOST_WORK,
            listing: None,
            ends: false,
            closes: false,
        }
    }

    /// Sets its client's address.
    pub fn set_peer(&mut self, peer: SocketAddr)
        ensures { self.new ≡ record self.old { peer = Some peer } }
    {
        self.peer = Some(peer);
    }
}
