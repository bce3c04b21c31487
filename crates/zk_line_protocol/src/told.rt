ghost use Rattle.std.specs.Prelude.{◌≡◌};
ghost use Rattle.zk_line_protocol.specs.declared.told.ServiceFault.TheVariants as faults;

use std::marker::Model;
use zk_machine::Change;
use zk_path::NoMemory;
use zk_table::{ReadReply, TxnResult};

/// The events of a session's watches, in order. Its model is their list.
#[derive(Debug, Drop)]
pub struct Events {
    events: Vec<Change>,
}

impl Model for Events {
    ghost use Rattle.std.specs.Prelude.{List};
    ghost use Rattle.zk_machine.specs.declared.change.Change.{Change};

    ghost Value = { List Change };

    ghost view = { λ events. events.events.items };
}

impl Events {
    /// Does not allocate.
    pub fn new(events: Vec<Change>) -> Events
        ensures { result ≡ events.items }
    {
        Events { events }
    }

    /// Returns the events, borrowed.
    pub fn as_slice(&self) -> &[Change]
        ensures { result.now ≡ self.now }
    {
        self.events.as_slice()
    }
}

/// The service's reply to an ask.
#[derive(Debug, Drop)]
pub enum Reply {
    /// To a write: the result of its transaction.
    Wrote(TxnResult),
    /// To a read: its reply, and the last transaction of the server that was read.
    Looked { reply: ReadReply, zxid: i64 },
    /// To a sync: the server has caught up.
    Caught,
}

/// The reply, with the session's events that it was not sent before.
#[derive(Debug)]
pub struct Told {
    pub events: Events,
    pub reply: Reply,
}

impl Drop for Told {
    fn drop(self) {
        let Told {
            events: _,
            reply: _,
        } = self;
    }
}

/// Why an ask has no reply.
#[derive(Clone, Copy, Debug, PartialEq, Eq)]
pub enum ServiceFault {
    /// The server failed.
    Server,
    /// The client has seen a later transaction than the server.
    Behind,
    /// An allocation failed.
    Memory,
}

impl From<NoMemory> for ServiceFault {
    ghost from_gives = { λ _ e. e ≡ faults.Memory };

    fn from(_refused: NoMemory) -> ServiceFault {
        ServiceFault::Memory
    }
}
