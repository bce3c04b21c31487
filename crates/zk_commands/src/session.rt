ghost use Rattle.std.specs.Prelude.{◌≡◌, []};
ghost use Rattle.std.specs.String.{string_bytes};
ghost use Rattle.zk_commands.specs.declared.session.TalkFault.TheVariants as faults;

use std::alloc::{AllocError, Global};
use zk_debug::Debugger;
use zk_log::WriteFault;
use zk_path::NoMemory;

/// A debugger in a session, the place before its last move, and the last line that was not empty.
pub struct Session {
    pub(crate) alloc: Global,
    pub(crate) debugger: Debugger,
    pub(crate) began: usize,
    pub(crate) last: String,
}

impl Drop for Session {
    fn drop(self) {
        let Session {
            alloc: _,
            debugger: _,
            began: _,
            last: _,
        } = self;
    }
}

impl Session {
    /// A session over a debugger, before any move.
    pub fn new(alloc: Global, debugger: Debugger) -> Session
        ensures debugger { result.debugger ≡ debugger }
        ensures began { result.began ≡ 0 }
        ensures last { string_bytes result.last ≡ [] }
    {
        Session {
            alloc,
            debugger,
            began: 0,
            last: String::new(alloc),
        }
    }
}

/// Whether a session goes on.
#[derive(Clone, Copy, Debug, PartialEq, Eq)]
pub enum Turn {
    /// Another line is read.
    GoesOn,
    /// The line was `quit`.
    Ends,
}

/// Why a session was aborted.
#[derive(Clone, Copy, Debug, PartialEq, Eq)]
pub enum TalkFault {
    Read,
    Write,
    /// An allocation failed.
    NoMemory,
}

impl From<NoMemory> for TalkFault {
    ghost from_gives = { λ _ fault. fault ≡ faults.NoMemory };

    fn from(_refused: NoMemory) -> TalkFault {
        TalkFault::NoMemory
    }
}

impl From<AllocError> for TalkFault {
    ghost from_gives = { λ _ fault. fault ≡ faults.NoMemory };

    fn from(_refused: AllocError) -> TalkFault {
        TalkFault::NoMemory
    }
}

impl From<WriteFault> for TalkFault {
    ghost from_gives = { λ _ fault. fault ≡ faults.Write };

    fn from(_failed: WriteFault) -> TalkFault {
        TalkFault::Write
    }
}
