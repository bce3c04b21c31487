ghost use Rattle.std.specs.Prelude.{◌≡◌, IfOk, OnOk, OnErr};
ghost use Rattle.std.specs.FinMap as finite;

use std::alloc::Global;
use std::collections::BTreeMap;
use std::marker::Model;
use zk_path::NoMemory;

/// The open sessions with their timeouts, by the sessions' unsigned numbers.
#[derive(Drop)]
pub struct Sessions {
    alloc: Global,
    timeouts: BTreeMap<u64, i32>,
}

impl Model for Sessions {
    ghost use Rattle.std.specs.Coded.{coded_ℕ, coded_ℤ};
    ghost use Rattle.std.specs.FinMap as finite;
    ghost use Rattle.zk_table.specs.States.{SessionMap};

    ghost Value = { SessionMap };

    ghost coded = { finite.code coded_ℕ coded_ℤ };

    ghost view = { λ sessions. finite.from_entries sessions.timeouts.entries };
}

impl Sessions {
    pub fn new(alloc: Global) -> Sessions
        ensures { result ≡ finite.empty }
    {
        Sessions {
            alloc,
            timeouts: BTreeMap::new(alloc),
        }
    }

    /// Opens a session, or sets the timeout of an open one. After [`NoMemory`] nothing is changed.
    pub fn open(&mut self, session: u64, timeout: i32) -> Result<(), NoMemory>
        ensures opened { OnOk result (self.new ≡ finite.insert self.old session timeout) }
        ensures unchanged { OnErr result (self.new ≡ self.old) }
    {
        self.timeouts.insert(session, timeout)?;
        Ok(())
    }

    /// Closes a session if it is open.
    pub fn close(&mut self, session: u64)
        ensures { self.new ≡ finite.remove self.old session }
    {
        self.timeouts.remove(&session);
    }

    /// The same sessions as a machine holds them.
    pub(crate) fn of_machine(&self) -> Result<zk_machine::Sessions, NoMemory>
        ensures { IfOk result (λ sessions. sessions ≡ self.now) }
    {
        let entries = self.entries()?;
        let mut sessions = zk_machine::Sessions::new(self.alloc);
        for (session, timeout) in entries.as_slice() {
            sessions.open(*session, *timeout)?;
        }
        Ok(sessions)
    }

    /// The sessions and their timeouts in milliseconds, in order.
    pub fn entries(&self) -> Result<Vec<(u64, i32)>, NoMemory>
        ensures { IfOk result (λ entries. entries.items ≡ finite.entries self.now) }
    {
        let mut entries = Vec::new(self.alloc);
        for (session, timeout) in self.timeouts.iter() {
            entries.push((*session, *timeout))?;
        }
        Ok(entries)
    }
}
