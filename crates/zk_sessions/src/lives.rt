//! Sessions by their numbers.
ghost use Rattle.std.specs.Prelude.{◌≡◌, [], IfOk, OnOk};
ghost use Rattle.zk_sessions.specs.Lives.{found, life_of, with_life};

use crate::session::Session;
use std::alloc::Global;
use std::collections::BTreeMap;
use std::marker::Model;
use zk_path::NoMemory;

/// What is known of sessions, by their numbers.
#[derive(Drop)]
pub struct Lives {
    alloc: Global,
    sessions: BTreeMap<i64, Session>,
}

impl Model for Lives {
    ghost use Rattle.zk_sessions.specs.Lives.{LifeTable};

    ghost Value = { LifeTable };

    ghost view = { λ lives. lives.sessions.entries };
}

impl Lives {
    /// No session yet.
    pub fn new(alloc: Global) -> Lives
        ensures { result ≡ [] }
    {
        Lives {
            alloc,
            sessions: BTreeMap::new(alloc),
        }
    }

    /// What is known of a session; `None` if nothing is.
    pub fn get(&self, session: i64) -> Option<Session>
        ensures { result ≡ found self.now session }
    {
        self.sessions.get(&session).copied()
    }

    /// What is known of a session.
    pub(crate) fn life_of(&self, session: i64) -> Session
        ensures { result ≡ life_of self.now session }
    {
        self.sessions
            .get(&session)
            .copied()
            .unwrap_or(Session::unknown())
    }

    /// Replaces what is known of a session.
    pub(crate) fn set(&mut self, session: i64, life: Session) -> Result<(), NoMemory>
        ensures { OnOk result (self.new ≡ with_life self.old session life) }
    {
        self.sessions.insert(session, life)?;
        Ok(())
    }

    /// The sessions with what is known of them, in the order of their numbers.
    pub fn entries(&self) -> Result<Vec<(i64, Session)>, NoMemory>
        ensures { IfOk result (λ entries. entries.items ≡ self.now) }
    {
        let mut entries = Vec::new(self.alloc);
        for (session, life) in self.sessions.iter() {
            entries.push((*session, *life))?;
        }
        Ok(entries)
    }
}
