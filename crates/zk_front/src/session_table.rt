//! The sessions of a service: their deadlines, and the events that each has received.

ghost use Rattle.std.specs.Prelude.{◌≡◌, ◌⊎◌, OnOk, OnErr};
ghost use Rattle.zk_front.specs.Keeping.{due_once, heard, keeping_of, kept, let_go, none_kept};

use std::alloc::Global;
use std::collections::BTreeMap;
use zk_path::NoMemory;
use zk_prepare::Tracker;
use zk_servers::Mark;

/// The timeouts of the sessions that are kept, and for each the number of the server's events that
/// it has received.
pub(crate) struct SessionTable {
    pub tracker: Tracker,
    timeouts: BTreeMap<i64, i32>,
    told: BTreeMap<i64, usize>,
}

impl Drop for SessionTable {
    fn drop(self) {
        let SessionTable {
            tracker: _,
            timeouts: _,
            told: _,
        } = self;
    }
}

impl SessionTable {
    /// Keeps no session.
    pub(crate) fn new(alloc: Global) -> SessionTable
        ensures { keeping_of result ≡ none_kept }
    {
        SessionTable {
            tracker: Tracker::new(alloc),
            timeouts: BTreeMap::new(alloc),
            told: BTreeMap::new(alloc),
        }
    }

    /// Moves the deadline of a session that is kept. After [`NoMemory`] the deadline is unchanged.
    pub(crate) fn hear(&mut self, session: i64, now: i64) -> Result<(), NoMemory>
        ensures heard { OnOk result (keeping_of self.new ≡ heard session now (keeping_of self.old)) }
        ensures refused { OnErr result (keeping_of self.new ≡ keeping_of self.old) }
    {
        match self.timeouts.get(&session) {
            Some(timeout) => self.tracker.touch(session, *timeout, now),
            None => Ok(()),
        }
    }

    /// Keeps a session from now on, and marks the first `events` events as received. After
    /// [`NoMemory`] it is not kept, but may have a deadline, and is then closed when that has
    /// passed.
    pub(crate) fn keep(
        &mut self,
        session: i64,
        timeout: i32,
        now: i64,
        events: usize,
    ) -> Result<(), NoMemory>
        ensures kept { OnOk result (keeping_of self.new ≡ kept session timeout now (keeping_of self.old)) }
        ensures refused { OnErr result ((keeping_of self.new ≡ keeping_of self.old) ⊎ (keeping_of self.new ≡ due_once session timeout now (keeping_of self.old))) }
    {
        self.tracker.touch(session, timeout, now)?;
        self.tell(session, events)?;
        self.timeouts.insert(session, timeout)?;
        Ok(())
    }

    /// Stops keeping a session.
    pub(crate) fn forget(&mut self, session: i64)
        ensures { keeping_of self.new ≡ let_go session (keeping_of self.old) }
    {
        self.tracker.forget(session);
        self.timeouts.remove(&session);
    }

    /// Returns the mark from which to look for a session's events, if results and syncs were read
    /// up to this mark.
    pub(crate) fn cursor_of(&self, session: i64, mark: Mark) -> Mark {
        let events = match self.told.get(&session) {
            Some(events) => *events,
            None => 0,
        };
        Mark { events, ..mark }
    }

    /// Marks the first `events` events as received by a session.
    pub(crate) fn tell(&mut self, session: i64, events: usize) -> Result<(), NoMemory>
        ensures { keeping_of self.new ≡ keeping_of self.old }
    {
        self.told.insert(session, events)?;
        Ok(())
    }

    /// Removes the events' mark of a session that was closed.
    pub(crate) fn close(&mut self, session: i64)
        ensures { keeping_of self.new ≡ let_go session (keeping_of self.old) }
    {
        self.forget(session);
        self.told.remove(&session);
    }
}
