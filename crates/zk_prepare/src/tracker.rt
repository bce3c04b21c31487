ghost use Rattle.std.specs.Prelude.{◌≡◌, ◌<◌, ◌≤◌, length, MatchResult, IfOk, OnOk, OnErr, IsTrue};
ghost use Rattle.std.specs.FinMap as finite;
ghost use Rattle.std.specs.Ordering.{nat_cmp};
ghost use Rattle.zk_table.specs.Places.{position_of};
ghost use Rattle.zk_prepare.specs.Deadlines.{deadline_of, touched, forgotten, has_come, expired_at};

use std::alloc::Global;
use std::cmp::Ordering;
use std::marker::Model;
use zk_path::NoMemory;

/// The deadlines of sessions, in milliseconds, in the order of the sessions' sixteen digits.
///
/// ZooKeeper Programmer's Guide, "ZooKeeper Sessions".
#[derive(Debug)]
pub struct Tracker {
    entries: Vec<(u64, i64)>,
}

impl Drop for Tracker {
    fn drop(self) {
        let Tracker { entries: _ } = self;
    }
}

impl Model for Tracker {
    ghost use Rattle.std.specs.Prelude.{IsTrue};
    ghost use Rattle.std.specs.Coded.{coded_ℕ, coded_ℤ};
    ghost use Rattle.std.specs.FinMap as finite;
    ghost use Rattle.std.specs.Ordering.{nat_cmp};
    ghost use Rattle.zk_prepare.specs.Deadlines.{DeadlineMap};

    ghost Value = { DeadlineMap };

    ghost coded = { finite.code coded_ℕ coded_ℤ };

    ghost view = { λ tracker. finite.from_sorted tracker.entries.items };

    ghost invariant = { λ tracker. IsTrue (finite.is_sorted nat_cmp tracker.entries.items) };
}

/// Finds a session's position, or the one where it would be inserted.
fn position_of(entries: &[(u64, i64)], session: u64) -> Result<usize, usize>
    requires { IsTrue (finite.is_sorted nat_cmp entries.now) }
    ensures place { result ≡ position_of nat_cmp session entries.now }
    ensures within { MatchResult result (λ at. at < length entries.now) (λ at. at ≤ length entries.now) }
{
    entries.binary_search_by(
        |entry: &(u64, i64)| -> Ordering
            ensures { result ≡ nat_cmp entry.now.0 session }
        { entry.0.cmp(&session) },
    )
}

/// Adds a timeout to the time; the nearest `i64` on overflow.
fn deadline_of(now: i64, timeout: i32) -> i64
    ensures { result ≡ deadline_of now timeout }
{
    now.saturating_add(i64::from(timeout))
}

/// Whether a session has expired; it has at its very deadline.
fn has_come(entry: &(u64, i64), now: i64) -> bool
    ensures { result ≡ has_come now entry.exit.now }
{
    entry.1 <= now
}

impl Tracker {
    pub fn new(alloc: Global) -> Tracker
        ensures { result ≡ finite.empty }
    {
        Tracker {
            entries: Vec::new(alloc),
        }
    }

    /// Records that a session was heard of now: its deadline is its timeout later, at most the
    /// greatest `i64`. After [`NoMemory`] nothing has changed.
    pub fn touch(&mut self, session: i64, timeout: i32, now: i64) -> Result<(), NoMemory>
        ensures touched { OnOk result (self.new ≡ touched self.old session timeout now) }
        ensures unchanged { OnErr result (self.new ≡ self.old) }
    {
        self.put(session.cast_unsigned(), deadline_of(now, timeout))
    }

    /// Removes a session's deadline.
    pub fn forget(&mut self, session: i64)
        ensures { self.new ≡ forgotten self.old session }
    {
        self.take(session.cast_unsigned());
    }

    /// Returns the expired sessions, in the order of their sixteen digits.
    pub fn expired(&self, now: i64) -> Result<Vec<i64>, NoMemory>
        ensures { IfOk result (λ sessions. sessions.items ≡ expired_at self.now now) }
    {
        let mut sessions = Vec::new(*self.entries.allocator());
        for entry in self.as_slice() {
            if has_come(entry, now) {
                sessions.push(entry.0.cast_signed())?;
            }
        }
        Ok(sessions)
    }

    fn as_slice(&self) -> &[(u64, i64)]
        ensures { result.now ≡ finite.entries self.now }
    {
        self.entries.as_slice()
    }

    /// Removes a session's deadline.
    fn take(&mut self, session: u64)
        ensures { self.new ≡ finite.remove self.old session }
    {
        match position_of(&self.entries, session) {
            Ok(at) => {
                self.entries.remove(at);
            }
            Err(_) => {}
        }
    }

    /// Replaces a session's deadline.
    fn put(&mut self, session: u64, deadline: i64) -> Result<(), NoMemory>
        ensures there { OnOk result (self.new ≡ finite.insert self.old session deadline) }
        ensures unchanged { OnErr result (self.new ≡ self.old) }
    {
        match position_of(&self.entries, session) {
            Ok(at) => self.entries[at].1 = deadline,
            Err(at) => self.entries.insert(at, (session, deadline))?,
        }
        Ok(())
    }
}
