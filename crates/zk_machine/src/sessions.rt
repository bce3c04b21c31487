ghost use Rattle.std.specs.Prelude.{◌≡◌, ◌<◌, ◌≤◌, length, MatchResult, IfOk, OnOk, IsTrue};
ghost use Rattle.std.specs.FinMap as finite;
ghost use Rattle.std.specs.Ordering.{nat_cmp};
ghost use Rattle.zk_table.specs.Places.{position_of};
ghost use Rattle.zk_machine.specs.Undoing.{sessions_before};

use std::alloc::Global;
use std::cmp::Ordering;
use std::marker::Model;
use zk_path::NoMemory;

/// The open sessions with their timeouts: a list sorted by the sessions' unsigned numbers.
#[derive(Debug, Drop)]
pub struct Sessions {
    entries: Vec<(u64, i32)>,
}

impl Model for Sessions {
    ghost use Rattle.std.specs.Prelude.{IsTrue};
    ghost use Rattle.std.specs.Coded.{coded_ℕ, coded_ℤ};
    ghost use Rattle.std.specs.FinMap as finite;
    ghost use Rattle.std.specs.Ordering.{nat_cmp};
    ghost use Rattle.zk_table.specs.States.{SessionMap};

    ghost Value = { SessionMap };

    ghost coded = { finite.code coded_ℕ coded_ℤ };

    ghost view = { λ sessions. finite.from_sorted sessions.entries.items };

    ghost invariant = { λ sessions. IsTrue (finite.is_sorted nat_cmp sessions.entries.items) };
}

/// The position of a session, or else the position at which to insert it.
fn position_of(entries: &[(u64, i32)], session: u64) -> Result<usize, usize>
    requires { IsTrue (finite.is_sorted nat_cmp entries.now) }
    ensures place { result ≡ position_of nat_cmp session entries.now }
    ensures within { MatchResult result (λ at. at < length entries.now) (λ at. at ≤ length entries.now) }
{
    entries.binary_search_by(
        |entry: &(u64, i32)| -> Ordering
            ensures { result ≡ nat_cmp entry.now.0 session }
        { entry.0.cmp(&session) },
    )
}

impl Sessions {
    pub fn new(alloc: Global) -> Sessions
        ensures { result ≡ finite.empty }
    {
        Sessions {
            entries: Vec::new(alloc),
        }
    }

    pub(crate) fn copy(&self) -> Result<Sessions, NoMemory>
        ensures { IfOk result (λ copy. copy ≡ self.now) }
    {
        Ok(Sessions {
            entries: self.entries.clone()?,
        })
    }

    /// The sessions and their timeouts, in order.
    pub(crate) fn as_slice(&self) -> &[(u64, i32)]
        ensures { result.now ≡ finite.entries self.now }
    {
        self.entries.as_slice()
    }

    /// The timeout of a session, if it is open.
    pub(crate) fn get(&self, session: u64) -> Option<i32>
        ensures { result ≡ finite.get self.now session }
    {
        match position_of(&self.entries, session) {
            Ok(at) => Some(self.entries[at].1),
            Err(_) => None,
        }
    }

    /// Opens a session, or sets the timeout of an open one. Returns the timeout before.
    pub fn open(&mut self, session: u64, timeout: i32) -> Result<Option<i32>, NoMemory>
        ensures before { IfOk result (λ before. before ≡ finite.get self.old session) }
        ensures opened { OnOk result (self.new ≡ finite.insert self.old session timeout) }
    {
        match position_of(&self.entries, session) {
            Ok(at) => {
                let before = self.entries[at].1;
                self.entries[at].1 = timeout;
                Ok(Some(before))
            }
            Err(at) => {
                self.entries.insert(at, (session, timeout))?;
                Ok(None)
            }
        }
    }

    /// Closes a session. Returns its timeout, if it was open.
    pub(crate) fn close(&mut self, session: u64) -> Option<i32>
        ensures before { result ≡ finite.get self.old session }
        ensures closed { self.new ≡ finite.remove self.old session }
    {
        match position_of(&self.entries, session) {
            Ok(at) => {
                let (_, before) = self.entries.remove(at);
                Some(before)
            }
            Err(_) => None,
        }
    }

    /// Restores a session's timeout, or closes the session.
    pub(crate) fn put_back(&mut self, note: Option<(u64, Option<i32>)>) -> Result<(), NoMemory>
        ensures { OnOk result (self.new ≡ sessions_before note self.old) }
    {
        let Some((session, before)) = note else {
            return Ok(());
        };
        let Some(timeout) = before else {
            self.close(session);
            return Ok(());
        };
        self.open(session, timeout)?;
        Ok(())
    }
}
