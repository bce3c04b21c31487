ghost use Rattle.std.specs.Prelude.{◌≡◌, ◌<◌, ◌≤◌, length, MatchResult, OnOk, OnErr};
ghost use Rattle.std.specs.FinMap as finite;
ghost use Rattle.std.specs.Int.{w64, cast_unsigned};
ghost use Rattle.std.specs.Ordering.{nat_cmp};
ghost use Rattle.zk_table.specs.Places.{position_of};

use std::alloc::Global;
use std::cmp::Ordering;
use std::marker::Model;
use zk_path::NoMemory;

/// The open sessions with their timeouts: a list sorted by the sessions' unsigned numbers.
#[derive(Debug, Drop)]
pub(crate) struct Sessions {
    entries: Vec<(u64, i32)>,
}

impl Model for Sessions {
    ghost use Rattle.std.specs.Prelude.{IsTrue};
    ghost use Rattle.std.specs.Coded.{coded_ℕ, coded_ℤ};
    ghost use Rattle.std.specs.FinMap as finite;
    ghost use Rattle.std.specs.Ordering.{nat_cmp};
    ghost use Rattle.zk_table.specs.States.{SessionMap};

    ghost Value = { SessionMap };

    ghost coded = { finite.code coded_ℕ coded_ℤ };

    ghost view = { λ sessions. finite.from_sorted sessions.entries.items };

    ghost invariant = { λ sessions. IsTrue (finite.is_sorted nat_cmp sessions.entries.items) };
}

/// The position of a session, or else the position at which to insert it.
fn position_of(entries: &[(u64, i32)], number: u64) -> Result<usize, usize>
    ensures place { result ≡ position_of nat_cmp number entries.now }
    ensures within { MatchResult result (λ at. at < length entries.now) (λ at. at ≤ length entries.now) }
{
    let mut at = 0;
    for (known, _) in entries {
        match number.cmp(known) {
            Ordering::Less => return Err(at),
            Ordering::Equal => return Ok(at),
            Ordering::Greater => at += 1,
        }
    }
    Err(at)
}

impl Sessions {
    pub(crate) fn new(alloc: Global) -> Sessions
        ensures { result ≡ finite.empty }
    {
        Sessions {
            entries: Vec::new(alloc),
        }
    }

    /// The sessions and their timeouts, in order.
    pub(crate) fn as_slice(&self) -> &[(u64, i32)]
        ensures { result.now ≡ finite.entries self.now }
    {
        self.entries.as_slice()
    }

    /// Opens a session, or sets the timeout of an open one. After [`NoMemory`] nothing is changed.
    pub(crate) fn open(&mut self, session: i64, timeout: i32) -> Result<(), NoMemory>
        ensures opened { OnOk result (self.new ≡ finite.insert self.old (cast_unsigned w64 session) timeout) }
        ensures unchanged { OnErr result (self.new ≡ self.old) }
    {
        let number = session.cast_unsigned();
        match position_of(&self.entries, number) {
            Ok(at) => self.entries[at].1 = timeout,
            Err(at) => self.entries.insert(at, (number, timeout))?,
        }
        Ok(())
    }

    /// Closes a session if it is open.
    pub(crate) fn close(&mut self, session: i64)
        ensures { self.new ≡ finite.remove self.old (cast_unsigned w64 session) }
    {
        if let Ok(at) = position_of(&self.entries, session.cast_unsigned()) {
            self.entries.remove(at);
        }
    }
}
