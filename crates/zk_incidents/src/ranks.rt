//! Texts in order of their counts.
ghost use Rattle.std.specs.Prelude.{◌≡◌, [], IfOk, OnOk, map};
ghost use Rattle.zk_incidents.specs.Counts.{ranked_one, rows_of};

use std::alloc::Global;
use std::collections::BTreeMap;
use std::marker::Model;
use zk_path::NoMemory;

/// The place of a text: the greatest count comes first, and of equal ones the text that is first in
/// order.
#[derive(Debug, PartialEq, Eq, PartialOrd, Ord, Drop)]
pub(crate) struct Rank {
    /// By how much the count is below the greatest one.
    below: u64,
    text: String,
}

/// Texts in order of their counts.
#[derive(Drop)]
pub struct Ranks {
    alloc: Global,
    counts: BTreeMap<Rank, u64>,
}

impl Model for Ranks {
    ghost use Rattle.std.specs.Prelude.{map};
    ghost use Rattle.std.specs.String.{string_bytes};
    ghost use Rattle.zk_incidents.specs.Counts.{Ranked};

    ghost Value = { Ranked };

    ghost view = { λ ranks. map (λ entry. ((entry.0.below, string_bytes entry.0.text), entry.1)) ranks.counts.entries };
}

impl Ranks {
    /// No text yet.
    pub(crate) fn new(alloc: Global) -> Ranks
        ensures { result ≡ [] }
    {
        Ranks {
            alloc,
            counts: BTreeMap::new(alloc),
        }
    }

    /// Adds a text with its count.
    pub(crate) fn add(&mut self, text: &str, count: u64) -> Result<(), NoMemory>
        ensures { OnOk result (self.new ≡ ranked_one self.old (text.now, count)) }
    {
        let text = String::from_str(self.alloc, text)?;
        let rank = Rank {
            below: u64::MAX - count,
            text,
        };
        self.counts.insert(rank, count)?;
        Ok(())
    }

    /// The texts and their counts, the greatest first.
    pub fn rows(&self) -> Result<Vec<(&str, u64)>, NoMemory>
        ensures { IfOk result (λ rows. map (λ row. (row.0.now, row.1)) rows.items ≡ rows_of self.now) }
    {
        let mut rows = Vec::new(self.alloc);
        for (rank, count) in self.counts.iter() {
            rows.push((rank.text.as_str(), *count))?;
        }
        Ok(rows)
    }
}
