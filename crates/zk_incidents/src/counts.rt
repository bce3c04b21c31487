//! How often texts occur.
ghost use Rattle.std.specs.Prelude.{◌≡◌, [], IfOk, OnOk, map};
ghost use Rattle.zk_incidents.specs.Counts.{count_of, counted_all, counted_one, ranked_all};

use crate::ranks::Ranks;
use std::alloc::Global;
use std::collections::BTreeMap;
use std::marker::Model;
use zk_path::NoMemory;

/// How often texts occurred so far.
#[derive(Drop)]
pub(crate) struct Counts {
    alloc: Global,
    counts: BTreeMap<String, u64>,
}

impl Model for Counts {
    ghost use Rattle.std.specs.Prelude.{map};
    ghost use Rattle.std.specs.String.{string_bytes};
    ghost use Rattle.zk_incidents.specs.Counts.{Counted};

    ghost Value = { Counted };

    ghost view = { λ counts. map (λ entry. (string_bytes entry.0, entry.1)) counts.counts.entries };
}

impl Counts {
    /// No text yet.
    pub(crate) fn new(alloc: Global) -> Counts
        ensures { result ≡ [] }
    {
        Counts {
            alloc,
            counts: BTreeMap::new(alloc),
        }
    }

    /// How often a text occurred.
    pub(crate) fn count_of(&self, text: &str) -> u64
        ensures { result ≡ count_of self.now text.now }
    {
        self.counts.get(text).copied().unwrap_or(0)
    }

    /// Counts a text. A count stops at `u64::MAX`.
    pub(crate) fn add(&mut self, text: &str) -> Result<(), NoMemory>
        ensures { OnOk result (self.new ≡ counted_one self.old text.now) }
    {
        let count = self.count_of(text).saturating_add(1);
        let text = String::from_str(self.alloc, text)?;
        self.counts.insert(text, count)?;
        Ok(())
    }

    /// Counts each of these texts.
    pub(crate) fn add_all(&mut self, texts: &[&str]) -> Result<(), NoMemory>
        ensures { OnOk result (self.new ≡ counted_all self.old (map (λ text. text.now) texts.now)) }
    {
        for text in texts {
            self.add(text)?;
        }
        Ok(())
    }

    /// The texts, the one with the greatest count first.
    pub(crate) fn ranks(&self) -> Result<Ranks, NoMemory>
        ensures { IfOk result (λ ranks. ranks ≡ ranked_all [] self.now) }
    {
        let mut ranks = Ranks::new(self.alloc);
        for (text, count) in self.counts.iter() {
            ranks.add(text.as_str(), *count)?;
        }
        Ok(ranks)
    }
}
