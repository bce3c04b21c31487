ghost use Rattle.std.specs.Prelude.{◌≡◌, false, IfOk, None, OnOk, Some};
ghost use Rattle.zk_table.specs.Steps.{step};
ghost use Rattle.zk_replay.specs.Tallies.{IsFollowed, IsTally, Tally, counted_after, start_tally, stored_tally, tally_passed, tally_taken};

use crate::count::DigestCount;
use crate::owners::Owners;
use crate::sums::{digest_over, table_digest};
use crate::touched::touched;
use std::alloc::Global;
use zk_fold::Fold;
use zk_newer_records::NewerRecord;
use zk_path::NoMemory;
use zk_snapshot::Contents;

/// The digests of the records so far, and what is needed for the next ones. Nothing is specified
/// after an allocation failure.
#[derive(Drop)]
pub struct Digests {
    alloc: Global,
    owners: Owners,
    /// The digest of the table, once a record had one.
    sum: Option<u64>,
    count: DigestCount,
}

impl Digests {
    /// No record yet, after the start state.
    pub fn new(alloc: Global) -> Digests
        ensures tally { IsTally result start_tally }
        ensures sum { result.sum ≡ None }
    {
        Digests {
            alloc,
            owners: Owners::new(alloc),
            sum: None,
            count: DigestCount::new(),
        }
    }

    /// No record yet, after a snapshot.
    pub fn of_snapshot(alloc: Global, contents: &Contents) -> Result<Digests, NoMemory>
        ensures tally { IfOk result (λ digests. IsTally digests (stored_tally contents.now)) }
        ensures sum { IfOk result (λ digests. digests.sum ≡ None) }
    {
        let owners = Owners::stored(alloc, contents.nodes.as_slice())?;
        Ok(Digests {
            alloc,
            owners,
            sum: None,
            count: DigestCount::new(),
        })
    }

    /// Passes over a record in the window of a snapshot: its digest is not compared.
    pub fn pass(&mut self, newer: &NewerRecord) -> Result<(), NoMemory>
        ensures { OnOk result ((tally : Tally) → IsTally self.old tally → IsTally self.new (tally_passed tally newer.now)) }
    {
        self.owners.follow(newer)?;
        Ok(())
    }

    /// Compares the digest of a record that led to `table`, if it has one. The cost depends on the
    /// size of the table.
    pub fn begin(&mut self, table: &Fold, newer: &NewerRecord) -> Result<(), NoMemory>
        ensures { OnOk result ((tally : Tally) → IsTally self.old tally → IsFollowed self.new (tally_taken tally newer.now table.now.state.nodes) table.now.state.nodes) }
    {
        self.owners.follow(newer)?;
        if newer.digest.is_none() {
            self.sum = None;
            return Ok(());
        }
        let sum = table_digest(table, &self.owners)?;
        self.add(newer, sum);
        Ok(())
    }

    /// Applies a record to the table, and compares its digest with that of the table after it. Once
    /// a record had a digest, the cost depends on the number of nodes that the record may change.
    pub fn advance(&mut self, table: &mut Fold, newer: &NewerRecord) -> Result<(), NoMemory>
        requires { table.old.failed ≡ false }
        ensures stepped { OnOk result (table.new.state ≡ (step table.old.state newer.now.txn).0) }
        ensures running { OnOk result (table.new.failed ≡ false) }
        ensures followed { OnOk result ((tally : Tally) → IsFollowed self.old tally table.old.state.nodes
            → IsFollowed self.new (tally_taken tally newer.now table.new.state.nodes) table.new.state.nodes) }
    {
        let Some(sum) = self.sum else {
            table.advance(&newer.txn)?;
            self.begin(table, newer)?;
            return Ok(());
        };
        let paths = touched(self.alloc, table, &newer.txn)?;
        let out = digest_over(table, &self.owners, &paths);
        table.advance(&newer.txn)?;
        self.owners.follow(newer)?;
        let comes = digest_over(table, &self.owners, &paths);
        self.add(newer, sum.wrapping_sub(out).wrapping_add(comes));
        Ok(())
    }

    /// How many digests were those of the table, and how many were not.
    pub fn count(&self) -> DigestCount
        ensures { result ≡ self.now.count }
    {
        self.count
    }

    /// Counts a record, after which the table has the digest `sum`.
    fn add(&mut self, newer: &NewerRecord, sum: u64)
        ensures owners { self.new.owners ≡ self.old.owners }
        ensures sum { self.new.sum ≡ Some sum }
        ensures count { self.new.count ≡ counted_after self.old.count newer.now sum }
    {
        self.count.add(newer, sum);
        self.sum = Some(sum);
    }
}
