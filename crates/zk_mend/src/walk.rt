//! Processes one entry after another.

ghost use Rattle.std.specs.Prelude.{◌≡◌, ◌<◌, ◌≤◌, ◌+◌, ◌-◌, ◌^◌, pos, ◌<ℤ◌, true, false, [], length, IfOk, IfErr, OnOk};
ghost use Rattle.zk_mend.specs.Digests.{Owners as ServerOwners};
ghost use Rattle.zk_mend.specs.Following.{IsDigestOf, owners_after};
ghost use Rattle.zk_records.specs.Records.{record_of};
ghost use Rattle.zk_records.specs.Sizes.{size_of};
ghost use Rattle.zk_records.specs.Written.{last_of};
ghost use Rattle.zk_newer_records.specs.Changes.{owners_of};
ghost use Rattle.zk_newer_records.specs.NewerRecords.{newer_record, tells_why};
ghost use Rattle.zk_table.specs.Steps.{step};
ghost use Rattle.zk_mend.specs.NewerLogs.{LogPosition, start_place, lists_others as lists_others_of};
ghost use Rattle.zk_mend.specs.Walking.{IsAt, Judges, Follows, TakesNewer, RefusesNewer, Takes, Refuses, IsOwnFault};

use crate::closing::{closes_others, lists_others};
use crate::conversion_report::ConversionReport;
use crate::fault::MendFault;
use crate::tree::TreeDigest;
use std::alloc::Global;
use zk_acl::Acls;
use zk_log::{FRAME, HEADER, Journal, LogFault, adler};
use zk_machine::Machine;
use zk_newer_records::{NewerFault, NewerRecord, read_newer};
use zk_path::NoMemory;
use zk_records::size;

/// The maximum number of bytes of a record.
const MOST_BYTES: u64 = 16_777_216;

/// The state of an iteration over the entries.
#[derive(Drop)]
pub struct Walk {
    pub at: u64,
    pub earlier: Option<Acls>,
    pub machine: Machine,
    pub digest: TreeDigest,
    pub journal: Journal,
    pub told: ConversionReport,
}

/// The decision on a record.
#[derive(Clone, Copy, Debug, PartialEq, Eq)]
pub(crate) enum Verdict {
    /// It comes next. `lists_others`: it lists other paths than its session's.
    Goes { lists_others: bool },
    /// It may not come next.
    Refused(MendFault),
}

impl Walk {
    /// The state after the header.
    pub fn new(alloc: Global) -> Result<Walk, NoMemory>
        ensures { IfOk result (λ walk. IsAt walk start_place × (walk.journal ≡ [])) }
    {
        Ok(Walk {
            at: HEADER as u64,
            earlier: None,
            machine: Machine::new(alloc)?,
            digest: TreeDigest::new(alloc)?,
            journal: Journal::new(alloc),
            told: ConversionReport::new(),
        })
    }

    /// Consumes the record of a whole entry, given the checksum that the entry states.
    pub(crate) fn take(&mut self, alloc: Global, sum: u64, bytes: &[u8]) -> Result<(), MendFault>
        requires steps { self.old.machine.steps ≤ self.old.at }
        requires room { self.old.at + length bytes.now + 13 < 2 ^ 64 }
        ensures ok { (place : LogPosition) → IsAt self.old place → OnOk result (Takes place self.old bytes.now sum self.new) }
        ensures err { (place : LogPosition) → IsAt self.old place → IfErr result (λ fault. Refuses place bytes.now sum fault) }
        ensures own { IfErr result IsOwnFault }
    {
        if u64::from(adler(bytes)) != sum {
            return Err(MendFault::Log(LogFault::Checksum(self.at)));
        }
        match read_newer(alloc, &mut self.earlier, bytes) {
            Ok(newer) => self.take_newer(alloc, newer, bytes.len()),
            Err(NewerFault::Record) => Err(MendFault::Record(self.at)),
            Err(NewerFault::Reasonless) => Err(MendFault::NoReason(self.at)),
            Err(NewerFault::NoMemory) => Err(MendFault::Log(LogFault::NoMemory)),
        }
    }

    /// Consumes a record of `count` bytes, if it may come next.
    fn take_newer(
        &mut self,
        alloc: Global,
        newer: NewerRecord,
        count: usize,
    ) -> Result<(), MendFault>
        requires tells { tells_why newer ≡ true }
        requires count { count ≡ length (newer_record newer) }
        requires steps { self.old.machine.steps ≤ self.old.at }
        requires room { self.old.at + count + 13 < 2 ^ 64 }
        ensures ok { (place : LogPosition) → IsAt self.old place → OnOk result (TakesNewer place self.old newer self.new) }
        ensures err { (place : LogPosition) → IsAt self.old place → IfErr result (λ fault. RefusesNewer place newer fault) }
        ensures own { IfErr result IsOwnFault }
    {
        match self.judge(&newer)? {
            Verdict::Goes { lists_others } => {
                Ok(self.follow(alloc, newer, count, lists_others)?)
            }
            Verdict::Refused(fault) => Err(fault),
        }
    }

    /// Whether a record may come next.
    fn judge(&self, newer: &NewerRecord) -> Result<Verdict, NoMemory>
        requires { tells_why newer.now ≡ true }
        ensures { IfOk result (λ verdict. Judges self.now newer.now verdict) }
    {
        if size(&newer.txn) > MOST_BYTES {
            return Ok(Verdict::Refused(MendFault::TooLong(self.at)));
        }
        if newer.txn.zxid <= self.journal.last_zxid() {
            return Ok(Verdict::Refused(MendFault::Log(LogFault::Order(self.at))));
        }
        let Ok(tree) = self.machine.tree() else {
            return Err(NoMemory);
        };
        if closes_others(tree, newer) {
            return Ok(Verdict::Refused(MendFault::OtherNodes(self.at)));
        }
        let lists_others = lists_others(tree, newer.txn.session, &newer.form)?;
        Ok(Verdict::Goes { lists_others })
    }

    /// Advances past a record of `count` bytes that comes next.
    fn follow(
        &mut self,
        alloc: Global,
        newer: NewerRecord,
        count: usize,
        lists_others: bool,
    ) -> Result<(), NoMemory>
        requires count { count ≡ length (newer_record newer) }
        requires steps { self.old.machine.steps ≤ self.old.at }
        requires room { self.old.at + count + 13 < 2 ^ 64 }
        requires above { last_of (pos 0) self.old.journal <ℤ newer.txn.zxid }
        requires short { size_of (record_of newer.txn) ≤ 16777216 }
        requires lists { lists_others ≡ lists_others_of self.old.machine.state.nodes newer.txn.session newer.form }
        ensures { (place : LogPosition) → IsAt self.old place → OnOk result (Follows place self.old newer self.new) }
    {
        self.apply(alloc, &newer)?;
        self.told
            .add(self.at, &newer, self.digest.sum(), lists_others);
        if self.journal.push(newer.txn).is_err() {
            return Err(NoMemory);
        }
        self.at += (FRAME + count) as u64;
        Ok(())
    }

    /// Applies a record's transaction to the table, and updates the digest.
    fn apply(&mut self, alloc: Global, newer: &NewerRecord) -> Result<(), NoMemory>
        requires steps { self.old.machine.steps < 2 ^ 64 - 1 }
        ensures state { OnOk result (self.new.machine.state ≡ (step self.old.machine.state newer.now.txn).0) }
        ensures runs { OnOk result (self.new.machine.failed ≡ false) }
        ensures steps { OnOk result (self.new.machine.steps ≡ self.old.machine.steps + 1) }
        ensures digest { OnOk result ((owners : ServerOwners) → IsDigestOf owners self.old.machine.state.nodes self.old.digest
            → IsDigestOf (owners_after self.old.machine.state.nodes (step self.old.machine.state newer.now.txn).0.nodes (owners_of newer.now) owners)
            (step self.old.machine.state newer.now.txn).0.nodes self.new.digest) }
        ensures journal { self.new.journal ≡ self.old.journal }
        ensures told { self.new.told ≡ self.old.told }
        ensures at { self.new.at ≡ self.old.at }
    {
        let Ok(applied) = self.machine.apply(&newer.txn) else {
            return Err(NoMemory);
        };
        let owners = newer.owners(alloc)?;
        let Ok(tree) = self.machine.tree() else {
            return Err(NoMemory);
        };
        self.digest.follow(&applied.undo, tree, owners.as_slice())
    }
}
