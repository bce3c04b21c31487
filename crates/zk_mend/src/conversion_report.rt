//! The report on a converted log.

ghost use Rattle.std.specs.Prelude.{◌≡◌};
ghost use Rattle.zk_mend.specs.Telling.{no_tally, nothing_told, tally_after, told_after, told_by, told_of, without_tree, added, claims, claims_other};

use zk_directory::starts_history;
use zk_newer_records::{Change, NewerRecord};
use zk_table::Txn;

/// How often a change occurs, and the offset in the file of its first entry.
#[derive(Clone, Copy, Debug, PartialEq, Eq)]
pub struct ChangeCount {
    pub times: u64,
    /// 0 if it does not occur.
    pub first: u64,
}

impl ChangeCount {
    fn new() -> ChangeCount
        ensures { result ≡ no_tally }
    {
        ChangeCount { times: 0, first: 0 }
    }

    /// Adds the occurrences in the entry at an offset. The count stops at `u64::MAX`.
    fn add(&mut self, times: u64, at: u64)
        ensures { self.new ≡ tally_after self.old times at }
    {
        if times == 0 {
            return;
        }
        if self.times == 0 {
            self.first = at;
        }
        self.times = self.times.saturating_add(times);
    }
}

/// The report on a converted log: the number of records, of unchanged ones, and of each kind of
/// change.
#[derive(Clone, Copy, Debug, PartialEq, Eq)]
pub struct ConversionReport {
    pub records: u64,
    pub unchanged: u64,
    /// Digests that equal the digest of the table's tree.
    pub digest: ChangeCount,
    /// Digests that differ from it.
    pub other_digest: ChangeCount,
    pub create2: ChangeCount,
    pub create_container: ChangeCount,
    pub create_ttl: ChangeCount,
    pub delete_container: ChangeCount,
    pub reconfig: ChangeCount,
    pub check: ChangeCount,
    pub close_paths: ChangeCount,
    /// Lists of paths that are not, as a set, the session's nodes.
    pub other_paths: ChangeCount,
    pub kept_body: ChangeCount,
}

impl ConversionReport {
    pub(crate) fn new() -> ConversionReport
        ensures { result ≡ nothing_told }
    {
        let none = ChangeCount::new();
        ConversionReport {
            records: 0,
            unchanged: 0,
            digest: none,
            other_digest: none,
            create2: none,
            create_container: none,
            create_ttl: none,
            delete_container: none,
            reconfig: none,
            check: none,
            close_paths: none,
            other_paths: none,
            kept_body: none,
        }
    }

    /// Adds the record of the entry at an offset, given the digest of the tree after it, and
    /// whether the record lists other paths than the session's.
    pub(crate) fn add(&mut self, at: u64, newer: &NewerRecord, sum: u64, lists_others: bool)
        ensures { self.new ≡ told_after self.old at newer.now sum lists_others }
    {
        self.records = self.records.saturating_add(1);
        self.unchanged = self
            .unchanged
            .saturating_add(u64::from(newer.is_unchanged()));
        self.digest.add(u64::from(claims(newer.digest, sum)), at);
        self.other_digest
            .add(u64::from(claims_other(newer.digest, sum)), at);
        self.create2.add(newer.count(Change::Create2) as u64, at);
        self.create_container
            .add(newer.count(Change::CreateContainer) as u64, at);
        self.create_ttl
            .add(newer.count(Change::CreateTtl) as u64, at);
        self.delete_container
            .add(newer.count(Change::DeleteContainer) as u64, at);
        self.reconfig.add(newer.count(Change::Reconfig) as u64, at);
        self.check.add(newer.count(Change::Check) as u64, at);
        self.close_paths
            .add(newer.count(Change::ClosePaths) as u64, at);
        self.other_paths.add(u64::from(lists_others), at);
        self.kept_body.add(newer.count(Change::KeptBody) as u64, at);
    }

    /// The report without what rests on the tree before the log.
    fn without_tree(self) -> ConversionReport
        ensures { result ≡ without_tree self }
    {
        let none = ChangeCount::new();
        ConversionReport {
            digest: none,
            other_digest: none,
            other_paths: none,
            ..self
        }
    }
}

/// The report on a log of these transactions.
///
/// Of a log that starts in the middle of a history, digests and lists of paths are about a tree that
/// is not known: they are not counted.
pub(crate) fn told_of(txns: &[Txn], told: ConversionReport) -> ConversionReport
    ensures { result ≡ told_of txns.now told }
{
    match txns {
        [txn, ..] => told_by(starts_history(txn.zxid), told),
        [] => told,
    }
}

fn told_by(starts: bool, told: ConversionReport) -> ConversionReport
    ensures { result ≡ told_by starts told }
{
    if starts { told } else { told.without_tree() }
}

/// Whether a server's digest equals `sum`.
fn claims(claim: Option<i64>, sum: u64) -> bool
    ensures { result ≡ claims claim sum }
{
    match claim {
        Some(claim) => claim.cast_unsigned() == sum,
        None => false,
    }
}

/// Whether a server's digest differs from `sum`.
fn claims_other(claim: Option<i64>, sum: u64) -> bool
    ensures { result ≡ claims_other claim sum }
{
    match claim {
        Some(claim) => claim.cast_unsigned() != sum,
        None => false,
    }
}
