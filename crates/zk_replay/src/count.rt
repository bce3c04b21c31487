ghost use Rattle.std.specs.Prelude.{◌≡◌};
ghost use Rattle.zk_replay.specs.Tallies.{is_equal, is_other, no_count, counted_after};

use zk_newer_records::NewerRecord;

/// How many digests are those of the tree, and how many are not.
#[derive(Clone, Copy, Debug, PartialEq, Eq)]
pub struct DigestCount {
    pub equal: u64,
    pub other: u64,
    /// The zxid of the first record whose digest is not the tree's.
    pub first: Option<i64>,
    /// The zxid of the last record whose digest is the tree's.
    pub last: Option<i64>,
}

impl DigestCount {
    pub(crate) fn new() -> DigestCount
        ensures { result ≡ no_count }
    {
        DigestCount {
            equal: 0,
            other: 0,
            first: None,
            last: None,
        }
    }

    /// Counts a record, after which the tree has the digest `sum`. A count stops at `u64::MAX`.
    pub(crate) fn add(&mut self, newer: &NewerRecord, sum: u64)
        ensures { self.new ≡ counted_after self.old newer.now sum }
    {
        if is_equal(newer.digest, sum) {
            self.equal = self.equal.saturating_add(1);
            self.last = Some(newer.txn.zxid);
        }
        if !is_other(newer.digest, sum) {
            return;
        }
        self.other = self.other.saturating_add(1);
        if self.first.is_none() {
            self.first = Some(newer.txn.zxid);
        }
    }
}

/// Whether a record's digest is `sum`.
fn is_equal(digest: Option<i64>, sum: u64) -> bool
    ensures { result ≡ is_equal digest sum }
{
    match digest {
        Some(digest) => digest.cast_unsigned() == sum,
        None => false,
    }
}

/// Whether a record has a digest, and another than `sum`.
fn is_other(digest: Option<i64>, sum: u64) -> bool
    ensures { result ≡ is_other digest sum }
{
    match digest {
        Some(digest) => digest.cast_unsigned() != sum,
        None => false,
    }
}
