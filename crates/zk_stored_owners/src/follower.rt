//! The records of logs, each followed once.
ghost use Rattle.std.specs.Prelude.{◌≡◌, ℕ, List, OnOk, IfOk};
ghost use Rattle.std.specs.FinMap as finite;
ghost use Rattle.zk_stored_owners.specs.StoredOwners.{AreOwnersAfter, FollowsLog, followed_one, followed_over, is_next};

use crate::owners::Owners;
use std::alloc::Global;
use zk_directory::{FileEntry, read_log_file};
use zk_newer_records::NewerRecord;
use zk_path::NoMemory;

/// The owners after some records.
#[derive(Drop)]
struct Follower {
    owners: Owners,
    /// The zxid of the last of these records.
    last: i64,
}

/// Whether a record comes after the last one that was followed, and not after `upto`.
fn is_next(upto: i64, last: i64, zxid: i64) -> bool
    ensures { result ≡ is_next upto last zxid }
{
    last < zxid && zxid <= upto
}

impl Follower {
    /// Follows a record, if it is the next one.
    fn take(&mut self, upto: i64, newer: &NewerRecord) -> Result<(), NoMemory>
        ensures { OnOk result ((path : List ℕ) → (self.new.last, finite.get self.new.owners path) ≡ followed_one upto path (self.old.last, finite.get self.old.owners path) newer.now) }
    {
        if !is_next(upto, self.last, newer.txn.zxid) {
            return Ok(());
        }
        self.owners.follow(newer)?;
        self.last = newer.txn.zxid;
        Ok(())
    }

    /// Follows the next ones of these records.
    fn take_all(&mut self, upto: i64, entries: &[FileEntry<'_>]) -> Result<(), NoMemory>
        ensures { OnOk result ((path : List ℕ) → (self.new.last, finite.get self.new.owners path) ≡ followed_over upto path (self.old.last, finite.get self.old.owners path) entries.now) }
    {
        for entry in entries {
            self.take(upto, &entry.newer)?;
        }
        Ok(())
    }

    /// Follows the next ones of the records of a log.
    fn take_log(&mut self, alloc: Global, upto: i64, bytes: &[u8]) -> Result<(), NoMemory>
        ensures { OnOk result (FollowsLog upto self.old.last self.new.last (finite.get self.old.owners) (finite.get self.new.owners) bytes.now) }
    {
        let file = read_log_file(alloc, bytes)?;
        self.take_all(upto, file.entries.as_slice())
    }
}

/// The owners after the records of logs, each once, that come after the zxid `from` and not after
/// `upto`. `logs` has the bytes of the log files, in order.
pub fn follow_logs(
    alloc: Global,
    owners: Owners,
    from: i64,
    upto: i64,
    logs: &[&[u8]],
) -> Result<Owners, NoMemory>
    ensures { IfOk result (λ after. AreOwnersAfter upto from (finite.get owners) logs.now (finite.get after)) }
{
    let mut follower = Follower { owners, last: from };
    for bytes in logs {
        follower.take_log(alloc, upto, *bytes)?;
    }
    let Follower { owners, last: _ } = follower;
    Ok(owners)
}
