//! Where a history ends.
ghost use Rattle.std.specs.Prelude.{◌≡◌, map};
ghost use Rattle.zk_directory.specs.Chains.{told};
ghost use Rattle.zk_directory_state.specs.Ends.{above, is_above, last_time, next_by, time_in};

use bytes::Buf;
use zk_directory::{FileEntry, LogEntry};

/// The length of the head of a record, up to its time: the session, the cxid and the zxid.
const BEFORE_TIME: usize = 20;

/// The length of a time.
const TIME: usize = 8;

/// The time in a record: milliseconds since 1970.
fn time_in(bytes: &[u8]) -> Option<i64>
    ensures { result ≡ time_in bytes.now }
{
    if bytes.len() < BEFORE_TIME + TIME {
        return None;
    }
    let mut time = &bytes[BEFORE_TIME..];
    Some(time.get_u64().cast_signed())
}

/// The time of the last one of these entries.
pub(crate) fn last_time(taken: &[LogEntry<'_>]) -> Option<i64>
    ensures { result ≡ last_time (map told taken.now) }
{
    match taken.last() {
        Some(entry) => time_in(entry.bytes),
        None => None,
    }
}

/// Whether a zxid is above that of the last entry that was taken.
fn is_above(position: Option<i64>, zxid: i64) -> bool
    ensures { result ≡ is_above position zxid }
{
    match position {
        Some(position) => position < zxid,
        None => true,
    }
}

/// The zxid of the first entry above the last one that was taken.
fn above(position: Option<i64>, entries: &[FileEntry<'_>]) -> Option<i64>
    ensures { result ≡ above position entries.now }
{
    let next = entries
        .iter()
        .find(|entry| is_above(position, entry.newer.txn.zxid))?;
    Some(next.newer.txn.zxid)
}

/// The zxid of the entry at which reading stopped in a log, unless it goes on.
pub(crate) fn next_by(
    goes_on: bool,
    position: Option<i64>,
    entries: &[FileEntry<'_>],
) -> Option<i64>
    ensures { result ≡ next_by goes_on position entries.now }
{
    if goes_on {
        None
    } else {
        above(position, entries)
    }
}
