//! Where the window of a snapshot ends that does not state it.
ghost use Rattle.std.specs.Prelude.{◌≡◌, IfOk, OnOk};
ghost use Rattle.zk_replay.specs.Bases.{FailsBy, snapshot_fault};
ghost use Rattle.zk_replay.specs.Windows.{is_done};
ghost use Rattle.zk_directory_state.specs.States.{replayed_one};
ghost use Rattle.zk_directory_state.specs.Windows.{IsWindowEnd, SearchesLog, later_of, search_entries, search_entry, searched_by, start_search};

use std::alloc::Global;
use zk_directory::{Chain, ChainFault, FileEntry, LogEntry, Turn, read_log_file};
use zk_newer_records::NewerRecord;
use zk_path::NoMemory;
use zk_replay::{BaseFault, Draft, replay_late};
use zk_snapshot::Contents;

/// A search for the end of a window.
#[derive(Drop)]
struct Search<'a> {
    chain: Chain<'a>,
    draft: Draft,
    /// The end so far.
    end: i64,
}

/// The later of an end and the zxid of a transaction that found its work done.
fn later_of(end: i64, zxid: i64, done: bool) -> i64
    ensures { result ≡ later_of end zxid done }
{
    if done && end < zxid { zxid } else { end }
}

impl<'a> Search<'a> {
    /// Replays a record.
    fn replay(&mut self, newer: &NewerRecord) -> Result<(), NoMemory>
        ensures chain { self.new.chain ≡ self.old.chain }
        ensures draft { OnOk result (self.new.draft ≡ replayed_one self.old.draft newer.now) }
        ensures end { OnOk result (self.new.end
            ≡ later_of self.old.end newer.now.txn.zxid (is_done self.old.draft.nodes newer.now)) }
    {
        let done = replay_late(&mut self.draft, newer)?;
        self.end = later_of(self.end, newer.txn.zxid, done);
        Ok(())
    }

    /// Replays the next entry if it continues the history.
    fn take(&mut self, entry: &FileEntry<'a>) -> Result<(), NoMemory>
        ensures { OnOk result (searched_by self.new ≡ search_entry (searched_by self.old) entry.now) }
    {
        let told = LogEntry {
            zxid: entry.newer.txn.zxid,
            bytes: entry.bytes,
        };
        match self.chain.take(told) {
            Ok(Turn::Take) => self.replay(&entry.newer),
            Ok(Turn::Skip) => Ok(()),
            Ok(Turn::Stop) => Ok(()),
            Err(ChainFault::NoMemory) => Err(NoMemory),
            Err(ChainFault::Purged { .. }) => Ok(()),
            Err(ChainFault::Gap { .. }) => Ok(()),
            Err(ChainFault::Differs) => Ok(()),
        }
    }

    /// Replays the entries that continue the history.
    fn take_entries(&mut self, entries: &[FileEntry<'a>]) -> Result<(), NoMemory>
        ensures { OnOk result (searched_by self.new ≡ search_entries (searched_by self.old) entries.now) }
    {
        for entry in entries {
            self.take(entry)?;
        }
        Ok(())
    }

    /// Replays the entries of a log.
    fn take_log(&mut self, alloc: Global, bytes: &'a [u8]) -> Result<(), NoMemory>
        ensures { OnOk result (SearchesLog (searched_by self.old) bytes.now (searched_by self.new)) }
    {
        let file = read_log_file(alloc, bytes)?;
        self.take_entries(file.entries.as_slice())
    }
}

/// A search before any log.
#[tactic(auto, using(crate::proofs::Searching::start_is))]
fn start<'a>(
    alloc: Global,
    contents: &Contents,
    zxid: i64,
    latest: i64,
) -> Result<Search<'a>, BaseFault>
    ensures start { IfOk result (λ search. searched_by search ≡ start_search contents.now zxid latest) }
    ensures exact { FailsBy (snapshot_fault contents.now) result }
{
    let draft = Draft::of(alloc, contents)?;
    let chain = Chain::new(alloc, Some(zxid), None);
    Ok(Search {
        chain,
        draft,
        end: latest,
    })
}

fn end_of(search: &Search<'_>) -> i64
    ensures { result ≡ search.now.end }
{
    search.end
}

/// The zxid from which on a replay of a snapshot is exact that was begun at `zxid` and does not
/// state the end of its window: the greatest zxid of its nodes, `latest`, or of a transaction of the
/// logs that finds its work done.
///
/// Fails with [`BaseFault::Tree`] if a path of the snapshot occurs twice or before its parent.
pub fn window_end<'a>(
    alloc: Global,
    contents: &Contents,
    zxid: i64,
    latest: i64,
    logs: &[&'a [u8]],
) -> Result<i64, BaseFault>
    ensures end { IfOk result (λ end. IsWindowEnd contents.now zxid latest logs.now end) }
    ensures exact { FailsBy (snapshot_fault contents.now) result }
{
    let mut search = start(alloc, contents, zxid, latest)?;
    for bytes in logs {
        search.take_log(alloc, *bytes)?;
    }
    Ok(end_of(&search))
}
