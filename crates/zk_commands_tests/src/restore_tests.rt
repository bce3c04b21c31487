//! Small directories, restored. Expected trees are worked out by hand from the rules by which a
//! server restores one.
use crate::files::{
    BROKEN_LOG_6, DOUBLE_SNAPSHOT, LISTLESS_SNAPSHOT, LOG_1, LOG_5, LOG_6, LOG_8, LOOSE_SNAPSHOT,
    SNAPSHOT,
};
use std::alloc::Global;
use zk_directory::{Chain, LogFileFault, Turn, read_log_file};
use zk_directory_state::{
    Base, DirectoryFault, Restore, RestoreFault, Restored, check_end, restore, take_entry, take_on,
    window_end,
};
use zk_fold::Fold;
use zk_log::Ending;
use zk_replay::{Draft, Exact, Stage, exact_from, replay_late};
use zk_snapshot::{Snapshot, read_snapshot};

/// A node: its path, `mzxid`, `pzxid`, the children ever created, and those that it has.
type Row = (&'static str, i64, i64, i32, usize);

/// After transaction 7.
const AFTER_7: &[Row] = &[
    ("/", 0, 5, 3, 4),
    ("/a", 7, 6, 1, 0),
    ("/c", 4, 4, 0, 0),
    ("/d", 5, 5, 0, 0),
    ("/zookeeper", 0, 0, 0, 1),
    ("/zookeeper/quota", 0, 0, 0, 0),
];

/// After transaction 9.
const AFTER_9: &[Row] = &[
    ("/", 0, 9, 3, 2),
    ("/a", 7, 6, 1, 0),
    ("/zookeeper", 0, 0, 0, 1),
    ("/zookeeper/quota", 0, 0, 0, 0),
];

/// Reads a snapshot. It has no contract: a proof would hold all facts of what was read.
fn snapshot_of(alloc: Global, bytes: &[u8]) -> Option<Snapshot> {
    read_snapshot(alloc, bytes).ok()
}

/// Restores from a snapshot that was begun after transaction 4 and is exact from 7 on.
fn restore_from(
    alloc: Global,
    snapshot: &[u8],
    upto: Option<i64>,
    logs: &[&'static [u8]],
) -> Option<Result<Restored, DirectoryFault>> {
    let snapshot = snapshot_of(alloc, snapshot)?;
    let base = Base::Snapshot {
        contents: &snapshot.contents,
        zxid: 4,
        exact: exact_from(&snapshot, 4).zxid,
    };
    Some(restore(alloc, base, upto, logs))
}

/// Whether a table has these nodes.
fn has_rows(table: &Fold, rows: &[Row]) -> bool {
    let Ok(entries) = table.entries() else {
        return false;
    };
    if entries.len() != rows.len() {
        return false;
    }
    for (entry, row) in entries.as_slice().iter().zip(rows) {
        let node = entry.node;
        if (
            entry.path.text(),
            node.mzxid,
            node.pzxid,
            node.creates,
            entry.child_count,
        ) != *row
        {
            return false;
        }
    }
    true
}

/// Whether these nodes, sessions and logs were restored.
fn is_restored(
    restored: &Option<Result<Restored, DirectoryFault>>,
    rows: &[Row],
    sessions: usize,
    read: usize,
    ending: Ending,
) -> bool {
    let Some(Ok(restored)) = restored else {
        return false;
    };
    let opened = match restored.table.sessions() {
        Ok(opened) => opened.len(),
        Err(_) => return false,
    };
    has_rows(&restored.table, rows)
        && opened == sessions
        && restored.read == read
        && restored.ending == Some(ending)
}

/// Whether this is the fault.
fn is_fault(
    restored: &Option<Result<Restored, DirectoryFault>>,
    log: usize,
    fault: RestoreFault,
) -> bool {
    matches!(restored, Some(Err(failed)) if *failed == DirectoryFault { log, fault })
}

#[test]
fn a_window_is_replayed(rt: HostRuntime) {
    let alloc: Global = rt.alloc();
    let logs: [&[u8]; 2] = [LOG_1, LOG_6];
    let in_window = restore_from(alloc, SNAPSHOT, Some(7), logs.as_slice());
    assert!(rt; is_restored(&in_window, AFTER_7, 1, 2, Ending::Whole));
    let after = restore_from(alloc, SNAPSHOT, None, logs.as_slice());
    assert!(rt; is_restored(&after, AFTER_9, 0, 2, Ending::Whole));
}

#[test]
fn the_empty_tree_leads_to_the_same_state(rt: HostRuntime) {
    let alloc: Global = rt.alloc();
    let logs: [&[u8]; 3] = [LOG_1, LOG_1, LOG_6];
    let all = Some(restore(alloc, Base::Empty, None, logs.as_slice()));
    assert!(rt; is_restored(&all, AFTER_9, 0, 3, Ending::Whole));
    let some = Some(restore(alloc, Base::Empty, Some(7), logs.as_slice()));
    assert!(rt; is_restored(&some, AFTER_7, 1, 3, Ending::Whole));
}

#[test]
fn missing_transactions_are_faults(rt: HostRuntime) {
    let alloc: Global = rt.alloc();
    let purged = Some(restore(alloc, Base::Empty, None, [LOG_6].as_slice()));
    assert!(rt; is_fault(&purged, 0, RestoreFault::Purged { first: 6 }));
    let gap = Some(restore(alloc, Base::Empty, None, [LOG_1, LOG_8].as_slice()));
    assert!(rt; is_fault(&gap, 1, RestoreFault::Gap { from: 5, to: 8 }));
    let other = Some(restore(alloc, Base::Empty, None, [LOG_1, LOG_5].as_slice()));
    assert!(rt; is_fault(&other, 1, RestoreFault::Differs { at: 16 }));
}

#[test]
fn a_window_must_end(rt: HostRuntime) {
    let alloc: Global = rt.alloc();
    let early = restore_from(alloc, SNAPSHOT, Some(6), [LOG_1, LOG_6].as_slice());
    assert!(rt; is_fault(&early, 0, RestoreFault::Early { exact: 7 }));
    let short = restore_from(alloc, SNAPSHOT, None, [LOG_1].as_slice());
    assert!(rt; is_fault(&short, 1, RestoreFault::Short { exact: 7 }));
}

#[test]
fn a_broken_log_matters_if_its_rest_is_asked_for(rt: HostRuntime) {
    let alloc: Global = rt.alloc();
    let logs: [&[u8]; 2] = [LOG_1, BROKEN_LOG_6];
    let broken = Some(restore(alloc, Base::Empty, Some(7), logs.as_slice()));
    let fault = RestoreFault::Log(LogFileFault::Checksum(69));
    assert!(rt; is_fault(&broken, 1, fault));
    let before = Some(restore(alloc, Base::Empty, Some(6), logs.as_slice()));
    assert!(rt;
        matches!(&before, Some(Ok(restored)) if restored.table.last() == 6 && restored.ending.is_none())
    );
}

#[test]
fn a_snapshot_may_hold_no_state(rt: HostRuntime) {
    let alloc: Global = rt.alloc();
    let logs: [&[u8]; 2] = [LOG_1, LOG_6];
    let listless = restore_from(alloc, LISTLESS_SNAPSHOT, None, logs.as_slice());
    assert!(rt; is_fault(&listless, 1, RestoreFault::Access));
    let loose = restore_from(alloc, LOOSE_SNAPSHOT, Some(7), logs.as_slice());
    assert!(rt; is_fault(&loose, 2, RestoreFault::Tree));
    let double = restore_from(alloc, DOUBLE_SNAPSHOT, None, logs.as_slice());
    assert!(rt; is_fault(&double, 0, RestoreFault::Tree));
}

/// Takes the entries of a log one by one, and counts those that were taken.
fn taken_of(alloc: Global, chain: Chain<'static>, bytes: &'static [u8]) -> Option<(usize, bool)> {
    let mut chain = chain;
    let file = read_log_file(alloc, bytes).ok()?;
    let mut taken = 0usize;
    for entry in &file.entries {
        if take_entry(&mut chain, entry).ok()? == Turn::Take && taken < 9 {
            taken += 1;
        }
    }
    Some((taken, check_end(&chain, &file).is_ok()))
}

#[test]
fn entries_are_joined_without_a_state(rt: HostRuntime) {
    let alloc: Global = rt.alloc();
    let all = taken_of(alloc, Chain::new(alloc, Some(6), None), LOG_6);
    assert!(rt; all == Some((4, true)));
    let some = taken_of(alloc, Chain::new(alloc, Some(6), Some(7)), LOG_6);
    assert!(rt; some == Some((2, true)));
    let broken = taken_of(alloc, Chain::new(alloc, Some(6), None), BROKEN_LOG_6);
    assert!(rt; broken == Some((1, false)));
}

/// The number of a log's entries, taken after the transaction 99, and the zxid of the last one.
fn taken_after_99(alloc: Global, bytes: &'static [u8]) -> Option<(usize, Option<i64>)> {
    let mut chain = Chain::new(alloc, Some(99), None);
    let file = read_log_file(alloc, bytes).ok()?;
    for entry in &file.entries {
        take_on(&mut chain, entry).ok()?;
    }
    Some((chain.taken.len(), chain.position))
}

#[test]
fn entries_that_continue_no_others_are_taken(rt: HostRuntime) {
    assert!(rt; taken_after_99(rt.alloc(), LOG_6) == Some((4, Some(9))));
}

/// The position after the entries of a log, and whether the window is over.
fn position_after(alloc: Global, bytes: &'static [u8]) -> Option<(Option<i64>, bool)> {
    let snapshot = snapshot_of(alloc, SNAPSHOT)?;
    let base = Base::Snapshot {
        contents: &snapshot.contents,
        zxid: 4,
        exact: 7,
    };
    let start = Restore::new(alloc, base, None).ok()?;
    let file = read_log_file(alloc, bytes).ok()?;
    let (restore, _) = start.take_file(alloc, &file).ok()?;
    let is_table = matches!(restore.stage(), Stage::Table { .. });
    let position = restore.position();
    let _table = restore.finish(alloc).ok();
    Some((position, is_table))
}

#[test]
fn a_restoration_tells_its_stage(rt: HostRuntime) {
    let alloc: Global = rt.alloc();
    assert!(rt; position_after(alloc, LOG_1) == Some((Some(5), false)));
}

#[test]
fn a_snapshot_says_from_where_it_is_exact(rt: HostRuntime) {
    let alloc: Global = rt.alloc();
    let exact = match snapshot_of(alloc, SNAPSHOT) {
        Some(snapshot) => Some(exact_from(&snapshot, 4)),
        None => None,
    };
    assert!(rt;
        exact
            == Some(Exact {
                zxid: 7,
                is_told: true
            })
    );
}

/// The zxids of the transactions of two logs after 4 that find their work done in the snapshot.
fn done_in(alloc: Global, logs: [&[u8]; 2]) -> Option<Vec<i64>> {
    let snapshot = snapshot_of(alloc, SNAPSHOT)?;
    let mut draft = Draft::of(alloc, &snapshot.contents).ok()?;
    let mut done = Vec::new(alloc);
    for bytes in logs.as_slice() {
        let file = read_log_file(alloc, *bytes).ok()?;
        for entry in &file.entries {
            let zxid = entry.newer.txn.zxid;
            if zxid > 4 && replay_late(&mut draft, &entry.newer).ok()? {
                done.push(zxid).ok()?;
            }
        }
    }
    Some(done)
}

#[test]
fn a_transaction_may_find_its_work_done(rt: HostRuntime) {
    let done = done_in(rt.alloc(), [LOG_1, LOG_6]);
    assert!(rt; matches!(&done, Some(zxids) if zxids.as_slice() == [6, 7].as_slice()));
}

/// Where the window of the snapshot ends by the logs, if its nodes have no later zxid than this.
fn end_of(alloc: Global, latest: i64, logs: &[&'static [u8]]) -> Option<i64> {
    let snapshot = snapshot_of(alloc, SNAPSHOT)?;
    window_end(alloc, &snapshot.contents, 4, latest, logs).ok()
}

#[test]
fn the_logs_show_where_a_window_ends(rt: HostRuntime) {
    let alloc: Global = rt.alloc();
    assert!(rt; end_of(alloc, 4, [LOG_1, LOG_6].as_slice()) == Some(7));
    assert!(rt; end_of(alloc, 8, [LOG_1, LOG_6].as_slice()) == Some(8));
    assert!(rt; end_of(alloc, 4, [LOG_1, BROKEN_LOG_6].as_slice()) == Some(6));
    assert!(rt; end_of(alloc, 4, [LOG_1, LOG_8].as_slice()) == Some(4));
}
