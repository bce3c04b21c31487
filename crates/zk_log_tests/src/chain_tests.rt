//! Entries of several logs, each once.
use std::alloc::Global;
use std::process::Abort;
use zk_directory::ChainFault::{Differs, Gap, Purged};
use zk_directory::Turn::{Skip, Stop, Take};
use zk_directory::{Chain, ChainFault, Joint, LogEntry, Turn};

/// Gives a chain these entries in turn, and compares what becomes of each.
fn play(
    rt: &impl Abort,
    chain: Chain<'_>,
    entries: &[(i64, &'static [u8], Result<Turn, ChainFault>)],
) {
    let mut chain = chain;
    for (zxid, bytes, turn) in entries {
        let entry = LogEntry {
            zxid: *zxid,
            bytes: *bytes,
        };
        assert!(rt; chain.take(entry) == *turn, "{zxid:x}");
    }
}

#[test]
fn a_history_begins_with_an_epoch(rt: HostRuntime) {
    let alloc: Global = rt.alloc();
    play(
        &rt,
        Chain::new(alloc, None, None),
        &[
            (0x5, b"five".as_slice(), Err(Purged { first: 0x5 })),
            (0x1, b"one".as_slice(), Ok(Take)),
            (0x2, b"two".as_slice(), Ok(Take)),
            (0x1, b"one".as_slice(), Ok(Skip)),
            (0x2, b"other".as_slice(), Err(Differs)),
            (0x4, b"four".as_slice(), Err(Gap { from: 0x2, to: 0x4 })),
            (0x2_0000_0001, b"later".as_slice(), Ok(Take)),
        ],
    );
}

#[test]
fn a_snapshot_holds_what_came_before_it(rt: HostRuntime) {
    let alloc: Global = rt.alloc();
    play(
        &rt,
        Chain::new(alloc, Some(0x7), Some(0x9)),
        &[
            (0x6, b"six".as_slice(), Ok(Skip)),
            (0x7, b"seven".as_slice(), Ok(Take)),
            (0x8, b"eight".as_slice(), Ok(Take)),
            (0x9, b"nine".as_slice(), Ok(Take)),
            (0xb, b"eleven".as_slice(), Ok(Stop)),
        ],
    );
}

#[test]
fn a_gap_hides_the_zxids_in_it(rt: HostRuntime) {
    let alloc: Global = rt.alloc();
    play(
        &rt,
        Chain::new(alloc, Some(0x7), Some(0x9)),
        &[
            (0x8, b"eight".as_slice(), Ok(Take)),
            (0xb, b"eleven".as_slice(), Err(Gap { from: 0x8, to: 0xb })),
        ],
    );
}

/// The first joint in the history of these entries after a base, where a digest proves the trees up
/// to the zxid `proved`.
fn joint_of(alloc: Global, base: Option<i64>, zxids: &[i64], proved: Option<i64>) -> Option<Joint> {
    let mut chain = Chain::new(alloc, base, None);
    for zxid in zxids {
        let entry = LogEntry {
            zxid: *zxid,
            bytes: b"entry",
        };
        chain.take(entry).ok()?;
    }
    chain.joints(alloc, proved).ok()?.first().copied()
}

#[test]
fn the_end_of_an_epoch_is_proved_by_digests(rt: HostRuntime) {
    let alloc: Global = rt.alloc();
    let zxids = [0x1_0000_0001, 0x1_0000_0002, 0x2_0000_0001];
    let joint = Some(Joint {
        last: 0x1_0000_0002,
        next: 0x2_0000_0001,
    });
    assert!(rt; joint_of(alloc, None, &zxids, None) == joint);
    assert!(rt; joint_of(alloc, Some(0), &zxids, Some(0x1_0000_0002)) == joint);
    assert!(rt; joint_of(alloc, None, &zxids, Some(0x2_0000_0001)) == None);
    assert!(rt; joint_of(alloc, Some(0x1_0000_0002), &zxids[2..], None) == joint);
    assert!(rt; joint_of(alloc, Some(0x2_0000_0000), &zxids[2..], None) == None);
}
