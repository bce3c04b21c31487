//! Names of files, and where reading begins. The numbers are those of real data directories.
use zk_directory::FileName::{Log, Snapshot};
use zk_directory::{continues, first_log, read_file_name, read_server_name};

#[test]
fn names_are_snapshots_and_logs(rt: HostRuntime) {
    for (name, file) in [
        (
            "log.100000882",
            Some(Log {
                zxid: 0x1_0000_0882,
            }),
        ),
        ("snapshot.316b", Some(Snapshot { zxid: 0x316b })),
        ("snapshot.0", Some(Snapshot { zxid: 0 })),
        ("log.7fffffffffffffff", Some(Log { zxid: i64::MAX })),
        ("log.8000000000000000", None),
        ("log.10000000000000000", None),
        ("log.0a", None),
        ("log.A", None),
        ("log.", None),
        ("log.1.bak", None),
        ("snapshot.316b.gz", None),
        ("acceptedEpoch", None),
    ] {
        assert_eq!(rt; read_file_name(name), file, "{name}");
    }
}

#[test]
fn servers_read_other_names(rt: HostRuntime) {
    for (name, file) in [
        (
            "log.2000000d8",
            Some(Log {
                zxid: 0x2_0000_00d8,
            }),
        ),
        (
            "log.2000000D8",
            Some(Log {
                zxid: 0x2_0000_00d8,
            }),
        ),
        (
            "log.02000000d8",
            Some(Log {
                zxid: 0x2_0000_00d8,
            }),
        ),
        (
            "log.2000000d8.gz",
            Some(Log {
                zxid: 0x2_0000_00d8,
            }),
        ),
        (
            "log.+2000000d8",
            Some(Log {
                zxid: 0x2_0000_00d8,
            }),
        ),
        ("snapshot.0.snappy", Some(Snapshot { zxid: 0 })),
        ("snapshot.316b.bak.1", Some(Snapshot { zxid: 0x316b })),
        ("log.8000000000000000", None),
        ("log.", None),
        ("log..5", None),
        ("log.2000000d8~", None),
        ("Log.5", None),
        ("acceptedEpoch", None),
    ] {
        assert_eq!(rt; read_server_name(name), file, "{name}");
    }
}

#[test]
fn zxids_continue(rt: HostRuntime) {
    for (before, zxid, yes) in [
        (0x1_0000_09db, 0x1_0000_09dc, true),
        (0x1_0000_09db, 0x1_0000_0a90, false),
        (0x1_0000_0bde, 0x2_0000_0001, true),
        (0x1_0000_0bde, 0x2_0000_0020, false),
        (0x3_0000_0000, 0x3_0000_0001, true),
        (0x3_0000_0001, 0x3_0000_0001, false),
        (0x3_0000_0001, 0x2_0000_0001, false),
    ] {
        assert_eq!(rt; continues(before, zxid), yes, "{before:x} {zxid:x}");
    }
}

#[test]
fn reading_begins_before_the_next_entry(rt: HostRuntime) {
    assert_eq!(rt; first_log([0x1, 0x693].as_slice(), 0x5b7), 0);
    assert_eq!(rt; first_log([0x1, 0x693].as_slice(), 0x692), 1);
    // the log was rolled before the snapshot's zxid was read
    assert_eq!(rt; first_log([0x1, 0x553, 0x700].as_slice(), 0x568), 1);
    // or after it
    assert_eq!(rt; first_log([0xab4, 0x11b5].as_slice(), 0x11b3), 0);
    assert_eq!(rt; first_log([0x268].as_slice(), 0), 0);
    assert_eq!(rt; first_log([].as_slice(), 7), 0);
}
