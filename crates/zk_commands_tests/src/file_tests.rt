//! The files of a small directory as JSON, and one log as a directory. The objects were written by
//! hand from the files.

use crate::directory_command_tests::MemoryFolder;
use crate::files::{LOG_1, LOG_6, LOG_8, SNAPSHOT};
use std::alloc::Global;
use zk_commands::LogFolder;
use zk_directory_state::{Upto, show};
use zk_json_files::files_json;
use zk_listings::{Form, list_directory};
use zk_log::{DripOut, Sink};

/// A snapshot, one that ends early, and two logs between which transactions are missing.
const FILES: &[(&str, &[u8])] = &[
    ("log.8", LOG_8),
    ("log.1", LOG_1),
    ("snapshot.4", SNAPSHOT),
    ("snapshot.2", b"ZKSN\0\0\0\x02\0\0\0\0\0\0\0\0"),
];

const OBJECTS: &str =
    r#"{"snapshot":"snapshot.2","nodes":null,"sessions":null,"exact":null,"orLater":null,"fault":"S2"}
{"snapshot":"snapshot.4","nodes":5,"sessions":1,"exact":"0x7","orLater":false,"fault":null}
{"log":"log.1","records":5,"first":"0x1","last":"0x5","end":"padding","tornAt":null,"fault":null,"at":null}
{"log":"log.8","records":2,"first":"0x8","last":"0x9","end":"whole","tornAt":null,"fault":null,"at":null}
{"gap":"log.8","from":"0x5","to":"0x8"}
"#;

/// Whether the files of a directory are these objects, or there is this fault.
fn are_objects(
    alloc: Global,
    files: &[(&'static str, &'static [u8])],
    objects: &str,
    told: &str,
) -> bool {
    let folder = MemoryFolder { files };
    let mut output = Sink::new(DripOut::new(alloc, 65_536, None));
    let mut faults = Sink::new(DripOut::new(alloc, 64, None));
    let status = files_json(alloc, &folder, &folder, &mut output, &mut faults);
    status == Ok(u8::from(!told.is_empty()))
        && output.into_inner().bytes() == objects.as_bytes()
        && faults.into_inner().bytes() == told.as_bytes()
}

#[test]
fn files_are_objects(rt: HostRuntime) {
    let alloc = rt.alloc();
    assert!(rt; are_objects(alloc, FILES, OBJECTS, ""));
    assert!(rt; are_objects(alloc, &[("myid", b"1")], "", "zk: D1\n"));
}

/// The directory of a log.
fn folder_of(alloc: Global, bytes: &[u8]) -> Option<LogFolder> {
    let Ok(bytes) = Vec::from_slice(alloc, bytes) else {
        return None;
    };
    match LogFolder::of(alloc, bytes) {
        Ok(folder) => folder,
        Err(_) => None,
    }
}

/// Whether a log is listed so as the only one of a directory.
fn is_listed(alloc: Global, folder: &LogFolder, begin: &str, told: &str) -> bool {
    let mut output = Sink::new(DripOut::new(alloc, 65_536, None));
    let mut faults = Sink::new(DripOut::new(alloc, 64, None));
    let status = list_directory(alloc, Form::Lines, folder, folder, &mut output, &mut faults);
    status == Ok(0)
        && output.into_inner().bytes().starts_with(begin.as_bytes())
        && faults.into_inner().bytes() == told.as_bytes()
}

/// Whether the tree of the only log of a directory has this fault.
fn is_refused(alloc: Global, folder: &LogFolder, told: &str) -> bool {
    let mut output = Sink::new(DripOut::new(alloc, 65_536, None));
    let mut faults = Sink::new(DripOut::new(alloc, 64, None));
    let status = show(alloc, folder, folder, Upto::Last, &mut output, &mut faults);
    status == Ok(1) && faults.into_inner().bytes() == told.as_bytes()
}

#[test]
fn a_log_is_a_directory(rt: HostRuntime) {
    let alloc = rt.alloc();
    let Some(folder) = folder_of(alloc, LOG_6) else {
        assert!(rt; false);
        return;
    };
    let range =
        "zk: range 0000000000000006 0000000000000009 1970-01-01T00:00:01.006Z 1970-01-01T00:00:01.009Z\n";
    assert!(rt; is_listed(alloc, &folder, "0000000000000006 ", range));
    assert!(rt; is_refused(alloc, &folder, "zk: D2 0000000000000006\n"));
    assert!(rt; folder_of(alloc, b"ZKLG").is_none());
    assert!(rt; folder_of(alloc, b"").is_none());
}
