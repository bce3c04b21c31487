//! The commands on small directories. Expected lines are worked out by hand.
use crate::files::{
    LISTLESS_SNAPSHOT, LOG_1, LOG_6, LOG_8, LOG_WITH_DIGEST, LOG_WITH_OTHER, SNAPSHOT,
};
use std::alloc::Global;
use zk_directory::FileName;
use zk_directory_state::{
    DirectoryFault, Folder, FolderFault, HistoryFault, RestoreFault, Upto, history_fault, logs_in,
    read_logs, read_snapshot_file, show, shown_of, slices_of,
};
use zk_listings::{Form, list_directory};
use zk_log::{DripOut, Ending, Sink};

/// A folder in memory: the names and bytes of its files.
#[derive(Clone, Copy)]
pub(crate) struct MemoryFolder<'a> {
    pub(crate) files: &'a [(&'static str, &'static [u8])],
}

impl Folder for MemoryFolder<'_> {
    ghost use Rattle.std.specs.Prelude.{None};

    ghost names_in = { λ _. None };

    ghost bytes_in = { λ _ _. None };

    fn names(&self, alloc: Global) -> Result<Vec<String>, FolderFault> {
        let mut names = Vec::new(alloc);
        for (name, _) in self.files {
            let Ok(name) = String::from_str(alloc, *name) else {
                return Err(FolderFault::NoMemory);
            };
            if names.push(name).is_err() {
                return Err(FolderFault::NoMemory);
            }
        }
        Ok(names)
    }

    fn read(&self, alloc: Global, name: &str) -> Result<Vec<u8>, FolderFault> {
        for (other, bytes) in self.files {
            if *other == name {
                return match Vec::from_slice(alloc, *bytes) {
                    Ok(copy) => Ok(copy),
                    Err(_) => Err(FolderFault::NoMemory),
                };
            }
        }
        Err(FolderFault::Read)
    }
}

/// The files, the zxid, how the report begins and ends, the line of the fault, and the notices.
type Trial = (
    &'static [(&'static str, &'static [u8])],
    Upto,
    &'static str,
    &'static str,
    &'static str,
    &'static str,
);

/// A snapshot and the logs.
pub(crate) const ALL: &[(&str, &[u8])] = &[
    ("snapshot.4", SNAPSHOT),
    ("log.6", LOG_6),
    ("log.1", LOG_1),
];

pub(crate) const FROM_6: &[(&str, &[u8])] = &[("log.6", LOG_6), ("snapshot.4", SNAPSHOT)];

/// A snapshot without the list of `/a`, and all logs.
const LISTLESS: &[(&str, &[u8])] = &[
    ("snapshot.4", LISTLESS_SNAPSHOT),
    ("log.1", LOG_1),
    ("log.6", LOG_6),
];

/// Directories that are shown.
const SHOWN: &[Trial] = &[
    (
        ALL,
        Upto::Last,
        "zxid 0000000000000009\n",
        "base snapshot.4 0000000000000007\nend whole\n",
        "",
        "",
    ),
    (
        ALL,
        Upto::Zxid { zxid: 5 },
        "zxid 0000000000000005\n",
        "base none\nend whole\n",
        "",
        "",
    ),
    (
        ALL,
        Upto::Time { time: 1007 },
        "zxid 0000000000000007\n",
        "base snapshot.4 0000000000000007\nend whole\n",
        "",
        "",
    ),
    (
        ALL,
        Upto::Time { time: 1009 },
        "zxid 0000000000000009\n",
        "base snapshot.4 0000000000000007\nend whole\n",
        "",
        "",
    ),
    (
        LISTLESS,
        Upto::Last,
        "zxid 0000000000000009\n",
        "base none\npassed snapshot.4 S8\nend whole\n",
        "",
        "",
    ),
    (
        &[("log.1", b"")],
        Upto::Last,
        "zxid 0000000000000000\n",
        "base none\nend whole\n",
        "",
        "zk: ends 0000000000000000\n",
    ),
    (
        &[("log.1", LOG_WITH_DIGEST)],
        Upto::Last,
        "zxid 0000000000000001\n",
        "base none\ndigest 1\nend whole\n",
        "",
        "",
    ),
    (
        &[("log.1", LOG_WITH_OTHER)],
        Upto::Last,
        "zxid 0000000000000001\n",
        "base none\notherDigest 1 0000000000000001\nend whole\n",
        "",
        "zk: otherDigest 1 0000000000000001\n",
    ),
];

/// Directories that do not hold what is asked.
const REFUSED: &[Trial] = &[
    (
        FROM_6,
        Upto::Zxid { zxid: 6 },
        "",
        "",
        "zk: D6 snapshot.4 0000000000000007\n",
        "",
    ),
    (
        &[("log.6", LOG_6)],
        Upto::Last,
        "",
        "",
        "zk: D2 0000000000000006\n",
        "",
    ),
    (
        ALL,
        Upto::Zxid { zxid: 10 },
        "",
        "",
        "zk: D7 0000000000000009 1970-01-01T00:00:01.009Z\n",
        "",
    ),
    (
        ALL,
        Upto::Time { time: 1010 },
        "",
        "",
        "zk: D7 0000000000000009 1970-01-01T00:00:01.009Z\n",
        "",
    ),
    (
        &[("snapshot.4", SNAPSHOT)],
        Upto::Time { time: 1007 },
        "",
        "",
        "zk: D8\n",
        "",
    ),
    (&[("log.6", b"")], Upto::Last, "", "", "zk: D8\n", ""),
    (&[("myid", b"1")], Upto::Last, "", "", "zk: D1\n", ""),
];

/// Whether a text begins and ends so.
fn is_between(text: &[u8], begin: &str, end: &str) -> bool {
    text.starts_with(begin.as_bytes()) && text.ends_with(end.as_bytes())
}

/// Whether a trial holds.
fn is_shown(alloc: Global, trial: &Trial) -> bool {
    let (files, upto, begin, end, told, notices) = *trial;
    let folder = MemoryFolder { files };
    let mut output = Sink::new(DripOut::new(alloc, 65_536, None));
    let mut faults = Sink::new(DripOut::new(alloc, 64, None));
    let status = show(alloc, &folder, &folder, upto, &mut output, &mut faults);
    let lines = if told.is_empty() { notices } else { told };
    status == Ok(u8::from(!told.is_empty()))
        && is_between(output.into_inner().bytes(), begin, end)
        && faults.into_inner().bytes() == lines.as_bytes()
}

#[test]
fn directories_are_shown(rt: HostRuntime) {
    for trial in SHOWN {
        assert!(rt; is_shown(rt.alloc(), trial), "{}", trial.2);
    }
}

#[test]
fn directories_that_lack_it_are_refused(rt: HostRuntime) {
    for trial in REFUSED {
        assert!(rt; is_shown(rt.alloc(), trial), "{}", trial.4);
    }
}

/// Whether a listing begins and ends so.
fn is_listed(
    alloc: Global,
    files: &[(&'static str, &'static [u8])],
    begin: &str,
    end: &str,
    told: &str,
) -> bool {
    let folder = MemoryFolder { files };
    let mut output = Sink::new(DripOut::new(alloc, 65_536, None));
    let mut faults = Sink::new(DripOut::new(alloc, 64, None));
    let status = list_directory(
        alloc,
        Form::Lines,
        &folder,
        &folder,
        &mut output,
        &mut faults,
    );
    status == Ok(u8::from(!told.is_empty()))
        && is_between(output.into_inner().bytes(), begin, end)
        && faults.into_inner().bytes() == told.as_bytes()
}

#[test]
fn logs_are_listed(rt: HostRuntime) {
    let alloc = rt.alloc();
    let begin = "0000000000000001 0000000000000001 1 1001 createSession 4000\n";
    let end = "0000000000000009 0000000000000001 1 1009 closeSession\n";
    assert!(rt; is_listed(alloc, ALL, begin, end, ""));
    let gap: [(&'static str, &'static [u8]); 2] = [("log.1", LOG_1), ("log.8", LOG_8)];
    let told = "zk: D3 0000000000000005 0000000000000008\n";
    assert!(rt; is_listed(alloc, gap.as_slice(), "", "", told));
}

#[test]
fn state_of_a_directory(rt: HostRuntime) {
    let folder = MemoryFolder { files: ALL };
    let Ok(shown) = shown_of(rt.alloc(), &folder, &folder, Upto::Last) else {
        assert!(rt; false);
        return;
    };
    assert!(rt; shown.restored.position == Some(9));
    assert!(rt; shown.restored.ending == Some(Ending::Whole));
    let Some(origin) = shown.origin else {
        assert!(rt; false);
        return;
    };
    assert!(rt; origin.zxid == 4 && origin.exact.zxid == 7 && origin.exact.is_told);
    assert!(rt; shown.broken.is_empty());
}

#[test]
fn logs_of_a_directory(rt: HostRuntime) {
    let alloc = rt.alloc();
    let folder = MemoryFolder { files: ALL };
    let Ok(logged) = logs_in(alloc, &folder) else {
        assert!(rt; false);
        return;
    };
    assert!(rt; logged.as_slice() == [1, 6].as_slice());
    let Ok(loaded) = read_logs(alloc, &folder, logged.as_slice()) else {
        assert!(rt; false);
        return;
    };
    let Ok(slices) = slices_of(alloc, loaded.as_slice()) else {
        assert!(rt; false);
        return;
    };
    assert!(rt; slices.len() == 2 && slices[0] == LOG_1 && slices[1] == LOG_6);
}

#[test]
fn a_snapshot_that_cannot_be_read_is_named(rt: HostRuntime) {
    let alloc = rt.alloc();
    let folder = MemoryFolder { files: ALL };
    assert!(rt;
        matches!(read_snapshot_file(alloc, &folder, 4), Ok(bytes) if bytes.as_slice() == SNAPSHOT)
    );
    let unread = HistoryFault::Unreadable(FileName::Snapshot { zxid: 6 });
    assert!(rt; matches!(read_snapshot_file(alloc, &folder, 6), Err(fault) if fault == unread));
}

#[test]
fn faults_name_their_files(rt: HostRuntime) {
    let failed = DirectoryFault {
        log: 1,
        fault: RestoreFault::Differs { at: 16 },
    };
    let expected = HistoryFault::Differs { log: 6, at: 16 };
    assert!(rt; history_fault(failed, 4, [1, 6].as_slice()) == expected);
}
