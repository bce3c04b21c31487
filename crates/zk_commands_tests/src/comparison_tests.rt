//! Comparisons of small directories. Expected lines are worked out by hand.

use crate::directory_command_tests::{ALL, MemoryFolder};
use crate::files::LOG_1;
use std::alloc::Global;
use zk_comparison::{ComparedDirectory, ReportForm, compare_each};
use zk_log::{DripOut, Sink};

/// The files of a directory.
type Files = &'static [(&'static str, &'static [u8])];

/// The first log of [`ALL`].
const FIRST_LOG: Files = &[("log.1", LOG_1)];

/// No snapshot and no log.
const NONE: Files = &[("myid", b"1")];

/// A directory, by name.
fn directory(
    name: &str,
    files: Files,
) -> ComparedDirectory<'_, MemoryFolder<'_>, MemoryFolder<'_>> {
    ComparedDirectory {
        name,
        snapshots: MemoryFolder { files },
        logs: MemoryFolder { files },
    }
}

/// What is written of [`ALL`] and its first log.
const REPORT: &str = "same 5 0000000000000001 0000000000000005 \
     1970-01-01T00:00:01.001Z 1970-01-01T00:00:01.005Z\n\
     differences 0\n\
     after first 4 0000000000000006 0000000000000009 \
     1970-01-01T00:00:01.006Z 1970-01-01T00:00:01.009Z\n\
     tree 0000000000000005 0\n";

/// The same with two directories more, of which one has no files.
const REPORTS: &str = "compare \"all\" \"log\"\n\
     same 5 0000000000000001 0000000000000005 \
     1970-01-01T00:00:01.001Z 1970-01-01T00:00:01.005Z\n\
     differences 0\n\
     after first 4 0000000000000006 0000000000000009 \
     1970-01-01T00:00:01.006Z 1970-01-01T00:00:01.009Z\n\
     tree 0000000000000005 0\n\
     compare \"all\" \"none\"\n";

const NOTICES: &str = "zk: compare \"all\" \"none\"\nzk: D1\n";

/// The fields of the first object, as Python's json module writes them.
const OBJECT: &str = "{\"kind\":\"compare\",\"first\":\"all\",\"second\":\"log\"}\n";

/// Compares [`ALL`] with its first log, and with a directory without files if there are `count`
/// others. Whether these are the status, the beginning of the output and the notices.
fn tells(
    alloc: Global,
    form: ReportForm,
    count: usize,
    status: u8,
    begins: &str,
    notices: &str,
) -> bool {
    let first = directory("all", ALL);
    let others = [directory("log", FIRST_LOG), directory("none", NONE)];
    let others = others.get(..count).unwrap_or(&others);
    let mut output = Sink::new(DripOut::new(alloc, 65_536, None));
    let mut faults = Sink::new(DripOut::new(alloc, 64, None));
    let ended = compare_each(alloc, form, &first, others, &mut output, &mut faults);
    ended == Ok(status)
        && output.into_inner().bytes().starts_with(begins.as_bytes())
        && faults.into_inner().bytes() == notices.as_bytes()
}

#[test]
fn directories_are_compared_with_the_first(rt: HostRuntime) {
    let alloc = rt.alloc();
    assert!(rt; tells(alloc, ReportForm::Lines, 1, 0, REPORT, ""));
    assert!(rt; tells(alloc, ReportForm::Lines, 2, 1, REPORTS, NOTICES));
    assert!(rt; tells(alloc, ReportForm::Objects, 2, 1, OBJECT, NOTICES));
}
