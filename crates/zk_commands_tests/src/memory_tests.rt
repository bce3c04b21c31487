//! The line protocol over memory and over an ensemble of three servers, with a clock that stands at
//! 1000.

use std::alloc::Global;
use zk_front::{Clock, FrontFault, Local, Service, serve_lines};
use zk_log::{DripIn, DripOut, Sink, Source};

/// A stopped clock.
#[derive(Drop)]
pub struct Still;

impl Clock for Still {
    fn now(&mut self) -> i64 {
        1000
    }
}

/// The devices: the number of bytes of a read, while a write takes one; the read and the write that
/// fail, counted from 0; and the maximal number of reads.
#[derive(Clone, Copy)]
pub struct Devices {
    pub piece: usize,
    pub bad_read: Option<u64>,
    pub bad_write: Option<u64>,
    pub turns: u32,
}

/// Devices that do not fail.
pub const GOOD: Devices = Devices {
    piece: 4096,
    bad_read: None,
    bad_write: None,
    turns: 1_048_576,
};

/// A client's session, with its answers. The first transaction is the opening.
const LINES: &str = "open 30000
create \"/a\" x6869 1 31 \"world\" \"anyone\"
get \"/a\"
ruok
ls -w \"/\"
create \"/b\" x 1 31 \"world\" \"anyone\"
sync \"/a\"
stat \"/\"
set \"/a\" \"bye\" 0
set \"/a\" \"bye\" 0
getacl \"/b\"
delete \"/b\" 0
get \"/b\"
commit
multi
create \"/m\" x 1 31 \"world\" \"anyone\"
create \"/m/n\" x 1 31 \"world\" \"anyone\"
set \"/m\" x01 0
check \"/m\" 1
delete \"/m/n\" 0
commit
multi
delete \"/m\" 5
create \"/o\" x 1 31 \"world\" \"anyone\"
commit
addauth digest \"alice:secret\"
create -e \"/e\" x 1 31 \"auth\" \"\"
getacl \"/e\"
close
close
";

const ANSWERS: &str = "ok 0000000100000001 30000
ok \"/a\"
ok x6869 0000000100000002 0000000100000002 1000 1000 0 0 0 0000000000000000 2 0 0000000100000002
imok
ok 2 \"a\" \"zookeeper\" 0000000000000000 0000000000000000 0 0 0 0 0 0000000000000000 0 2 0000000100000002
event 4 \"/\"
ok \"/b\"
ok \"/a\"
ok 0000000000000000 0000000000000000 0 0 0 1 0 0000000000000000 0 3 0000000100000003
ok 0000000100000002 0000000100000004 1000 1000 1 0 0 0000000000000000 3 0 0000000100000002
err -103
ok 1 31 \"world\" \"anyone\" 0000000100000003 0000000100000003 1000 1000 0 0 0 0000000000000000 0 0 0000000100000003
ok
err -101
err -8
ok ; 0 \"/m\" - ; 0 \"/m/n\" - ; 0 \"/m\" 0000000100000007 0000000100000007 1000 1000 1 1 0 0000000000000000 1 1 0000000100000007 ; 0 \"/m\" - ; 0 \"/m/n\" -
err -103 ; -103 - - ; -2 - -
ok
ok \"/e\"
ok 1 31 \"digest\" \"alice:aYXlLOpEooaV1cRAvUL1fp9Qt7E=\" 0000000100000009 0000000100000009 1000 1000 0 0 0 0000000100000001 0 0 0000000100000009
ok
err -112
";

/// The result of serving.
pub type Ended = Result<u64, FrontFault>;

/// Whether serving these bytes ends as expected, with this output.
pub fn serves<S: Service>(
    alloc: Global,
    service: &mut S,
    input: &[u8],
    devices: Devices,
    expected: Ended,
    written: &[u8],
) -> bool {
    let mut reader = Source::new(DripIn::new(input, devices.piece.max(1), devices.bad_read));
    let mut writer = Sink::new(DripOut::new(alloc, 1, devices.bad_write));
    let ended = serve_lines(alloc, &mut reader, &mut writer, service, devices.turns);
    let out = writer.into_inner();
    ended == expected && out.bytes() == written
}

/// Does the same with a new ensemble, which starts.
fn is_served(
    alloc: Global,
    input: &[u8],
    devices: Devices,
    expected: Ended,
    written: &[u8],
) -> bool {
    match Local::start(alloc, 3, Still) {
        Ok(mut local) => {
            let is_it = serves(alloc, &mut local, input, devices, expected, written);
            drop(local);
            is_it
        }
        Err(_) => false,
    }
}

/// Whether the lines have their answers, in chunks of any size.
fn are_answered(alloc: Global) -> bool {
    let (input, answers) = (LINES.as_bytes(), ANSWERS.as_bytes());
    for piece in [1, 7, 65_536] {
        let devices = Devices { piece, ..GOOD };
        if !is_served(alloc, input, devices, Ok(30), answers) {
            return false;
        }
    }
    true
}

#[test]
fn front_lines_over_memory(rt: HostRuntime) {
    assert!(rt; are_answered(rt.alloc()));
}

#[test]
fn no_reads_are_endless(rt: HostRuntime) {
    let devices = Devices { turns: 0, ..GOOD };
    let ended = Err(FrontFault::Endless);
    assert!(rt; is_served(rt.alloc(), b"ruok\n", devices, ended, b""));
}

/// Returns the number of bytes of the answers to the first `read` bytes of the input: each line
/// here has one answer.
fn answered_by(input: &[u8], answers: &[u8], read: usize) -> usize {
    let mut left = lines_of(input.get(..read).unwrap_or(input));
    for (at, byte) in answers.iter().enumerate() {
        if left == 0 {
            return at;
        }
        if *byte == b'\n' {
            left -= 1;
        }
    }
    answers.len()
}

/// Counts newlines.
fn lines_of(bytes: &[u8]) -> usize {
    bytes.iter().filter(|byte| **byte == b'\n').count()
}

/// Lines with an answer of one line each.
const PLAIN: &str = "open 30000\nruok\nget \"/\"\nx\n";

const PLAIN_ANSWERS: &str =
    "ok 0000000100000001 30000\nimok\nok x 0000000000000000 0000000000000000 0 0 0 -1 0 0000000000000000 0 1 0000000000000000\nerr -8\n";

/// Whether serving those lines fails with this fault, after this number of bytes of their answers.
fn is_refused(alloc: Global, devices: Devices, fault: FrontFault, bytes: usize) -> bool {
    match PLAIN_ANSWERS.as_bytes().get(..bytes) {
        Some(written) => is_served(alloc, PLAIN.as_bytes(), devices, Err(fault), written),
        None => false,
    }
}

/// Returns the first failing read, byte by byte, for which serving has an unexpected result.
fn other_read(alloc: Global) -> Option<usize> {
    for read in 0..PLAIN.len() + 1 {
        let devices = Devices {
            piece: 1,
            bad_read: Some(read as u64),
            ..GOOD
        };
        let bytes = answered_by(PLAIN.as_bytes(), PLAIN_ANSWERS.as_bytes(), read);
        if !is_refused(alloc, devices, FrontFault::Read, bytes) {
            return Some(read);
        }
    }
    None
}

#[test]
fn each_read_may_fail(rt: HostRuntime) {
    assert_eq!(rt; other_read(rt.alloc()), None);
}

/// Returns the first failing write for which serving has an unexpected result: a write takes a
/// byte.
fn other_write(alloc: Global) -> Option<usize> {
    for written in 0..PLAIN_ANSWERS.len() {
        let devices = Devices {
            bad_write: Some(written as u64),
            ..GOOD
        };
        if !is_refused(alloc, devices, FrontFault::Write, written) {
            return Some(written);
        }
    }
    None
}

#[test]
fn each_write_may_fail(rt: HostRuntime) {
    assert_eq!(rt; other_write(rt.alloc()), None);
}
