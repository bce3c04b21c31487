//! Commands over devices that give and take few bytes at a time, or fail, and how much they read.
use crate::device_tests::Fails::{Input, Nothing, Output, Report, Script};
use std::alloc::Global;
use zk_cli_args::Order::{self, Asm, Debug, List, Mend, Run};
use zk_commands::act;
use zk_log::{DripIn, DripOut, Sink, Source};

const LAST: Order = Order::Show { upto: None };

const TALK: Order = Order::Session { prompts: false };

/// The first two entries of the first log: a session, and a node.
pub(crate) const HEAD: &[u8] =
    b"ZKLG\0\0\0\x02\0\0\0\0\0\0\0\0\0\0\0\0#\xa4\x05\x88\0\0\0$\x01\0\0\0\0\0\0\x01\0\0\0\0\0\0\0\x01\0\0\0\
      \x01\0\0\0\0\0\0\x03\xe8\xff\xff\xff\xf6\0\0u0B\0\0\0\0\x9d\x97\x07\"\0\0\0L\x01\0\0\0\0\0\0\x01\0\0\0\
      \x01\0\0\0\x01\0\0\0\x02\0\0\0\0\0\0\x07\xd0\0\0\0\x01\0\0\0\x02/a\0\0\0\x02hi\0\0\0\x01\0\0\0\x1f\0\0\0\
      \x05world\0\0\0\x06anyone\0\0\0\0\x01B";

/// Its report.
const TREE: &[u8] = b"zxid 0000000100000002\n\
      session 0100000000000001 30000\n\
      \"/\" x 1 31 \"world\" \"anyone\" 0000000000000000 0000000000000000 0 0 0 0 0 0000000000000000 0 2 0000000100000002\n\
      \"/a\" x6869 1 31 \"world\" \"anyone\" 0000000100000002 0000000100000002 2000 2000 0 0 0 0000000000000000 2 0 0000000100000002\n\
      \"/zookeeper\" x 1 31 \"world\" \"anyone\" 0000000000000000 0000000000000000 0 0 0 -1 0 0000000000000000 0 1 0000000000000000\n\
      \"/zookeeper/quota\" x 1 31 \"world\" \"anyone\" 0000000000000000 0000000000000000 0 0 0 0 0 0000000000000000 0 0 0000000000000000\n\
      end whole\n";

/// Its listing.
const LISTING: &[u8] = b"0000000100000001 0100000000000001 0 1000 createSession 30000\n\
      0000000100000002 0100000000000001 1 2000 create \"/a\" x6869 1 31 \"world\" \"anyone\" p 1\n";

/// A log of 3.8: a session, and a create with a reply's path.
const NEWER: &[u8] =
    b"ZKLG\0\0\0\x02\0\0\0\0\0\0\0\0\0\0\0\0\xc1\x9b\n\x88\0\0\00\x01\0\0M#\xab\0\0\0\0\0\0\0\0\0\0\0\0\0\x01\
      \0\0\x01\xa2\x08u\xe3\x80\xff\xff\xff\xf6\0\0u0\0\0\0\x02\0\0\0\0Q\xc6\xd6`B\0\0\0\0\xe0I\x0be\0\0\0Y\
      \x01\0\0M#\xab\0\0\0\0\0\x01\0\0\0\0\0\0\0\x02\0\0\x01\xa2\x08u\xe3\xa4\0\0\0\x0f\0\0\0\x02/a\0\0\0\x03o\
      ne\0\0\0\x01\0\0\0\x1f\0\0\0\x05world\0\0\0\x06anyone\0\0\0\0\x01\0\0\0\x02\0\0\0\x01\nA%gB";

/// The mended log, and the report.
const OLDER: &[u8] =
    b"ZKLG\0\0\0\x02\0\0\0\0\0\0\0\0\0\0\0\0Y;\x089\0\0\0$\x01\0\0M#\xab\0\0\0\0\0\0\0\0\0\0\0\0\0\x01\0\0\x01\
      \xa2\x08u\xe3\x80\xff\xff\xff\xf6\0\0u0B\0\0\0\0]\x8e\n}\0\0\0M\x01\0\0M#\xab\0\0\0\0\0\x01\0\0\0\0\0\0\
      \0\x02\0\0\x01\xa2\x08u\xe3\xa4\0\0\0\x01\0\0\0\x02/a\0\0\0\x03one\0\0\0\x01\0\0\0\x1f\0\0\0\x05world\0\
      \0\0\x06anyone\0\0\0\0\x01B";

const REPORT: &[u8] = b"records 2\nunchanged 0\ndigest 2 16\ncreate2 1 77\nend whole\n";

/// A leader of three without followers gets a read, which fails.
const SCRIPT: &[u8] = b"servers 3\nlead 1\nfollow 2 1\nlead 4\n\
      read 1 0000000000000001 0000000000000000 0 get \"/\"\ndelivered 1";

const ANSWERS: &[u8] = b"ok\nok\nok 1\nE2\nerr -112\nlines 0\n";

const STOPPED: &[u8] = b"? a command; help lists them\nno earlier place (B2)\n";

const BACK: &[u8] = b"no earlier place (B2)\n";

const CLEARS: &[u8] = b"clear 1\nstop\nback\n";

const WRITE: &str = "zk: write\n";

const READ: &str = "zk: read\n";

/// The device that fails: a reader after a number of reads; or a writer, which takes a number of
/// bytes at a time, after a number of writes.
#[derive(Clone, Copy)]
enum Fails {
    Nothing,
    Input(u64),
    Script(u64),
    Output(usize, u64),
    Report(usize, u64),
}

/// A command, its input and its script, and what fails; its output, its report and its error line.
type Trial<'a> = (
    Order,
    &'a [u8],
    &'a [u8],
    Fails,
    &'a [u8],
    &'a [u8],
    &'a str,
);

static TRIALS: [Trial; 21] = [
    (LAST, HEAD, b"", Nothing, TREE, b"", ""),
    (List, HEAD, b"", Nothing, LISTING, b"", ""),
    (Asm, LISTING, b"", Nothing, HEAD, b"", ""),
    (Mend, NEWER, b"", Nothing, OLDER, REPORT, ""),
    (Debug, HEAD, CLEARS, Nothing, b"B3\n", b"", "zk: script 2\n"),
    (TALK, HEAD, b"stop\nback", Nothing, STOPPED, b"", ""),
    (Run, SCRIPT, b"", Nothing, ANSWERS, b"", ""),
    // a read or a write fails in mid-stream, or a read after the end would fail
    (LAST, HEAD, b"", Output(4, 3), b"zxid 0000000", b"", WRITE),
    (LAST, HEAD, b"", Input(4), b"", b"", "zk: G6\n"),
    (Asm, LISTING, b"", Input(4), b"", b"", READ),
    (Asm, LISTING, b"", Input(21), b"", b"", READ),
    (Asm, LISTING, b"", Input(22), HEAD, b"", ""),
    (Asm, LISTING, b"", Output(4, 1), b"ZKLG", b"", WRITE),
    (Mend, NEWER, b"", Input(3), b"", b"", "zk: G6\n"),
    (Mend, NEWER, b"", Output(64, 0), b"", b"", WRITE),
    (Mend, NEWER, b"", Report(8, 1), OLDER, b"records ", WRITE),
    (Debug, HEAD, b"back\nback\n", Script(2), b"", b"", READ),
    (Debug, HEAD, b"tree\n", Output(4, 1), b"zxid", b"", WRITE),
    // the first line has its answer before the eighth read
    (TALK, HEAD, b"back\nback\n", Script(7), BACK, b"", READ),
    (Run, SCRIPT, b"", Input(1), b"", b"", READ),
    (Run, SCRIPT, b"", Output(4, 2), b"ok\nok\nok", b"", WRITE),
];

/// The number of bytes that a writer takes at a time, and the number of writes before it fails, if
/// it does.
type Taking = (usize, Option<u64>);

const FOUR: Taking = (4, None);

/// The numbers of reads before the input and the script fail, if they do, and how the output and
/// the report take bytes.
fn limits(fails: Fails) -> (Option<u64>, Option<u64>, Taking, Taking) {
    match fails {
        Nothing => (None, None, FOUR, FOUR),
        Input(good) => (Some(good), None, FOUR, FOUR),
        Script(good) => (None, Some(good), FOUR, FOUR),
        Output(piece, good) => (None, None, (piece, Some(good)), FOUR),
        Report(piece, good) => (None, None, FOUR, (piece, Some(good))),
    }
}

/// Whether a trial holds. A read returns `piece` bytes of the input, or five of the script; a write
/// takes four where no other number is given. The status is 1 if there is an error line, and
/// otherwise 0.
fn is_so(alloc: Global, trial: &Trial, piece: usize) -> bool {
    let (order, input, script, fails, written, reported, told) = *trial;
    let (reads, lines, (out_piece, writes), (report_piece, reports)) = limits(fails);
    let mut output = Sink::new(DripOut::new(alloc, out_piece, writes));
    let mut report = Sink::new(DripOut::new(alloc, report_piece, reports));
    let mut faults = Sink::new(DripOut::new(alloc, 64, None));
    let status = act(
        alloc,
        &order,
        &mut Source::new(DripIn::new(input, piece.max(1), reads)),
        &mut Source::new(DripIn::new(script, 5, lines)),
        &mut output,
        &mut report,
        &mut faults,
    );
    let (output, report) = (output.into_inner(), report.into_inner());
    status == Ok(u8::from(!told.is_empty()))
        && output.bytes() == written
        && report.bytes() == reported
        && faults.into_inner().bytes() == told.as_bytes()
}

#[test]
fn orders_act_over_devices(rt: HostRuntime) {
    for trial in &TRIALS {
        assert!(rt; is_so(rt.alloc(), trial, 7), "{}", trial.6);
    }
}

/// A command, a number of newlines as its text, how many of them a read returns, what fails, and
/// the error line.
type Text = (Order, usize, usize, Fails, &'static str);

static TEXTS: [Text; 7] = [
    // the last of 1,048,576 reads meets the end; with one byte more it does not
    (Asm, 1_048_575, 1, Nothing, "zk: L1 1\n"),
    (Asm, 1_048_576, 1, Nothing, READ),
    (Run, 1_048_576, 1, Nothing, READ),
    // a read asks for 65,536 bytes, and the one after the last byte meets the end
    (Asm, 65_537, 100_000, Input(2), READ),
    (Asm, 65_537, 100_000, Input(3), "zk: L1 1\n"),
    (Asm, 131_072, 100_000, Input(2), READ),
    (Asm, 131_072, 100_000, Input(3), "zk: L1 1\n"),
];

/// Whether the text of a test case is read as expected.
fn is_read(alloc: Global, row: &Text) -> bool {
    let (order, count, piece, fails, told) = *row;
    let text = vec![in alloc; b'\n'; count];
    matches!(&text, Ok(text)
        if is_so(alloc, &(order, text.as_slice(), b"", fails, b"", b"", told), piece))
}

/// The header of a log, and the beginning of an entry of 16,777,216 bytes.
const LONG_ENTRY: &[u8] = b"ZKLG\0\0\0\x02\0\0\0\0\0\0\0\0\0\0\0\0\0\0\0\0\x01\0\0\0";

/// Whether a log with 1,048,576 bytes of that entry, one at a time, exceeds the limit of reads.
fn is_endless(alloc: Global) -> bool {
    let mut log = Vec::new(alloc);
    log.extend_from_slice(LONG_ENTRY).is_ok()
        && log.resize(1_048_604, 0).is_ok()
        && is_so(alloc, &(LAST, &log, b"", Nothing, b"", b"", "zk: G7\n"), 1)
}

#[test]
fn reads_are_counted_up_to_1048576(rt: HostRuntime) {
    for row in &TEXTS {
        assert!(rt; is_read(rt.alloc(), row), "{}", row.1);
    }
    assert!(rt; is_endless(rt.alloc()));
}
