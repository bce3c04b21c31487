//! What a follower prints while logs grow.
ghost use Rattle.std.specs.Prelude.{◌-◌, ◌<◌, ◌^◌};
ghost use Rattle.zk_records.specs.Sinks.{write_failures_of};

use crate::logs::{FIRST, Grown, LATER, Logs, SECOND};
use std::alloc::Global;
use zk_directory::LogFileFault;
use zk_listings::{FollowFault, Follower, Form};
use zk_log::{DripOut, Sink};

const ONE: &[u8] = b"0000000100000001 0100000000000001 0 1764251614997 createSession 30000\n";

const THREE: &[u8] = b"0000000100000001 0100000000000001 0 1764251614997 createSession 30000\n\
      0000000100000002 0100000000000001 1 1764251675500 delete \"/b\"\n\
      0000000100000003 0100000000000001 0 1764251736003 closeSession\n";

const FOUR: &[u8] = b"0000000100000001 0100000000000001 0 1764251614997 createSession 30000\n\
      0000000100000002 0100000000000001 1 1764251675500 delete \"/b\"\n\
      0000000100000003 0100000000000001 0 1764251736003 closeSession\n\
      0000000100000004 0100000000000002 0 1764251796506 createSession 4000\n";

/// The zxids in the names of the logs.
const FIRST_LOG: i64 = 0x1_0000_0001;

const SECOND_LOG: i64 = 0x1_0000_0003;

const LATER_LOG: i64 = 0x1_0000_0006;

/// Looks at logs three times.
fn look_thrice<'a>(
    alloc: Global,
    first: &[Grown<'a>],
    second: &[Grown<'a>],
    third: &[Grown<'a>],
    output: &mut Sink<DripOut>,
) -> Result<(), FollowFault>
    requires { write_failures_of output.old < 2 ^ 64 - 1 }
{
    let mut follower = Follower::new(Form::Lines);
    follower.poll(alloc, &Logs { logs: first }, output)?;
    follower.poll(alloc, &Logs { logs: second }, output)?;
    follower.poll(alloc, &Logs { logs: third }, output)
}

/// Whether three looks end so, after these lines.
fn ends_so<'a>(
    alloc: Global,
    first: &[Grown<'a>],
    second: &[Grown<'a>],
    third: &[Grown<'a>],
    lines: &[u8],
    ended: Result<(), FollowFault>,
) -> bool {
    let mut output = Sink::new(DripOut::new(alloc, 64, None));
    let result = look_thrice(alloc, first, second, third, &mut output);
    result == ended && output.into_inner().bytes() == lines
}

#[test]
fn parts_are_waited_for(rt: HostRuntime) {
    let alloc = rt.alloc();
    // the header and an entry's part, one entry and a part, and all
    assert!(rt;
        ends_so(
            alloc,
            &[],
            &[(FIRST_LOG, &FIRST[..10])],
            &[(FIRST_LOG, &FIRST[..40])],
            b"",
            Ok(())
        )
    );
    assert!(rt;
        ends_so(
            alloc,
            &[(FIRST_LOG, &FIRST[..40])],
            &[(FIRST_LOG, &FIRST[..66])],
            &[(FIRST_LOG, &FIRST[..100])],
            ONE,
            Ok(()),
        )
    );
    assert!(rt;
        ends_so(
            alloc,
            &[(FIRST_LOG, &FIRST[..65])],
            &[(FIRST_LOG, &FIRST[..117])],
            &[(FIRST_LOG, &FIRST)],
            THREE,
            Ok(()),
        )
    );
}

#[test]
fn a_later_log_has_the_rest(rt: HostRuntime) {
    let alloc = rt.alloc();
    let torn: &[Grown<'_>] = &[(FIRST_LOG, &FIRST[..120])];
    assert!(rt;
        ends_so(
            alloc,
            torn,
            torn,
            &[(FIRST_LOG, &FIRST[..120]), (SECOND_LOG, &SECOND)],
            FOUR,
            Ok(())
        )
    );
    let both: &[Grown<'_>] = &[(FIRST_LOG, &FIRST), (SECOND_LOG, &SECOND)];
    assert!(rt; ends_so(alloc, both, both, both, FOUR, Ok(())));
    let gap = FollowFault::Gap {
        from: 0x1_0000_0003,
        to: 0x1_0000_0006,
    };
    assert!(rt;
        ends_so(
            alloc,
            &[(FIRST_LOG, &FIRST)],
            &[(FIRST_LOG, &FIRST), (LATER_LOG, &LATER)],
            &[],
            THREE,
            Err(gap),
        )
    );
}

/// The first `length` bytes of a log, with a wrong byte in the second entry.
fn broken(alloc: Global, length: usize) -> Option<Vec<u8>> {
    let mut bytes = Vec::from_slice(alloc, FIRST.get(..length)?).ok()?;
    *bytes.get_mut(90)? ^= 1;
    Some(bytes)
}

fn wrong_entry_ends(alloc: Global, length: usize, lines: &[u8], later: bool) -> Option<bool> {
    let bytes = broken(alloc, length)?;
    let logs: &[Grown<'_>] = &[(FIRST_LOG, bytes.as_slice())];
    let fault = FollowFault::Log {
        log: FIRST_LOG,
        fault: LogFileFault::Checksum(65),
    };
    let ended = if later { Err(fault) } else { Ok(()) };
    Some(ends_so(alloc, logs, logs, logs, lines, ended))
}

#[test]
fn a_wrong_entry_is_a_fault_after_a_later_write(rt: HostRuntime) {
    let alloc = rt.alloc();
    assert!(rt; wrong_entry_ends(alloc, 116, ONE, false) == Some(true));
    assert!(rt; wrong_entry_ends(alloc, 161, ONE, true) == Some(true));
}
