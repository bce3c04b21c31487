//! The debugger on small directories. Expected lines are worked out by hand.
use crate::directory_command_tests::{ALL, FROM_6, MemoryFolder};
use std::alloc::Global;
use zk_commands::directory_session::run_repl;
use zk_commands::{debug, start_of};
use zk_directory_state::Upto;
use zk_log::{DripIn, DripOut, Sink, Source};

/// The files, the transaction to start after, the script, its output, and the line of the fault.
type Trial = (
    &'static [(&'static str, &'static [u8])],
    Option<Upto>,
    &'static str,
    &'static str,
    &'static str,
);

const TRIALS: &[Trial] = &[
    // the snapshot is exact from 7 on
    (
        ALL,
        None,
        "back\nstep\nrun\nback\nback\nback\n",
        "B2\n\
            place 1 0000000000000008\n\
            place 2 0000000000000009\n\
            place 1 0000000000000008\n\
            place 0 0000000000000007\n\
            B2\n",
        "",
    ),
    (
        ALL,
        Some(Upto::Zxid { zxid: 5 }),
        "step\nback\nback\nreset\n",
        "place 1 0000000000000006\n\
            place 0 0000000000000005\n\
            B2\n\
            place 0 0000000000000005\n",
        "",
    ),
    (
        FROM_6,
        Some(Upto::Zxid { zxid: 6 }),
        "step\n",
        "",
        "zk: D6 snapshot.4 0000000000000007\n",
    ),
];

/// Whether a trial holds.
fn is_debugged(alloc: Global, trial: &Trial) -> bool {
    let (files, from, script, answers, told) = *trial;
    let folder = MemoryFolder { files };
    let mut output = Sink::new(DripOut::new(alloc, 64, None));
    let mut faults = Sink::new(DripOut::new(alloc, 64, None));
    let status = debug(
        alloc,
        &folder,
        &folder,
        from,
        &mut Source::new(DripIn::new(script.as_bytes(), 5, None)),
        &mut output,
        &mut faults,
    );
    status == Ok(u8::from(!told.is_empty()))
        && output.into_inner().bytes() == answers.as_bytes()
        && faults.into_inner().bytes() == told.as_bytes()
}

#[test]
fn directories_are_debugged(rt: HostRuntime) {
    for trial in TRIALS {
        assert!(rt; is_debugged(rt.alloc(), trial), "{}", trial.2);
    }
}

#[test]
fn start_of_a_directory(rt: HostRuntime) {
    let folder = MemoryFolder { files: ALL };
    let Ok(start) = start_of(rt.alloc(), &folder, &folder, None) else {
        assert!(rt; false);
        return;
    };
    assert!(rt; start.base.last() == Ok(7));
    let txns = start.txns.as_slice();
    assert!(rt; txns.len() == 2 && txns[0].zxid == 8 && txns[1].zxid == 9);
}

/// Whether a session over the directory shows its places in the prompts.
fn talks(alloc: Global) -> bool {
    let folder = MemoryFolder { files: ALL };
    let mut output = Sink::new(DripOut::new(alloc, 64, None));
    let mut faults = Sink::new(DripOut::new(alloc, 64, None));
    let status = run_repl(
        alloc,
        true,
        &folder,
        &folder,
        None,
        &mut Source::new(DripIn::new(b"step\n", 5, None)),
        &mut output,
        &mut faults,
    );
    let expected = b"zk 0 0000000000000007> place 1 0000000000000008\nzk 1 0000000000000008> ";
    status == Ok(0) && output.into_inner().bytes() == expected.as_slice()
}

#[test]
fn a_session_starts_where_a_snapshot_is_exact(rt: HostRuntime) {
    assert!(rt; talks(rt.alloc()));
}
