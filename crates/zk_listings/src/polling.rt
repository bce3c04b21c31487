//! The loop of `zk list --follow`.
ghost use Rattle.std.specs.Prelude.{◌-◌, ◌<◌, ◌^◌};
ghost use Rattle.zk_listings.specs.Followings.{EndsFollowing, TellsEnd};
ghost use Rattle.zk_records.specs.Sinks.{write_failures_of};

use crate::Form;
use crate::fault::FollowFault;
use crate::follower::Follower;
use crate::logs::GrowingLogs;
use std::alloc::Global;
use std::io::Write;
use std::sync::Wait;
use std::thread;
use std::time::{Clock, Duration};
use zk_directory_state::{HistoryFault, tell_fault};
use zk_log::Sink;
use zk_log_commands::tell;
use zk_path::NoMemory;

/// The time between two looks, in milliseconds.
const PAUSE: u64 = 100;

/// Writes a line for each transaction of a directory's logs as soon as it stands whole, each once,
/// until the logs are broken or the output cannot be written. Returns the exit status, 1.
pub fn follow<R: Wait + Clock, G: GrowingLogs, O: Write, E: Write>(
    rt: &R,
    alloc: Global,
    form: Form,
    logs: &G,
    output: &mut Sink<O>,
    faults: &mut Sink<E>,
) -> Result<u8, NoMemory>
    requires output { write_failures_of output.old < 2 ^ 64 - 1 }
    requires faults { write_failures_of faults.old < 2 ^ 64 - 1 }
    ensures { EndsFollowing O.contents E.contents (G.gives logs.now) form output.old output.new faults.old faults.new result }
{
    let mut follower = Follower::new(form);
    'looks: for _ in rt.forever() {
        match follower.poll(alloc, logs, output) {
            Ok(()) => thread::sleep(rt, Duration::from_millis(PAUSE)),
            Err(fault) => return tell_end(alloc, fault, faults),
        }
    }
    unreachable!()
}

/// Writes the line for why a follower stops. Returns the exit status.
fn tell_end<E: Write>(
    alloc: Global,
    fault: FollowFault,
    faults: &mut Sink<E>,
) -> Result<u8, NoMemory>
    requires { write_failures_of faults.old < 2 ^ 64 - 1 }
    ensures { TellsEnd E.contents fault faults.old faults.new result }
{
    match fault {
        FollowFault::Write => {
            tell(faults, "zk: write\n");
            Ok(1)
        }
        FollowFault::Log { log, fault } => {
            tell_fault(alloc, &HistoryFault::Log { log, fault }, faults)
        }
        FollowFault::Gap { from, to } => {
            tell_fault(alloc, &HistoryFault::Gap { from, to }, faults)
        }
        FollowFault::Unread(history) => tell_fault(alloc, &history, faults),
        FollowFault::NoMemory => Err(NoMemory),
    }
}
