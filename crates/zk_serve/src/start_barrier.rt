//! The start barrier of the servers.

use std::sync::Wait;
use std::sync::atomic::{AtomicBool, AtomicUsize, Ordering};
use std::thread;
use zk_front::servers::Gate;

/// Lets each server pass, and counts those that have passed.
#[derive(Drop)]
pub(crate) struct StartBarrier {
    entered: AtomicUsize,
    closed: AtomicBool,
}

impl StartBarrier {
    pub(crate) fn new() -> StartBarrier {
        StartBarrier {
            entered: AtomicUsize::new(0),
            closed: AtomicBool::new(false),
        }
    }

    /// Records that no server runs any longer.
    pub(crate) fn close(&self) {
        self.closed.store(true, Ordering::SeqCst);
    }

    /// Waits until `servers` threads have started; `false` if one could not be created.
    pub(crate) fn wait<R: Wait>(&self, rt: &R, servers: usize) -> bool {
        for _ in rt.forever() {
            if self.entered.load(Ordering::SeqCst) >= servers {
                return true;
            }
            if self.closed.load(Ordering::SeqCst) {
                return false;
            }
            thread::yield_now();
        }
        unreachable!()
    }
}

impl Gate for StartBarrier {
    fn enter(&self, _server: usize, turn: u32) {
        if turn == 0 {
            self.entered.fetch_add(1, Ordering::SeqCst);
        }
    }
}
