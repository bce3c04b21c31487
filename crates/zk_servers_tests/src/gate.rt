//! Gates that servers pass before each turn.

use std::sync::atomic::{AtomicBool, AtomicU64, Ordering};
use std::thread;
use zk_front::servers::Gate;

/// Holds each of two servers until the other has entered.
#[derive(Drop)]
pub struct Both {
    first: AtomicBool,
    second: AtomicBool,
    first_saw: AtomicBool,
    second_saw: AtomicBool,
}

impl Both {
    pub fn new() -> Both {
        Both {
            first: AtomicBool::new(false),
            second: AtomicBool::new(false),
            first_saw: AtomicBool::new(false),
            second_saw: AtomicBool::new(false),
        }
    }

    /// Whether each saw that the other had entered.
    pub fn saw_both(&self) -> bool {
        self.first_saw.load(Ordering::SeqCst) && self.second_saw.load(Ordering::SeqCst)
    }
}

impl Gate for Both {
    fn enter(&self, server: usize, _turn: u32) {
        if server == 1 {
            hold(&self.first, &self.second, &self.first_saw);
        } else {
            hold(&self.second, &self.first, &self.second_saw);
        }
    }
}

/// Waits for the other, at most a million times.
fn hold(mine: &AtomicBool, other: &AtomicBool, saw: &AtomicBool) {
    mine.store(true, Ordering::SeqCst);
    for _ in 0..1_000_000 {
        if other.load(Ordering::SeqCst) {
            saw.store(true, Ordering::SeqCst);
            return;
        }
        thread::yield_now();
    }
}

/// Holds no server.
#[derive(Drop)]
pub struct Open;

impl Gate for Open {
    fn enter(&self, _server: usize, _turn: u32) {}
}

/// Holds no thread, and counts how often each of two servers entered in turn 0, in turn 1 and
/// later: in bytes, from the lowest on.
#[derive(Drop)]
pub struct Turned {
    first: AtomicU64,
    second: AtomicU64,
}

impl Turned {
    pub fn new() -> Turned {
        Turned {
            first: AtomicU64::new(0),
            second: AtomicU64::new(0),
        }
    }

    /// The counts of both servers.
    pub fn turns(&self) -> [u64; 2] {
        [
            self.first.load(Ordering::SeqCst),
            self.second.load(Ordering::SeqCst),
        ]
    }
}

impl Gate for Turned {
    fn enter(&self, server: usize, turn: u32) {
        let entered = if server == 1 {
            &self.first
        } else {
            &self.second
        };
        let one = match turn {
            0 => 1,
            1 => 0x100,
            _ => 0x1_0000,
        };
        entered.fetch_add(one, Ordering::SeqCst);
    }
}
