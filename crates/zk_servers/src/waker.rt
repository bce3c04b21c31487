use std::sync::Wait;
use std::sync::atomic::{AtomicBool, Ordering};
use std::thread::Parker;

/// What the thread of an inbox sleeps on. It is woken by each number that is sent, and by the end
/// of the inbox.
#[derive(Drop)]
pub(crate) struct Waker {
    parker: Parker,
    ended: AtomicBool,
}

impl Waker {
    pub(crate) fn new() -> Waker {
        Waker {
            parker: Parker::new(),
            ended: AtomicBool::new(false),
        }
    }

    /// Whether the inbox was ended.
    pub(crate) fn has_ended(&self) -> bool {
        self.ended.load(Ordering::SeqCst)
    }

    /// Ends the inbox, and wakes its thread.
    pub(crate) fn end(&self) {
        self.ended.store(true, Ordering::SeqCst);
        self.wake();
    }

    /// Sleeps until it is woken; returns at once if it was woken since it last slept.
    pub(crate) fn sleep<R: Wait>(&self, rt: &R) {
        self.parker.park(rt);
    }

    pub(crate) fn wake(&self) {
        self.parker.unpark();
    }
}
