//! The clock of the servers.

use std::time;
use std::time::{SystemTime, UNIX_EPOCH};
use zk_front::Clock;

/// The system's clock, in milliseconds since 1970.
#[derive(Drop)]
pub(crate) struct SystemClock<'a, R: time::Clock> {
    rt: &'a R,
    /// The last time that the system returned.
    last: i64,
}

impl<'a, R: time::Clock> SystemClock<'a, R> {
    pub(crate) fn new(rt: &'a R) -> SystemClock<'a, R> {
        SystemClock { rt, last: 0 }
    }

    /// The time, if the system returns it.
    fn read(&self) -> Option<i64> {
        let now = SystemTime::now(self.rt).ok()?;
        let since = now.duration_since(UNIX_EPOCH).ok()?;
        i64::try_from(since.as_millis()).ok()
    }
}

impl<R: time::Clock> Clock for SystemClock<'_, R> {
    /// The last known time if the system returns none.
    fn now(&mut self) -> i64 {
        if let Some(now) = self.read() {
            self.last = now;
        }
        self.last
    }
}
