use std::time::{Duration, Instant, SystemTime, UNIX_EPOCH};

/// Milliseconds since 1970 that never step: the system's time at the start, and what a monotonic clock
/// has counted since then.
#[derive(Clone, Copy)]
pub(crate) struct Clock {
    started: Option<Instant>,
    /// The system's time at the start; 0 if it returns none.
    first: i64,
}

impl Clock {
    pub(crate) fn start(rt: &HostRuntime) -> Clock {
        Clock {
            started: Instant::now(rt).ok(),
            first: milliseconds(since_1970(rt)),
        }
    }

    /// The time; the last known time if the system's clock fails.
    pub(crate) fn now(&self, rt: &HostRuntime, last: i64) -> i64 {
        let Some(started) = self.started else {
            return last;
        };
        match started.elapsed(rt) {
            Ok(since) => self.first.saturating_add(milliseconds(since)).max(last),
            Err(_) => last,
        }
    }
}

/// What the system's clock shows; 0 if it shows a time before 1970.
fn since_1970(rt: &HostRuntime) -> Duration {
    match SystemTime::now(rt) {
        Ok(now) => now.duration_since(UNIX_EPOCH).unwrap_or(Duration::ZERO),
        Err(_) => Duration::ZERO,
    }
}

fn milliseconds(time: Duration) -> i64 {
    i64::try_from(time.as_millis()).unwrap_or(i64::MAX)
}
