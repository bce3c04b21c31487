//! Deadlines of sessions at chosen times; those of `zk serve` depend on its clock.

use std::alloc::Global;
use zk_path::NoMemory;
use zk_prepare::Tracker;

/// Whether exactly these sessions are expired at a time, in milliseconds.
fn are_expired(tracker: &Tracker, now: i64, sessions: &[i64]) -> Result<bool, NoMemory> {
    let expired = tracker.expired(now)?;
    Ok(expired.as_slice() == sessions)
}

/// A session touched at 10000 with timeout 4000: before its deadline, at it, touched again, and
/// forgotten.
fn one_is_due(tracker: &mut Tracker) -> Result<bool, NoMemory> {
    tracker.touch(7, 4000, 10000)?;
    let before = are_expired(tracker, 13999, &[])?;
    let due = are_expired(tracker, 14000, &[7])?;
    tracker.touch(7, 4000, 10001)?;
    let touched = are_expired(tracker, 14000, &[])?;
    tracker.forget(7);
    Ok(before && due && touched && are_expired(tracker, 20000, &[])?)
}

/// Sessions 0000000000000001, 8000000000000000 and ffffffffffffffff, one of them with the greatest
/// deadline.
fn all_are_due(tracker: &mut Tracker) -> Result<bool, NoMemory> {
    tracker.touch(-1, 40000, i64::MAX - 1)?;
    tracker.touch(i64::MIN, 4000, 0)?;
    tracker.touch(1, 4000, 0)?;
    let before = are_expired(tracker, i64::MAX - 1, &[1, i64::MIN])?;
    Ok(before && are_expired(tracker, i64::MAX, &[1, i64::MIN, -1])?)
}

/// Runs the first test with a new tracker.
fn one_comes(alloc: Global) -> Result<bool, NoMemory> {
    let mut tracker = Tracker::new(alloc);
    one_is_due(&mut tracker)
}

/// Runs the second test with a new tracker.
fn all_come(alloc: Global) -> Result<bool, NoMemory> {
    let mut tracker = Tracker::new(alloc);
    all_are_due(&mut tracker)
}

#[test]
fn limits_of_numbers_and_deadlines(rt: HostRuntime) {
    assert_eq!(rt; one_comes(rt.alloc()), Ok(true));
    assert_eq!(rt; all_come(rt.alloc()), Ok(true));
}
