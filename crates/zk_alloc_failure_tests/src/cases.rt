//! The cases, each a test. If its call fails to allocate, the state is as documented; otherwise the
//! call has its effect; a case with any other outcome fails. If another allocation fails, the test
//! fails with [`NoMemory`].
//!
//! With enough memory each case completes. `checks/alloc_failure_calls.py` runs each of them by
//! name, with each allocation failing in turn.

use crate::seen::Seen;
use crate::{chronicles, machines, servers, tables, worlds};
use zk_path::NoMemory;

/// Prints on standard error how a case ended, if it ended correctly. Returns whether it did, and
/// could be printed.
fn is_told(rt: &HostRuntime, seen: Seen) -> bool {
    match seen {
        Seen::Done => eprintln!(rt; "done").is_ok(),
        Seen::Refused => eprintln!(rt; "refused").is_ok(),
        Seen::Differs => false,
    }
}

#[test]
fn apply(rt: HostRuntime) -> Result<(), NoMemory> {
    assert!(rt; is_told(&rt, machines::apply(rt.alloc())?));
    Ok(())
}

#[test]
fn undo(rt: HostRuntime) -> Result<(), NoMemory> {
    assert!(rt; is_told(&rt, machines::undo(rt.alloc())?));
    Ok(())
}

#[test]
fn make(rt: HostRuntime) -> Result<(), NoMemory> {
    assert!(rt; is_told(&rt, machines::make(rt.alloc())?));
    Ok(())
}

#[test]
fn taken(rt: HostRuntime) -> Result<(), NoMemory> {
    assert!(rt; is_told(&rt, machines::taken(rt.alloc())?));
    Ok(())
}

#[test]
fn touch(rt: HostRuntime) -> Result<(), NoMemory> {
    assert!(rt; is_told(&rt, tables::touch(rt.alloc())?));
    Ok(())
}

#[test]
fn set(rt: HostRuntime) -> Result<(), NoMemory> {
    assert!(rt; is_told(&rt, tables::set(rt.alloc())?));
    Ok(())
}

#[test]
fn fire(rt: HostRuntime) -> Result<(), NoMemory> {
    assert!(rt; is_told(&rt, tables::fire(rt.alloc())?));
    Ok(())
}

#[test]
fn put(rt: HostRuntime) -> Result<(), NoMemory> {
    assert!(rt; is_told(&rt, tables::put(rt.alloc())?));
    Ok(())
}

#[test]
fn push(rt: HostRuntime) -> Result<(), NoMemory> {
    assert!(rt; is_told(&rt, tables::push(rt.alloc())?));
    Ok(())
}

#[test]
fn step(rt: HostRuntime) -> Result<(), NoMemory> {
    assert!(rt; is_told(&rt, worlds::step(rt.alloc())?));
    Ok(())
}

#[test]
fn add(rt: HostRuntime) -> Result<(), NoMemory> {
    assert!(rt; is_told(&rt, chronicles::add(rt.alloc())?));
    Ok(())
}

#[test]
fn serve(rt: HostRuntime) -> Result<(), NoMemory> {
    assert!(rt; is_told(&rt, servers::serve(&rt, rt.alloc())?));
    Ok(())
}
