//! The sessions that delivered entries close, and the borrowed tree and machine of a host.

ghost use Rattle.std.specs.Prelude.{◌≡◌};
ghost use Rattle.zab_host.specs.Hosts.{IsStored};

use crate::trios::{SESSION, TreeHost, elect, settle, start_all, submits};
use std::alloc::Global;
use zab_epoch::Role;
use zab_host::Vote;

/// The first tag of host 2.
const OPEN: u64 = 0x0200_0001_0000_0000;

/// The first tag of host 1.
const CLOSE: u64 = 0x0100_0001_0000_0000;

/// Whether a host that has delivered nothing has no tree to borrow.
fn have_none(hosts: &[TreeHost]) -> bool {
    match hosts {
        [one, _, _] => {
            !one.is_serving()
                && one.shown() == 0
                && one.tree().is_none()
                && one.as_machine().is_none()
                && matches!(one.role(), Role::Looking)
        }
        _ => false,
    }
}

/// Host 2 opens a session and creates `/a`; then host 1 closes the session.
fn closes(alloc: Global, hosts: &mut [TreeHost]) -> bool {
    let opened = match hosts {
        [_, two, _] => {
            submits(alloc, two, OPEN, "open 30000", 1000)
                && submits(
                    alloc,
                    two,
                    OPEN + 1,
                    "create \"/a\" \"one\" 1 31 \"world\" \"anyone\"",
                    1000,
                )
        }
        _ => false,
    };
    if !opened || !settle(alloc, hosts) {
        return false;
    }
    let closed = match hosts {
        [one, _, _] => submits(alloc, one, CLOSE, "close", 2000),
        _ => false,
    };
    closed && settle(alloc, hosts)
}

/// Whether the entries after the first `count` close these sessions, at a host whose store has all.
fn has_closed(alloc: Global, host: &TreeHost, count: usize, sessions: &[i64]) -> bool
    requires { IsStored (λ it found. found ≡ it.stable) host.now.host }
{
    matches!(host.closed_after(alloc, count), Ok(closed) if closed.as_slice() == sessions)
}

/// Whether a host has released its messages, and shows three entries, of which the third closes the
/// session.
fn shows(alloc: Global, host: &mut TreeHost, server: usize) -> bool {
    let vote = Vote {
        epoch: 1,
        zxid: SESSION + 2,
        server,
    };
    match host.release(alloc) {
        Ok(_) => {
            host.is_serving()
                && host.shown() == 3
                && host.vote() == vote
                && has_closed(alloc, host, 0, &[SESSION])
                && has_closed(alloc, host, 2, &[SESSION])
                && has_closed(alloc, host, 3, &[])
                && has_closed(alloc, host, 4, &[])
                && matches!(host.tree(), Some(tree) if tree.get_by_text("/a").is_some())
                && matches!(host.as_machine(), Some(machine) if machine.last() == Ok(SESSION + 2))
        }
        Err(_) => false,
    }
}

/// Whether each host shows that.
fn all_show(alloc: Global, hosts: &mut [TreeHost]) -> bool {
    match hosts {
        [one, two, three] => {
            shows(alloc, one, 1) && shows(alloc, two, 2) && shows(alloc, three, 3)
        }
        _ => false,
    }
}

#[test]
fn each_host_sees_that_a_session_has_closed(rt: HostRuntime) {
    let alloc = rt.alloc();
    let mut hosts = start_all(alloc);
    assert!(rt; have_none(hosts.as_slice()));
    assert!(rt; elect(alloc, &mut hosts));
    assert!(rt; closes(alloc, &mut hosts));
    assert!(rt; all_show(alloc, &mut hosts));
}

#[test]
fn a_tree_without_entries_is_not_borrowed(rt: HostRuntime) {
    let tree = zk_host::WatchedTree::new(rt.alloc());
    assert!(rt; tree.tree().is_none());
    assert!(rt; tree.as_machine().is_none());
}
