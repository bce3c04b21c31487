//! Tests of `zk_acl`.

use std::alloc::Global;
use zk_acl::{Acl, Acls, Id, Text};
use zk_path::NoMemory;

fn anyone(alloc: Global) -> Result<Id, NoMemory> {
    let scheme = Text::new(String::from_str(alloc, "world")?);
    let id = Text::read(alloc, "anyone")?;
    Ok(Id { scheme, id })
}

/// Whether an entry is `world:anyone` with these permissions.
fn is_for_anyone(acl: &Acl, perms: i32) -> bool {
    acl.perms == perms && acl.id.scheme.as_str() == "world" && acl.id.id.as_str() == "anyone"
}

/// Returns an entry of copies.
fn copied_entry(alloc: Global, perms: i32) -> Result<Acl, NoMemory> {
    let Id { scheme, id } = anyone(alloc)?.copy()?;
    let id = Id {
        scheme: scheme.copy()?,
        id,
    };
    Acl { perms, id }.copy()
}

/// Returns the copy of a list of such entries.
fn copied_list(alloc: Global, perms: &[i32]) -> Result<Acls, NoMemory> {
    let mut entries = Vec::new(alloc);
    for perms in perms {
        entries.push(copied_entry(alloc, *perms)?)?;
    }
    Acls::new(alloc, entries)?.copy()
}

/// Whether two entries are `world:anyone` with these permissions.
fn are_for_anyone(entries: &[Acl], one: i32, other: i32) -> bool {
    match entries {
        [first, second] => is_for_anyone(first, one) && is_for_anyone(second, other),
        _ => false,
    }
}

#[test]
fn copied_list_outlives_the_first(rt: HostRuntime) {
    let list = copied_list(rt.alloc(), &[31, 1]).expect(&rt, "memory");
    assert!(rt; are_for_anyone(list.as_slice(), 31, 1));
}
