//! Tests of `allows` and `digest_id`: lists that no request can have, a caller with more identities
//! than digests, and the numbers of permissions. Others are tested in
//! `checks/golden/clients.golden`.

use std::alloc::Global;
use zk_acl::{
    ADMIN, ALL, Acl, AclFault, Acls, CREATE, DELETE, Ids, READ, WRITE, allows, digest_id,
};
use zk_listing::read_acl;
use zk_path::NoMemory;

/// Parses a list as in a listing: the number of entries, and each one's perms, scheme and identity.
fn list(alloc: Global, spelled: &str) -> Result<Acls, NoMemory> {
    let mut text = spelled;
    read_acl(alloc, &mut text).ok().ok_or(NoMemory)
}

/// Returns the identities of entries, by their copy.
fn ids_of(alloc: Global, entries: &[Acl]) -> Result<Ids, NoMemory> {
    let mut ids = Vec::new(alloc);
    for entry in entries {
        ids.push(entry.id.copy()?)?;
    }
    Ids::new(ids).copy()
}

/// Returns the identities of a parsed list.
fn ids(alloc: Global, spelled: &str) -> Result<Ids, NoMemory> {
    let entries = list(alloc, spelled)?;
    ids_of(alloc, entries.as_slice())
}

/// Whether entries permit `perm` to a caller with the digest `a:1` and the address `10.0.0.1`.
fn allow(alloc: Global, entries: &[Acl], perm: u32) -> Result<bool, NoMemory> {
    let ids = ids(alloc, "2 31 \"digest\" \"a:1\" 31 \"ip\" \"10.0.0.1\"")?;
    Ok(allows(entries, perm, ids.as_slice()))
}

/// Does the same with a parsed list.
fn is_allowed(alloc: Global, spelled: &str, perm: u32) -> Result<bool, NoMemory> {
    let entries = list(alloc, spelled)?;
    allow(alloc, entries.as_slice(), perm)
}

/// A list of one entry, a permission, and whether it is allowed.
static ALLOWED: [(&str, u32, bool); 3] = [
    ("1 31 \"world\" \"a:1\"", READ, false),
    ("1 31 \"ip\" \"10.0.0.1\"", READ, false),
    ("1 -1 \"world\" \"anyone\"", ALL, true),
];

#[test]
fn entries_that_no_request_can_hold(rt: HostRuntime) {
    for (spelled, perm, allowed) in &ALLOWED {
        assert_eq!(rt; is_allowed(rt.alloc(), spelled, *perm), Ok(*allowed));
    }
}

#[test]
fn acl_fixing_and_digests(rt: HostRuntime) {
    assert!(rt; allows(&[], READ, &[]));
    assert!(rt; matches!(digest_id(rt.alloc(), "abc"), Err(AclFault::Invalid)));
}

// Each bit is tested in `checks/golden/clients.golden`; together they have no others.
#[test]
fn permissions_have_their_bits(rt: HostRuntime) {
    let together = READ | WRITE | CREATE | DELETE | ADMIN;
    assert_eq!(rt; (together, ALL), (31, 31));
}
