//! The list that is stored when a caller sets one.
ghost use Rattle.std.specs.Prelude.{◌≡◌, ◌↔◌, Some, None, [], ◌∷◌, flat_map, IfOk, OnOk};
ghost use Rattle.std.specs.List.{list_any, list_all};
ghost use Rattle.zk_acl.specs.Access.{same_acl, is_valid_id, is_valid, is_valid_list, entries_for, each_once, fix};
ghost use Rattle.zk_acl.specs.Keeping.{Keeps};
ghost use Rattle.zk_acl.specs.declared.acl.Acl.{Acl as Entry};

use crate::access::{has_scheme, is_anyone, is_same};
use crate::acl::{Acl, Acls, Id};
use crate::digests::is_digest_text;
use crate::fault::AclFault;
use std::alloc::Global;
use zk_path::NoMemory;

/// Returns the list that a node stores when a caller who has proved `auths` sets `acl`. An entry of
/// scheme `auth` becomes one entry for each of `auths`, in order; duplicates are dropped.
///
/// Fails with [`AclFault::Invalid`] for:
/// - an empty list
/// - perms outside 0 to 31
/// - a world identity other than `anyone`
/// - a digest without exactly one colon and text after it
/// - scheme `auth` when `auths` is empty
/// - any other scheme
///
/// ZooKeeper Programmer's Guide, "Builtin ACL Schemes".
pub fn fix(acl: &Acls, auths: &[Id]) -> Result<Acls, AclFault>
    ensures fixed { IfOk result (λ kept. fix acl.now auths.now ≡ Some kept) }
    ensures invalid { (result ≡ Err AclFault.Invalid) ↔ (fix acl.now auths.now ≡ None) }
{
    if !is_valid_list(acl.as_slice(), auths) {
        return Err(AclFault::Invalid);
    }
    Ok(kept_list(acl, auths)?)
}

fn is_valid_list(acl: &[Acl], auths: &[Id]) -> bool
    ensures { result ≡ is_valid_list acl.now auths.now }
{
    !acl.is_empty() && are_valid(acl, auths)
}

fn are_valid(acl: &[Acl], auths: &[Id]) -> bool
    ensures { result ≡ list_all (is_valid auths.now) acl.now }
{
    acl.iter().all(|entry| is_valid(entry, auths))
}

fn is_valid(entry: &Acl, auths: &[Id]) -> bool
    ensures { result ≡ is_valid auths.now entry.now }
{
    matches!(entry.perms, 0..=31) && is_valid_id(&entry.id, auths)
}

fn is_valid_id(who: &Id, auths: &[Id]) -> bool
    ensures { result ≡ is_valid_id auths.now who.now }
{
    is_anyone(who)
        || (has_scheme(who, "digest") && is_digest_text(who.id.as_str()))
        || (has_scheme(who, "auth") && !auths.is_empty())
}

/// The stored form of a valid list.
fn kept_list(acl: &Acls, auths: &[Id]) -> Result<Acls, NoMemory>
    ensures { IfOk result (λ kept. kept ≡ each_once (flat_map (entries_for auths.now) acl.now)) }
{
    let mut kept = Vec::new(acl.allocator());
    for entry in acl.as_slice() {
        keep_all(&mut kept, entry, auths)?;
    }
    Acls::new(acl.allocator(), kept)
}

/// Stores every entry that `entry` expands to.
fn keep_all(kept: &mut Vec<Acl>, entry: &Acl, auths: &[Id]) -> Result<(), NoMemory>
    ensures { OnOk result (Keeps kept.old.items kept.new.items (entries_for auths.now entry.now)) }
{
    if !has_scheme(&entry.id, "auth") {
        return keep(kept, entry.perms, &entry.id);
    }
    for who in auths {
        keep(kept, entry.perms, who)?;
    }
    Ok(())
}

/// Stores an entry unless an equal one is there.
fn keep(kept: &mut Vec<Acl>, perms: i32, who: &Id) -> Result<(), NoMemory>
    ensures { OnOk result (Keeps kept.old.items kept.new.items (record { perms = perms; id = who.now } ∷ [])) }
{
    if is_kept(kept, perms, who) {
        return Ok(());
    }
    let id = who.copy()?;
    kept.push(Acl { perms, id })?;
    Ok(())
}

fn is_kept(kept: &[Acl], perms: i32, who: &Id) -> bool
    ensures { let entry : Entry = record { perms = perms; id = who.now } in result ≡ list_any (λ earlier. same_acl earlier entry) kept.now }
{
    kept.iter()
        .any(|entry| entry.perms == perms && is_same(&entry.id, who))
}
