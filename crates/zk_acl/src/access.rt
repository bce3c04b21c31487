//! What an access control list allows.
//!
//! ZooKeeper Programmer's Guide, "ZooKeeper access control using ACLs".
ghost use Rattle.std.specs.Prelude.{◌≡◌};
ghost use Rattle.std.specs.List.{list_any};
ghost use Rattle.zk_acl.specs.Access.{has_scheme, same_id, is_anyone, is_of, has_perm, grants, allows};

use crate::acl::{Acl, Id};

/// Read a node's content and the names of its children.
pub const READ: u32 = 1;

/// Set a node's content.
pub const WRITE: u32 = 2;

/// Create children.
pub const CREATE: u32 = 4;

/// Delete children.
pub const DELETE: u32 = 8;

/// Set a node's access control list.
pub const ADMIN: u32 = 16;

/// All permissions.
pub const ALL: u32 = 31;

/// Whether a list grants one of the permissions in `perm` to a caller who has proved `auths`. An
/// empty list grants everything; an entry grants its permissions to everyone, or to one digest.
///
/// ZooKeeper Programmer's Guide, "ACL Permissions" and "Builtin ACL Schemes".
pub fn allows(acl: &[Acl], perm: u32, auths: &[Id]) -> bool
    ensures { result ≡ allows acl.now perm auths.now }
{
    acl.is_empty() || any_grants(acl, perm, auths)
}

fn any_grants(acl: &[Acl], perm: u32, auths: &[Id]) -> bool
    ensures { result ≡ list_any (grants perm auths.now) acl.now }
{
    acl.iter().any(|entry| grants(entry, perm, auths))
}

fn grants(entry: &Acl, perm: u32, auths: &[Id]) -> bool
    ensures { result ≡ grants perm auths.now entry.now }
{
    has_perm(entry, perm) && is_of(&entry.id, auths)
}

fn has_perm(entry: &Acl, perm: u32) -> bool
    ensures { result ≡ has_perm perm entry.now }
{
    entry.perms.cast_unsigned() & perm != 0
}

/// Whether an identity is everyone's, or a digest among `auths`. Other schemes are stored but match
/// no caller.
fn is_of(who: &Id, auths: &[Id]) -> bool
    ensures { result ≡ is_of auths.now who.now }
{
    is_anyone(who) || (has_scheme(who, "digest") && holds(auths, who))
}

fn holds(ids: &[Id], who: &Id) -> bool
    ensures { result ≡ list_any (same_id who.now) ids.now }
{
    ids.iter().any(|id| is_same(who, id))
}

pub(crate) fn is_same(one: &Id, other: &Id) -> bool
    ensures { result ≡ same_id one.now other.now }
{
    one.scheme.as_str() == other.scheme.as_str() && one.id.as_str() == other.id.as_str()
}

pub(crate) fn is_anyone(who: &Id) -> bool
    ensures { result ≡ is_anyone who.now }
{
    has_scheme(who, "world") && who.id.as_str() == "anyone"
}

pub(crate) fn has_scheme(who: &Id, scheme: &str) -> bool
    ensures { result ≡ has_scheme scheme.now who.now }
{
    who.scheme.as_str() == scheme
}
