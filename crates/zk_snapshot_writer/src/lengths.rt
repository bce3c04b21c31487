//! Whether each length of a snapshot, and each number of elements, has a field.

ghost use Rattle.std.specs.Prelude.{◌≡◌, ◌<◌, ◌^◌, false, length, IsTrue};
ghost use Rattle.std.specs.List.{AllByRecursion};
ghost use Rattle.zk_records.specs.Records.{IsText, IsPathText, IsContent, IsAcl, AreAcls, AreElements};
ghost use Rattle.zk_snapshot.specs.Snapshots.{IsLease, IsAccess, IsMoments, IsVersions, IsKept, IsStored, IsContents};

use zk_acl::{Acl, Acls};
use zk_path::Path;
use zk_snapshot::{Access, Contents, Kept, Lease, Moments, Stored, Versions};
use zk_table::Content;

/// The largest length: that of a signed 32-bit number.
const MOST: usize = 0x7fff_ffff;

fn is_text(text: &str) -> bool
    ensures yes { IsTrue result → IsText text.now }
    ensures no { result ≡ false → ¬ IsText text.now }
{
    text.len() <= MOST
}

#[tactic(auto, using(crate::proofs::Paths::path_text))]
fn is_path_text(path: &Path) -> bool
    ensures yes { IsTrue result → IsPathText path.now }
    ensures no { result ≡ false → ¬ IsPathText path.now }
{
    is_text(path.text())
}

fn is_content(content: &Option<Content>) -> bool
    ensures yes { IsTrue result → IsContent content.now }
    ensures no { result ≡ false → ¬ IsContent content.now }
{
    match content {
        Some(content) => content.as_slice().len() <= MOST,
        None => true,
    }
}

fn is_acl(acl: &Acl) -> bool
    ensures yes { IsTrue result → IsAcl acl.now }
    ensures no { result ≡ false → ¬ IsAcl acl.now }
{
    let _perms = acl.perms;
    is_text(acl.id.scheme.as_str()) && is_text(acl.id.id.as_str())
}

fn are_acls(acls: &Acls) -> bool
    ensures yes { IsTrue result → AreAcls acls.now }
    ensures no { result ≡ false → ¬ AreAcls acls.now }
{
    let entries = acls.as_slice();
    if entries.len() > MOST {
        return false;
    }
    for acl in entries {
        if !is_acl(acl) {
            return false;
        }
    }
    true
}

fn is_access(access: &Access) -> bool
    ensures yes { IsTrue result → IsAccess access.now }
    ensures no { result ≡ false → ¬ IsAccess access.now }
{
    let _number = access.number;
    are_acls(&access.acl)
}

fn are_accesses(accesses: &[Access]) -> bool
    ensures yes { IsTrue result → AreElements IsAccess accesses.now }
    ensures no { result ≡ false → ¬ AreElements IsAccess accesses.now }
{
    if accesses.len() > MOST {
        return false;
    }
    for access in accesses {
        if !is_access(access) {
            return false;
        }
    }
    true
}

/// A law: each number of a session has a field.
fn is_lease(lease: &Lease)
    ensures { IsLease lease.now }
{
    let (_session, _timeout) = (lease.session, lease.timeout);
}

fn are_leases(leases: &[Lease]) -> bool
    ensures yes { IsTrue result → AreElements IsLease leases.now }
    ensures no { result ≡ false → ¬ AreElements IsLease leases.now }
{
    for lease in leases {
        is_lease(lease);
    }
    leases.len() <= MOST
}

/// A law: each of these numbers has a field.
fn are_moments(moments: &Moments)
    ensures { IsMoments moments.now }
{
    let (_czxid, _mzxid) = (moments.czxid, moments.mzxid);
    let (_ctime, _mtime) = (moments.ctime, moments.mtime);
}

/// A law: each of these numbers has a field.
fn are_versions(versions: &Versions)
    ensures { IsVersions versions.now }
{
    let (_version, _creates) = (versions.version, versions.creates);
    let _aversion = versions.aversion;
}

fn is_kept(kept: &Kept) -> bool
    ensures yes { IsTrue result → IsKept kept.now }
    ensures no { result ≡ false → ¬ IsKept kept.now }
{
    let (_access, _owner, _pzxid) = (kept.access, kept.owner, kept.pzxid);
    are_moments(&kept.moments);
    are_versions(&kept.versions);
    is_content(&kept.content)
}

fn is_stored(stored: &Stored) -> bool
    ensures yes { IsTrue result → IsStored stored.now }
    ensures no { result ≡ false → ¬ IsStored stored.now }
{
    is_path_text(&stored.path) && is_kept(&stored.kept)
}

fn are_stored(nodes: &[Stored]) -> bool
    ensures yes { IsTrue result → AllByRecursion IsStored nodes.now }
    ensures no { result ≡ false → ¬ AllByRecursion IsStored nodes.now }
{
    for stored in nodes {
        if !is_stored(stored) {
            return false;
        }
    }
    true
}

pub(crate) fn are_contents(contents: &Contents) -> bool
    ensures yes { IsTrue result → IsContents contents.now }
    ensures no { result ≡ false → ¬ IsContents contents.now }
{
    let _dbid = contents.dbid;
    are_leases(contents.leases.as_slice())
        && are_accesses(contents.accesses.as_slice())
        && are_stored(contents.nodes.as_slice())
}
