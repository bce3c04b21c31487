//! The fields of a snapshot, encoded.

ghost use Rattle.std.specs.Prelude.{◌≡◌, ◌<◌, ◌^◌, ◌++◌, pos, length, OnOk};
ghost use Rattle.zk_records.specs.Records.{int, long, ustring, buffer, vector, acl_entry, acl_vector, IsContent, IsAcl, AreAcls, AreElements};
ghost use Rattle.zk_snapshot.specs.Snapshots.{header, lease, access, claim, slash, IsAccess};
ghost use Rattle.zk_snapshot_writer.specs.Writing.{sealed_from};

use crate::checksum::Checksum;
use bytes::BufMut;
use zk_acl::{Acl, Acls};
use zk_path::NoMemory;
use zk_snapshot::{Access, Claim, Lease};
use zk_table::Content;

/// "ZKSN".
const MARK: i32 = 0x5a4b534e;

const VERSION: i32 = 2;

pub(crate) fn put_int(out: &mut Vec<u8>, number: i32) -> Result<(), NoMemory>
    ensures { OnOk result (out.new.items ≡ out.old.items ++ int number) }
{
    Ok(out.put_i32(number)?)
}

pub(crate) fn put_long(out: &mut Vec<u8>, number: i64) -> Result<(), NoMemory>
    ensures { OnOk result (out.new.items ≡ out.old.items ++ long number) }
{
    Ok(out.put_i64(number)?)
}

/// A length, or the number of elements of a vector.
fn put_count(out: &mut Vec<u8>, count: usize) -> Result<(), NoMemory>
    requires { count < 2 ^ 31 }
    ensures { OnOk result (out.new.items ≡ out.old.items ++ int (pos count)) }
{
    put_int(out, count as i32)
}

/// A length, and that number of bytes.
fn put_counted(out: &mut Vec<u8>, bytes: &[u8]) -> Result<(), NoMemory>
    requires { length bytes.now < 2 ^ 31 }
    ensures { OnOk result (out.new.items ≡ out.old.items ++ ustring bytes.now) }
{
    put_count(out, bytes.len())?;
    Ok(out.put_slice(bytes)?)
}

pub(crate) fn put_text(out: &mut Vec<u8>, text: &str) -> Result<(), NoMemory>
    requires { length text.now < 2 ^ 31 }
    ensures { OnOk result (out.new.items ≡ out.old.items ++ ustring text.now) }
{
    put_counted(out, text.as_bytes())
}

pub(crate) fn put_content(out: &mut Vec<u8>, content: &Option<Content>) -> Result<(), NoMemory>
    requires { IsContent content.now }
    ensures { OnOk result (out.new.items ≡ out.old.items ++ buffer content.now) }
{
    match content {
        None => put_int(out, -1),
        Some(content) => put_counted(out, content.as_slice()),
    }
}

fn put_acl(out: &mut Vec<u8>, acl: &Acl) -> Result<(), NoMemory>
    requires { IsAcl acl.now }
    ensures { OnOk result (out.new.items ≡ out.old.items ++ acl_entry acl.now) }
{
    put_int(out, acl.perms)?;
    put_text(out, acl.id.scheme.as_str())?;
    put_text(out, acl.id.id.as_str())
}

fn put_acl_vector(out: &mut Vec<u8>, acls: &Acls) -> Result<(), NoMemory>
    requires { AreAcls acls.now }
    ensures { OnOk result (out.new.items ≡ out.old.items ++ acl_vector acls.now) }
{
    put_count(out, acls.as_slice().len())?;
    for acl in acls.as_slice() {
        put_acl(out, acl)?;
    }
    Ok(())
}

/// `FileHeader`.
pub(crate) fn put_header(out: &mut Vec<u8>, dbid: i64) -> Result<(), NoMemory>
    ensures { OnOk result (out.new.items ≡ out.old.items ++ header dbid) }
{
    put_int(out, MARK)?;
    put_int(out, VERSION)?;
    put_long(out, dbid)?;
    Ok(())
}

fn put_lease(out: &mut Vec<u8>, one: &Lease) -> Result<(), NoMemory>
    ensures { OnOk result (out.new.items ≡ out.old.items ++ lease one.now) }
{
    put_long(out, one.session)?;
    put_int(out, one.timeout)?;
    Ok(())
}

pub(crate) fn put_leases(out: &mut Vec<u8>, leases: &[Lease]) -> Result<(), NoMemory>
    requires { length leases.now < 2 ^ 31 }
    ensures { OnOk result (out.new.items ≡ out.old.items ++ vector lease leases.now) }
{
    put_count(out, leases.len())?;
    for one in leases {
        put_lease(out, one)?;
    }
    Ok(())
}

fn put_access(out: &mut Vec<u8>, one: &Access) -> Result<(), NoMemory>
    requires { IsAccess one.now }
    ensures { OnOk result (out.new.items ≡ out.old.items ++ access one.now) }
{
    put_long(out, one.number)?;
    put_acl_vector(out, &one.acl)?;
    Ok(())
}

pub(crate) fn put_accesses(out: &mut Vec<u8>, accesses: &[Access]) -> Result<(), NoMemory>
    requires { AreElements IsAccess accesses.now }
    ensures { OnOk result (out.new.items ≡ out.old.items ++ vector access accesses.now) }
{
    put_count(out, accesses.len())?;
    for one in accesses {
        put_access(out, one)?;
    }
    Ok(())
}

/// `ZxidDigest`.
pub(crate) fn put_claim(out: &mut Vec<u8>, one: &Claim) -> Result<(), NoMemory>
    ensures { OnOk result (out.new.items ≡ out.old.items ++ claim one.now) }
{
    put_long(out, one.zxid)?;
    put_int(out, one.version)?;
    put_long(out, one.sum)?;
    Ok(())
}

/// The seal over all bytes: those of `out`, and those before them.
pub(crate) fn put_seal(out: &mut Vec<u8>, before: Checksum) -> Result<(), NoMemory>
    ensures { OnOk result (out.new.items ≡ sealed_from before out.old.items) }
{
    let sum = before.total_after(out.as_slice());
    put_long(out, i64::from(sum))?;
    put_text(out, "/")
}
