//! Fields of a message, written. Each clause `fits` says what the types guarantee.

ghost use Rattle.std.specs.Prelude.{◌≡◌, ◌++◌, length, FitsSigned, OnOk};
ghost use Rattle.std.specs.Int.{w32, w64};
ghost use Rattle.zk_records.specs.Records.{int, long, boolean};
ghost use Rattle.zab_frames.specs.Messages.{word, long_word, counted, optional, counted_list, identity, acl_entry};
ghost use Rattle.zab_frames.specs.Ranges.{IsWord, IsLongWord, IsCounted, IsText, IsOptional, IsIdentity, IsAcl, AreCounted};

use bytes::BufMut;
use zk_acl::{Acl, Acls, Id, Ids, Text};
use zk_path::NoMemory;
use zk_table::Content;

pub(crate) fn put_word(out: &mut Vec<u8>, number: u32) -> Result<(), NoMemory>
    ensures written { OnOk result (out.new.items ≡ out.old.items ++ word number) }
    ensures fits { IsWord number }
{
    Ok(out.put_u32(number)?)
}

pub(crate) fn put_long_word(out: &mut Vec<u8>, number: u64) -> Result<(), NoMemory>
    ensures written { OnOk result (out.new.items ≡ out.old.items ++ long_word number) }
    ensures fits { IsLongWord number }
{
    Ok(out.put_u64(number)?)
}

pub(crate) fn put_int(out: &mut Vec<u8>, number: i32) -> Result<(), NoMemory>
    ensures written { OnOk result (out.new.items ≡ out.old.items ++ int number) }
    ensures fits { FitsSigned w32 number }
{
    Ok(out.put_i32(number)?)
}

pub(crate) fn put_long(out: &mut Vec<u8>, number: i64) -> Result<(), NoMemory>
    ensures written { OnOk result (out.new.items ≡ out.old.items ++ long number) }
    ensures fits { FitsSigned w64 number }
{
    Ok(out.put_i64(number)?)
}

pub(crate) fn put_boolean(out: &mut Vec<u8>, flag: bool) -> Result<(), NoMemory>
    ensures { OnOk result (out.new.items ≡ out.old.items ++ boolean flag) }
{
    Ok(out.put_u8(u8::from(flag))?)
}

/// A length, and that number of bytes.
pub(crate) fn put_counted(out: &mut Vec<u8>, bytes: &[u8]) -> Result<(), NoMemory>
    ensures written { OnOk result (out.new.items ≡ out.old.items ++ counted bytes.now) }
    ensures fits { IsCounted bytes.now }
{
    put_long_word(out, bytes.len() as u64)?;
    Ok(out.put_slice(bytes)?)
}

fn put_str(out: &mut Vec<u8>, text: &str) -> Result<(), NoMemory>
    ensures written { OnOk result (out.new.items ≡ out.old.items ++ counted text.now) }
    ensures fits { IsText text.now }
{
    put_counted(out, text.as_bytes())
}

pub(crate) fn put_text(out: &mut Vec<u8>, text: &Text) -> Result<(), NoMemory>
    ensures written { OnOk result (out.new.items ≡ out.old.items ++ counted text.now) }
    ensures fits { IsText text.now }
{
    put_str(out, text.as_str())
}

/// Whether there is content, and then its bytes.
pub(crate) fn put_content(out: &mut Vec<u8>, content: &Option<Content>) -> Result<(), NoMemory>
    ensures written { OnOk result (out.new.items ≡ out.old.items ++ optional content.now) }
    ensures fits { OnOk result (IsOptional content.now) }
{
    match content {
        None => put_boolean(out, false),
        Some(content) => {
            put_boolean(out, true)?;
            put_counted(out, content.as_slice())
        }
    }
}

fn put_identity(out: &mut Vec<u8>, id: &Id) -> Result<(), NoMemory>
    ensures written { OnOk result (out.new.items ≡ out.old.items ++ identity id.now) }
    ensures fits { OnOk result (IsIdentity id.now) }
{
    put_text(out, &id.scheme)?;
    put_text(out, &id.id)
}

pub(crate) fn put_identities(out: &mut Vec<u8>, ids: &Ids) -> Result<(), NoMemory>
    ensures written { OnOk result (out.new.items ≡ out.old.items ++ counted_list identity ids.now) }
    ensures fits { OnOk result (AreCounted IsIdentity ids.now) }
{
    put_long_word(out, ids.as_slice().len() as u64)?;
    for id in ids.as_slice() {
        put_identity(out, id)?;
    }
    Ok(())
}

#[tactic(auto, unfolding(crate::specs::Messages::acl_entry))]
fn put_acl(out: &mut Vec<u8>, acl: &Acl) -> Result<(), NoMemory>
    ensures written { OnOk result (out.new.items ≡ out.old.items ++ acl_entry acl.now) }
    ensures fits { OnOk result (IsAcl acl.now) }
{
    put_int(out, acl.perms)?;
    put_identity(out, &acl.id)?;
    Ok(())
}

pub(crate) fn put_acls(out: &mut Vec<u8>, acls: &Acls) -> Result<(), NoMemory>
    ensures written { OnOk result (out.new.items ≡ out.old.items ++ counted_list acl_entry acls.now) }
    ensures fits { OnOk result (AreCounted IsAcl acls.now) }
{
    put_long_word(out, acls.as_slice().len() as u64)?;
    for acl in acls.as_slice() {
        put_acl(out, acl)?;
    }
    Ok(())
}
