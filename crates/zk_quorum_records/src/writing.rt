//! Packets, written. A clause `fits` says what the types guarantee of what
//! was written, and a clause `long` that a length fits no field.

ghost use Rattle.std.specs.Prelude.{◌≡◌, ◌<◌, ◌≤◌, ◌^◌, ◌++◌, pos, length, FitsSigned, OnOk, IfOk, IsErrOf};
ghost use Rattle.std.specs.Int.{w32, w64};
ghost use Rattle.zk_records.specs.Records.{int, long, ustring, buffer, IsText};
ghost use Rattle.zk_quorum_records.specs.Packets.{identities, identity, packet as bytes_of_packet, AreIdentities, IsData, IsIdentity, IsPacket};
ghost use Rattle.zk_quorum_records.specs.declared.fault.WriteFault.TheVariants as faults;

use crate::fault::WriteFault;
use crate::packet::QuorumPacket;
use crate::packets::MOST_BYTES;
use bytes::BufMut;
use std::alloc::Global;
use zk_acl::{Id, Ids, Text};
use zk_path::NoMemory;
use zk_table::Content;

/// The greatest length of a field, and number of elements of a vector.
const MOST_COUNT: usize = 0x7fff_ffff;

pub(crate) fn put_int(out: &mut Vec<u8>, number: i32) -> Result<(), NoMemory>
    ensures written { OnOk result (out.new.items ≡ out.old.items ++ int number) }
    ensures fits { FitsSigned w32 number }
{
    Ok(out.put_i32(number)?)
}

pub(crate) fn put_long(out: &mut Vec<u8>, number: i64) -> Result<(), NoMemory>
    ensures written { OnOk result (out.new.items ≡ out.old.items ++ long number) }
    ensures fits { FitsSigned w64 number }
{
    Ok(out.put_i64(number)?)
}

/// A length, or the number of elements of a vector.
fn put_count(out: &mut Vec<u8>, count: usize) -> Result<(), WriteFault>
    ensures written { OnOk result (out.new.items ≡ out.old.items ++ int (pos count)) }
    ensures fits { OnOk result (count < 2 ^ 31) }
    ensures long { IsErrOf result faults.Length → 2 ^ 31 ≤ count }
{
    if count > MOST_COUNT {
        return Err(WriteFault::Length);
    }
    put_int(out, count as i32)?;
    Ok(())
}

/// A length, and that number of bytes.
pub(crate) fn put_counted(out: &mut Vec<u8>, bytes: &[u8]) -> Result<(), WriteFault>
    ensures written { OnOk result (out.new.items ≡ out.old.items ++ ustring bytes.now) }
    ensures fits { OnOk result (length bytes.now < 2 ^ 31) }
    ensures long { IsErrOf result faults.Length → 2 ^ 31 ≤ length bytes.now }
{
    put_count(out, bytes.len())?;
    out.put_slice(bytes)?;
    Ok(())
}

fn put_text(out: &mut Vec<u8>, text: &Text) -> Result<(), WriteFault>
    ensures written { OnOk result (out.new.items ≡ out.old.items ++ ustring text.now) }
    ensures fits { OnOk result (IsText text.now) }
    ensures long { IsErrOf result faults.Length → IsText text.now → ⊥ }
{
    put_counted(out, text.as_str().as_bytes())
}

/// A packet's data: null, or at most [`MOST_BYTES`] bytes.
fn put_data(out: &mut Vec<u8>, content: &Option<Content>) -> Result<(), WriteFault>
    ensures written { OnOk result (out.new.items ≡ out.old.items ++ buffer content.now) }
    ensures fits { OnOk result (IsData content.now) }
    ensures long { IsErrOf result faults.Length → IsData content.now → ⊥ }
{
    let Some(content) = content else {
        put_int(out, -1)?;
        return Ok(());
    };
    if content.as_slice().len() > MOST_BYTES as usize {
        return Err(WriteFault::Length);
    }
    put_counted(out, content.as_slice())
}

fn put_identity(out: &mut Vec<u8>, id: &Id) -> Result<(), WriteFault>
    ensures written { OnOk result (out.new.items ≡ out.old.items ++ identity id.now) }
    ensures fits { OnOk result (IsIdentity id.now) }
    ensures long { IsErrOf result faults.Length → IsIdentity id.now → ⊥ }
{
    put_text(out, &id.scheme)?;
    put_text(out, &id.id)
}

fn put_identities(out: &mut Vec<u8>, ids: &Option<Ids>) -> Result<(), WriteFault>
    ensures written { OnOk result (out.new.items ≡ out.old.items ++ identities ids.now) }
    ensures fits { OnOk result (AreIdentities ids.now) }
    ensures long { IsErrOf result faults.Length → AreIdentities ids.now → ⊥ }
{
    let Some(ids) = ids else {
        put_int(out, -1)?;
        return Ok(());
    };
    put_count(out, ids.as_slice().len())?;
    for id in ids.as_slice() {
        put_identity(out, id)?;
    }
    Ok(())
}

/// The bytes of a packet.
///
/// Fails with [`WriteFault::Length`] exactly if a length fits no field of the packet.
#[tactic(auto, unfolding(crate::specs::Packets::packet))]
pub fn write_packet(alloc: Global, packet: &QuorumPacket) -> Result<Vec<u8>, WriteFault>
    ensures written { IfOk result (λ bytes. bytes.items ≡ bytes_of_packet packet.now) }
    ensures fits { OnOk result (IsPacket packet.now) }
    ensures long { IsErrOf result faults.Length → IsPacket packet.now → ⊥ }
{
    let mut out = Vec::new(alloc);
    put_int(&mut out, packet.kind)?;
    put_long(&mut out, packet.zxid)?;
    put_data(&mut out, &packet.content)?;
    put_identities(&mut out, &packet.authinfo)?;
    Ok(out)
}
