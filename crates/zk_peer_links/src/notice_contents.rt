//! The contents of a notice's frame, read and written.

ghost use Rattle.std.specs.Prelude.{◌≡◌, ◌≤◌, ◌++◌, pos, length, take, drop, FitsSigned, IfSome, IfNone, OnOk, OnErr};
ghost use Rattle.std.specs.Int.{w32, w64, from_be_bytes};
ghost use Rattle.zab_frames.specs.Frames.{framed};
ghost use Rattle.zab_frames.specs.Messages.{word, long_word};
ghost use Rattle.zab_frames.specs.Ranges.{IsWord, IsLongWord};
ghost use Rattle.zk_records.specs.Records.{int, long};
ghost use Rattle.zk_peer_links.specs.Notices.{contents_of_notice, IsNotice};
ghost use Rattle.zk_peer_links.specs.Packets.{IsNoNotice};

use crate::notice::Notice;
use bytes::{Buf, BufMut};
use std::alloc::Global;
use zab_frames::write_frame;
use zab_host::Vote;
use zk_path::NoMemory;

/// The kind of a notice. No message has it.
const KIND: u32 = 12;

/// The number of bytes of a notice's contents.
const LENGTH: usize = 48;

/// The sender, the addressee, the kind, and the bytes after them.
pub(crate) fn head(bytes: &[u8]) -> (u64, u64, u32, &[u8])
    requires { 20 ≤ length bytes.now }
    ensures server { result.0 ≡ from_be_bytes w64 (take 8 bytes.now) }
    ensures addressee { result.1 ≡ from_be_bytes w64 (take 8 (drop 8 bytes.now)) }
    ensures kind { result.2 ≡ from_be_bytes w32 (take 4 (drop 16 bytes.now)) }
    ensures later { result.3.now ≡ drop 20 bytes.now }
{
    let mut rest = bytes;
    let server = rest.get_u64();
    let addressee = rest.get_u64();
    let kind = rest.get_u32();
    (server, addressee, kind, rest)
}

/// The round, the epoch, the zxid, and the bytes after them.
fn fields(bytes: &[u8]) -> (u64, u32, u64, &[u8])
    requires { 20 ≤ length bytes.now }
    ensures round { result.0 ≡ from_be_bytes w64 (take 8 bytes.now) }
    ensures epoch { result.1 ≡ from_be_bytes w32 (take 4 (drop 8 bytes.now)) }
    ensures zxid { result.2 ≡ from_be_bytes w64 (take 8 (drop 12 bytes.now)) }
    ensures later { result.3.now ≡ drop 20 bytes.now }
{
    let mut rest = bytes;
    let round = rest.get_u64();
    let epoch = rest.get_u32();
    let zxid = rest.get_u64();
    (round, epoch, zxid, rest)
}

fn leader(bytes: &[u8]) -> u64
    requires { 8 ≤ length bytes.now }
    ensures { result ≡ from_be_bytes w64 (take 8 bytes.now) }
{
    let mut rest = bytes;
    rest.get_u64()
}

/// The notice with these contents; `None` if there is none.
#[tactic(auto, using(crate::proofs::Contents::too_long, crate::proofs::Contents::other_addressee, crate::proofs::Contents::other_kind, crate::proofs::Contents::spelled_in_parts))]
pub(crate) fn read_notice(contents: &[u8]) -> Option<Notice>
    ensures spelled { IfSome result (λ notice. contents.now ≡ contents_of_notice notice) }
    ensures fits { IfSome result (λ notice. IsNotice notice) }
    ensures none { IfNone result (IsNoNotice contents.now) }
{
    if contents.len() != LENGTH {
        return None;
    }
    let (server, addressee, kind, later) = head(contents);
    if addressee != 0 {
        return None;
    }
    if kind != KIND {
        return None;
    }
    let (round, epoch, zxid, last) = fields(later);
    Some(Notice {
        round,
        vote: Vote {
            epoch,
            zxid: zxid.cast_signed(),
            server: server as usize,
        },
        leader: leader(last) as usize,
    })
}

fn put_zxid(out: &mut Vec<u8>, zxid: i64) -> Result<(), NoMemory>
    ensures { OnOk result (out.new.items ≡ out.old.items ++ long zxid) }
{
    Ok(out.put_i64(zxid)?)
}

fn put_fields(
    out: &mut Vec<u8>,
    server: u64,
    round: u64,
    epoch: u32,
    zxid: i64,
    leader: u64,
) -> Result<(), NoMemory>
    ensures written { OnOk result (out.new.items ≡ out.old.items ++ (long_word server ++ long_word 0 ++ int (pos 12)
        ++ long_word round ++ word epoch ++ long zxid ++ long_word leader)) }
    ensures fits { (IsLongWord server × IsLongWord round) × (IsWord epoch × (FitsSigned w64 zxid × IsLongWord leader)) }
{
    out.put_u64(server)?;
    out.put_u64(0)?;
    out.put_u32(KIND)?;
    out.put_u64(round)?;
    out.put_u32(epoch)?;
    put_zxid(out, zxid)?;
    out.put_u64(leader)?;
    Ok(())
}

#[tactic(auto, using(crate::proofs::Contents::notice_fits), unfolding(crate::specs::Notices::contents_of_notice))]
fn put_notice(out: &mut Vec<u8>, notice: &Notice) -> Result<(), NoMemory>
    ensures written { OnOk result (out.new.items ≡ out.old.items ++ contents_of_notice notice.now) }
    ensures fits { IsNotice notice.now }
{
    let vote = notice.vote;
    let server = vote.server as u64;
    let leader = notice.leader as u64;
    put_fields(out, server, notice.round, vote.epoch, vote.zxid, leader)
}

/// Appends the frame of a notice. If an allocation fails, nothing is appended.
pub(crate) fn write_notice(
    alloc: Global,
    out: &mut Vec<u8>,
    notice: &Notice,
) -> Result<(), NoMemory>
    ensures written { OnOk result (out.new.items ≡ out.old.items ++ framed (contents_of_notice notice.now)) }
    ensures fits { IsNotice notice.now }
    ensures unchanged { OnErr result (out.new.items ≡ out.old.items) }
{
    let mut contents = Vec::new(alloc);
    put_notice(&mut contents, notice)?;
    write_frame(alloc, out, contents.as_slice())
}
