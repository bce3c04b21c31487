//! The contents of the frame of a notice about a session, read and written.

ghost use Rattle.std.specs.Prelude.{◌≡◌, ◌≢◌, ◌≤◌, ◌++◌, length, take, drop, FitsSigned, IfSome, IfNone, OnOk, OnErr};
ghost use Rattle.std.specs.Int.{w32, w64, from_be_bytes};
ghost use Rattle.zab_frames.specs.Frames.{framed};
ghost use Rattle.zab_frames.specs.Messages.{word, long_word};
ghost use Rattle.zab_frames.specs.Ranges.{IsWord, IsLongWord};
ghost use Rattle.zk_records.specs.Records.{int, long};
ghost use Rattle.zk_peer_links.specs.Packets.{IsNoSession};
ghost use Rattle.zk_peer_links.specs.SessionNotices.{contents_of_session, kind_of_news, IsNoNews, IsSessionNotice};

use crate::notice_contents::head;
use crate::session_notice::{SessionNews, SessionNotice};
use bytes::{Buf, BufMut};
use std::alloc::Global;
use zab_frames::write_frame;
use zk_path::NoMemory;

/// The kinds. No message has them, nor a notice of an election.
const PING: u32 = 13;

const TOUCHED: u32 = 14;

const ATTACHED: u32 = 15;

/// The number of bytes of the contents.
const LENGTH: usize = 32;

fn news_of(kind: u32) -> Option<SessionNews>
    ensures some { IfSome result (λ news. kind ≡ kind_of_news news) }
    ensures none { IfNone result (IsNoNews kind) }
{
    if kind == PING {
        return Some(SessionNews::Ping);
    }
    if kind == TOUCHED {
        return Some(SessionNews::Touched);
    }
    if kind == ATTACHED {
        return Some(SessionNews::Attached);
    }
    None
}

fn kind_of(news: SessionNews) -> u32
    ensures { result ≡ kind_of_news news }
{
    match news {
        SessionNews::Ping => PING,
        SessionNews::Touched => TOUCHED,
        SessionNews::Attached => ATTACHED,
    }
}

/// The session and the timeout.
fn fields(bytes: &[u8]) -> (u64, u32)
    requires { 12 ≤ length bytes.now }
    ensures session { result.0 ≡ from_be_bytes w64 (take 8 bytes.now) }
    ensures timeout { result.1 ≡ from_be_bytes w32 (take 4 (drop 8 bytes.now)) }
{
    let mut rest = bytes;
    let session = rest.get_u64();
    let timeout = rest.get_u32();
    (session, timeout)
}

/// The notice with these contents; `None` if there is none.
#[tactic(auto, using(crate::proofs::SessionContents::too_long, crate::proofs::SessionContents::no_news, crate::proofs::SessionContents::spelled_in_parts))]
pub(crate) fn read_session(contents: &[u8]) -> Option<SessionNotice>
    ensures spelled { IfSome result (λ notice. contents.now ≡ contents_of_session notice) }
    ensures fits { IfSome result (λ notice. IsSessionNotice notice) }
    ensures none { IfNone result (IsNoSession contents.now) }
{
    if contents.len() != LENGTH {
        return None;
    }
    let (sender, addressee, kind, later) = head(contents);
    let Some(news) = news_of(kind) else {
        return None;
    };
    let (session, timeout) = fields(later);
    Some(SessionNotice {
        sender: sender as usize,
        addressee: addressee as usize,
        news,
        session: session.cast_signed(),
        timeout: timeout.cast_signed(),
    })
}

fn put_session(out: &mut Vec<u8>, session: i64) -> Result<(), NoMemory>
    ensures { OnOk result (out.new.items ≡ out.old.items ++ long session) }
{
    Ok(out.put_i64(session)?)
}

fn put_timeout(out: &mut Vec<u8>, timeout: i32) -> Result<(), NoMemory>
    ensures { OnOk result (out.new.items ≡ out.old.items ++ int timeout) }
{
    Ok(out.put_i32(timeout)?)
}

fn put_fields(
    out: &mut Vec<u8>,
    sender: u64,
    addressee: u64,
    kind: u32,
    session: i64,
    timeout: i32,
) -> Result<(), NoMemory>
    ensures written { OnOk result (out.new.items ≡ out.old.items ++ (long_word sender ++ long_word addressee ++ word kind
        ++ long session ++ int timeout)) }
    ensures fits { (IsLongWord sender × IsLongWord addressee) × (FitsSigned w64 session × FitsSigned w32 timeout) }
{
    out.put_u64(sender)?;
    out.put_u64(addressee)?;
    out.put_u32(kind)?;
    put_session(out, session)?;
    put_timeout(out, timeout)?;
    Ok(())
}

#[tactic(auto, using(crate::proofs::SessionContents::session_fits), unfolding(crate::specs::SessionNotices::contents_of_session))]
fn put_notice(out: &mut Vec<u8>, notice: &SessionNotice) -> Result<(), NoMemory>
    ensures written { OnOk result (out.new.items ≡ out.old.items ++ contents_of_session notice.now) }
    ensures fits { IsSessionNotice notice.now }
{
    let sender = notice.sender as u64;
    let addressee = notice.addressee as u64;
    let kind = kind_of(notice.news);
    put_fields(out, sender, addressee, kind, notice.session, notice.timeout)
}

/// Appends the frame of a notice. If an allocation fails, nothing is appended.
pub(crate) fn write_session(
    alloc: Global,
    out: &mut Vec<u8>,
    notice: &SessionNotice,
) -> Result<(), NoMemory>
    ensures written { OnOk result (out.new.items ≡ out.old.items ++ framed (contents_of_session notice.now)) }
    ensures fits { IsSessionNotice notice.now }
    ensures unchanged { OnErr result (out.new.items ≡ out.old.items) }
{
    let mut contents = Vec::new(alloc);
    put_notice(&mut contents, notice)?;
    write_frame(alloc, out, contents.as_slice())
}
