//! What a turn writes to a server's links.

ghost use Rattle.std.specs.Prelude.{◌≡◌, ◌++◌, ◌+◌, ◌<◌, ◌∷◌, [], map, filter, length, slice_get, Some, None, IfOk, IfSome, IfNone, OnOk};
ghost use Rattle.std.specs.List.{AllByRecursion};
ghost use Rattle.zab_epoch.specs.Shortness.{IsShortBody};
ghost use Rattle.zk_peer_links.specs.Outputs.{is_for, news_for, packets_for, sessions_for, told, Appends, IsWritten, Writes};
ghost use Rattle.zk_peer_links.specs.declared.packet.Packet.TheVariants as packets;

use crate::chunk::Chunk;
use crate::link::Link;
use crate::links::Links;
use crate::notice::Notice;
use crate::notice_contents::write_notice;
use crate::session_contents::write_session;
use crate::session_notice::SessionNotice;
use std::alloc::Global;
use zab_epoch::{Message, Messages};
use zab_frames::write_message;
use zk_path::NoMemory;
use zk_requests::Call;

/// Writes the notice if it is not the last that was written.
#[tactic(auto, using(crate::proofs::Writing::nothing_appended, crate::proofs::Writing::notice_changed, crate::proofs::Writing::notice_first))]
fn write_news(
    alloc: Global,
    out: &mut Vec<u8>,
    last: &Option<Notice>,
    notice: &Notice,
) -> Result<(), NoMemory>
    ensures { OnOk result (Appends (news_for last.now notice.now) out.old.items out.new.items) }
{
    if let Some(told) = last
        && told.is_same(notice)
    {
        return Ok(());
    }
    write_notice(alloc, out, notice)
}

/// The message at an index.
#[tactic(auto, using(zab_epoch::proofs::Shortness::short_at))]
fn message_at(messages: &Messages<Call>, index: usize) -> Option<&Message<Call>>
    ensures found { IfSome result (λ message. Some message.now ≡ slice_get messages.now index) }
    ensures none { IfNone result (None ≡ slice_get messages.now index) }
    ensures short { IfSome result (λ message. IsShortBody message.now.body) }
{
    messages.as_slice().get(index)
}

/// Writes the message at an index if it is to the peer.
#[tactic(auto, using(crate::proofs::Writing::nothing_there, crate::proofs::Writing::not_for, crate::proofs::Writing::is_written))]
fn write_at(
    alloc: Global,
    out: &mut Vec<u8>,
    peer: usize,
    messages: &Messages<Call>,
    index: usize,
) -> Result<(), NoMemory>
    ensures { OnOk result (Appends (those_for peer (listed (slice_get messages.now index))) out.old.items out.new.items) }
{
    let Some(message) = message_at(messages, index) else {
        return Ok(());
    };
    if message.addressee != peer {
        return Ok(());
    }
    write_message(alloc, out, message)
}

ghost use Rattle.zk_peer_links.specs.Outputs.{listed, those_for};

/// Writes the messages to a peer, in order.
#[tactic(auto, using(crate::proofs::Writing::appends_none, crate::proofs::Writing::appends_more, crate::proofs::Writing::appends_whole))]
fn write_messages(
    alloc: Global,
    out: &mut Vec<u8>,
    peer: usize,
    messages: &Messages<Call>,
) -> Result<(), NoMemory>
    ensures { OnOk result (Appends (those_for peer messages.now) out.old.items out.new.items) }
{
    for index in 0..messages.len() {
        write_at(alloc, out, peer, messages, index)?;
    }
    Ok(())
}

/// Writes a notice about a session if it is to the peer.
#[tactic(auto, using(crate::proofs::Writing::session_not_for, crate::proofs::Writing::session_written))]
fn write_session_to(
    alloc: Global,
    out: &mut Vec<u8>,
    peer: usize,
    notice: &SessionNotice,
) -> Result<(), NoMemory>
    ensures { OnOk result (Appends (sessions_for peer (notice.now ∷ [])) out.old.items out.new.items) }
{
    if notice.addressee != peer {
        return Ok(());
    }
    write_session(alloc, out, notice)
}

/// Writes the notices about sessions to a peer, in order.
#[tactic(auto, using(crate::proofs::Writing::sessions_none, crate::proofs::Writing::sessions_more, crate::proofs::Writing::sessions_whole))]
fn write_sessions(
    alloc: Global,
    out: &mut Vec<u8>,
    peer: usize,
    sessions: &[SessionNotice],
) -> Result<(), NoMemory>
    ensures { OnOk result (Appends (sessions_for peer sessions.now) out.old.items out.new.items) }
{
    for index in 0..sessions.len() {
        write_session_to(alloc, out, peer, &sessions[index])?;
    }
    Ok(())
}

/// What is written to a peer.
#[tactic(auto, using(crate::proofs::Writing::written_none, crate::proofs::Writing::written_link))]
fn write_to(
    alloc: Global,
    link: &mut Option<Link>,
    peer: usize,
    notice: &Notice,
    sessions: &[SessionNotice],
    messages: &Messages<Call>,
) -> Result<Chunk, NoMemory>
    ensures written { IfOk result (IsWritten (packets_for peer notice.now sessions.now messages.now link.old)) }
    ensures told { OnOk result (link.new ≡ told notice.now link.old) }
{
    let mut out = Vec::new(alloc);
    if let Some(connection) = link {
        write_news(alloc, &mut out, &connection.told, notice)?;
        write_sessions(alloc, &mut out, peer, sessions)?;
        write_messages(alloc, &mut out, peer, messages)?;
        connection.told = Some(*notice);
    }
    Ok(Chunk::new(out))
}

impl Links {
    /// The bytes for each server, by place: the notice, if it is not the last that was written to it,
    /// and the notices about sessions and the messages to it, in order; none without a connection. After an error the links are of
    /// no more use.
    #[tactic(auto, using(crate::proofs::Writing::writes_none, crate::proofs::Writing::writes_all, crate::proofs::Writing::told_all))]
    pub fn write(
        &mut self,
        alloc: Global,
        notice: &Notice,
        sessions: &[SessionNotice],
        messages: &Messages<Call>,
    ) -> Result<Vec<Chunk>, NoMemory>
        ensures writes { IfOk result (λ outputs. Writes notice.now sessions.now messages.now self.old.links.items outputs.items) }
        ensures told { OnOk result (self.new.links.items ≡ map (told notice.now) self.old.links.items) }
        ensures me { self.new.me ≡ self.old.me }
    {
        let mut outputs = Vec::new(alloc);
        for place in 0..self.links.len() {
            let link = &mut self.links[place];
            let bytes = write_to(alloc, link, place + 1, notice, sessions, messages)?;
            outputs.push(bytes)?;
        }
        Ok(outputs)
    }
}
