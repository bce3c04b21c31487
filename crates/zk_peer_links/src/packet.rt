//! What a link carries.

ghost use Rattle.std.specs.Prelude.{◌≡◌, ◌≤◌, None, length, drop, IfOk, IfSome, IfNone, OnOk};
ghost use Rattle.zab_frames.specs.Streams.{new_stream, with_bytes};
ghost use Rattle.zk_peer_links.specs.Links.{arrival_of};
ghost use Rattle.zk_peer_links.specs.Packets.{BeginsWith, HasNoNotice, HasNoSession, IsShortIn, StepsTo};
ghost use Rattle.zk_peer_links.specs.declared.packet.Packet.TheVariants as packets;

use crate::arrival::Arrival;
use crate::notice::Notice;
use crate::notice_contents::read_notice;
use crate::session_contents::read_session;
use crate::session_notice::SessionNotice;
use std::alloc::Global;
use zab_epoch::{Message, Messages};
use zab_frames::{DecodeFault, Decoder, first_frame};
use zk_path::NoMemory;
use zk_requests::Call;

/// What a frame of a link has.
#[derive(Debug, Drop)]
pub enum Packet {
    Message(Message<Call>),
    Notice(Notice),
    Session(SessionNotice),
}

/// What becomes of the first frame that a link has brought.
#[derive(Debug, Drop)]
pub(crate) enum Step {
    Took(Packet),
    /// It is not whole.
    Waits,
    /// It is not that of a packet.
    Wrong,
}

/// The number of bytes of a notice's frame.
const NOTICE: usize = 64;

/// The number of bytes of the frame of a notice about a session.
const SESSION: usize = 48;

/// The notice whose frame comes first; `None` if there is none.
#[tactic(auto, using(crate::proofs::Reading::begins_with, crate::proofs::Reading::no_frame, crate::proofs::Reading::no_notice, crate::proofs::Reading::wrong_frame))]
fn first_notice(bytes: &[u8]) -> Option<Notice>
    ensures found { IfSome result (λ notice. BeginsWith bytes.now 64 (packets.Notice notice)) }
    ensures none { IfNone result (HasNoNotice bytes.now) }
{
    match first_frame(bytes) {
        Ok(Some(contents)) => read_notice(contents),
        Ok(None) => None,
        Err(_) => None,
    }
}

/// The notice about a session whose frame comes first; `None` if there is none.
#[tactic(auto, using(crate::proofs::Reading::begins_with_session, crate::proofs::Reading::no_session_frame, crate::proofs::Reading::no_session, crate::proofs::Reading::wrong_session))]
fn first_session(bytes: &[u8]) -> Option<SessionNotice>
    ensures found { IfSome result (λ notice. BeginsWith bytes.now 48 (packets.Session notice)) }
    ensures none { IfNone result (HasNoSession bytes.now) }
{
    match first_frame(bytes) {
        Ok(Some(contents)) => read_session(contents),
        Ok(None) => None,
        Err(_) => None,
    }
}

/// The bytes after the first ones.
fn after(decoder: &Decoder, size: usize) -> &[u8]
    requires { size ≤ length decoder.now.rest }
    ensures { result.now ≡ drop size decoder.now.rest }
{
    &decoder.rest()[size..]
}

/// A decoder to which these bytes have come.
fn decoder_of(alloc: Global, bytes: &[u8]) -> Result<Decoder, NoMemory>
    ensures { IfOk result (λ decoder. decoder ≡ with_bytes bytes.now new_stream) }
{
    let mut decoder = Decoder::new(alloc);
    decoder.push(bytes)?;
    Ok(decoder)
}

/// Removes a frame of this number of bytes. If an allocation fails, nothing changes.
fn skip(alloc: Global, decoder: &mut Decoder, size: usize) -> Result<(), NoMemory>
    requires long { size ≤ length decoder.old.rest }
    requires sound { decoder.old.fault ≡ None }
    ensures rest { OnOk result (decoder.new.rest ≡ drop size decoder.old.rest) }
    ensures sound { decoder.new.fault ≡ None }
{
    let later = decoder_of(alloc, after(decoder, size))?;
    *decoder = later;
    Ok(())
}

/// Takes the first frame. After a wrong one the decoder is of no more use.
#[tactic(auto, using(crate::proofs::Reading::took_first, crate::proofs::Reading::took_message, crate::proofs::Reading::waits_still, crate::proofs::Reading::is_wrong))]
pub(crate) fn take_packet(alloc: Global, decoder: &mut Decoder) -> Result<Step, NoMemory>
    requires sound { decoder.old.fault ≡ None }
    ensures steps { IfOk result (λ step. StepsTo decoder.old.rest step decoder.new.rest) }
    ensures sound { decoder.new.fault ≡ None }
{
    if let Some(notice) = first_notice(decoder.rest()) {
        skip(alloc, decoder, NOTICE)?;
        return Ok(Step::Took(Packet::Notice(notice)));
    }
    if let Some(notice) = first_session(decoder.rest()) {
        skip(alloc, decoder, SESSION)?;
        return Ok(Step::Took(Packet::Session(notice)));
    }
    match decoder.next(alloc) {
        Ok(Some(message)) => Ok(Step::Took(Packet::Message(message))),
        Ok(None) => Ok(Step::Waits),
        Err(DecodeFault::NoMemory) => Err(NoMemory),
        Err(DecodeFault::Broken(_)) => {
            *decoder = Decoder::new(alloc);
            Ok(Step::Wrong)
        }
    }
}

/// What a packet that has come on a connection is to the server.
pub(crate) fn arrival_of(alloc: Global, line: u64, packet: Packet) -> Result<Arrival, NoMemory>
    requires { IsShortIn packet }
    ensures { IfOk result (λ arrival. arrival ≡ arrival_of line packet) }
{
    match packet {
        Packet::Notice(notice) => Ok(Arrival::Notice(notice)),
        Packet::Session(notice) => Ok(Arrival::Session(notice)),
        Packet::Message(message) => {
            let Message {
                sender,
                addressee,
                body,
            } = message;
            let mut messages = Messages::new(alloc);
            messages.send(sender, addressee, body)?;
            Ok(Arrival::Mail { line, messages })
        }
    }
}
