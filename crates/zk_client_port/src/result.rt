ghost use Rattle.std.specs.Prelude.{◌≡◌, OnOk, IfOk};
ghost use Rattle.zk_client_port.specs.Results.{response_to, attachment, attachment_if, with_opened, opened_by, with_attached, attached_by, with_replied, with_outcome, gained_by};
ghost use Rattle.zk_connections.specs.Connections.{may_open, with_session};

use crate::admission::Admission;
use crate::expected::{Expected, Opening};
use std::alloc::Global;
use zk_client_session::{ExpectedReply, Reply};
use zk_connections::{Connection, PASSWORD_BYTES, password_of};
use zk_frames::{ConnectResponse, FrameFault};
use zk_hub::Outcome;
use zk_path::NoMemory;
use zk_requests::clamp;

/// A session that a connection has got.
#[derive(Clone, Copy, Debug, PartialEq, Eq)]
pub struct Attachment {
    pub session: i64,
    pub connection: u64,
    /// In milliseconds, as negotiated.
    pub timeout: i32,
}

fn response_to(secret: &[u8; PASSWORD_BYTES], session: i64, opening: &Opening) -> ConnectResponse
    ensures { result ≡ response_to secret.now session opening.now }
{
    ConnectResponse {
        timeout: clamp(opening.timeout),
        session,
        password: password_of(secret, session),
        read_only: opening.read_only,
    }
}

/// Gives a session to a connection, if it may get one.
fn attach(
    alloc: Global,
    secret: &[u8; PASSWORD_BYTES],
    connection: &mut Connection,
    session: i64,
    opening: &Opening,
) -> Result<Option<Attachment>, NoMemory>
    ensures connection { OnOk result (connection.new ≡ with_session (response_to secret.now session opening.now) opening.now.seen connection.old) }
    ensures attachment { IfOk result (λ it. it ≡ attachment_if (may_open connection.old) (attachment session connection.old.number opening.now)) }
{
    if !connection.may_open() {
        return Ok(None);
    }
    let number = connection.number();
    let response = response_to(secret, session, opening);
    connection.open_session(alloc, &response, opening.seen)?;
    Ok(Some(Attachment {
        session,
        connection: number,
        timeout: response.timeout,
    }))
}

/// Writes the connect response of a new session.
fn write_opened(
    alloc: Global,
    admission: &Admission,
    connection: &mut Connection,
    opening: &Opening,
    outcome: Outcome,
) -> Result<Option<Attachment>, NoMemory>
    ensures connection { OnOk result (connection.new ≡ with_opened admission.now opening.now outcome connection.old) }
    ensures gained { IfOk result (λ it. it ≡ opened_by connection.old opening.now outcome) }
{
    if let Outcome::Wrote(result) = outcome
        && result.err == 0
    {
        return attach(alloc, &admission.secret, connection, result.zxid, opening);
    }
    connection.cut_off();
    Ok(None)
}

/// Writes the connect response of a session that the client had.
fn write_attached(
    alloc: Global,
    admission: &Admission,
    connection: &mut Connection,
    session: i64,
    opening: &Opening,
) -> Result<Option<Attachment>, NoMemory>
    ensures connection { OnOk result (connection.new ≡ with_attached admission.now session opening.now connection.old) }
    ensures gained { IfOk result (λ it. it ≡ attached_by admission.now session connection.old opening.now) }
{
    if !admission.is_open(session) {
        connection.reject_session(alloc, opening.read_only)?;
        return Ok(None);
    }
    attach(alloc, &admission.secret, connection, session, opening)
}

/// Writes the reply to a write or a sync.
fn write_replied(
    alloc: Global,
    last: i64,
    connection: &mut Connection,
    expected: ExpectedReply,
    time: i64,
    outcome: Outcome,
) -> Result<(), FrameFault>
    ensures { OnOk result (connection.new ≡ with_replied last expected time outcome connection.old) }
{
    let reply = match outcome {
        Outcome::Wrote(result) => Reply::Wrote { result, time },
        Outcome::Synced => Reply::CaughtUp { zxid: last },
        Outcome::Known => {
            connection.cut_off();
            return Ok(());
        }
    };
    connection.write_reply(alloc, expected, reply)
}

/// Writes the outcome of a request at a server whose last transaction is `last`. Returns the session
/// that the connection has got by it. After an error, the connection is lost.
pub fn write_outcome(
    alloc: Global,
    admission: &Admission,
    last: i64,
    connection: &mut Connection,
    expected: Expected,
    outcome: Outcome,
) -> Result<Option<Attachment>, FrameFault>
    ensures connection { OnOk result (connection.new ≡ with_outcome admission.now last expected outcome connection.old) }
    ensures gained { IfOk result (λ it. it ≡ gained_by admission.now connection.old expected outcome) }
{
    match expected {
        Expected::Opened(opening) => {
            return Ok(write_opened(alloc, admission, connection, &opening, outcome)?);
        }
        Expected::Attached { session, opening } => {
            return Ok(write_attached(alloc, admission, connection, session, &opening)?);
        }
        Expected::Replied { expected, time } => {
            write_replied(alloc, last, connection, expected, time, outcome)?;
        }
        Expected::Known(immediate) => connection.write_immediate(alloc, last, immediate)?,
        Expected::Closed => connection.close(),
        Expected::Read {
            ask: _,
            expected: _,
        } => connection.cut_off(),
    }
    Ok(None)
}
