//! What a socket gives a connection, and what it takes of it.
ghost use Rattle.std.specs.Prelude.{◌≡◌, ◌≤◌, ◌==◌, true, false, length, not};
ghost use Rattle.std.specs.Io.{ReadsAtMost};
ghost use Rattle.zk_connections.specs.Inputs.{wants_input};
ghost use Rattle.zk_reactor.specs.Sockets.{HearsFrom, HearsOutcome, SendsTo, after_tick, after_write, has_settled, most_input, ticks_after};

use crate::outcome::{Outcome, outcome_of};
use std::io::{Read, Write};
use zk_connections::Connection;

/// The bytes that are read of a client before the others have their turn.
pub(crate) const CHUNK: usize = 8192;

/// The ticks for which a connection that closes waits for its client to read the rest, and one without
/// a session for its client to ask for one.
const MOST_TICKS: u8 = 5;

/// Reads once, if the connection takes more. Returns whether there may be more bytes.
pub(crate) fn read_socket<R: Read>(socket: &mut R, connection: &mut Connection) -> bool
    ensures full { wants_input connection.old ≡ false → (socket.new ≡ socket.old) × (connection.new ≡ connection.old) }
    ensures heard { wants_input connection.old ≡ true
        → HearsFrom (R.remaining socket.old) (R.remaining socket.new) connection.old connection.new }
    ensures bounded { length connection.old.input ≤ most_input → length connection.new.input ≤ most_input }
{
    if !connection.wants_input() {
        return true;
    }
    let mut chunk = [0u8; CHUNK];
    let outcome = outcome_of(socket.read(&mut chunk));
    hear_outcome(connection, &chunk, outcome);
    outcome != Outcome::Waits
}

/// Gives a connection what a read has come to.
fn hear_outcome(connection: &mut Connection, chunk: &[u8], outcome: Outcome)
    ensures { HearsOutcome outcome chunk.now connection.old connection.new }
{
    match outcome {
        Outcome::Bytes(count) => hear(connection, chunk, count),
        Outcome::Waits | Outcome::Interrupted => (),
        Outcome::Ended | Outcome::Failed => connection.cut_off(),
    }
}

/// Gives a connection the first bytes of a chunk. If memory runs out, it is lost.
fn hear(connection: &mut Connection, chunk: &[u8], count: usize)
    ensures { HearsOutcome (Outcome.Bytes count) chunk.now connection.old connection.new }
{
    let Some(bytes) = chunk.get(..count) else {
        connection.cut_off();
        return;
    };
    if connection.hear(bytes).is_err() {
        connection.cut_off();
    }
}

/// Writes what the socket takes. A connection with too many bytes left is lost.
#[tactic(auto, using(crate::proofs::SocketLaws::lost_after))]
pub(crate) fn write_socket<W: Write>(socket: &mut W, connection: &mut Connection)
    ensures sent { SendsTo (W.contents socket.old) (W.contents socket.new) connection.old connection.new }
    ensures bounded { length connection.new.output ≤ Connection.MOST_OUTPUT }
{
    send_all(socket, connection);
    if connection.is_clogged() {
        connection.cut_off();
    }
}

/// Writes until the socket would wait, or all is written.
#[tactic(auto, using(crate::proofs::SocketLaws::no_write))]
fn send_all<W: Write>(socket: &mut W, connection: &mut Connection)
    ensures { SendsTo (W.contents socket.old) (W.contents socket.new) connection.old connection.new }
{
    'writes: for _ in 0..connection.unsent().len() {
        if connection.unsent().is_empty() {
            break 'writes;
        }
        if !send(socket, connection) {
            break 'writes;
        }
    }
}

/// Writes once. Returns whether another write may take more.
#[tactic(auto, using(crate::proofs::SocketLaws::one_write))]
fn send<W: Write>(socket: &mut W, connection: &mut Connection) -> bool
    ensures { SendsTo (W.contents socket.old) (W.contents socket.new) connection.old connection.new }
{
    let outcome = outcome_of(socket.write(connection.unsent()));
    take_outcome(connection, outcome);
    outcome != Outcome::Waits
}

/// Records what a write has come to.
fn take_outcome(connection: &mut Connection, outcome: Outcome)
    ensures { connection.new ≡ after_write outcome connection.old }
{
    match outcome {
        Outcome::Bytes(count) => connection.sent(count),
        Outcome::Waits | Outcome::Interrupted => (),
        Outcome::Ended | Outcome::Failed => connection.cut_off(),
    }
}

/// Counts a tick of a connection that closes, or has no session. Cuts it off after [`MOST_TICKS`].
/// Returns the new count.
pub(crate) fn linger(connection: &mut Connection, ticks: u8) -> u8
    ensures ticks { result ≡ ticks_after ticks connection.old }
    ensures connection { connection.new ≡ after_tick ticks connection.old }
{
    if has_settled(connection) {
        return 0;
    }
    if ticks < MOST_TICKS {
        return ticks + 1;
    }
    connection.cut_off();
    ticks
}

/// Whether a connection has a session, and does not close.
fn has_settled(connection: &Connection) -> bool
    ensures { result ≡ has_settled connection.now }
{
    !connection.is_closing() && connection.session().is_some()
}
