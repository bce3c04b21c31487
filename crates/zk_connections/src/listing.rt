//! The replies to the four-letter words that list connections and sessions.

ghost use Rattle.std.specs.Prelude.{◌≡◌, ◌++◌, length, IfOk, OnOk};
ghost use Rattle.std.specs.List.{flat_map};
ghost use Rattle.std.specs.String.{string_bytes};
ghost use Rattle.zk_connections.specs.Listings.{connection_line, connections_text, counted_title, details_text, ephemerals_title, hex_text, interest_text, owned_lines, path_line, peer_line, peer_text, peers_title, session_line, session_number, sessions_text, sessions_title};

use crate::connection::Connection;
use std::alloc::Global;
use std::net::SocketAddr;
use zk_path::{NoMemory, Path};

/// The ephemeral nodes of a session.
#[derive(Debug, Drop)]
pub struct OwnedNodes {
    /// The session's unsigned number.
    pub session: u64,
    pub paths: Vec<Path>,
}

fn push_peer(text: &mut String, peer: Option<SocketAddr>) -> Result<(), NoMemory>
    ensures { OnOk result (string_bytes text.new ≡ string_bytes text.old ++ peer_text peer) }
{
    match peer {
        Some(peer) => write!(text, "/{peer}")?,
        None => text.push_str("/unknown")?,
    }
    Ok(())
}

fn push_hex(text: &mut String, session: u64) -> Result<(), NoMemory>
    ensures { OnOk result (string_bytes text.new ≡ string_bytes text.old ++ hex_text session) }
{
    write!(text, "0x{session:x}")?;
    Ok(())
}

fn session_number(session: Option<i64>) -> u64
    ensures { result ≡ session_number session }
{
    match session {
        Some(session) => session.cast_unsigned(),
        None => 0,
    }
}

// ---- `cons`

fn interest_text(wants_input: bool) -> &'static str
    ensures { result.now ≡ interest_text wants_input }
{
    if wants_input { "1" } else { "0" }
}

fn push_details(text: &mut String, session: Option<i64>) -> Result<(), NoMemory>
    ensures { OnOk result (string_bytes text.new ≡ string_bytes text.old ++ details_text session) }
{
    if let Some(session) = session {
        text.push_str("sid=")?;
        push_hex(text, session.cast_unsigned())?;
    }
    Ok(())
}

fn push_connection(text: &mut String, connection: &Connection) -> Result<(), NoMemory>
    ensures { OnOk result (string_bytes text.new ≡ string_bytes text.old ++ connection_line connection.now) }
{
    text.push_str(" ")?;
    push_peer(text, connection.peer)?;
    text.push_str("[")?;
    text.push_str(interest_text(connection.wants_input()))?;
    text.push_str("](")?;
    push_details(text, connection.session())?;
    text.push_str(")\n")?;
    Ok(())
}

fn push_connections(text: &mut String, connections: &[Connection]) -> Result<(), NoMemory>
    ensures { OnOk result (string_bytes text.new ≡ string_bytes text.old ++ flat_map connection_line connections.now) }
{
    for connection in connections {
        push_connection(text, connection)?;
    }
    Ok(())
}

/// The reply to `cons` of a server with these connections: a line for each.
///
/// ZooKeeper Administrator's Guide, "The Four Letter Words".
pub fn connections_text(alloc: Global, connections: &[Connection]) -> Result<String, NoMemory>
    ensures { IfOk result (λ text. string_bytes text ≡ connections_text connections.now) }
{
    let mut text = String::new(alloc);
    push_connections(&mut text, connections)?;
    text.push_str("\n")?;
    Ok(text)
}

// ---- `dump`

fn push_session(text: &mut String, session: &(u64, i32)) -> Result<(), NoMemory>
    ensures { OnOk result (string_bytes text.new ≡ string_bytes text.old ++ session_line session.now) }
{
    let (session, timeout) = *session;
    push_hex(text, session)?;
    write!(text, "\t{timeout}ms\n")?;
    Ok(())
}

fn push_sessions(text: &mut String, sessions: &[(u64, i32)]) -> Result<(), NoMemory>
    ensures { OnOk result (string_bytes text.new ≡ string_bytes text.old ++ flat_map session_line sessions.now) }
{
    for session in sessions {
        push_session(text, session)?;
    }
    Ok(())
}

fn push_path(text: &mut String, path: &Path) -> Result<(), NoMemory>
    ensures { OnOk result (string_bytes text.new ≡ string_bytes text.old ++ path_line path.now) }
{
    text.push_str("\t")?;
    text.push_str(path.text())?;
    text.push_str("\n")?;
    Ok(())
}

fn push_paths(text: &mut String, paths: &[Path]) -> Result<(), NoMemory>
    ensures { OnOk result (string_bytes text.new ≡ string_bytes text.old ++ flat_map path_line paths.now) }
{
    for path in paths {
        push_path(text, path)?;
    }
    Ok(())
}

fn push_owned(text: &mut String, owned: &OwnedNodes) -> Result<(), NoMemory>
    ensures { OnOk result (string_bytes text.new ≡ string_bytes text.old ++ owned_lines owned.now) }
{
    push_hex(text, owned.session)?;
    text.push_str(":\n")?;
    push_paths(text, &owned.paths)
}

fn push_all_owned(text: &mut String, owned: &[OwnedNodes]) -> Result<(), NoMemory>
    ensures { OnOk result (string_bytes text.new ≡ string_bytes text.old ++ flat_map owned_lines owned.now) }
{
    for nodes in owned {
        push_owned(text, nodes)?;
    }
    Ok(())
}

fn push_peer_line(text: &mut String, connection: &Connection) -> Result<(), NoMemory>
    ensures { OnOk result (string_bytes text.new ≡ string_bytes text.old ++ peer_line connection.now) }
{
    text.push_str("\tip: ")?;
    push_peer(text, connection.peer)?;
    text.push_str(" sessionId: ")?;
    push_hex(text, session_number(connection.session()))?;
    text.push_str("\n")?;
    Ok(())
}

fn push_peer_lines(text: &mut String, connections: &[Connection]) -> Result<(), NoMemory>
    ensures { OnOk result (string_bytes text.new ≡ string_bytes text.old ++ flat_map peer_line connections.now) }
{
    for connection in connections {
        push_peer_line(text, connection)?;
    }
    Ok(())
}

#[tactic(auto, unfolding(crate::specs::Listings::sessions_title))]
fn sessions_title() -> &'static str
    ensures { result.now ≡ sessions_title }
{
    "SessionTracker dump:\nGlobal Sessions"
}

#[tactic(auto, unfolding(crate::specs::Listings::ephemerals_title))]
fn ephemerals_title() -> &'static str
    ensures { result.now ≡ ephemerals_title }
{
    "ephemeral nodes dump:\nSessions with Ephemerals "
}

#[tactic(auto, unfolding(crate::specs::Listings::peers_title))]
fn peers_title() -> &'static str
    ensures { result.now ≡ peers_title }
{
    "Connections dump:\n"
}

/// Appends a title, and how many lines follow.
fn push_title(text: &mut String, title: &str, count: usize) -> Result<(), NoMemory>
    ensures { OnOk result (string_bytes text.new ≡ string_bytes text.old ++ counted_title title.now count) }
{
    write!(text, "{title}({count}):\n")?;
    Ok(())
}

/// The reply to `dump` of a server with these connections, when the ensemble has these sessions,
/// with their timeouts in milliseconds, and they have these ephemeral nodes.
///
/// ZooKeeper Administrator's Guide, "The Four Letter Words".
pub fn sessions_text(
    alloc: Global,
    connections: &[Connection],
    sessions: &[(u64, i32)],
    owned: &[OwnedNodes],
) -> Result<String, NoMemory>
    ensures { IfOk result (λ text. string_bytes text ≡ sessions_text connections.now sessions.now owned.now) }
{
    let mut text = String::new(alloc);
    push_title(&mut text, sessions_title(), sessions.len())?;
    push_sessions(&mut text, sessions)?;
    push_title(&mut text, ephemerals_title(), owned.len())?;
    push_all_owned(&mut text, owned)?;
    text.push_str(peers_title())?;
    push_peer_lines(&mut text, connections)?;
    Ok(text)
}
