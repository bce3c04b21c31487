//! The replies to the four-letter words that ask for lists.

ghost use Rattle.std.specs.Prelude.{◌≡◌, ◌++◌, map, IfOk, OnErr, OnOk};
ghost use Rattle.std.specs.Int.{w64, cast_signed};
ghost use Rattle.std.specs.List.{list_any};
ghost use Rattle.zk_client_port.specs.Listings.{awaits, listed, owned_if, owned_in, pair_of, sessions_in, ListsTo, WritesLists};
ghost use Rattle.zk_table.specs.States.{owned_by};

use crate::client_port::ClientPort;
use std::alloc::Global;
use zab_host::Storage;
use zk_connections::{Connection, OwnedNodes, Word, connections_text, sessions_text};
use zk_host::ReplicaHost;
use zk_path::NoMemory;
use zk_tree::Tree;

impl ClientPort {
    /// Writes the lists that connections await, and closes these. If memory runs out, some wait for
    /// the next call.
    pub fn write_listings<S: Storage>(
        &mut self,
        alloc: Global,
        host: &ReplicaHost<S>,
    ) -> Result<(), NoMemory>
        ensures lists { ListsTo host.now.tree.tree self.old.connections.items self.new.connections.items result }
        ensures hub { self.new.hub ≡ self.old.hub }
    {
        if !awaits_any(&self.connections) {
            return Ok(());
        }
        let sessions = sessions_of(host);
        let owned = owned_at(alloc, host, sessions)?;
        let connections = connections_text(alloc, &self.connections)?;
        let sessions = sessions_text(alloc, &self.connections, sessions, &owned)?;
        write_listings(
            &mut self.connections,
            connections.as_str(),
            sessions.as_str(),
        )
    }
}

/// Whether a list is awaited.
fn awaits_any(connections: &[Connection]) -> bool
    ensures { result ≡ list_any awaits connections.now }
{
    connections.iter().any(|it| it.listing().is_some())
}

/// The sessions of a host's tree, and their timeouts.
#[tactic(auto, using(crate::proofs::Lists::no_sessions))]
fn sessions_of<S: Storage>(host: &ReplicaHost<S>) -> &[(u64, i32)]
    ensures { result.now ≡ sessions_in host.now.tree.tree }
{
    let Some(machine) = host.as_machine() else {
        return &[];
    };
    match machine.sessions() {
        Ok(sessions) => sessions,
        Err(_) => unreachable!(),
    }
}

fn write_listings(
    connections: &mut Vec<Connection>,
    connections_text: &str,
    sessions_text: &str,
) -> Result<(), NoMemory>
    ensures { WritesLists connections_text.now sessions_text.now connections.old.items connections.new.items result }
{
    for index in 0..connections.len() {
        write_listing(&mut connections[index], connections_text, sessions_text)?;
    }
    Ok(())
}

fn write_listing(
    connection: &mut Connection,
    connections_text: &str,
    sessions_text: &str,
) -> Result<(), NoMemory>
    ensures written { OnOk result (connection.new ≡ listed connections_text.now sessions_text.now connection.old) }
    ensures unchanged { OnErr result (connection.new ≡ connection.old) }
{
    match connection.listing() {
        Some(Word::Cons) => connection.write_text(connections_text),
        Some(Word::Dump) => connection.write_text(sessions_text),
        _ => Ok(()),
    }
}

/// The ephemeral nodes of each of these sessions that has any, in a host's tree.
fn owned_at<S: Storage>(
    alloc: Global,
    host: &ReplicaHost<S>,
    sessions: &[(u64, i32)],
) -> Result<Vec<OwnedNodes>, NoMemory>
    ensures { IfOk result (λ it. map pair_of it.items ≡ owned_in host.now.tree.tree.nodes sessions.now) }
{
    match host.tree() {
        Some(tree) => owned_nodes(alloc, tree, sessions),
        None => owned_nodes(alloc, &Tree::new(alloc)?, sessions),
    }
}

fn owned_nodes(
    alloc: Global,
    tree: &Tree,
    sessions: &[(u64, i32)],
) -> Result<Vec<OwnedNodes>, NoMemory>
    ensures { IfOk result (λ it. map pair_of it.items ≡ owned_in tree.now sessions.now) }
{
    let mut owned = Vec::new(alloc);
    for session in sessions {
        push_owned(&mut owned, tree, session.0)?;
    }
    Ok(owned)
}

/// Appends the ephemeral nodes of a session, if it has any.
fn push_owned(owned: &mut Vec<OwnedNodes>, tree: &Tree, session: u64) -> Result<(), NoMemory>
    ensures { OnOk result (map pair_of owned.new.items ≡ map pair_of owned.old.items ++ owned_if session (owned_by tree.now (cast_signed w64 session))) }
{
    let paths = tree.owned_by(session.cast_signed())?;
    if !paths.is_empty() {
        owned.push(OwnedNodes { session, paths })?;
    }
    Ok(())
}
