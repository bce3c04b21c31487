//! The sessions that own ephemeral nodes.
ghost use Rattle.std.specs.Prelude.{◌≡◌, [], IfOk, OnOk, map};
ghost use Rattle.std.specs.String.{string_bytes};
ghost use Rattle.zk_sessions.specs.Ephemerals.{owned_by, owner_of, with_owner, without_owner};

use std::alloc::Global;
use std::collections::BTreeMap;
use std::marker::Model;
use zk_path::{NoMemory, Path};

/// The sessions that own ephemeral nodes, by path.
#[derive(Drop)]
pub struct Ephemerals {
    alloc: Global,
    sessions: BTreeMap<String, i64>,
}

impl Model for Ephemerals {
    ghost use Rattle.std.specs.Prelude.{map};
    ghost use Rattle.std.specs.String.{string_bytes};
    ghost use Rattle.zk_sessions.specs.Ephemerals.{Owned};

    ghost Value = { Owned };

    ghost view = { λ ephemerals. map (λ entry. (string_bytes entry.0, entry.1)) ephemerals.sessions.entries };
}

impl Ephemerals {
    /// No node yet.
    pub fn new(alloc: Global) -> Ephemerals
        ensures { result ≡ [] }
    {
        Ephemerals {
            alloc,
            sessions: BTreeMap::new(alloc),
        }
    }

    /// The session that owns the node at a path.
    pub fn owner_of(&self, path: &str) -> Option<i64>
        ensures { result ≡ owner_of self.now path.now }
    {
        self.sessions.get(path).copied()
    }

    /// The paths of the nodes that a session owns, in order.
    pub fn owned_by(&self, session: i64) -> Result<Vec<&str>, NoMemory>
        ensures { IfOk result (λ paths. map (λ path. path.now) paths.items ≡ owned_by self.now session) }
    {
        let mut paths = Vec::new(self.alloc);
        for (path, owner) in self.sessions.iter() {
            if *owner == session {
                paths.push(path.as_str())?;
            }
        }
        Ok(paths)
    }

    /// Sets the session that owns the node at a path.
    pub(crate) fn set(&mut self, path: &str, session: i64) -> Result<(), NoMemory>
        ensures { OnOk result (self.new ≡ with_owner self.old path.now session) }
    {
        let text = String::from_str(self.alloc, path)?;
        self.sessions.insert(text, session)?;
        Ok(())
    }

    /// Forgets the owner of the node at a path.
    pub(crate) fn forget(&mut self, path: &str)
        ensures { self.new ≡ without_owner self.old path.now }
    {
        self.sessions.remove(path);
    }

    /// Copies of the paths of the nodes that a session owns, in order.
    pub(crate) fn copies_of_owned(&self, session: i64) -> Result<Vec<String>, NoMemory>
        ensures { IfOk result (λ paths. map string_bytes paths.items ≡ owned_by self.now session) }
    {
        let mut paths = Vec::new(self.alloc);
        for (path, owner) in self.sessions.iter() {
            if *owner == session {
                paths.push(String::from_str(self.alloc, path.as_str())?)?;
            }
        }
        Ok(paths)
    }

    pub(crate) fn copies_of_listed(&self, listed: &[Path]) -> Result<Vec<String>, NoMemory>
        ensures { IfOk result (λ paths. map string_bytes paths.items ≡ listed.now) }
    {
        copies_of(self.alloc, listed)
    }
}

/// The texts of paths.
fn copies_of(alloc: Global, paths: &[Path]) -> Result<Vec<String>, NoMemory>
    ensures { IfOk result (λ copies. map string_bytes copies.items ≡ paths.now) }
{
    let mut copies = Vec::new(alloc);
    for path in paths {
        copies.push(String::from_str(alloc, path.text())?)?;
    }
    Ok(copies)
}
