//! The sessions that own ephemeral nodes.
ghost use Rattle.std.specs.Prelude.{◌≡◌, ◌++◌, [], IfOk, OnOk, map};
ghost use Rattle.std.specs.String.{string_bytes};
ghost use Rattle.zk_incidents.specs.Owners.{after_part, after_parts, closed, created, owned_after, owned_by, touched, with_owner, without_owner, without_owners};
ghost use Rattle.zk_incidents.specs.Writes.{written};

use crate::writes::written;
use std::alloc::Global;
use std::collections::BTreeMap;
use std::marker::Model;
use zk_newer_records::{Encoding, NewerRecord};
use zk_path::{NoMemory, Path};
use zk_table::{Op, Sub, hold_error};

/// The sessions that own ephemeral nodes, by path, as far as the records so far show.
#[derive(Drop)]
pub struct Owners {
    alloc: Global,
    sessions: BTreeMap<String, i64>,
}

impl Model for Owners {
    ghost use Rattle.std.specs.Prelude.{map};
    ghost use Rattle.std.specs.String.{string_bytes};
    ghost use Rattle.zk_incidents.specs.Owners.{Owned};

    ghost Value = { Owned };

    ghost view = { λ owners. map (λ entry. (string_bytes entry.0, entry.1)) owners.sessions.entries };
}

impl Owners {
    /// No node yet.
    pub fn new(alloc: Global) -> Owners
        ensures { result ≡ [] }
    {
        Owners {
            alloc,
            sessions: BTreeMap::new(alloc),
        }
    }

    /// The paths of the nodes that a session is known to own, in order.
    fn owned_by(&self, session: i64) -> Result<Vec<&str>, NoMemory>
        ensures { IfOk result (λ paths. map (λ path. path.now) paths.items ≡ owned_by self.now session) }
    {
        let mut paths = Vec::new(self.alloc);
        for (path, owner) in self.sessions.iter() {
            if *owner == session {
                paths.push(path.as_str())?;
            }
        }
        Ok(paths)
    }

    /// The paths of the nodes that the end of a session deletes.
    fn closed<'a>(&'a self, newer: &'a NewerRecord) -> Result<Vec<&'a str>, NoMemory>
        ensures { IfOk result (λ paths. map (λ path. path.now) paths.items ≡ closed self.now newer.now) }
    {
        match &newer.form {
            Encoding::ClosePaths { listed } => texts_of(self.alloc, listed.as_slice()),
            _ => self.owned_by(newer.txn.session),
        }
    }

    /// The paths of the nodes that a record creates, changes or deletes.
    pub fn touched<'a>(&'a self, newer: &'a NewerRecord) -> Result<Vec<&'a str>, NoMemory>
        ensures { IfOk result (λ paths. map (λ path. path.now) paths.items ≡ touched self.now newer.now) }
    {
        match &newer.txn.op {
            Op::CloseSession => self.closed(newer),
            op => written(self.alloc, op),
        }
    }

    /// Sets the session that owns the node at a path.
    pub fn set(&mut self, path: &str, session: i64) -> Result<(), NoMemory>
        ensures { OnOk result (self.new ≡ with_owner self.old path.now session) }
    {
        let text = String::from_str(self.alloc, path)?;
        self.sessions.insert(text, session)?;
        Ok(())
    }

    fn forget(&mut self, path: &str)
        ensures { self.new ≡ without_owner self.old path.now }
    {
        self.sessions.remove(path);
    }

    /// Forgets the owners of the nodes at these paths.
    fn forget_all(&mut self, paths: &[String])
        ensures { self.new ≡ without_owners self.old (map string_bytes paths.now) }
    {
        for path in paths {
            self.forget(path.as_str());
        }
    }

    /// Follows the creation of a node by a session.
    fn create(&mut self, path: &str, ephemeral: bool, session: i64) -> Result<(), NoMemory>
        ensures { OnOk result (self.new ≡ created self.old path.now ephemeral session) }
    {
        if ephemeral {
            self.set(path, session)
        } else {
            self.forget(path);
            Ok(())
        }
    }

    fn follow_part(&mut self, session: i64, part: &Sub) -> Result<(), NoMemory>
        ensures { OnOk result (self.new ≡ after_part session self.old part.now) }
    {
        match part {
            Sub::Create {
                path,
                ephemeral,
                ..
            } => self.create(path.text(), *ephemeral, session),
            Sub::Delete { path } => {
                self.forget(path.text());
                Ok(())
            }
            Sub::SetData { .. } | Sub::Check { .. } | Sub::Error { .. } => Ok(()),
        }
    }

    fn follow_parts(&mut self, session: i64, parts: &[Sub]) -> Result<(), NoMemory>
        ensures { OnOk result (self.new ≡ after_parts session self.old parts.now) }
    {
        for part in parts {
            self.follow_part(session, part)?;
        }
        Ok(())
    }

    /// Follows the end of a session.
    fn close(&mut self, newer: &NewerRecord) -> Result<(), NoMemory>
        ensures { OnOk result (self.new ≡ without_owners self.old (closed self.old newer.now)) }
    {
        let paths = self.copies_of_closed(newer)?;
        self.forget_all(paths.as_slice());
        Ok(())
    }

    fn copies_of_closed(&self, newer: &NewerRecord) -> Result<Vec<String>, NoMemory>
        ensures { IfOk result (λ paths. map string_bytes paths.items ≡ closed self.now newer.now) }
    {
        let closed = self.closed(newer)?;
        copies_of(self.alloc, closed.as_slice())
    }

    /// Follows a record. Nothing is specified after an allocation failure.
    pub fn follow(&mut self, newer: &NewerRecord) -> Result<(), NoMemory>
        ensures { OnOk result (self.new ≡ owned_after self.old newer.now) }
    {
        let session = newer.txn.session;
        match &newer.txn.op {
            Op::Create {
                path,
                ephemeral,
                ..
            } => self.create(path.text(), *ephemeral, session),
            Op::CreateOld {
                path,
                ephemeral,
                ..
            } => self.create(path.text(), *ephemeral, session),
            Op::Delete { path } => {
                self.forget(path.text());
                Ok(())
            }
            Op::CloseSession => self.close(newer),
            Op::Multi { parts } => {
                if hold_error(parts.as_slice()) {
                    return Ok(());
                }
                self.follow_parts(session, parts.as_slice())
            }
            _ => Ok(()),
        }
    }
}

/// The texts of paths.
fn texts_of<'a>(alloc: Global, paths: &'a [Path]) -> Result<Vec<&'a str>, NoMemory>
    ensures { IfOk result (λ texts. map (λ text. text.now) texts.items ≡ paths.now) }
{
    let mut texts = Vec::new(alloc);
    for path in paths {
        texts.push(path.text())?;
    }
    Ok(texts)
}

/// Copies of texts.
fn copies_of(alloc: Global, texts: &[&str]) -> Result<Vec<String>, NoMemory>
    ensures { IfOk result (λ copies. map string_bytes copies.items ≡ map (λ text. text.now) texts.now) }
{
    let mut copies = Vec::new(alloc);
    for text in texts {
        copies.push(String::from_str(alloc, text)?)?;
    }
    Ok(copies)
}
