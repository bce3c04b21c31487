//! What the records so far show of sessions.
ghost use Rattle.std.specs.Prelude.{◌≡◌, IfOk, OnOk, Some, map};
ghost use Rattle.std.specs.String.{string_bytes};
ghost use Rattle.zk_sessions.specs.Known.{Follows, after_op, after_part, after_parts, after_close, all_gone, closing, gone, gone_from, leased_in, nothing, owning, with_changed, with_ephemeral, with_node};
ghost use Rattle.zk_sessions.specs.Moments.{moment_of};
ghost use Rattle.zk_sessions.specs.Sessions as sessions;
ghost use Rattle.zk_sessions.specs.Sessions.{expires, with_opening, with_writes};
ghost use Rattle.zk_sessions.specs.Writes.{write_count};

use crate::ephemerals::Ephemerals;
use crate::lives::Lives;
use crate::moment::moment_of;
use crate::session::expires;
use crate::writes::write_count;
use std::alloc::Global;
use zk_newer_records::{Encoding, NewerRecord, RecordFold};
use zk_path::NoMemory;
use zk_table::{Op, Sub, Txn, hold_error};

/// What the records so far show of sessions, and who owns which ephemeral nodes.
#[derive(Drop)]
pub struct Known {
    pub lives: Lives,
    pub owners: Ephemerals,
}

impl Known {
    /// No record yet.
    pub fn new(alloc: Global) -> Known
        ensures { result ≡ nothing }
    {
        Known {
            lives: Lives::new(alloc),
            owners: Ephemerals::new(alloc),
        }
    }

    /// Adds a session that was open before the first record, with its timeout in milliseconds.
    pub fn add_lease(&mut self, session: i64, timeout: i32) -> Result<(), NoMemory>
        ensures { OnOk result (self.new ≡ leased_in self.old session timeout) }
    {
        let life = self.lives.life_of(session);
        self.lives.set(session, life.with_timeout(timeout))
    }

    /// Adds an ephemeral node that a session owned before the first record.
    pub fn add_node(&mut self, path: &str, session: i64) -> Result<(), NoMemory>
        ensures { OnOk result (self.new ≡ owning self.old path.now session) }
    {
        let life = self.lives.life_of(session);
        self.lives.set(session, life.with_left())?;
        self.owners.set(path, session)
    }

    /// A session creates an ephemeral node.
    fn make(&mut self, path: &str, session: i64) -> Result<(), NoMemory>
        ensures { OnOk result (self.new ≡ with_ephemeral self.old path.now session) }
    {
        let life = self.lives.life_of(session);
        self.lives.set(session, life.with_created())?;
        self.owners.set(path, session)
    }

    /// The ephemeral node at a path, which a session owns, is deleted.
    fn lose_from(&mut self, path: &str, owner: i64) -> Result<(), NoMemory>
        ensures { OnOk result (self.new ≡ gone_from self.old path.now (Some owner)) }
    {
        let life = self.lives.life_of(owner);
        self.lives.set(owner, life.with_deleted())?;
        self.owners.forget(path);
        Ok(())
    }

    /// There is no node at a path.
    fn lose(&mut self, path: &str) -> Result<(), NoMemory>
        ensures { OnOk result (self.new ≡ gone self.old path.now) }
    {
        match self.owners.owner_of(path) {
            None => Ok(()),
            Some(owner) => self.lose_from(path, owner),
        }
    }

    /// There are no nodes at these paths.
    fn lose_all(&mut self, paths: &[String]) -> Result<(), NoMemory>
        ensures { OnOk result (self.new ≡ all_gone self.old (map string_bytes paths.now)) }
    {
        for path in paths {
            self.lose(path.as_str())?;
        }
        Ok(())
    }

    /// A session creates a node.
    fn create(&mut self, path: &str, ephemeral: bool, session: i64) -> Result<(), NoMemory>
        ensures { OnOk result (self.new ≡ with_node self.old path.now ephemeral session) }
    {
        self.lose(path)?;
        if ephemeral {
            self.make(path, session)
        } else {
            Ok(())
        }
    }

    fn follow_part(&mut self, session: i64, part: &Sub) -> Result<(), NoMemory>
        ensures { OnOk result (self.new ≡ after_part session self.old part.now) }
    {
        match part {
            Sub::Create {
                path,
                ephemeral,
                ..
            } => self.create(path.text(), *ephemeral, session),
            Sub::Delete { path } => self.lose(path.text()),
            Sub::SetData { .. } | Sub::Check { .. } | Sub::Error { .. } => Ok(()),
        }
    }

    fn follow_parts(&mut self, session: i64, parts: &[Sub]) -> Result<(), NoMemory>
        ensures { OnOk result (self.new ≡ after_parts session self.old parts.now) }
    {
        for part in parts {
            self.follow_part(session, part)?;
        }
        Ok(())
    }

    /// Copies of the paths of the nodes that the end of a session deletes.
    fn closing(&self, newer: &NewerRecord) -> Result<Vec<String>, NoMemory>
        ensures { IfOk result (λ paths. map string_bytes paths.items ≡ closing self.now.owners newer.now) }
    {
        match &newer.form {
            Encoding::ClosePaths { listed } => self.owners.copies_of_listed(listed.as_slice()),
            _ => self.owners.copies_of_owned(newer.txn.session),
        }
    }

    /// The session of a transaction is opened.
    fn open(&mut self, txn: &Txn, timeout: i32) -> Result<(), NoMemory>
        ensures { OnOk result (self.new ≡ with_changed self.old txn.now.session (with_opening (moment_of txn.now) timeout)) }
    {
        let life = self.lives.life_of(txn.session);
        self.lives
            .set(txn.session, life.with_opening(moment_of(txn), timeout))
    }

    /// The session of a record is closed.
    fn close(&mut self, newer: &NewerRecord) -> Result<(), NoMemory>
        ensures { OnOk result (self.new ≡ after_close self.old newer.now) }
    {
        let paths = self.closing(newer)?;
        self.lose_all(paths.as_slice())?;
        self.end(&newer.txn)
    }

    /// The session of a transaction ends.
    fn end(&mut self, txn: &Txn) -> Result<(), NoMemory>
        ensures { OnOk result (self.new ≡ with_changed self.old txn.now.session (sessions.with_ending (moment_of txn.now) (expires txn.now.cxid))) }
    {
        let life = self.lives.life_of(txn.session);
        let life = life.with_ending(moment_of(txn), expires(txn.cxid));
        self.lives.set(txn.session, life)
    }

    /// The session of a transaction writes.
    fn write(&mut self, txn: &Txn) -> Result<(), NoMemory>
        ensures { OnOk result (self.new ≡ with_changed self.old txn.now.session (with_writes (write_count txn.now.op))) }
    {
        let life = self.lives.life_of(txn.session);
        self.lives
            .set(txn.session, life.with_writes(write_count(&txn.op)))
    }

    /// Follows what a record does to sessions and to ephemeral nodes.
    fn follow_op(&mut self, newer: &NewerRecord) -> Result<(), NoMemory>
        ensures { OnOk result (self.new ≡ after_op newer.now self.old newer.now.txn.op) }
    {
        let session = newer.txn.session;
        match &newer.txn.op {
            Op::Create {
                path,
                ephemeral,
                ..
            } => self.create(path.text(), *ephemeral, session),
            Op::CreateOld {
                path,
                ephemeral,
                ..
            } => self.create(path.text(), *ephemeral, session),
            Op::Delete { path } => self.lose(path.text()),
            Op::OpenSession { timeout } => self.open(&newer.txn, *timeout),
            Op::CloseSession => self.close(newer),
            Op::Multi { parts } => {
                if hold_error(parts.as_slice()) {
                    return Ok(());
                }
                self.follow_parts(session, parts.as_slice())
            }
            Op::SetData { .. } | Op::SetAcl { .. } | Op::Error { .. } => Ok(()),
        }
    }
}

impl RecordFold for Known {
    ghost follows = { Follows };

    fn take(&mut self, newer: &NewerRecord) -> Result<(), NoMemory> {
        self.follow_op(newer)?;
        self.write(&newer.txn)
    }
}
