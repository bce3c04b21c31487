//! What a session did.
ghost use Rattle.std.specs.Prelude.{◌≡◌, [], IfOk, OnOk, map};
ghost use Rattle.std.specs.String.{string_bytes};
ghost use Rattle.zk_incidents.specs.Owners.{touched};
ghost use Rattle.zk_session_commands.specs.SessionLives.{Follows, IsFormedLine, IsLifeLine, IsLineBy, IsSessionText, is_of};
ghost use Rattle.zk_session_lines.specs.Appending.{Appends};
ghost use Rattle.zk_sessions.specs.Lives.{found};

use crate::asked_session::AskedSession;
use crate::touched_nodes::touched;
use std::alloc::Global;
use zk_incidents::{is_expiry, op_word};
use zk_json::push_history_line;
use zk_newer_records::{NewerRecord, RecordFold};
use zk_path::NoMemory;
use zk_session_lines::{LineForm, push_formed_row, push_record_line};
use zk_sessions::{Ephemerals, Known, Session};
use zk_table::Txn;

/// The transactions of a session so far.
#[derive(Drop)]
pub(crate) struct SessionLife {
    alloc: Global,
    asked: AskedSession,
    pub(crate) known: Known,
    /// A line for each transaction.
    pub(crate) text: String,
}

impl SessionLife {
    /// No record yet; `known` is what holds before the first one.
    pub(crate) fn new(alloc: Global, asked: AskedSession, known: Known) -> SessionLife
        ensures asked { result.asked ≡ asked }
        ensures known { result.known ≡ known }
        ensures text { string_bytes result.text ≡ [] }
    {
        SessionLife {
            alloc,
            asked,
            known,
            text: String::new(alloc),
        }
    }
}

impl RecordFold for SessionLife {
    ghost follows = { Follows };

    fn take(&mut self, newer: &NewerRecord) -> Result<(), NoMemory> {
        push_life_line(
            self.alloc,
            &mut self.text,
            &self.asked,
            &self.known.owners,
            newer,
        )?;
        self.known.take(newer)
    }
}

/// Whether a record is a transaction of the session.
fn is_of(asked: &AskedSession, newer: &NewerRecord) -> bool
    ensures { result ≡ is_of asked.now.session newer.now }
{
    newer.txn.session == asked.session
}

/// Appends the line of a record, if it is a transaction of the session.
#[tactic(auto, using(crate::proofs::Lived::no_life_line, crate::proofs::Lived::life_line))]
fn push_life_line(
    alloc: Global,
    text: &mut String,
    asked: &AskedSession,
    owners: &Ephemerals,
    newer: &NewerRecord,
) -> Result<(), NoMemory>
    ensures { OnOk result (Appends (IsLifeLine asked.now.form asked.now.session owners.now newer.now) (string_bytes text.old) (string_bytes text.new)) }
{
    if !is_of(asked, newer) {
        return Ok(());
    }
    push_own_line(alloc, text, asked.form, owners, newer)
}

/// Appends the line of a record.
fn push_own_line(
    alloc: Global,
    text: &mut String,
    form: LineForm,
    owners: &Ephemerals,
    newer: &NewerRecord,
) -> Result<(), NoMemory>
    ensures { OnOk result (Appends (IsFormedLine form (touched owners.now newer.now) newer.now) (string_bytes text.old) (string_bytes text.new)) }
{
    let paths = touched(alloc, owners, newer)?;
    push_formed_line(text, form, paths.as_slice(), newer)
}

/// Appends the line of a record that touches the nodes at these paths.
fn push_formed_line(
    text: &mut String,
    form: LineForm,
    paths: &[&str],
    newer: &NewerRecord,
) -> Result<(), NoMemory>
    ensures { OnOk result (Appends (IsFormedLine form (map (λ path. path.now) paths.now) newer.now) (string_bytes text.old) (string_bytes text.new)) }
{
    let txn = &newer.txn;
    let kind = op_word(&txn.op, &newer.form);
    push_line(text, form, paths, kind, is_expiry(txn.cxid, &txn.op), txn)
}

/// Appends the line of a transaction, by the word of its operation and the nodes at these paths.
fn push_line(
    text: &mut String,
    form: LineForm,
    paths: &[&str],
    kind: &str,
    expired: bool,
    txn: &Txn,
) -> Result<(), NoMemory>
    ensures { OnOk result (Appends (IsLineBy form (map (λ path. path.now) paths.now) kind.now expired txn.now) (string_bytes text.old) (string_bytes text.new)) }
{
    match form {
        LineForm::Text => push_record_line(text, paths, kind, expired, txn),
        LineForm::Json => push_history_line(text, paths, kind, expired, txn),
    }
}

/// What is known of the session; `None` if no file has it.
pub(crate) fn life_of(known: &Known, asked: AskedSession) -> Option<Session>
    ensures { result ≡ found known.now.lives asked.session }
{
    known.lives.get(asked.session)
}

/// The line of the session, of which this is known, and those of its transactions; empty if no file
/// has the session.
pub(crate) fn session_text(
    alloc: Global,
    asked: AskedSession,
    life: Option<Session>,
    lines: &str,
) -> Result<String, NoMemory>
    ensures { IfOk result (λ text. IsSessionText asked.form asked.session life lines.now (string_bytes text)) }
{
    let Some(life) = life else {
        return Ok(String::new(alloc));
    };
    let mut text = String::new(alloc);
    push_formed_row(&mut text, asked.form, asked.session, life)?;
    text.push_str(lines)?;
    Ok(text)
}
