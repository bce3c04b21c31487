//! The lines of a node's history.
ghost use Rattle.std.specs.Prelude.{◌≡◌, [], OnOk, map};
ghost use Rattle.std.specs.String.{string_bytes};
ghost use Rattle.zk_json_commands.specs.Histories.{AppendsLine, AppendsLineBy, AppendsRecordHistory, Follows};

use std::alloc::Global;
use zk_incidents::{Owners, Scope, covered, is_expiry, op_word};
use zk_json::push_history_line;
use zk_newer_records::{NewerRecord, RecordFold};
use zk_path::NoMemory;

/// A line for each transaction so far that created, changed or deleted one of the nodes.
#[derive(Drop)]
pub(crate) struct HistoryLines {
    alloc: Global,
    scope: Scope,
    owners: Owners,
    pub(crate) text: String,
}

impl HistoryLines {
    /// No record yet; `owners` are those before the first one.
    pub(crate) fn new(alloc: Global, scope: Scope, owners: Owners) -> HistoryLines
        ensures scope { result.scope ≡ scope }
        ensures owners { result.owners ≡ owners }
        ensures text { string_bytes result.text ≡ [] }
    {
        HistoryLines {
            alloc,
            scope,
            owners,
            text: String::new(alloc),
        }
    }
}

impl RecordFold for HistoryLines {
    ghost follows = { Follows };

    fn take(&mut self, newer: &NewerRecord) -> Result<(), NoMemory> {
        push_seen(self.alloc, &mut self.text, &self.scope, &self.owners, newer)?;
        self.owners.follow(newer)?;
        Ok(())
    }
}

/// Appends the line of a record, if it creates, changes or deletes a node of the scope.
fn push_seen(
    alloc: Global,
    text: &mut String,
    scope: &Scope,
    owners: &Owners,
    newer: &NewerRecord,
) -> Result<(), NoMemory>
    ensures { OnOk result (AppendsLine (string_bytes scope.now.root) scope.now.below owners.now newer.now (string_bytes text.old) (string_bytes text.new)) }
{
    let touched = owners.touched(newer)?;
    let seen = covered(alloc, scope, touched.as_slice())?;
    push_line(text, seen.as_slice(), newer)
}

/// Appends the line of a record that creates, changes or deletes the nodes at these paths; none for
/// no path.
fn push_line(text: &mut String, paths: &[&str], newer: &NewerRecord) -> Result<(), NoMemory>
    ensures { OnOk result (AppendsLineBy (map (λ path. path.now) paths.now) newer.now (string_bytes text.old) (string_bytes text.new)) }
{
    if paths.is_empty() {
        return Ok(());
    }
    push_some(text, paths, newer)
}

/// Appends the line of a record with its kind, and whether it closes an expired session.
fn push_some(text: &mut String, paths: &[&str], newer: &NewerRecord) -> Result<(), NoMemory>
    ensures { OnOk result (AppendsRecordHistory (map (λ path. path.now) paths.now) newer.now (string_bytes text.old) (string_bytes text.new)) }
{
    let txn = &newer.txn;
    let kind = op_word(&txn.op, &newer.form);
    push_history_line(text, paths, kind, is_expiry(txn.cxid, &txn.op), txn)
}
