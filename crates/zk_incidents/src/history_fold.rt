//! The history of a node.
ghost use Rattle.std.specs.Prelude.{◌≡◌, ◌++◌, [], IfOk, OnOk, filter, map};
ghost use Rattle.std.specs.String.{string_bytes};
ghost use Rattle.zk_incidents.specs.Histories.{AppendsLine, Follows};
ghost use Rattle.zk_incidents.specs.Within.{is_within};

use crate::line::push_line;
use crate::owners::Owners;
use crate::scope::Scope;
use std::alloc::Global;
use zk_newer_records::{NewerRecord, RecordFold};
use zk_path::NoMemory;

/// The history of a node, and of those below it, so far.
#[derive(Drop)]
pub struct History {
    alloc: Global,
    scope: Scope,
    owners: Owners,
    /// A line for each transaction so far that created, changed or deleted one of the nodes.
    pub(crate) text: String,
}

impl History {
    /// No record yet; `owners` are those before the first one.
    pub fn new(alloc: Global, scope: Scope, owners: Owners) -> History
        ensures scope { result.scope ≡ scope }
        ensures owners { result.owners ≡ owners }
        ensures text { string_bytes result.text ≡ [] }
    {
        History {
            alloc,
            scope,
            owners,
            text: String::new(alloc),
        }
    }
}

/// The paths that a scope covers, in order.
pub fn covered<'a>(
    alloc: Global,
    scope: &Scope,
    paths: &[&'a str],
) -> Result<Vec<&'a str>, NoMemory>
    ensures { IfOk result (λ seen. map (λ path. path.now) seen.items ≡ filter (is_within (string_bytes scope.now.root) scope.now.below) (map (λ path. path.now) paths.now)) }
{
    let mut seen = Vec::new(alloc);
    for path in paths {
        if scope.covers(path) {
            seen.push(*path)?;
        }
    }
    Ok(seen)
}

impl RecordFold for History {
    ghost follows = { Follows };

    fn take(&mut self, newer: &NewerRecord) -> Result<(), NoMemory> {
        push_seen(self.alloc, &mut self.text, &self.scope, &self.owners, newer)?;
        self.owners.follow(newer)?;
        Ok(())
    }
}

/// Appends the line of a record, if it creates, changes or deletes a node of the scope.
fn push_seen(
    alloc: Global,
    text: &mut String,
    scope: &Scope,
    owners: &Owners,
    newer: &NewerRecord,
) -> Result<(), NoMemory>
    ensures { OnOk result (AppendsLine (string_bytes scope.now.root) scope.now.below owners.now newer.now (string_bytes text.old) (string_bytes text.new)) }
{
    let touched = owners.touched(newer)?;
    let seen = covered(alloc, scope, touched.as_slice())?;
    push_line(text, scope.below, seen.as_slice(), newer)
}
