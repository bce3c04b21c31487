//! The table of access control lists of a snapshot.

ghost use Rattle.std.specs.Prelude.{◌≡◌, IfOk, OnOk, [], map};
ghost use Rattle.zk_state_snapshot.specs.Lists.{is_listed, number_in, number_of, with_list, with_lists};
ghost use Rattle.zk_state_snapshot.specs.StateSnapshots.{placed, table_of};

use crate::lists::{is_open, is_same_list};
use std::alloc::Global;
use zk_acl::{Acl, Acls};
use zk_path::NoMemory;
use zk_snapshot::Access;
use zk_tree::Entry;

/// The number of the list that is open to all, which is in no table.
const OPEN: i64 = -1;

/// The number of a list in a table.
fn number_in(table: &[Access], acl: &[Acl]) -> Option<i64>
    ensures { result ≡ number_in table.now acl.now }
{
    for access in table {
        if is_same_list(access.acl.as_slice(), acl) {
            return Some(access.number);
        }
    }
    None
}

/// Whether nodes can name a list: it is open to all, or in the table.
fn is_listed(table: &[Access], acl: &[Acl]) -> bool
    ensures { result ≡ is_listed table.now acl.now }
{
    is_open(acl) || number_in(table, acl).is_some()
}

/// Adds a list to a table, unless nodes can name it.
fn add_list(table: &mut Vec<Access>, acl: &Acls) -> Result<(), NoMemory>
    ensures { OnOk result (table.new.items ≡ with_list table.old.items acl.now) }
{
    if is_listed(table.as_slice(), acl.as_slice()) {
        return Ok(());
    }
    let number = table.len() as i64 + 1;
    table.push(Access {
        number,
        acl: acl.copy()?,
    })?;
    Ok(())
}

/// The lists of nodes, each once.
pub(crate) fn accesses_of(alloc: Global, entries: &[Entry<'_>]) -> Result<Vec<Access>, NoMemory>
    ensures { IfOk result (λ table. table.items ≡ table_of (map placed entries.now)) }
{
    let mut table = Vec::new(alloc);
    for entry in entries {
        add_list(&mut table, &entry.node.acl)?;
    }
    Ok(table)
}

/// The number by which a node names its list.
pub(crate) fn number_of(table: &[Access], acl: &[Acl]) -> i64
    ensures { result ≡ number_of table.now acl.now }
{
    if is_open(acl) {
        return OPEN;
    }
    match number_in(table, acl) {
        Some(number) => number,
        None => OPEN,
    }
}
