//! Transactions that find their work done: the nodes were seen after them.

ghost use Rattle.std.specs.Prelude.{◌≡◌, ◌||◌, IfOk, OnOk};
ghost use Rattle.std.specs.List.{list_any};
ghost use Rattle.zk_path.specs.Paths.{parent_of};
ghost use Rattle.zk_newer_records.specs.NewerRecords.{listed_of};
ghost use Rattle.zk_replay.specs.Rules.{apply_part, apply_parts, nodes_replayed, sessions_replayed};
ghost use Rattle.zk_replay.specs.Windows.{acl_is_set, create_is_done, data_is_set, is_done, is_missing, lacks_parent, one_is_done, part_is_done, some_part_is_done};

use crate::rules::apply_part;
use crate::window::replay;
use crate::{Draft, DraftNodes};
use zk_newer_records::NewerRecord;
use zk_path::{NoMemory, Path};
use zk_table::{Op, Sub, Txn, hold_error};

fn is_missing(drafts: &DraftNodes, path: &Path) -> bool
    ensures { result ≡ is_missing drafts.now path.now }
{
    !drafts.contains(path.text())
}

fn lacks_parent(drafts: &DraftNodes, path: &Path) -> bool
    ensures { result ≡ lacks_parent drafts.now (parent_of path.now) }
{
    match path.parent() {
        Some(above) => !drafts.contains(above),
        None => false,
    }
}

/// Whether a create finds the node, or its parent deleted.
fn create_is_done(drafts: &DraftNodes, path: &Path) -> bool
    ensures { result ≡ create_is_done drafts.now path.now }
{
    drafts.contains(path.text()) || lacks_parent(drafts, path)
}

/// Whether a setData finds its version or a later one, or the node deleted.
fn data_is_set(drafts: &DraftNodes, path: &Path, version: i32) -> bool
    ensures { result ≡ data_is_set drafts.now path.now version }
{
    match drafts.get(path.text()) {
        Some(draft) => version <= draft.node.version,
        None => true,
    }
}

/// Whether a setACL finds its version or a later one, or the node deleted.
fn acl_is_set(drafts: &DraftNodes, path: &Path, version: i32) -> bool
    ensures { result ≡ acl_is_set drafts.now path.now version }
{
    match drafts.get(path.text()) {
        Some(draft) => version <= draft.node.aversion,
        None => true,
    }
}

/// Whether one of the paths has no node.
fn some_is_missing(drafts: &DraftNodes, paths: &[Path]) -> bool
    ensures { result ≡ list_any (is_missing drafts.now) paths.now }
{
    paths.iter().any(|path| is_missing(drafts, path))
}

/// Whether a part of a multi finds its work done.
fn part_is_done(drafts: &DraftNodes, part: &Sub) -> bool
    ensures { result ≡ part_is_done drafts.now part.now }
{
    match part {
        Sub::Create { path, .. } => create_is_done(drafts, path),
        Sub::Delete { path } => is_missing(drafts, path),
        Sub::SetData { path, version, .. } => data_is_set(drafts, path, *version),
        Sub::Check { .. } | Sub::Error { .. } => false,
    }
}

/// Applies a part of a multi. Returns whether it found its work done, or an earlier part did.
fn find_part(
    drafts: &mut DraftNodes,
    txn: &Txn,
    part: &Sub,
    earlier: bool,
) -> Result<bool, NoMemory>
    ensures nodes { OnOk result (drafts.new ≡ apply_part txn.now drafts.old part.now) }
    ensures done { IfOk result (λ done. done ≡ (earlier || part_is_done drafts.old part.now)) }
{
    let done = part_is_done(drafts, part);
    apply_part(drafts, txn, part)?;
    Ok(earlier || done)
}

/// Applies the parts of a multi in order. Returns whether one of them found its work done.
fn find_parts(drafts: &mut DraftNodes, txn: &Txn, parts: &[Sub]) -> Result<bool, NoMemory>
    ensures nodes { OnOk result (drafts.new ≡ apply_parts txn.now drafts.old parts.now) }
    ensures done { IfOk result (λ done. done ≡ some_part_is_done txn.now drafts.old parts.now) }
{
    let mut done = false;
    for part in parts {
        done = find_part(drafts, txn, part, done)?;
    }
    Ok(done)
}

/// Whether a transaction finds its work done; `false` for a multi.
fn one_is_done(drafts: &DraftNodes, newer: &NewerRecord) -> bool
    ensures { result ≡ one_is_done drafts.now (listed_of newer.now) newer.now.txn.op }
{
    match &newer.txn.op {
        Op::Create { path, .. } | Op::CreateOld { path, .. } => create_is_done(drafts, path),
        Op::Delete { path } => is_missing(drafts, path),
        Op::SetData { path, version, .. } => data_is_set(drafts, path, *version),
        Op::SetAcl { path, version, .. } => acl_is_set(drafts, path, *version),
        Op::CloseSession => some_is_missing(drafts, newer.listed()),
        Op::OpenSession { .. } | Op::Multi { .. } | Op::Error { .. } => false,
    }
}

/// Replays a record on the draft, as [`replay`] does. Returns whether it found its work done: then
/// the nodes were seen after it.
pub fn replay_late(draft: &mut Draft, newer: &NewerRecord) -> Result<bool, NoMemory>
    ensures nodes { OnOk result (draft.new.nodes ≡ nodes_replayed draft.old.nodes newer.now) }
    ensures sessions { OnOk result (draft.new.sessions ≡ sessions_replayed draft.old.sessions newer.now.txn) }
    ensures done { IfOk result (λ done. done ≡ is_done draft.old.nodes newer.now) }
{
    match &newer.txn.op {
        Op::Multi { parts } => {
            if hold_error(parts.as_slice()) {
                return Ok(false);
            }
            find_parts(&mut draft.nodes, &newer.txn, parts.as_slice())
        }
        _ => {
            let done = one_is_done(&draft.nodes, newer);
            replay(draft, newer)?;
            Ok(done)
        }
    }
}
