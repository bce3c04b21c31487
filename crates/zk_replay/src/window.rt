//! A record of a window.

ghost use Rattle.std.specs.Prelude.{◌≡◌, OnOk};
ghost use Rattle.zk_replay.specs.Rules.{nodes_replayed, sessions_replayed};

use crate::rules::{apply_parts, close, create, delete, set_acl, set_data};
use crate::{Draft, DraftNodes};
use zk_fold::Sessions;
use zk_newer_records::NewerRecord;
use zk_path::NoMemory;
use zk_table::{Node, Op, Txn, hold_error};

/// Replays the effect of a record on the nodes.
fn replay_nodes(drafts: &mut DraftNodes, newer: &NewerRecord) -> Result<(), NoMemory>
    ensures { OnOk result (drafts.new ≡ nodes_replayed drafts.old newer.now) }
{
    let txn = &newer.txn;
    match &txn.op {
        Op::Create {
            path,
            content,
            acl,
            ephemeral,
            count,
        } => {
            let node = Node::created(txn, content, acl, *ephemeral)?;
            create(drafts, txn.zxid, path, node, *count)
        }
        Op::CreateOld {
            path,
            content,
            acl,
            ephemeral,
        } => {
            let node = Node::created(txn, content, acl, *ephemeral)?;
            create(drafts, txn.zxid, path, node, -1)
        }
        Op::Delete { path } => delete(drafts, txn.zxid, path),
        Op::SetData {
            path,
            content,
            version,
        } => set_data(drafts, txn, path, content, *version),
        Op::SetAcl { path, acl, version } => set_acl(drafts, path, acl, *version),
        Op::CloseSession => close(drafts, txn, newer.listed()),
        Op::Multi { parts } => {
            if hold_error(parts.as_slice()) {
                return Ok(());
            }
            apply_parts(drafts, txn, parts.as_slice())
        }
        Op::OpenSession { .. } | Op::Error { .. } => Ok(()),
    }
}

/// Replays the effect of a transaction on the sessions.
fn replay_sessions(sessions: &mut Sessions, txn: &Txn) -> Result<(), NoMemory>
    ensures { OnOk result (sessions.new ≡ sessions_replayed sessions.old txn.now) }
{
    match &txn.op {
        Op::OpenSession { timeout } => sessions.open(txn.session.cast_unsigned(), *timeout),
        Op::CloseSession => {
            sessions.close(txn.session.cast_unsigned());
            Ok(())
        }
        _ => Ok(()),
    }
}

/// Replays a record of a snapshot's window on the snapshot's draft. After [`NoMemory`] the draft
/// must not be used.
pub fn replay(draft: &mut Draft, newer: &NewerRecord) -> Result<(), NoMemory>
    ensures nodes { OnOk result (draft.new.nodes ≡ nodes_replayed draft.old.nodes newer.now) }
    ensures sessions { OnOk result (draft.new.sessions ≡ sessions_replayed draft.old.sessions newer.now.txn) }
{
    replay_nodes(&mut draft.nodes, newer)?;
    replay_sessions(&mut draft.sessions, &newer.txn)
}
