//! The records of a directory's logs, followed.
ghost use Rattle.std.specs.Prelude.{◌≡◌, IfErr, IfOk, OnErr, OnOk, map};
ghost use Rattle.zk_tree_changes.specs.DifferenceReports.{FollowsLogged, FollowsLogs};
ghost use Rattle.zk_tree_changes.specs.Changes.{followed_all};
ghost use Rattle.zk_directory_state.specs.Logs.{AreUnreadLogs};

use crate::LastChanges;
use std::alloc::Global;
use zk_directory::{FileEntry, read_log_file};
use zk_directory_state::{Folder, HistoryFault, logs_in, read_logs, slices_of};
use zk_path::NoMemory;

/// Follows the records of a folder's logs.
#[tactic(auto, using(zk_directory_state::proofs::Unreading::log_names, zk_directory_state::proofs::Unreading::log_file))]
pub(crate) fn follow_logged<L: Folder>(
    alloc: Global,
    logs: &L,
    changes: &mut LastChanges,
) -> Result<(), HistoryFault>
    ensures followed { OnOk result (FollowsLogged (L.names_in logs.now) (L.bytes_in logs.now) changes.old changes.new) }
    ensures unread { IfErr result (λ fault. AreUnreadLogs (L.names_in logs.now) (L.bytes_in logs.now) fault) }
{
    let logged = logs_in(alloc, logs)?;
    let loaded = read_logs(alloc, logs, logged.as_slice())?;
    let slices = slices_of(alloc, loaded.as_slice())?;
    follow_logs(alloc, slices.as_slice(), changes)?;
    Ok(())
}

/// Follows the records of logs, which have these bytes.
#[tactic(auto, using(crate::proofs::Following::next_log, crate::proofs::Following::all_logs))]
fn follow_logs(alloc: Global, logs: &[&[u8]], changes: &mut LastChanges) -> Result<(), NoMemory>
    ensures { OnOk result (FollowsLogs logs.now changes.old changes.new) }
{
    for bytes in logs {
        let file = read_log_file(alloc, *bytes)?;
        follow_entries(changes, file.entries.as_slice())?;
    }
    Ok(())
}

/// Follows the records of a log's entries.
fn follow_entries(changes: &mut LastChanges, entries: &[FileEntry<'_>]) -> Result<(), NoMemory>
    ensures { OnOk result (changes.new ≡ followed_all changes.old (map (λ entry. entry.newer) entries.now)) }
{
    for entry in entries {
        changes.follow(&entry.newer)?;
    }
    Ok(())
}
