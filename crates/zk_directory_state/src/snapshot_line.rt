//! The line of a snapshot.
ghost use Rattle.std.specs.Prelude.{◌≡◌, ◌++◌, ◌∷◌, ◌^◌, ◌<◌, OnOk};
ghost use Rattle.std.specs.String.{string_bytes};
ghost use Rattle.zk_directory_state.specs.Files.{contents_text, exact_text, fault_word, rejected_text, snapshot_line};

use crate::names::push_snapshot_name;
use std::alloc::Global;
use zk_format::push_id;
use zk_path::NoMemory;
use zk_replay::{Exact, exact_from};
use zk_snapshot::{Snapshot, SnapshotFault, read_snapshot};

/// Appends the line of the snapshot of this zxid, with these bytes: its name, the number of its
/// nodes and sessions, and the zxid from which a replay is exact; or why it is rejected.
pub fn push_snapshot_line(text: &mut String, zxid: i64, bytes: &[u8]) -> Result<(), NoMemory>
    ensures { OnOk result (string_bytes text.new ≡ string_bytes text.old ++ snapshot_line zxid bytes.now) }
{
    let alloc: Global = *text.allocator();
    push_snapshot_name(text, zxid)?;
    match read_snapshot(alloc, bytes) {
        Ok(snapshot) => {
            push_contents(text, zxid, &snapshot)?;
            Ok(())
        }
        Err(SnapshotFault::NoMemory) => Err(NoMemory),
        Err(fault) => push_rejected(text, fault),
    }
}

/// Appends the numbers of nodes and sessions, and from which zxid on a replay is exact.
#[tactic(auto, unfolding(crate::specs::Files::contents_text))]
fn push_contents(text: &mut String, zxid: i64, snapshot: &Snapshot) -> Result<(), NoMemory>
    ensures { OnOk result (string_bytes text.new ≡ string_bytes text.old ++ contents_text zxid snapshot.now) }
{
    let nodes = snapshot.contents.nodes.as_slice().len();
    let sessions = snapshot.contents.leases.as_slice().len();
    write!(text, " nodes {nodes} sessions {sessions} exact ")?;
    push_exact(text, exact_from(snapshot, zxid))?;
    Ok(())
}

fn push_exact(text: &mut String, exact: Exact) -> Result<(), NoMemory>
    ensures { OnOk result (string_bytes text.new ≡ string_bytes text.old ++ exact_text exact) }
{
    push_id(text, exact.zxid)?;
    if exact.is_told {
        text.push_str("\n")?;
    } else {
        text.push_str(" or later\n")?;
    }
    Ok(())
}

fn push_rejected(text: &mut String, fault: SnapshotFault) -> Result<(), NoMemory>
    ensures { OnOk result (string_bytes text.new ≡ string_bytes text.old ++ rejected_text fault) }
{
    text.push_str(" ")?;
    text.push_str(fault_word(fault))?;
    text.push_str("\n")?;
    Ok(())
}

/// The name of a fault.
pub fn fault_word(fault: SnapshotFault) -> &'static str
    ensures { result.now ≡ fault_word fault }
{
    match fault {
        SnapshotFault::Header => "S1",
        SnapshotFault::Short => "S2",
        SnapshotFault::Field => "S3",
        SnapshotFault::Checksum => "S4",
        SnapshotFault::Trailing => "S5",
        SnapshotFault::Compressed => "S6",
        SnapshotFault::NoMemory => "G8",
    }
}
