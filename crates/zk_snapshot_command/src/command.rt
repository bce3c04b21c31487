//! What is written of a snapshot.
ghost use Rattle.std.specs.Prelude.{◌-◌, ◌<◌, ◌^◌};
ghost use Rattle.std.specs.FinMap as finite;
ghost use Rattle.zk_directory_state.specs.Notices.{OutputsWith, TellsNotices, notices_of};
ghost use Rattle.zk_records.specs.Sinks.{write_failures_of};
ghost use Rattle.zk_snapshot_command.specs.SnapshotCommands.{OutputsSnapshot, TellsSnapshot};
ghost use Rattle.zk_stored_owners.specs.StoredOwners.{snapshot_with};

use crate::part_fault::PartFault;
use crate::parts::put_parts;
use crate::stored_owners::owners_in;
use std::alloc::Global;
use std::io::Write;
use zk_directory_state::{Folder, Restored, Upto, notices_text, shown_of, tell_fault};
use zk_log::Sink;
use zk_log_commands::tell;
use zk_path::NoMemory;
use zk_snapshot_writer::{SnapshotWriter, WriterFault};
use zk_stored_owners::{Owners, stored_snapshot};

/// Writes notices, if there are any.
fn tell_notices<E: Write>(notices: &str, faults: &mut Sink<E>)
    requires { write_failures_of faults.old < 2 ^ 64 - 1 }
    ensures { TellsNotices E.contents notices.now faults.old faults.new }
{
    if !notices.is_empty() {
        tell(faults, notices);
    }
}

/// Writes all bytes of a snapshot, and then the notices on its state. Returns the exit status.
fn put_bytes<O: Write, E: Write>(
    alloc: Global,
    writer: SnapshotWriter,
    notices: &str,
    output: &mut Sink<O>,
    faults: &mut Sink<E>,
) -> Result<u8, NoMemory>
    requires output { write_failures_of output.old < 2 ^ 64 - 1 }
    requires faults { write_failures_of faults.old < 2 ^ 64 - 1 }
    ensures { OutputsWith O.contents E.contents writer notices.now output.old output.new faults.old faults.new result }
{
    match put_parts(alloc, writer, output) {
        Ok(()) => {
            tell_notices(notices, faults);
            Ok(0)
        }
        Err(PartFault::Write) => {
            tell(faults, "zk: write\n");
            Ok(1)
        }
        Err(PartFault::NoMemory) => Err(NoMemory),
    }
}

/// Writes the snapshot of a state, whose nodes have these owners, or else their own; and then the
/// notices on it. Returns the exit status.
fn put_state<O: Write, E: Write>(
    alloc: Global,
    upto: Upto,
    restored: &Restored,
    owners: &Owners,
    output: &mut Sink<O>,
    faults: &mut Sink<E>,
) -> Result<u8, NoMemory>
    requires output { write_failures_of output.old < 2 ^ 64 - 1 }
    requires faults { write_failures_of faults.old < 2 ^ 64 - 1 }
    ensures { OutputsSnapshot O.contents E.contents (snapshot_with (finite.get owners.now) restored.now.table.state)
        (notices_of upto restored.now) output.old output.new faults.old faults.new result }
{
    let notices = notices_text(alloc, upto, restored)?;
    let snapshot = stored_snapshot(alloc, &restored.table, owners)?;
    match SnapshotWriter::new(alloc, snapshot) {
        Ok(writer) => put_bytes(alloc, writer, notices.as_str(), output, faults),
        Err(WriterFault::Long) => {
            tell(faults, "zk: long\n");
            Ok(1)
        }
        Err(WriterFault::NoMemory) => Err(NoMemory),
    }
}

/// Writes the snapshot of the state that a data directory holds up to a transaction: that of the
/// first folder's snapshots and the second folder's logs, as `zk show` prints it. What the state rests
/// on beyond the files is a notice on standard error. Returns the exit status.
///
/// Containers and nodes with a time to live have the owners that a server stores. For these the files
/// are read again.
///
/// Nothing is written before the state is proved and its snapshot encoded as far as the first part.
/// The bytes are written in parts of at most 65,536.
#[tactic(auto, using(crate::proofs::Rereading::base_read))]
pub fn write_snapshot<S: Folder, L: Folder, O: Write, E: Write>(
    alloc: Global,
    snapshots: &S,
    logs: &L,
    upto: Upto,
    output: &mut Sink<O>,
    faults: &mut Sink<E>,
) -> Result<u8, NoMemory>
    requires output { write_failures_of output.old < 2 ^ 64 - 1 }
    requires faults { write_failures_of faults.old < 2 ^ 64 - 1 }
    ensures { TellsSnapshot O.contents E.contents (S.names_in snapshots.now) (S.bytes_in snapshots.now)
        (L.names_in logs.now) (L.bytes_in logs.now) upto output.old output.new faults.old faults.new result }
{
    let shown = match shown_of(alloc, snapshots, logs, upto) {
        Ok(shown) => shown,
        Err(fault) => return tell_fault(alloc, &fault, faults),
    };
    match owners_in(alloc, snapshots, logs, &shown) {
        Ok(owners) => put_state(alloc, upto, &shown.restored, &owners, output, faults),
        Err(fault) => tell_fault(alloc, &fault, faults),
    }
}
