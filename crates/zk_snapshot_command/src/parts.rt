//! The bytes of a snapshot, a part at a time.
ghost use Rattle.std.specs.Prelude.{◌≡◌, ◌-◌, ◌<◌, ◌^◌, take, drop, OnOk};
ghost use Rattle.zk_records.specs.Sinks.{write_failures_of};
ghost use Rattle.zk_snapshot_command.specs.Parts.{Puts};

use crate::part_fault::PartFault;
use std::alloc::Global;
use std::io::Write;
use zk_log::Sink;
use zk_snapshot_writer::SnapshotWriter;

/// The most bytes that are encoded before they are written.
const PART: usize = 65_536;

/// Writes the next part, in place of the bytes of `part`.
fn put_part<O: Write>(
    writer: &mut SnapshotWriter,
    part: &mut Vec<u8>,
    output: &mut Sink<O>,
) -> Result<(), PartFault>
    requires { write_failures_of output.old < 2 ^ 64 - 1 }
    ensures written { Puts O.contents output.old (take 65536 writer.old) result output.new }
    ensures rest { OnOk result (writer.new ≡ drop 65536 writer.old) }
{
    part.clear();
    if writer.write_some(part, PART).is_err() {
        return Err(PartFault::NoMemory);
    }
    match output.write_all(part.as_slice()) {
        Ok(()) => Ok(()),
        Err(_) => Err(PartFault::Write),
    }
}

/// Writes all bytes that are left of a snapshot.
pub(crate) fn put_parts<O: Write>(
    alloc: Global,
    writer: SnapshotWriter,
    output: &mut Sink<O>,
) -> Result<(), PartFault>
    requires { write_failures_of output.old < 2 ^ 64 - 1 }
    ensures { Puts O.contents output.old writer result output.new }
{
    let mut writer = writer;
    let mut part = Vec::new(alloc);
    while !writer.is_done() {
        put_part(&mut writer, &mut part, output)?;
    }
    Ok(())
}
