//! `zk show` of a data directory.
ghost use Rattle.std.specs.Prelude.{◌≡◌, ◌-◌, ◌<◌, ◌^◌, IfOk};
ghost use Rattle.std.specs.String.{string_bytes};
ghost use Rattle.zk_directory_state.specs.Notices.{notices_of};
ghost use Rattle.zk_directory_state.specs.Showing.{TellsShown};
ghost use Rattle.zk_directory_state.specs.Reports.{report_of};
ghost use Rattle.zk_records.specs.Sinks.{write_failures_of};

use crate::history::{Shown, shown_of};
use crate::notices::{Noticed, notices_text, put_with_notices};
use crate::report::report_text;
use crate::upto::Upto;
use crate::{Folder, tell_fault};
use std::alloc::Global;
use std::io::Write;
use zk_log::Sink;
use zk_path::NoMemory;

/// The report of a state, and the notices on it.
fn report_with_notices(alloc: Global, upto: Upto, shown: &Shown) -> Result<Noticed, NoMemory>
    ensures { IfOk result (λ noticed. (string_bytes noticed.text ≡ report_of shown.now) × (string_bytes noticed.notices ≡ notices_of upto shown.now.restored)) }
{
    let text = report_text(alloc, shown)?;
    let notices = notices_text(alloc, upto, &shown.restored)?;
    Ok(Noticed { text, notices })
}

/// Writes the report of the tree that a data directory holds: that of the first folder's
/// snapshots and the second folder's logs. What the tree rests on beyond the files is a notice on
/// standard error. Returns the exit status.
pub fn show<S: Folder, L: Folder, O: Write, E: Write>(
    alloc: Global,
    snapshots: &S,
    logs: &L,
    upto: Upto,
    output: &mut Sink<O>,
    faults: &mut Sink<E>,
) -> Result<u8, NoMemory>
    requires output { write_failures_of output.old < 2 ^ 64 - 1 }
    requires faults { write_failures_of faults.old < 2 ^ 64 - 1 }
    ensures { TellsShown O.contents E.contents (S.names_in snapshots.now) (S.bytes_in snapshots.now)
        (L.names_in logs.now) (L.bytes_in logs.now) upto output.old output.new faults.old faults.new result }
{
    match shown_of(alloc, snapshots, logs, upto) {
        Ok(shown) => {
            let Noticed { text, notices } = report_with_notices(alloc, upto, &shown)?;
            Ok(put_with_notices(text.as_str(), notices.as_str(), output, faults))
        }
        Err(fault) => tell_fault(alloc, &fault, faults),
    }
}
