//! The notice on a log that starts in the middle of a history.
ghost use Rattle.std.specs.Prelude.{◌≡◌, ◌⊎◌, ◌-◌, ◌<◌, ◌^◌, ◌==◌, IfOk, IsOk, IsSome};
ghost use Rattle.std.specs.String.{string_bytes};
ghost use Rattle.zk_directory.specs.Continuing.{counter_of};
ghost use Rattle.zk_log_commands.specs.Notices.{first_zxid, notice_line, or_zxid, within_epoch};
ghost use Rattle.zk_log_commands.specs.Telling.{EndsNoted, OutputsNoted};
ghost use Rattle.zk_records.specs.Sinks.{write_failures_of};

use crate::telling::tell;
use std::alloc::Global;
use std::io::Write;
use zk_format::push_id;
use zk_log::Sink;
use zk_path::NoMemory;
use zk_table::Txn;

/// The number of zxids in an epoch.
const EPOCH: u64 = 4_294_967_296;

/// Writes the notice on a log with this first zxid, if its transaction is not the first of an
/// epoch. Returns the exit status, 0.
pub fn tell_notice<E: Write>(
    alloc: Global,
    first: Option<i64>,
    faults: &mut Sink<E>,
) -> Result<u8, NoMemory>
    requires { write_failures_of faults.old < 2 ^ 64 - 1 }
    ensures { EndsNoted E.contents (within_epoch first) faults.old faults.new result }
{
    let Some(first) = within_epoch(first) else {
        return Ok(0);
    };
    let line = notice_line(alloc, first)?;
    tell(faults, line.as_str());
    Ok(0)
}

/// Writes a text, and then the notice on a log with this first zxid. Returns the exit status.
#[tactic(auto, using(crate::proofs::TellingLaws::noted, crate::proofs::TellingLaws::spared))]
pub(crate) fn put_noted<O: Write, E: Write>(
    alloc: Global,
    text: &str,
    first: Option<i64>,
    output: &mut Sink<O>,
    faults: &mut Sink<E>,
) -> Result<u8, NoMemory>
    requires output { write_failures_of output.old < 2 ^ 64 - 1 }
    requires faults { write_failures_of faults.old < 2 ^ 64 - 1 }
    ensures noted { OutputsNoted O.contents E.contents text.now (within_epoch first) output.old output.new
        faults.old faults.new result }
    ensures sparing { IsOk result ⊎ IsSome (within_epoch first) }
{
    match output.write_all(text.as_bytes()) {
        Ok(()) => tell_notice(alloc, first, faults),
        Err(_) => {
            tell(faults, "zk: write\n");
            Ok(1)
        }
    }
}

/// The zxid of the first transaction.
pub fn first_zxid(txns: &[Txn]) -> Option<i64>
    ensures { result ≡ first_zxid txns.now }
{
    let [txn, ..] = txns else {
        return None;
    };
    Some(txn.zxid)
}

/// The first zxid, with one more transaction.
pub(crate) fn or_zxid(first: Option<i64>, zxid: i64) -> Option<i64>
    ensures { result ≡ or_zxid first zxid }
{
    match first {
        None => Some(zxid),
        Some(first) => Some(first),
    }
}

/// The zxid, unless its transaction is the first of an epoch.
fn within_epoch(first: Option<i64>) -> Option<i64>
    ensures { result ≡ within_epoch first }
{
    let zxid = first?;
    if is_first(zxid) {
        return None;
    }
    Some(zxid)
}

/// Whether a transaction is the first of an epoch.
fn is_first(zxid: i64) -> bool
    ensures { result ≡ (counter_of zxid == 1) }
{
    zxid.cast_unsigned() % EPOCH == 1
}

#[tactic(auto, unfolding(crate::specs::Notices::notice_line))]
fn notice_line(alloc: Global, first: i64) -> Result<String, NoMemory>
    ensures { IfOk result (λ line. string_bytes line ≡ notice_line first) }
{
    let mut line = String::from_str(alloc, "zk: begins ")?;
    push_id(&mut line, first)?;
    line.push_str("\n")?;
    Ok(line)
}
