//! The transactions of a directory's logs after a zxid.
ghost use Rattle.std.specs.Prelude.{◌≡◌, ◌++◌, ◌∷◌, [], None, IfOk, OnOk, filter};
ghost use Rattle.zk_commands.specs.Later.{AppendsEntries, AppendsFile, AppendsLog, AppendsLogs, FindsLater, FindsLaterIn, is_later, logs_after};

use std::alloc::Global;
use zk_directory::{Chain, FileEntry, LogFile, Turn, first_log, read_log_file};
use zk_directory_state::{
    DirectoryFault, Folder, HistoryFault, RestoreFault, check_end, history_fault, read_logs,
    slices_of, take_entry,
};
use zk_path::NoMemory;
use zk_table::Txn;

fn push_copy(txns: &mut Vec<Txn>, txn: &Txn) -> Result<(), NoMemory>
    ensures { OnOk result (txns.new.items ≡ txns.old.items ++ txn.now ∷ []) }
{
    txns.push(txn.copy()?)?;
    Ok(())
}

/// Appends the transaction of the next entry, unless an earlier log has it.
#[tactic(auto, using(crate::proofs::Gathered::upto_stays, crate::proofs::Gathered::taken_gathered, crate::proofs::Gathered::skipped_gathered, crate::proofs::Gathered::stopped_gathered, crate::proofs::Gathered::rejected_gathered))]
fn push_entry<'a>(
    txns: &mut Vec<Txn>,
    chain: &mut Chain<'a>,
    entry: &FileEntry<'a>,
) -> Result<(), RestoreFault>
    requires { chain.old.upto ≡ None }
    ensures upto { chain.new.upto ≡ None }
    ensures txns { AppendsEntries (entry.now ∷ []) chain.old txns.old.items chain.new txns.new.items result }
{
    match take_entry(chain, entry)? {
        Turn::Take => push_copy(txns, &entry.newer.txn)?,
        Turn::Skip => {}
        Turn::Stop => {}
    }
    Ok(())
}

/// Appends the transactions of entries.
#[tactic(auto, using(crate::proofs::Gathered::none_gathered, crate::proofs::Gathered::next_gathered, crate::proofs::Gathered::all_gathered, crate::proofs::Gathered::breaks_gathering))]
fn push_entries<'a>(
    txns: &mut Vec<Txn>,
    chain: &mut Chain<'a>,
    entries: &[FileEntry<'a>],
) -> Result<(), RestoreFault>
    requires { chain.old.upto ≡ None }
    ensures upto { chain.new.upto ≡ None }
    ensures txns { AppendsEntries entries.now chain.old txns.old.items chain.new txns.new.items result }
{
    for entry in entries {
        push_entry(txns, chain, entry)?;
    }
    Ok(())
}

/// Appends the transactions of a log.
#[tactic(auto, using(crate::proofs::Gathered::end_gathered, crate::proofs::Gathered::entries_broken))]
fn push_file<'a>(
    txns: &mut Vec<Txn>,
    chain: &mut Chain<'a>,
    file: &LogFile<'a>,
) -> Result<(), RestoreFault>
    requires { chain.old.upto ≡ None }
    ensures upto { chain.new.upto ≡ None }
    ensures txns { AppendsFile file.now chain.old txns.old.items chain.new txns.new.items result }
{
    push_entries(txns, chain, file.entries.as_slice())?;
    check_end(chain, file)
}

/// Appends the transactions of the log of these bytes.
#[tactic(auto, using(crate::proofs::Gathered::log_broken))]
fn push_log<'a>(
    alloc: Global,
    txns: &mut Vec<Txn>,
    chain: &mut Chain<'a>,
    bytes: &'a [u8],
) -> Result<(), RestoreFault>
    requires { chain.old.upto ≡ None }
    ensures upto { chain.new.upto ≡ None }
    ensures txns { AppendsLog bytes.now chain.old txns.old.items chain.new txns.new.items result }
{
    let file = read_log_file(alloc, bytes)?;
    push_file(txns, chain, &file)
}

/// Appends the transactions of these logs.
#[tactic(auto, using(crate::proofs::Gathered::no_log, crate::proofs::Gathered::next_log, crate::proofs::Gathered::all_logs, crate::proofs::Gathered::log_fails))]
fn push_logs<'a>(
    alloc: Global,
    txns: &mut Vec<Txn>,
    chain: &mut Chain<'a>,
    logs: &[&'a [u8]],
) -> Result<(), DirectoryFault>
    requires { chain.old.upto ≡ None }
    ensures { AppendsLogs logs.now chain.old txns.old.items txns.new.items result }
{
    let mut log = 0usize;
    for bytes in logs {
        if let Err(fault) = push_log(alloc, txns, chain, *bytes) {
            return Err(DirectoryFault { log, fault });
        }
        log += 1;
    }
    Ok(())
}

/// Keeps the transactions after this zxid.
#[tactic(auto, using(crate::proofs::Gathered::all_later))]
fn keep_later(txns: &mut Vec<Txn>, zxid: Option<i64>)
    ensures { txns.new.items ≡ filter (is_later zxid) txns.old.items }
{
    if let Some(zxid) = zxid {
        txns.retain(|txn| zxid < txn.zxid);
    }
}

/// The transactions of these logs after a zxid, each once. The logs have these zxids in their
/// names.
#[tactic(auto, using(crate::proofs::Gathered::found_later, crate::proofs::Gathered::breaks_later))]
fn later_of(
    alloc: Global,
    logged: &[i64],
    logs: &[&[u8]],
    zxid: Option<i64>,
) -> Result<Vec<Txn>, HistoryFault>
    ensures { FindsLater logs.now logged.now zxid result }
{
    let mut chain = Chain::new(alloc, zxid, None);
    let mut txns = Vec::new(alloc);
    match push_logs(alloc, &mut txns, &mut chain, logs) {
        Ok(()) => {
            keep_later(&mut txns, zxid);
            Ok(txns)
        }
        Err(failed) => Err(history_fault(failed, 0, logged)),
    }
}

/// The names of the logs in which the transactions after a zxid begin.
fn logs_after(logged: &[i64], zxid: Option<i64>) -> &[i64]
    ensures { result.now ≡ logs_after zxid logged.now }
{
    match zxid {
        Some(zxid) => {
            let first = first_log(logged, zxid);
            &logged[first..]
        }
        None => logged,
    }
}

/// The transactions after a zxid in the logs of a folder that have these zxids in their names.
#[tactic(auto, using(crate::proofs::Gathered::found_in))]
pub(crate) fn later_in<L: Folder>(
    alloc: Global,
    logs: &L,
    logged: &[i64],
    zxid: Option<i64>,
) -> Result<Vec<Txn>, HistoryFault>
    ensures { FindsLaterIn (L.bytes_in logs.now) logged.now zxid result }
{
    let logged = logs_after(logged, zxid);
    let loaded = read_logs(alloc, logs, logged)?;
    let slices = slices_of(alloc, loaded.as_slice())?;
    later_of(alloc, logged, slices.as_slice(), zxid)
}
