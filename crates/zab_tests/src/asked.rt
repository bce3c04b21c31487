//! Entries, histories and messages, and the preconditions of calls of histories and servers, as
//! tests.

ghost use Rattle.std.specs.Prelude.{◌≡◌, true};
ghost use Rattle.zab_epoch.specs.Shortness.{IsShort};
ghost use Rattle.zab_broadcast.specs.Echoes.{echo_of};
ghost use Rattle.zab_broadcast.specs.Guards.{EndsBelow};

use std::alloc::Global;
use std::fmt::Debug;
use zab_broadcast::{Primary, Server, next_zxid};
use zab_epoch::{Entry, History, Messages};
use zk_path::NoMemory;
use zk_records::size;
use zk_table::{Op, Txn};

/// Returns the entry of a call that has only a tag: it changes nothing.
pub(crate) fn entry(tag: u64, zxid: i64) -> Entry
    ensures { result ≡ echo_of tag zxid }
{
    Entry {
        tag,
        txn: Txn {
            session: 0,
            cxid: 0,
            zxid,
            time: 0,
            op: Op::Error { code: 0 },
        },
    }
}

/// Whether a server's history ends below the zxid of its next entry.
pub(crate) fn ends_below<P: Primary>(server: &Server<P>) -> bool
    ensures { result ≡ true → EndsBelow server.now }
{
    let state = server.state();
    match next_zxid(state.peer.stable.promised, state.made) {
        Some(zxid) => state.peer.stable.history.last_zxid() < zxid,
        None => true,
    }
}

/// Whether an entry's record has at most 16,777,216 bytes.
pub(crate) fn is_short(entry: &Entry) -> bool
    ensures { result ≡ true → IsShort entry.now }
{
    size(&entry.txn) <= 16_777_216
}

/// Appends an entry, if its zxid is above the last.
pub(crate) fn push(history: &mut History, entry: Entry) -> Result<(), NoMemory> {
    if history.last_zxid() < entry.txn.zxid && is_short(&entry) {
        return history.push(entry);
    }
    Err(NoMemory)
}

/// Appends entries that change nothing, with these zxids.
fn push_all(history: &mut History, zxids: &[i64]) -> Result<(), NoMemory> {
    for zxid in zxids {
        push(history, entry(0, *zxid))?;
    }
    Ok(())
}

/// Returns a history with these zxids, which are positive and increasing.
pub(crate) fn history_of(alloc: Global, zxids: &[i64]) -> Result<History, NoMemory> {
    let mut history = History::new(alloc);
    push_all(&mut history, zxids)?;
    Ok(history)
}

/// Whether a history has these zxids.
pub(crate) fn has_zxids(history: &History, zxids: &[i64]) -> bool {
    if history.len() != zxids.len() {
        return false;
    }
    for index in 0..zxids.len() {
        match history.copy_at(index) {
            Ok(entry) if entry.txn.zxid == zxids[index] => {}
            _ => return false,
        }
    }
    true
}

/// Whether messages are these in debug format.
pub(crate) fn are_shown<C: Debug + Drop>(
    alloc: Global,
    messages: &Messages<C>,
    shown: &str,
) -> bool {
    matches!(format!(in alloc; "{:?}", messages.as_slice()), Ok(text) if text.as_str() == shown)
}
