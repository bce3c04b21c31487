//! Tests of `zk_table`: the plain table, and calls that no command of `zk` makes. The
//! effects and results of transactions are tested in checks/golden/table.golden, by the table that
//! `zk` runs.

use std::alloc::Global;
use std::fmt::Debug;
use zk_listing::assemble;
use zk_path::{NoMemory, Path};
use zk_table::{Plain, ReadCall, Subs, Txn, TxnResult};

/// Session 7 creates `/a` with null content, as 3.3 servers log it; a multi sets the content; the
/// session is opened.
const TAKEN: &str =
    "0000000000000001 0000000000000007 0 2000 create0 \"/a\" - 2 31 \"world\" \"anyone\" 1 \"world\" \"anyone\" p\n\
    0000000000000002 0000000000000007 0 2000 multi ; setData \"/a\" x6869 9\n\
    0000000000000003 0000000000000007 0 2000 createSession 200\n";

/// Assembles a listing. It has no contract: a proof would hold all facts of what was read.
fn assembled(alloc: Global) -> Result<Vec<Txn>, NoMemory> {
    assemble(alloc, TAKEN).ok().ok_or(NoMemory)
}

/// Returns the result of a transaction, by a copy.
fn apply(table: &mut Plain, txn: &Txn) -> Result<TxnResult, NoMemory> {
    table.apply(txn)?.copy()
}

/// Whether the debug format of a value, field by field, is `shown`.
fn is_shown<T: Debug>(alloc: Global, value: &T, shown: &str) -> bool {
    matches!(format!(in alloc; "{value:?}"), Ok(text) if text.as_str() == shown)
}

const MADE: &str =
    "TxnResult { zxid: 1, err: 0, path: Some(Path { alloc: Global, text: \"/a\" }), stat: None, parts: PartResults { parts: [] } }";

const SET: &str =
    "[PartResult { err: 0, path: Some(Path { alloc: Global, text: \"/a\" }), stat: Some(Stat { czxid: 1, mzxid: 2, ctime: 2000, mtime: 2000, version: 9, cversion: 0, aversion: 0, ephemeral_owner: 0, data_length: 2, num_children: 0, pzxid: 1 }) }]";

const READ: &str =
    "Ok(Content { content: Some(Content { bytes: [104, 105] }), stat: Stat { czxid: 1, mzxid: 2, ctime: 2000, mtime: 2000, version: 9, cversion: 0, aversion: 0, ephemeral_owner: 0, data_length: 2, num_children: 0, pzxid: 1 } })";

/// The paths of the nodes of a new table with their numbers of children, its sessions and its last
/// transaction.
const NEW: &str = "/ 1, /zookeeper 1, /zookeeper/quota 0, [] 0";

const STANDS: &str = "/ 2, /a 0, /zookeeper 1, /zookeeper/quota 0, [(7, 200)] 3";

/// Appends these fields of a table.
fn push_table(text: &mut String, table: &Plain) -> Result<(), NoMemory> {
    for (path, node) in table.nodes() {
        let children = table.stat(path, node).num_children;
        write!(text, "{} {children}, ", path.text())?;
    }
    write!(text, "{:?} {}", table.sessions(), table.last())?;
    Ok(())
}

/// Whether these fields of a table are `shown`.
fn stands(alloc: Global, table: &Plain, shown: &str) -> bool {
    let mut text = String::new(alloc);
    push_table(&mut text, table) == Ok(()) && text.as_str() == shown
}

/// Whether a transaction creates a node, with the expected result.
fn makes(alloc: Global, table: &mut Plain, txn: &Txn) -> Result<bool, NoMemory> {
    let told = apply(table, txn)?;
    Ok(is_shown(alloc, &told, MADE))
}

/// Whether a transaction sets the node's content.
fn sets(alloc: Global, table: &mut Plain, txn: &Txn) -> Result<bool, NoMemory> {
    let told = apply(table, txn)?;
    let err = told.err;
    Ok(is_shown(alloc, &told.parts.into_vec(), SET) && err == 0)
}

/// Whether a read returns the node's content.
fn reads(alloc: Global, table: &Plain) -> bool {
    let Ok(path) = Path::read(alloc, "/a") else {
        return false;
    };
    is_shown(alloc, &table.read(&ReadCall::GetData { path }, &[]), READ)
}

/// Whether a new table applies these transactions, the last without a result, with the expected
/// state before and after.
fn takes(alloc: Global, table: &mut Plain, txns: &[Txn]) -> Result<bool, NoMemory> {
    let [make, set, open] = txns else {
        return Ok(false);
    };
    Ok(
        stands(alloc, table, NEW)
            && makes(alloc, table, make)?
            && sets(alloc, table, set)?
            && table.absorb(open) == Ok(())
            && stands(alloc, table, STANDS)
            && reads(alloc, table),
    )
}

/// Does the same with the transactions of a listing.
fn goes(alloc: Global, table: &mut Plain) -> Result<bool, NoMemory> {
    let txns = assembled(alloc)?;
    takes(alloc, table, txns.as_slice())
}

#[test]
fn parts_are_given_back(rt: HostRuntime) {
    assert!(rt; Subs::new(Vec::new(rt.alloc())).into_vec().is_empty());
}

#[test]
fn plain_table_answers_and_stands(rt: HostRuntime) {
    let mut table = Plain::new(rt.alloc()).expect(&rt, "memory");
    assert_eq!(rt; goes(rt.alloc(), &mut table), Ok(true));
}
