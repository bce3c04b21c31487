//! Creates that no script can request: with flags outside 0 to 3, and below a node whose count of
//! creates is the greatest number.

ghost use Rattle.std.specs.Prelude.{◌≡◌, false};

use std::alloc::Global;
use zk_acl::{Ids, Text};
use zk_listing::{ListCause, assemble, push_line, read_acl};
use zk_machine::Machine;
use zk_prepare::{Call, Prep, Request};
use zk_table::{Content, Txn};

/// A create, by its path, its access control list as in a listing, and its flags; and the prepared
/// operation.
type Row = (&'static str, &'static str, i32, &'static str);

/// The access control list that permits everything to everyone.
const OPEN: &str = "1 31 \"world\" \"anyone\"";

/// The fields of a line before the operation, without the zxid.
const HEADER: &str = "0000000000000000 0000000000000007 3 2000 ";

/// Returns the request of a test case, with empty content.
fn request_of(alloc: Global, row: &Row) -> Result<Request, ListCause> {
    let (path, spelled, flags, _) = *row;
    let mut rest = spelled;
    let acl = read_acl(alloc, &mut rest)?;
    let path = Text::read(alloc, path)?;
    let content = Content::new(alloc, Vec::new(alloc))?;
    Ok(Request::Create {
        path,
        content: Some(content),
        acl,
        flags,
    })
}

/// Returns the call of session 7, without proved identities.
fn call_of(alloc: Global, row: &Row) -> Result<Call, ListCause> {
    let request = request_of(alloc, row)?;
    Ok(Call {
        tag: 1,
        session: 7,
        cxid: 3,
        auths: Ids::new(Vec::new(alloc)),
        now: 2000,
        request,
    })
}

/// Applies the prepared transaction, and appends its line.
fn take(prep: &mut Prep, line: &mut String, txn: &Txn) -> Result<(), ListCause>
    requires { prep.old.failed ≡ false }
{
    push_line(line, txn)?;
    Ok(prep.taken(txn)?)
}

/// Prepares a call, applies its transaction, and appends its line.
fn submit(prep: &mut Prep, line: &mut String, call: &Call, zxid: i64) -> Result<(), ListCause> {
    if prep.has_failed() {
        return Err(ListCause::NoMemory);
    }
    let txn = prep.make(call, zxid)?;
    take(prep, line, &txn)
}

/// Whether a call is prepared to this operation.
fn comes_to(
    alloc: Global,
    prep: &mut Prep,
    call: &Call,
    zxid: i64,
    op: &str,
) -> Result<bool, ListCause> {
    let mut line = String::new(alloc);
    submit(prep, &mut line, call, zxid)?;
    Ok(line.as_str().get(HEADER.len()..) == Some(op))
}

/// Whether a test case holds.
fn is_so(alloc: Global, prep: &mut Prep, row: &Row, zxid: i64) -> Result<bool, ListCause> {
    let call = call_of(alloc, row)?;
    comes_to(alloc, prep, &call, zxid, row.3)
}

/// Whether these test cases hold, one after the other.
fn all_are_so(alloc: Global, prep: &mut Prep, rows: &[Row]) -> Result<bool, ListCause> {
    let mut zxid = 16;
    let mut all = true;
    for row in rows {
        all = is_so(alloc, prep, row, zxid)? && all;
        zxid = zxid.wrapping_add(1);
    }
    Ok(all)
}

/// Returns a leader whose committed machine is in the start state, and whose tail has these
/// transactions.
fn leader_with(alloc: Global, tail: &[Txn]) -> Result<Prep, ListCause> {
    let machine = Machine::new(alloc)?;
    Prep::start(alloc, &machine, tail).map_err(|_| ListCause::NoMemory)
}

/// Assembles a listing.
fn txns_of(alloc: Global, listing: &str) -> Result<Vec<Txn>, ListCause> {
    assemble(alloc, listing).map_err(|fault| fault.cause)
}

/// Returns a leader whose tail is a listing.
fn leader_after(alloc: Global, listing: &str) -> Result<Prep, ListCause> {
    let tail = txns_of(alloc, listing)?;
    leader_with(alloc, &tail)
}

/// Whether these test cases hold for a leader whose tail is a listing.
fn are_so(alloc: Global, listing: &str, rows: &[Row]) -> Result<bool, ListCause> {
    let mut prep = leader_after(alloc, listing)?;
    all_are_so(alloc, &mut prep, rows)
}

/// `/a` has a child; `/r` has one and is read-only.
const TREE: &str = "0000000000000001 0000000000000007 0 1000 createSession 4000\n\
    0000000000000002 0000000000000007 1 1000 create \"/a\" x6869 1 31 \"world\" \"anyone\" p 1\n\
    0000000000000003 0000000000000007 2 1000 create \"/a/b\" x 1 31 \"world\" \"anyone\" p 1\n\
    0000000000000004 0000000000000007 3 1000 create \"/r\" x 1 1 \"world\" \"anyone\" p 2\n\
    0000000000000005 0000000000000007 4 1000 create \"/r/c\" x 1 31 \"world\" \"anyone\" p 1\n";

/// Flags are checked after the parent's permission to create, and before the path.
static OTHER_FLAGS: [Row; 8] = [
    ("x", "0", 9, "error -8\n"),
    ("/x\u{0}", "0", 9, "error -8\n"),
    ("/x/y", "0", 9, "error -114\n"),
    ("/x/y", "1 31 \"ip\" \"10.0.0.1\"", 9, "error -114\n"),
    ("/x/y", OPEN, 9, "error -101\n"),
    ("/r/c", OPEN, 9, "error -102\n"),
    ("/a/b", OPEN, 4, "error -8\n"),
    ("/a/b", OPEN, -1, "error -8\n"),
];

/// Without a session nothing else is checked.
static WITHOUT_SESSION: [Row; 1] = [("x", "0", 9, "error -112\n")];

#[test]
fn refusals_of_creates_come_in_their_order(rt: HostRuntime) {
    assert_eq!(rt; are_so(rt.alloc(), TREE, &OTHER_FLAGS), Ok(true));
    assert_eq!(rt; are_so(rt.alloc(), "", &WITHOUT_SESSION), Ok(true));
}

/// The count of creates below `/w` is 2147483647.
const PARENT: &str = "0000000000000001 0000000000000007 0 1000 createSession 4000\n\
    0000000000000002 0000000000000007 1 1000 create \"/w\" x 1 31 \"world\" \"anyone\" p 1\n\
    0000000000000003 0000000000000007 2 1000 create \"/w/x\" x 1 31 \"world\" \"anyone\" p 2147483647\n";

static WRAPPING: [Row; 3] = [
    (
        "/w/",
        OPEN,
        3,
        "create \"/w/2147483647\" x 1 31 \"world\" \"anyone\" e -2147483648\n",
    ),
    (
        "/w/",
        OPEN,
        3,
        "create \"/w/-2147483648\" x 1 31 \"world\" \"anyone\" e -2147483647\n",
    ),
    (
        "/w/",
        OPEN,
        3,
        "create \"/w/-2147483647\" x 1 31 \"world\" \"anyone\" e -2147483646\n",
    ),
];

#[test]
fn sequential_names_wrap(rt: HostRuntime) {
    assert_eq!(rt; are_so(rt.alloc(), PARENT, &WRAPPING), Ok(true));
}
