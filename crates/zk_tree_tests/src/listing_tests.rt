//! Listings that no log has, copies of transactions, and where readers of fields leave their input.
use std::alloc::Global;
use zk_listing::{
    ListCause, ListFault, assemble, list, push_line, read_acl, read_content, read_id, read_int,
    read_long, read_path, read_quoted,
};
use zk_path::{NoMemory, Path};
use zk_table::Txn;

// The cost of a test's proof grows steeply with its exits: a test only asserts, and helpers do what
// can fail.

/// Each operation and each part, with fields at the ends of their ranges, and escaped characters.
/// No log has zxid 0 or decreasing zxids.
const ALL_WORDS: &str =
    "7fffffffffffffff 8000000000000000 -2147483648 -9223372036854775808 delete \"/\\\"\\\\ é\"\n\
    0000000000000000 ffffffffffffffff 2147483647 9223372036854775807 setData \"/a\" x00ff -1\n\
    0000000000000001 0000000000000000 0 0 setACL \"/a\" 2 -1 \"\\u{0}\\u{1f}\" \"\\u{7f}\\u{a}\" 0 \"\" \"b c\" 7\n\
    0000000000000002 0000000000000000 0 0 error -110\n\
    0000000000000003 0000000000000000 0 0 setACL \"/\" 0 0\n\
    0000000000000004 0000000000000000 0 0 multi\n\
    0000000000000005 0000000000000000 0 0 multi ; check \"/a\" 3 ; setData \"/a\" - 1 \
    ; error -2 ; create \"/e\" - 0 e -1\n\
    0000000000000006 0000000000000000 0 0 create0 \"/o\" - 0 e\n\
    0000000000000007 0000000000000000 0 0 create0 \"/a\" x6869 1 31 \"world\" \"anyone\" p\n\
    0000000100000001 0100000000000001 0 1000 createSession 30000\n\
    0000000100000002 0100000000000001 1 2000 create \"/a\" x6869 1 31 \"world\" \"anyone\" p 1\n\
    0000000100000003 0100000000000001 2 3000 closeSession\n\
    0000000100000004 0100000000000001 2 3000 multi ; create \"/t\" - 1 31 \"world\" \"anyone\" p 2 ; delete \"/t\"\n\
    0000000100000005 0100000000000001 3 4000 create \"/a\" x 1 31 \"world\" \"anyone\" p 3\n";

/// Assembles a listing. It has no contract: a proof would hold all facts of what was read.
fn read(alloc: Global, text: &str) -> Result<Vec<Txn>, ListFault> {
    assemble(alloc, text)
}

/// Returns the listing of the transactions that a listing assembles to.
fn listed(alloc: Global, text: &str) -> Option<String> {
    let txns = read(alloc, text).ok()?;
    list(alloc, txns.as_slice()).ok()
}

fn is_text(told: &Option<String>, text: &str) -> bool {
    matches!(told, Some(told) if told.as_str() == text)
}

/// Whether assembling a listing and listing the result returns the same text.
fn is_listed_back(alloc: Global, text: &str) -> bool {
    is_text(&listed(alloc, text), text)
}

#[test]
fn listings_assemble_and_list_back(rt: HostRuntime) {
    for text in ["", ALL_WORDS] {
        assert!(rt; is_listed_back(rt.alloc(), text));
    }
}

/// Appends the line of a transaction's copy.
fn push_copy(text: &mut String, txn: &Txn) -> Result<(), NoMemory> {
    push_line(text, &txn.copy()?)
}

/// Appends the lines of copies.
fn push_copies(text: &mut String, txns: &[Txn]) -> Result<(), NoMemory> {
    for txn in txns {
        push_copy(text, txn)?;
    }
    Ok(())
}

/// Whether the copies of transactions have these lines.
fn have_copies(txns: &[Txn], text: &str, mut lines: String) -> bool {
    push_copies(&mut lines, txns).is_ok() && lines.as_str() == text
}

/// Does the same with transactions that were read.
fn has_copies(alloc: Global, read: &Result<Vec<Txn>, ListFault>, text: &str) -> bool {
    match read {
        Ok(txns) => have_copies(txns.as_slice(), text, String::new(alloc)),
        Err(_) => false,
    }
}

/// Whether the copies of a listing's transactions have its lines.
fn is_copied(alloc: Global, text: &str) -> bool {
    has_copies(alloc, &read(alloc, text), text)
}

#[test]
fn copies_have_the_same_lines(rt: HostRuntime) {
    assert!(rt; is_copied(rt.alloc(), ALL_WORDS));
}

/// Whether a path was read, and is `text`.
fn is_path(read: &Result<Path, ListCause>, text: &str) -> bool {
    matches!(read, Ok(path) if path.text() == text)
}

/// Whether the path `text` is read, and leaves `rest`.
fn reads_path(alloc: Global, mut input: &str, text: &str, rest: &str) -> bool {
    is_path(&read_path(alloc, &mut input), text) && input == rest
}

/// Whether `number` is read, and leaves `rest`.
fn reads_int(mut input: &str, number: i32, rest: &str) -> bool {
    read_int(&mut input) == Ok(number) && input == rest
}

#[test]
fn what_is_behind_a_field_is_left(rt: HostRuntime) {
    assert!(rt; reads_path(rt.alloc(), "\"/a\" rest", "/a", " rest"));
    assert!(rt; reads_int("-5\n", -5, "\n"));
}

/// Whether a text is no number, and leaves the input unchanged.
fn is_no_number(text: &str) -> bool {
    let mut input = text;
    let refused = read_id(&mut input).is_err()
        && read_int(&mut input).is_err()
        && read_long(&mut input).is_err();
    refused && input == text
}

fn is_no_quoted(alloc: Global, input: &mut &str) -> bool {
    read_quoted(alloc, input).is_err()
}

fn is_no_path(alloc: Global, input: &mut &str) -> bool {
    read_path(alloc, input).is_err()
}

fn is_no_content(alloc: Global, input: &mut &str) -> bool {
    read_content(alloc, input).is_err()
}

/// Whether a text is neither a quoted text nor a path nor content, and leaves the input unchanged.
fn is_no_text(alloc: Global, text: &str) -> bool {
    let mut input = text;
    let refused = is_no_quoted(alloc, &mut input)
        && is_no_path(alloc, &mut input)
        && is_no_content(alloc, &mut input);
    refused && input == text
}

/// Whether a text is no access control list, and leaves the input unchanged.
fn is_no_acl(alloc: Global, text: &str) -> bool {
    let mut input = text;
    read_acl(alloc, &mut input).is_err() && input == text
}

#[test]
fn refused_fields_stay(rt: HostRuntime) {
    for text in ["0A00000100000001 1", "\"a\tb\" 1", "+1 -"] {
        assert!(rt; is_no_number(text) && is_no_text(rt.alloc(), text));
    }
    assert!(rt; is_no_acl(rt.alloc(), "2 31 \"world\" \"anyone\" 31 world"));
}
