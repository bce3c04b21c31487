//! Parsing transactions from a listing.
ghost use Rattle.std.specs.Prelude.{◌≡◌, ◌≢◌, List, IfOk, IfErr, MatchResult, []};
ghost use Rattle.std.specs.List.{AllByRecursion};
ghost use Rattle.zk_table.specs.declared.txn.Txn.{Txn};
ghost use Rattle.zk_format.specs.Listings.{IsListed, listing_of};
ghost use Rattle.zk_listing.specs.Promises.{ReadsLine, AddsLine, BeginsWithListing, IsFirstFault};
ghost use Rattle.zk_listing.specs.Reading.{Takes, TakesUnit, past, txn_at};

use crate::fields::id;
use crate::list_fault::{ListCause, ListFault};
use crate::ops::operation;
use crate::parts::{space, spaced_id, spaced_int, spaced_long};
use std::alloc::Global;
use zk_table::Txn;

/// Returns the transactions of a listing, one per line.
///
/// Fails at the first line that is not a transaction's, with the first fault from the left in that
/// line. A missing newline at the end of the last line takes precedence over other faults in it.
pub fn assemble(alloc: Global, text: &str) -> Result<Vec<Txn>, ListFault>
    ensures found { IfOk result (λ txns. text.now ≡ listing_of txns.items) }
    ensures listed { IfOk result (λ txns. AllByRecursion IsListed txns.items) }
    ensures only { (txns : List Txn) → AllByRecursion IsListed txns → text.now ≡ listing_of txns
        → MatchResult result (λ found. found.items ≡ txns) (λ fault. fault.cause ≡ ListCause.NoMemory) }
    ensures line { IfErr result (λ fault. fault.cause ≢ ListCause.NoMemory → IsFirstFault text.now fault.line) }
{
    let mut rest = text;
    all_lines(alloc, &mut rest)
}

/// The transactions of all lines.
fn all_lines(alloc: Global, input: &mut &str) -> Result<Vec<Txn>, ListFault>
    ensures found { IfOk result (λ txns. BeginsWithListing input.old.now txns.items []) }
    ensures only { (txns : List Txn) → AllByRecursion IsListed txns → input.old.now ≡ listing_of txns
        → MatchResult result (λ found. found.items ≡ txns) (λ fault. fault.cause ≡ ListCause.NoMemory) }
    ensures line { IfErr result
        (λ fault. fault.cause ≢ ListCause.NoMemory → IsFirstFault input.old.now fault.line) }
{
    let mut txns = Vec::new(alloc);
    'lines: while !input.is_empty() {
        let line = txns.len() as u64 + 1;
        match add_line(alloc, &mut txns, input) {
            Ok(()) => {}
            Err(cause) => return Err(ListFault { line, cause }),
        }
    }
    Ok(txns)
}

/// Reads the first line with its newline, and appends its transaction.
fn add_line(alloc: Global, txns: &mut Vec<Txn>, input: &mut &str) -> Result<(), ListCause>
    ensures { AddsLine result txns.old.items txns.new.items input.old.now input.new.now }
{
    let txn = read_line(alloc, input)?;
    txns.push(txn)?;
    Ok(())
}

/// Reads the first line with its newline.
fn read_line(alloc: Global, input: &mut &str) -> Result<Txn, ListCause>
    ensures { ReadsLine result input.old.now input.new.now }
{
    if !input.contains('\n') {
        return Err(ListCause::NoNewline);
    }
    txn_line(alloc, input)
}

#[tactic(auto, unfolding(crate::specs::Reading::txn_at, crate::specs::Reading::header_at))]
fn txn_line(alloc: Global, input: &mut &str) -> Result<Txn, ListCause>
    ensures { Takes result input.new.now (txn_at input.old.now) }
{
    let zxid = id(input)?;
    let session = spaced_id(input)?;
    let cxid = spaced_int(input)?;
    let time = spaced_long(input)?;
    space(input)?;
    let op = operation(alloc, input)?;
    newline(input)?;
    Ok(Txn {
        session,
        cxid,
        zxid,
        time,
        op,
    })
}

/// Reads the newline at the end of a line.
fn newline(input: &mut &str) -> Result<(), ListCause>
    ensures { TakesUnit result input.new.now (past 10 input.old.now) }
{
    match input.strip_prefix('\n') {
        Some(rest) => {
            *input = rest;
            Ok(())
        }
        None => Err(ListCause::Fields),
    }
}
