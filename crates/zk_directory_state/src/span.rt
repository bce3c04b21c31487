//! The transactions that logs hold, and what is said of a range that goes beyond them.
ghost use Rattle.std.specs.Prelude.{◌≡◌, IfOk};
ghost use Rattle.std.specs.String.{string_bytes};
ghost use Rattle.zk_directory_state.specs.Spans.{IsRangeLine, IsRangeNotice, begins_before, comes_after, empty_fault, ends_before, is_after, is_before, is_part, moment_of, outside_fault, range_line, span_after, unlogged_fault};
ghost use Rattle.zk_json.specs.Times.{IsTimeText};

use crate::HistoryFault;
use crate::history::blank_fault;
use crate::range::{Bound, Range};
use std::alloc::Global;
use zk_directory::LogFileFault;
use zk_format::push_id;
use zk_json::push_time;
use zk_newer_records::NewerRecord;
use zk_path::NoMemory;

/// A transaction, and its time, in milliseconds since 1970.
#[derive(Clone, Copy, Debug, PartialEq, Eq)]
pub struct Moment {
    pub zxid: i64,
    pub time: i64,
}

/// The first and the last transaction of logs.
#[derive(Clone, Copy, Debug, PartialEq, Eq)]
pub struct Span {
    pub first: Moment,
    pub last: Moment,
}

pub(crate) fn moment_of(newer: &NewerRecord) -> Moment
    ensures { result ≡ moment_of newer.now }
{
    Moment {
        zxid: newer.txn.zxid,
        time: newer.txn.time,
    }
}

/// With one more record.
pub(crate) fn span_after(span: Option<Span>, newer: &NewerRecord) -> Span
    ensures { result ≡ span_after span newer.now }
{
    let last = moment_of(newer);
    match span {
        Some(span) => Span {
            first: span.first,
            last,
        },
        None => Span { first: last, last },
    }
}

// ---- bounds

fn is_before(bound: Bound, moment: Moment) -> bool
    ensures { result ≡ is_before bound moment }
{
    match bound {
        Bound::Zxid(zxid) => zxid < moment.zxid,
        Bound::Time(time) => time < moment.time,
    }
}

fn is_after(bound: Bound, moment: Moment) -> bool
    ensures { result ≡ is_after bound moment }
{
    match bound {
        Bound::Zxid(zxid) => moment.zxid < zxid,
        Bound::Time(time) => moment.time < time,
    }
}

/// Whether a range that begins with a bound, or with the history, begins before a transaction.
fn begins_before(from: Option<Bound>, moment: Moment) -> bool
    ensures { result ≡ begins_before from moment }
{
    match from {
        Some(bound) => is_before(bound, moment),
        None => true,
    }
}

/// Whether a range that ends with a bound, or with the logs, ends before a transaction.
fn ends_before(to: Option<Bound>, moment: Moment) -> bool
    ensures { result ≡ ends_before to moment }
{
    match to {
        Some(bound) => is_before(bound, moment),
        None => false,
    }
}

/// Whether there is a bound that comes after a transaction.
fn comes_after(bound: Option<Bound>, moment: Moment) -> bool
    ensures { result ≡ comes_after bound moment }
{
    match bound {
        Some(bound) => is_after(bound, moment),
        None => false,
    }
}

// ---- the range that is asked for

/// The fault of logs without a transaction.
fn unlogged_fault(held: &[i64], logged: &[i64]) -> Option<HistoryFault>
    ensures { result ≡ unlogged_fault held.now logged.now }
{
    if held.is_empty() {
        blank_fault(held, logged)
    } else {
        Some(HistoryFault::NoTransaction)
    }
}

/// The fault of a range that lies wholly beyond the transactions of the logs.
pub(crate) fn outside_fault(range: Range, is_whole: bool, span: Span) -> Option<HistoryFault>
    ensures { result ≡ outside_fault range is_whole span }
{
    if comes_after(range.from, span.last) {
        Some(HistoryFault::Beyond {
            last: span.last.zxid,
            time: Some(span.last.time),
        })
    } else if !is_whole && ends_before(range.to, span.first) {
        Some(HistoryFault::Purged {
            first: span.first.zxid,
        })
    } else {
        None
    }
}

/// The fault of logs of which none has an intact entry; `fault` is the last one of a log.
pub(crate) fn empty_fault(
    fault: Option<(i64, LogFileFault)>,
    held: &[i64],
    logged: &[i64],
) -> Option<HistoryFault>
    ensures { result ≡ empty_fault fault held.now logged.now }
{
    match fault {
        Some((log, fault)) => Some(HistoryFault::Log { log, fault }),
        None => unlogged_fault(held, logged),
    }
}

/// Whether the answer is of a part of a range.
fn is_part(range: Range, is_whole: bool, span: Span) -> bool
    ensures { result ≡ is_part range is_whole span }
{
    (!is_whole && begins_before(range.from, span.first)) || comes_after(range.to, span.last)
}

// ---- the notice

/// The text of a time.
#[tactic(auto, using(crate::proofs::Spanning::clock))]
pub(crate) fn clock_text(alloc: Global, time: i64) -> Result<String, NoMemory>
    ensures { IfOk result (λ clock. IsTimeText time (string_bytes clock)) }
{
    let mut clock = String::new(alloc);
    push_time(&mut clock, time)?;
    Ok(clock)
}

/// The line of the first and the last transaction, with the texts of their times.
#[tactic(auto, unfolding(crate::specs::Spans::range_line))]
fn line_with(alloc: Global, span: Span, first: &String, last: &String) -> Result<String, NoMemory>
    ensures { IfOk result (λ line. string_bytes line ≡ range_line span (string_bytes first.now) (string_bytes last.now)) }
{
    let mut line = String::from_str(alloc, "zk: range ")?;
    push_id(&mut line, span.first.zxid)?;
    line.push_str(" ")?;
    push_id(&mut line, span.last.zxid)?;
    line.push_str(" ")?;
    line.push_str(first.as_str())?;
    line.push_str(" ")?;
    line.push_str(last.as_str())?;
    line.push_str("\n")?;
    Ok(line)
}

/// The line of the first and the last transaction, with their times.
#[tactic(auto, using(crate::proofs::Spanning::as_range_line))]
fn range_line(alloc: Global, span: Span) -> Result<String, NoMemory>
    ensures { IfOk result (λ line. IsRangeLine span (string_bytes line)) }
{
    let first = clock_text(alloc, span.first.time)?;
    let last = clock_text(alloc, span.last.time)?;
    let line = line_with(alloc, span, &first, &last)?;
    Ok(line)
}

/// The notice on an answer, of logs that hold these transactions.
pub(crate) fn range_notice(
    alloc: Global,
    range: Range,
    is_whole: bool,
    span: Option<Span>,
) -> Result<String, NoMemory>
    ensures { IfOk result (λ notice. IsRangeNotice range is_whole span (string_bytes notice)) }
{
    match span {
        Some(span) if is_part(range, is_whole, span) => range_line(alloc, span),
        _ => Ok(String::new(alloc)),
    }
}
