//! Whether two records mean the same transaction.
ghost use Rattle.std.specs.Prelude.{◌≡◌, IfOk, IfSome, option_map};
ghost use Rattle.zk_comparison.specs.Meanings.{agree_on_paths, are_alike, are_same_paths, close_alike, code_of, fail_alike, failure_in, failure_of, has_all_of, has_path, is_close, is_same_code, is_same_header, is_same_meaning, is_same_record, listed_paths, record_of, undigested};
ghost use Rattle.zk_newer_records.specs.NewerRecords.{IsNewer, newer_record};

use std::alloc::Global;
use zk_newer_records::{Encoding, NewerFault, NewerRecord, read_newer};
use zk_path::{NoMemory, Path};
use zk_table::{Op, Sub, Txn};

/// The length of a digest in a record: its version, and the sum.
const DIGEST: usize = 12;

/// Whether the records of these bytes mean the same transaction, whichever servers wrote them.
///
/// Two records of one transaction may have other digests, of which each is a sum over a server's own
/// tree. A failed multi may have kept its requests, and the end of a session may list the paths of
/// the nodes that it deletes.
pub(crate) fn is_same_record(alloc: Global, first: &[u8], second: &[u8]) -> Result<bool, NoMemory>
    ensures { IfOk result (λ same. same ≡ is_same_record first.now second.now) }
{
    if first == second {
        return Ok(true);
    }
    let Some(one) = read_record(alloc, first)? else {
        return Ok(false);
    };
    let Some(other) = read_record(alloc, second)? else {
        return Ok(false);
    };
    Ok(is_same_meaning(first, &one, second, &other))
}

/// The record of these bytes; `None` if they are no record of a 3.4 to 3.8 server.
#[tactic(auto, using(crate::proofs::Meant::read_whole, crate::proofs::Meant::read_none))]
pub(crate) fn read_record(alloc: Global, bytes: &[u8]) -> Result<Option<NewerRecord>, NoMemory>
    ensures is { IfOk result (λ read. read ≡ record_of bytes.now) }
    ensures found { IfOk result (λ read. IfSome read (λ newer. IsNewer bytes.now newer)) }
{
    match read_newer(alloc, &mut None, bytes) {
        Ok(newer) => Ok(Some(newer)),
        Err(NewerFault::NoMemory) => Err(NoMemory),
        Err(NewerFault::Record) => Ok(None),
        Err(NewerFault::Reasonless) => Ok(None),
    }
}

/// Whether two records mean the same; each has these bytes.
fn is_same_meaning(
    bytes: &[u8],
    first: &NewerRecord,
    other_bytes: &[u8],
    second: &NewerRecord,
) -> bool
    requires first { IsNewer bytes.now first.now }
    requires second { IsNewer other_bytes.now second.now }
    ensures { result ≡ is_same_meaning first.now second.now }
{
    are_alike(bytes, first, other_bytes, second)
        || (is_same_header(&first.txn, &second.txn)
            && (fail_alike(first, second) || close_alike(first, second)))
}

/// Whether two records are the same but for their digests.
fn are_alike(bytes: &[u8], first: &NewerRecord, other_bytes: &[u8], second: &NewerRecord) -> bool
    requires first { IsNewer bytes.now first.now }
    requires second { IsNewer other_bytes.now second.now }
    ensures { result ≡ are_alike first.now second.now }
{
    undigested(bytes, first) == undigested(other_bytes, second)
}

/// The bytes of a record without its digest.
#[tactic(auto, using(crate::proofs::Meant::room_for_digest, crate::proofs::Meant::without_digest, crate::proofs::Meant::with_none))]
fn undigested<'a>(bytes: &'a [u8], newer: &NewerRecord) -> &'a [u8]
    requires { IsNewer bytes.now newer.now }
    ensures { result.now ≡ newer_record (undigested newer.now) }
{
    match newer.digest {
        Some(_) => &bytes[..bytes.len() - DIGEST],
        None => bytes,
    }
}

fn is_same_header(first: &Txn, second: &Txn) -> bool
    ensures { result ≡ is_same_header first.now second.now }
{
    first.session == second.session
        && first.cxid == second.cxid
        && first.zxid == second.zxid
        && first.time == second.time
}

/// Whether both are multis that failed for the same reason.
fn fail_alike(first: &NewerRecord, second: &NewerRecord) -> bool
    ensures { result ≡ fail_alike first.now second.now }
{
    is_same_code(failure_of(&first.txn.op), failure_of(&second.txn.op))
}

fn is_same_code(first: Option<i32>, second: Option<i32>) -> bool
    ensures { result ≡ is_same_code first second }
{
    match (first, second) {
        (Some(first), Some(second)) => first == second,
        _ => false,
    }
}

/// The code of the first part of a multi that was rejected.
fn failure_of(op: &Op) -> Option<i32>
    ensures { result ≡ failure_of op.now }
{
    match op {
        Op::Multi { parts } => failure_in(parts.as_slice()),
        _ => None,
    }
}

fn failure_in(parts: &[Sub]) -> Option<i32>
    ensures { result ≡ failure_in parts.now }
{
    let mut rest = parts;
    while let [part, more @ ..] = rest {
        let code = code_of(part);
        if code != 0 {
            return Some(code);
        }
        rest = more;
    }
    None
}

/// The code of a part that was rejected, or else 0.
fn code_of(part: &Sub) -> i32
    ensures { result ≡ code_of part.now }
{
    match part {
        Sub::Error { code } => *code,
        _ => 0,
    }
}

/// Whether both are ends of a session that delete the same nodes.
fn close_alike(first: &NewerRecord, second: &NewerRecord) -> bool
    ensures { result ≡ close_alike first.now second.now }
{
    is_close(&first.txn.op)
        && is_close(&second.txn.op)
        && agree_on_paths(listed_paths(&first.form), listed_paths(&second.form))
}

fn is_close(op: &Op) -> bool
    ensures { result ≡ is_close op.now }
{
    matches!(op, Op::CloseSession)
}

fn listed_paths(form: &Encoding) -> Option<&[Path]>
    ensures { option_map (λ paths. paths.now) result ≡ listed_paths form.now }
{
    match form {
        Encoding::ClosePaths { listed } => Some(listed.as_slice()),
        _ => None,
    }
}

fn agree_on_paths(first: Option<&[Path]>, second: Option<&[Path]>) -> bool
    ensures { result ≡ agree_on_paths (option_map (λ paths. paths.now) first.entry) (option_map (λ paths. paths.now) second.entry) }
{
    match (first, second) {
        (Some(first), Some(second)) => are_same_paths(first, second),
        _ => true,
    }
}

fn are_same_paths(first: &[Path], second: &[Path]) -> bool
    ensures { result ≡ are_same_paths first.now second.now }
{
    has_all_of(second, first) && has_all_of(first, second)
}

/// Whether each of these paths is among others.
fn has_all_of(others: &[Path], paths: &[Path]) -> bool
    ensures { result ≡ has_all_of others.now paths.now }
{
    paths.iter().all(|path| has_path(others, path))
}

fn has_path(paths: &[Path], path: &Path) -> bool
    ensures { result ≡ has_path paths.now path.now }
{
    paths.iter().any(|other| path.text() == other.text())
}
