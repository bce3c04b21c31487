ghost use Rattle.std.specs.Prelude.{◌≡◌, Some, IfOk, option_map};
ghost use Rattle.zk_acl.specs.Digests.{digest_of};
ghost use Rattle.zk_request_syntax.specs.Reading.{request_at, lookup_at, part_at, whole};
ghost use Rattle.zk_line_protocol.specs.ParsedLines.{text_in, said_in, said_in_text, said_in_multi, said_in_multi_text, or_said, said_by_request, said_of_multi, said_by_lookup, proved_in, synced_in};
ghost use Rattle.zk_line_protocol.specs.declared.parsed_line.ParsedLine.TheVariants as saids;

use crate::reading::{lookup_in, part_in, proof_in, request_in, synced_in};
use std::alloc::Global;
use zk_acl::{AclFault, Id, digest_id};
use zk_listing::ListCause;
use zk_path::{NoMemory, Path};
use zk_request_syntax::Lookup;
use zk_requests::{Part, Request};
use zk_table::ReadCall;

/// The content of a line outside a multi.
#[derive(Debug, Drop)]
pub enum ParsedLine {
    /// `open TIMEOUT`: opens a session, with a timeout in milliseconds.
    Opens { timeout: i32 },
    /// `addauth digest TEXT`: proves an identity of the session.
    Proves { id: Id },
    /// A request that changes nodes.
    Writes { request: Request },
    /// `close`: closes the session.
    Closes,
    /// A read, and whether to set a watch on what is read.
    Looks { call: ReadCall, watch: bool },
    /// `sync PATH`: waits until the server has caught up with its leader.
    Syncs { path: Path },
    /// `multi`: the next lines are parts of one request.
    BeginsMulti,
    /// `ruok`
    AsksWhetherWell,
    /// Any other line.
    Nothing,
}

/// The content of a line inside a multi.
#[derive(Debug, Drop)]
pub enum ParsedMultiLine {
    /// A part.
    Adds { part: Part },
    /// `commit`: submits the parts.
    Commits,
    /// Any other line.
    Nothing,
}

/// Returns a line's bytes as text, or `None` if they are not UTF-8.
pub fn text_of(line: Option<&[u8]>) -> Option<&str>
    ensures { option_map (λ text. text.now) result ≡ text_in (option_map (λ bytes. bytes.now) line.entry) }
{
    match line {
        Some(bytes) => text_in(bytes),
        None => None,
    }
}

fn text_in(bytes: &[u8]) -> Option<&str>
    ensures { option_map (λ text. text.now) result ≡ text_in (Some bytes.now) }
{
    match std::str::from_utf8(bytes) {
        Ok(text) => Some(text),
        Err(_) => None,
    }
}

/// Parses a line outside a multi. A line that is not UTF-8 is `Nothing`.
pub fn meaning_of(alloc: Global, line: Option<&str>) -> Result<ParsedLine, NoMemory>
    ensures { IfOk result (λ said. said ≡ said_in (option_map (λ text. text.now) line.entry)) }
{
    match line {
        Some(text) => text_outside(alloc, text),
        None => Ok(ParsedLine::Nothing),
    }
}

/// Parses a line inside a multi. A line that is not UTF-8 is `Nothing`.
pub fn meaning_in_multi(alloc: Global, line: Option<&str>) -> Result<ParsedMultiLine, NoMemory>
    ensures { IfOk result (λ said. said ≡ said_in_multi (option_map (λ text. text.now) line.entry)) }
{
    match line {
        Some(text) => text_in_multi(alloc, text),
        None => Ok(ParsedMultiLine::Nothing),
    }
}

fn text_in_multi(alloc: Global, text: &str) -> Result<ParsedMultiLine, NoMemory>
    ensures { IfOk result (λ said. said ≡ said_in_multi_text text.now) }
{
    match part_in(alloc, text) {
        Ok(part) => Ok(ParsedMultiLine::Adds { part }),
        Err(ListCause::NoMemory) => Err(NoMemory),
        Err(_) if text == "commit" => Ok(ParsedMultiLine::Commits),
        Err(_) => Ok(ParsedMultiLine::Nothing),
    }
}

fn text_outside(alloc: Global, text: &str) -> Result<ParsedLine, NoMemory>
    ensures { IfOk result (λ said. said ≡ said_in_text text.now) }
{
    if let Some(said) = said_by_request(alloc, text)? {
        return Ok(said);
    }
    if let Some(said) = said_by_lookup(alloc, text)? {
        return Ok(said);
    }
    if let Some(said) = said_by_proof(alloc, text)? {
        return Ok(said);
    }
    if let Some(said) = said_by_sync(alloc, text)? {
        return Ok(said);
    }
    if text == "ruok" {
        return Ok(ParsedLine::AsksWhetherWell);
    }
    Ok(ParsedLine::Nothing)
}

fn said_by_request(alloc: Global, text: &str) -> Result<Option<ParsedLine>, NoMemory>
    ensures { IfOk result (λ said. said ≡ option_map said_by_request (whole (request_at text.now))) }
{
    match request_in(alloc, text) {
        Ok(request) => Ok(Some(said_of_request(request))),
        Err(ListCause::NoMemory) => Err(NoMemory),
        Err(_) => Ok(None),
    }
}

fn said_of_request(request: Request) -> ParsedLine
    ensures { result ≡ said_by_request request }
{
    match said_but_write(&request) {
        Some(said) => said,
        None => ParsedLine::Writes { request },
    }
}

/// Returns the content of a request's line, if it does not change nodes. The word `multi` alone
/// begins a multi; with parts after it, it is no valid line.
fn said_but_write(request: &Request) -> Option<ParsedLine>
    ensures { or_said result (saids.Writes request.now) ≡ said_by_request request.now }
{
    match request {
        Request::Create { .. } => None,
        Request::Delete { .. } => None,
        Request::SetData { .. } => None,
        Request::SetAcl { .. } => None,
        Request::Multi { parts } => Some(said_of_multi(parts.as_slice())),
        Request::OpenSession { timeout } => Some(ParsedLine::Opens { timeout: *timeout }),
        Request::CloseSession => Some(ParsedLine::Closes),
    }
}

fn said_of_multi(parts: &[Part]) -> ParsedLine
    ensures { result ≡ said_of_multi parts.now }
{
    match parts {
        [] => ParsedLine::BeginsMulti,
        [..] => ParsedLine::Nothing,
    }
}

fn said_by_lookup(alloc: Global, text: &str) -> Result<Option<ParsedLine>, NoMemory>
    ensures { IfOk result (λ said. said ≡ option_map said_by_lookup (whole (lookup_at text.now))) }
{
    match lookup_in(alloc, text) {
        Ok(Lookup::Asks { call, watch }) => Ok(Some(ParsedLine::Looks { call, watch })),
        Ok(Lookup::BadPath) => Ok(Some(ParsedLine::Nothing)),
        Err(ListCause::NoMemory) => Err(NoMemory),
        Err(_) => Ok(None),
    }
}

fn said_by_proof(alloc: Global, text: &str) -> Result<Option<ParsedLine>, NoMemory>
    ensures { IfOk result (λ said. said ≡ option_map saids.Proves (proved_in text.now)) }
{
    match proof_in(alloc, text) {
        Ok(proof) => proved_by(alloc, proof.as_str()),
        Err(ListCause::NoMemory) => Err(NoMemory),
        Err(_) => Ok(None),
    }
}

/// Returns the identity of a digest's text, or `None` if it has no colon.
fn proved_by(alloc: Global, proof: &str) -> Result<Option<ParsedLine>, NoMemory>
    ensures { IfOk result (λ said. said ≡ option_map saids.Proves (digest_of proof.now)) }
{
    match digest_id(alloc, proof) {
        Ok(id) => Ok(Some(ParsedLine::Proves { id })),
        Err(AclFault::NoMemory) => Err(NoMemory),
        Err(_) => Ok(None),
    }
}

fn said_by_sync(alloc: Global, text: &str) -> Result<Option<ParsedLine>, NoMemory>
    ensures { IfOk result (λ said. said ≡ option_map saids.Syncs (synced_in text.now)) }
{
    match synced_in(alloc, text) {
        Ok(path) => Ok(Some(ParsedLine::Syncs { path })),
        Err(ListCause::NoMemory) => Err(NoMemory),
        Err(_) => Ok(None),
    }
}
