//! Readers of whole lines: each returns the value of a line of its form, and rejects every other
//! line.
ghost use Rattle.std.specs.Prelude.{◌≡◌, ◌==◌, length, option_map};
ghost use Rattle.std.specs.String.{string_bytes};
ghost use Rattle.zk_listing.specs.Reading.{Makes, quoted_at, path_at};
ghost use Rattle.zk_request_syntax.specs.Reading.{request_at, lookup_at, part_at, whole, ended_result};
ghost use Rattle.zk_line_protocol.specs.ParsedLines.{MakesBy, behind_word, proof_in, synced_in};

use std::alloc::Global;
use zk_acl::Text;
use zk_listing::{ListCause, read_path, read_quoted};
use zk_path::Path;
use zk_request_syntax::{Lookup, read_lookup, read_part, read_request, take_word};
use zk_requests::{Part, Request};

pub(crate) fn request_in(alloc: Global, text: &str) -> Result<Request, ListCause>
    ensures { Makes result (whole (request_at text.now)) }
{
    read_request(alloc, text)
}

pub(crate) fn lookup_in(alloc: Global, text: &str) -> Result<Lookup, ListCause>
    ensures { Makes result (whole (lookup_at text.now)) }
{
    read_lookup(alloc, text)
}

pub(crate) fn part_in(alloc: Global, text: &str) -> Result<Part, ListCause>
    ensures { Makes result (whole (part_at text.now)) }
{
    read_part(alloc, text)
}

/// Reads the text of `addauth digest TEXT`.
#[tactic(auto, unfolding(crate::specs::ParsedLines::proof_in))]
pub(crate) fn proof_in(alloc: Global, line: &str) -> Result<Text, ListCause>
    ensures { Makes result (proof_in line.now) }
{
    let rest = behind_word(line, "addauth").ok_or(ListCause::Word)?;
    let text = behind_word(rest, "digest").ok_or(ListCause::Word)?;
    lone_text(alloc, text)
}

/// Reads the path of `sync PATH`.
#[tactic(auto, unfolding(crate::specs::ParsedLines::synced_in))]
pub(crate) fn synced_in(alloc: Global, line: &str) -> Result<Path, ListCause>
    ensures { Makes result (synced_in line.now) }
{
    let rest = behind_word(line, "sync").ok_or(ListCause::Word)?;
    lone_path(alloc, rest)
}

/// Returns what comes after a word and a space.
fn behind_word<'a>(line: &'a str, word: &str) -> Option<&'a str>
    ensures { option_map (λ text. text.now) result ≡ behind_word word.now line.now }
{
    let mut rest = line;
    if take_word(&mut rest) == word {
        return rest.strip_prefix(' ');
    }
    None
}

/// Returns what was read, if nothing is left after it.
fn alone<T: Drop>(read: Result<T, ListCause>, left: &str) -> Result<T, ListCause>
    ensures { result ≡ ended_result (length left.now == 0) read }
{
    match read {
        Ok(value) => {
            if left.is_empty() {
                return Ok(value);
            }
            Err(ListCause::Fields)
        }
        Err(cause) => Err(cause),
    }
}

/// Reads a text between quotes, with nothing after it.
fn lone_text(alloc: Global, input: &str) -> Result<Text, ListCause>
    ensures { Makes result (whole (quoted_at input.now)) }
{
    let text = lone_string(alloc, input)?;
    Ok(Text::new(text))
}

fn lone_string(alloc: Global, input: &str) -> Result<String, ListCause>
    ensures { MakesBy (λ text. string_bytes text) result (whole (quoted_at input.now)) }
{
    let mut rest = input;
    let read = read_quoted(alloc, &mut rest);
    alone(read, rest)
}

/// Reads a path between quotes, with nothing after it.
fn lone_path(alloc: Global, input: &str) -> Result<Path, ListCause>
    ensures { Makes result (whole (path_at input.now)) }
{
    let mut rest = input;
    let read = read_path(alloc, &mut rest);
    alone(read, rest)
}
