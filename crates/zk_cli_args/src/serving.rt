ghost use Rattle.std.specs.Prelude.{◌≡◌, IfOk, map};
ghost use Rattle.zk_cli_args.specs.Commands.{values_of};
ghost use Rattle.zk_cli_args.specs.Serving.{ReadsDecimal, ReadsServers, ReadsServersOf, ReadsServing, ReadsServingBehind, ReadsServingNamed, ReadsWithin};

use crate::command::{only_two, values_of};
use crate::options::option_in;
use std::alloc::Global;
use zk_listing::read_long;
use zk_path::NoMemory;

/// Servers that serve connections.
#[derive(Clone, Copy, Debug, PartialEq, Eq)]
pub struct Serving {
    /// The port on 127.0.0.1, 1 to 65535.
    pub port: u16,
    /// The number of servers, at most 15.
    pub servers: usize,
    /// The number of connections that are served, one after another.
    pub connections: u32,
}

/// The servers that words name.
pub(crate) fn serving_of(alloc: Global, words: &[&str]) -> Result<Option<Serving>, NoMemory>
    ensures { IfOk result (λ read. ReadsServing (map (λ word. word.now) words.now) read) }
{
    let [_, name, rest @ ..] = words else {
        return Ok(None);
    };
    serving_named(alloc, name, rest)
}

/// The servers that a command's name and the words after it name.
fn serving_named(alloc: Global, name: &str, words: &[&str]) -> Result<Option<Serving>, NoMemory>
    ensures { IfOk result (λ read. ReadsServingNamed name.now (map (λ word. word.now) words.now) read) }
{
    if name != "serve" {
        return Ok(None);
    }
    serving_behind(alloc, words)
}

/// The servers that the words after the command's name name.
#[tactic(auto, using(crate::proofs::BehindLaws::plain_serving, crate::proofs::BehindLaws::counted_serving, crate::proofs::BehindLaws::uncounted))]
fn serving_behind(alloc: Global, words: &[&str]) -> Result<Option<Serving>, NoMemory>
    ensures { IfOk result (λ read. ReadsServingBehind (map (λ word. word.now) words.now) read) }
{
    let Some(found) = option_in(alloc, "--conns", "--conns=", words)? else {
        return serving_by(alloc, words, 2, 1);
    };
    match number_within(found.value, 0, u32::MAX) {
        Some(connections) => serving_by(alloc, found.others.as_slice(), 2, connections),
        None => Ok(None),
    }
}

/// The servers that words without a count name, at least this number of them, and this number of
/// connections.
#[tactic(auto, using(crate::proofs::ServingLaws::of_values))]
pub(crate) fn serving_by(
    alloc: Global,
    words: &[&str],
    least: u32,
    connections: u32,
) -> Result<Option<Serving>, NoMemory>
    ensures { IfOk result (λ read. ReadsServersOf (values_of (map (λ word. word.now) words.now)) least connections read) }
{
    match values_of(alloc, words)? {
        Some(values) => Ok(servers_in(values.as_slice(), least, connections)),
        None => Ok(None),
    }
}

/// The servers by a port and their number, at least this one, and this number of connections.
fn servers_in(values: &[&str], least: u32, connections: u32) -> Option<Serving>
    ensures { ReadsServers (map (λ value. value.now) values.now) least connections result }
{
    let (port, servers) = only_two(values)?;
    let port = number_within(port, 1, 65_535)?;
    let servers = number_within(servers, least, 15)?;
    Some(Serving {
        port: port as u16,
        servers: servers as usize,
        connections,
    })
}

/// A decimal in a range.
pub(crate) fn number_within(word: &str, least: u32, most: u32) -> Option<u32>
    ensures { ReadsWithin least most word.now result }
{
    let number = whole_decimal(word)?;
    let number = u32::try_from(number).ok()?;
    if number < least || most < number {
        return None;
    }
    Some(number)
}

/// A decimal of 64 bits, without text after it.
fn whole_decimal(word: &str) -> Option<i64>
    ensures { ReadsDecimal word.now result }
{
    let mut rest = word;
    let number = read_long(&mut rest).ok()?;
    if !rest.is_empty() {
        return None;
    }
    Some(number)
}
