//! Reads the first line.
ghost use Rattle.std.specs.Prelude.{◌≡◌, ◌≢◌, ◌≤◌, true, false, IfOk, IfErr, Err};
ghost use Rattle.zk_listing.specs.Reading.{Takes, many_at};
ghost use Rattle.zk_run_script.specs.FirstLines.{ReadsServers};
ghost use Rattle.zk_run_script.specs.FirstLineReading.{servers_at, weight_at, listed_at, weights_of, first_at, are_right_alone};

use crate::server_weights::{MOST_SERVERS, ServerWeights};
use std::alloc::Global;
use zab_epoch::{WeightFault, Weighted};
use zk_listing::ListCause;
use zk_request_syntax::{spaced_number, take_space, take_word};

/// Reads the weights in a script's first line: `servers N`, where each weighs 1, or `servers N
/// weights WEIGHT ..`. Only the weights themselves are allocated, once the whole line is read.
pub fn read_servers(alloc: Global, line: &str) -> Result<Weighted, ListCause>
    ensures { ReadsServers line.now result }
{
    let mut rest = line;
    let weights = first(&mut rest)?;
    weighted(alloc, &weights, rest)
}

/// Builds the quorums from the weights, if nothing is left of the line and the weights are
/// accepted.
fn weighted(alloc: Global, weights: &ServerWeights, left: &str) -> Result<Weighted, ListCause>
    ensures found { IfOk result (λ it. (it ≡ weights.now) × (are_right_alone left.now weights.now ≡ true)) }
    ensures refused { IfErr result (λ cause. cause ≢ ListCause.NoMemory → are_right_alone left.now weights.now ≡ false) }
    ensures memory { result ≡ Err ListCause.NoMemory → are_right_alone left.now weights.now ≡ true }
{
    if !left.is_empty() {
        return Err(ListCause::Fields);
    }
    match Weighted::read(alloc, weights.as_slice()) {
        Ok(weighted) => Ok(weighted),
        Err(WeightFault::NoMemory) => Err(ListCause::NoMemory),
        Err(WeightFault::Count | WeightFault::NoWeight) => Err(ListCause::Number),
    }
}

#[tactic(auto, unfolding(crate::specs::FirstLineReading::first_at))]
fn first(input: &mut &str) -> Result<ServerWeights, ListCause>
    ensures taken { Takes result input.new.now (first_at input.old.now) }
    ensures memory { IfErr result (λ cause. cause ≢ ListCause.NoMemory) }
{
    let count = servers(input)?;
    if count > MOST_SERVERS {
        return Err(ListCause::Number);
    }
    weights(count, input)
}

#[tactic(auto, unfolding(crate::specs::FirstLineReading::servers_at))]
fn servers(input: &mut &str) -> Result<usize, ListCause>
    ensures taken { Takes result input.new.now (servers_at input.old.now) }
    ensures memory { IfErr result (λ cause. cause ≢ ListCause.NoMemory) }
{
    match take_word(input) {
        "servers" => Ok(spaced_number(input)? as usize),
        _ => Err(ListCause::Word),
    }
}

/// Reads what comes after the number of servers: nothing, where each weighs 1, or their weights.
fn weights(count: usize, input: &mut &str) -> Result<ServerWeights, ListCause>
    requires { count ≤ 15 }
    ensures taken { Takes result input.new.now (weights_of count input.old.now) }
    ensures memory { IfErr result (λ cause. cause ≢ ListCause.NoMemory) }
{
    if input.is_empty() {
        return Ok(ServerWeights::even(count));
    }
    listed(count, input)
}

/// Reads the word for weights after a space, and `count` weights.
#[tactic(auto, unfolding(crate::specs::FirstLineReading::listed_at))]
fn listed(count: usize, input: &mut &str) -> Result<ServerWeights, ListCause>
    requires { count ≤ 15 }
    ensures taken { Takes result input.new.now (listed_at count input.old.now) }
    ensures memory { IfErr result (λ cause. cause ≢ ListCause.NoMemory) }
{
    take_space(input)?;
    match take_word(input) {
        "weights" => each(count, input),
        _ => Err(ListCause::Word),
    }
}

/// Reads `count` weights, each after a space.
fn each(count: usize, input: &mut &str) -> Result<ServerWeights, ListCause>
    requires { count ≤ 15 }
    ensures taken { Takes result input.new.now (many_at weight_at count input.old.now) }
    ensures memory { IfErr result (λ cause. cause ≢ ListCause.NoMemory) }
{
    let mut weights = ServerWeights::none();
    for _ in 0..count {
        weights.push(weight(input)?);
    }
    Ok(weights)
}

/// Reads a weight after a space.
#[tactic(auto, unfolding(crate::specs::FirstLineReading::weight_at))]
fn weight(input: &mut &str) -> Result<u32, ListCause>
    ensures taken { Takes result input.new.now (weight_at input.old.now) }
    ensures memory { IfErr result (λ cause. cause ≢ ListCause.NoMemory) }
{
    let number = spaced_number(input)?;
    u32::try_from(number).map_err(|_| ListCause::Number)
}
