//! What the bytes of a connection bring.

ghost use Rattle.std.specs.Prelude.{◌≡◌, ◌≢◌, ◌∷◌, ◌++◌, [], None, Ok, true, false, IfOk, OnOk};
ghost use Rattle.zk_peer_links.specs.Links.{arrival_of, TakesAll};
ghost use Rattle.zk_peer_links.specs.Packets.{IsShortIn};

use crate::arrival::Arrival;
use crate::packet::{Packet, Step, arrival_of, take_packet};
use std::alloc::Global;
use zab_frames::Decoder;
use zk_path::NoMemory;

/// Appends what a packet is to the server.
fn push_arrival(
    alloc: Global,
    arrivals: &mut Vec<Arrival>,
    line: u64,
    packet: Packet,
) -> Result<(), NoMemory>
    requires { IsShortIn packet }
    ensures { OnOk result (arrivals.new.items ≡ arrivals.old.items ++ arrival_of line packet ∷ []) }
{
    let arrival = arrival_of(alloc, line, packet)?;
    arrivals.push(arrival)?;
    Ok(())
}

/// Takes all whole frames. Returns `false` if one is wrong.
#[tactic(auto, using(crate::proofs::Taking::takes_none, crate::proofs::Taking::takes_more, crate::proofs::Taking::ends_waiting, crate::proofs::Taking::ends_wrong, crate::proofs::Taking::ends_whole))]
pub(crate) fn take_packets(
    alloc: Global,
    decoder: &mut Decoder,
    arrivals: &mut Vec<Arrival>,
    line: u64,
) -> Result<bool, NoMemory>
    requires sound { decoder.old.fault ≡ None }
    ensures takes { IfOk result (λ right. TakesAll line decoder.old.rest arrivals.old.items right decoder.new.rest arrivals.new.items) }
    ensures sound { decoder.new.fault ≡ None }
{
    for taken in 0..decoder.rest().len() {
        match take_packet(alloc, decoder)? {
            Step::Took(packet) => push_arrival(alloc, arrivals, line, packet)?,
            Step::Waits => return Ok(true),
            Step::Wrong => return Ok(false),
        }
    }
    Ok(true)
}
