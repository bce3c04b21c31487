ghost use Rattle.std.specs.Prelude.{◌≡◌, ◌+◌, ◌<◌, ◌≤◌, ◌⊎◌, ◌++◌, [], None, true, length, map, replicate, IfOk, IfSome, IfNone, OnOk};
ghost use Rattle.zk_peer_links.specs.declared.link_input.LinkInput.TheVariants as inputs;
ghost use Rattle.zk_peer_links.specs.Links.{closed, has_number, hearing, is_peer, link_at, none_of, number_of, opens, Adds, Hears, HearsAll, IsAt, IsNowhere, TakesFrom};

use crate::arrival::Arrival;
use crate::incoming::take_packets;
use crate::link::Link;
use crate::link_input::LinkInput;
use std::alloc::Global;
use zk_path::NoMemory;

/// What has arrived on a server's links.
#[derive(Drop)]
pub struct Heard {
    pub arrivals: Vec<Arrival>,
    /// The connections that are to be ended: a wrong frame came on them, or a new connection takes
    /// their place.
    pub ended: Vec<u64>,
}

/// A server's links to the others: at most one connection to each.
#[derive(Debug, Drop)]
pub struct Links {
    pub(crate) me: usize,
    /// By place: the one to server 1 is first.
    pub(crate) links: Vec<Option<Link>>,
}

impl Links {
    /// The links of a server that has just started: none.
    pub fn new(alloc: Global, me: usize, servers: usize) -> Result<Links, NoMemory>
        ensures me { IfOk result (λ it. it.me ≡ me) }
        ensures none { IfOk result (λ it. it.links.items ≡ replicate servers None) }
    {
        let mut links = Vec::new(alloc);
        for place in 0..servers {
            links.push(None)?;
        }
        Ok(Links { me, links })
    }

    /// Drops all connections.
    pub fn close_all(&mut self)
        ensures none { self.new.links.items ≡ none_of self.old.links.items }
        ensures me { self.new.me ≡ self.old.me }
    {
        for place in 0..self.links.len() {
            self.links[place] = None;
        }
    }

    /// Takes what has happened, in order: what arrives is what the bytes of each connection decode to,
    /// however they were cut. After an error the links are of no more use.
    #[tactic(auto, using(crate::proofs::Hearing::hears_none, crate::proofs::Hearing::hears_whole))]
    pub fn hear(&mut self, alloc: Global, inputs: &[LinkInput]) -> Result<Heard, NoMemory>
        ensures hears { IfOk result (λ heard. HearsAll self.old.me inputs.now (hearing self.old.links.items [] [])
            (hearing self.new.links.items heard.arrivals.items heard.ended.items)) }
        ensures me { self.new.me ≡ self.old.me }
    {
        let mut heard = Heard {
            arrivals: Vec::new(alloc),
            ended: Vec::new(alloc),
        };
        for index in 0..inputs.len() {
            self.hear_one(alloc, &mut heard, &inputs[index])?;
        }
        Ok(heard)
    }

    fn hear_one(
        &mut self,
        alloc: Global,
        heard: &mut Heard,
        input: &LinkInput,
    ) -> Result<(), NoMemory>
        ensures hears { OnOk result (Hears self.old.me input.now (hearing self.old.links.items heard.old.arrivals.items heard.old.ended.items)
            (hearing self.new.links.items heard.new.arrivals.items heard.new.ended.items)) }
        ensures me { self.new.me ≡ self.old.me }
    {
        match input {
            LinkInput::Opened { peer, line } => self.open(alloc, heard, *peer, *line),
            LinkInput::Brought { line, bytes } => {
                self.bring(alloc, heard, *line, bytes.as_slice())
            }
            LinkInput::Closed { line } => self.close(heard, *line),
            LinkInput::Lead => {
                heard.arrivals.push(Arrival::Lead)?;
                Ok(())
            }
        }
    }

    /// Whether a number is that of another server.
    fn is_peer(&self, peer: usize) -> bool
        ensures { result ≡ is_peer self.now.me (length self.now.links.items) peer }
    {
        0 < peer && peer <= self.links.len() && peer != self.me
    }

    #[tactic(auto, using(crate::proofs::Hearing::opens_place, crate::proofs::Hearing::opens_nowhere))]
    fn open(
        &mut self,
        alloc: Global,
        heard: &mut Heard,
        peer: usize,
        line: u64,
    ) -> Result<(), NoMemory>
        ensures opens { OnOk result (hearing self.new.links.items heard.new.arrivals.items heard.new.ended.items
            ≡ opens self.old.me peer line (hearing self.old.links.items heard.old.arrivals.items heard.old.ended.items)) }
        ensures me { self.new.me ≡ self.old.me }
    {
        if !self.is_peer(peer) {
            heard.ended.push(line)?;
            return Ok(());
        }
        let place = peer - 1;
        push_number(&mut heard.ended, &self.links[place])?;
        heard.arrivals.push(Arrival::Closed(place + 1))?;
        self.links[place] = Some(Link::new(alloc, line));
        Ok(())
    }

    #[tactic(auto, using(crate::proofs::Hearing::brings, crate::proofs::Hearing::brings_nothing))]
    fn bring(
        &mut self,
        alloc: Global,
        heard: &mut Heard,
        line: u64,
        bytes: &[u8],
    ) -> Result<(), NoMemory>
        ensures hears { OnOk result (Hears self.old.me (inputs.Brought line bytes.now) (hearing self.old.links.items heard.old.arrivals.items heard.old.ended.items)
            (hearing self.new.links.items heard.new.arrivals.items heard.new.ended.items)) }
        ensures me { self.new.me ≡ self.old.me }
    {
        let Some(place) = place_of(self.links.as_slice(), line) else {
            return Ok(());
        };
        bring_at(alloc, &mut self.links[place], heard, place, line, bytes)
    }

    #[tactic(auto, using(crate::proofs::Hearing::closes, crate::proofs::Hearing::closes_nothing))]
    fn close(&mut self, heard: &mut Heard, line: u64) -> Result<(), NoMemory>
        ensures hears { OnOk result (Hears self.old.me (inputs.Closed line) (hearing self.old.links.items heard.old.arrivals.items heard.old.ended.items)
            (hearing self.new.links.items heard.new.arrivals.items heard.new.ended.items)) }
        ensures me { self.new.me ≡ self.old.me }
    {
        let Some(place) = place_of(self.links.as_slice(), line) else {
            return Ok(());
        };
        heard.arrivals.push(Arrival::Closed(place + 1))?;
        self.links[place] = None;
        Ok(())
    }
}

/// Appends the number of a connection.
fn push_number(ended: &mut Vec<u64>, link: &Option<Link>) -> Result<(), NoMemory>
    ensures { OnOk result (ended.new.items ≡ ended.old.items ++ number_of link.now) }
{
    if let Some(link) = link {
        ended.push(link.number)?;
    }
    Ok(())
}

fn has_number(link: &Option<Link>, number: u64) -> bool
    ensures { result ≡ has_number number link.now }
{
    match link {
        Some(link) => link.number == number,
        None => false,
    }
}

/// The place of the connection with a number.
fn place_of(links: &[Option<Link>], number: u64) -> Option<usize>
    ensures found { IfSome result (IsAt number links.now) }
    ensures none { IfNone result (IsNowhere number links.now) }
{
    for place in 0..links.len() {
        if has_number(&links[place], number) {
            return Some(place);
        }
    }
    None
}

/// Takes the bytes that a connection has brought. Returns `false` if a frame is wrong.
#[tactic(auto, using(crate::proofs::Taking::takes_from))]
fn take_bytes(
    alloc: Global,
    link: &mut Link,
    arrivals: &mut Vec<Arrival>,
    line: u64,
    bytes: &[u8],
) -> Result<bool, NoMemory>
    ensures takes { IfOk result (λ right. TakesFrom line bytes.now link.old arrivals.old.items right link.new arrivals.new.items) }
{
    link.decoder.push(bytes)?;
    take_packets(alloc, &mut link.decoder, arrivals, line)
}

/// The connection at a place has brought bytes. It is dropped if a frame is wrong.
#[tactic(auto, using(crate::proofs::Taking::adds_right, crate::proofs::Taking::adds_wrong))]
fn bring_at(
    alloc: Global,
    link: &mut Option<Link>,
    heard: &mut Heard,
    place: usize,
    line: u64,
    bytes: &[u8],
) -> Result<(), NoMemory>
    requires { place < 18446744073709551615 }
    ensures { OnOk result (IfSome link.old (Adds place line bytes.now link.new heard.old.arrivals.items heard.new.arrivals.items
        heard.old.ended.items heard.new.ended.items)) }
{
    let Some(connection) = link else {
        return Ok(());
    };
    if take_bytes(alloc, connection, &mut heard.arrivals, line, bytes)? {
        return Ok(());
    }
    heard.arrivals.push(Arrival::Closed(place + 1))?;
    heard.ended.push(line)?;
    *link = None;
    Ok(())
}
