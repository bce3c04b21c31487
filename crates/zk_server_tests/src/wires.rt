//! Three servers, and connections whose bytes come in chunks of drawn sizes.

use std::alloc::Global;
use std::mem::replace;
use zab_epoch::{Body, Message, Payload};
use zab_frames::write_message;
use zab_host::MemoryStorage;
use zk_acl::Ids;
use zk_peer_links::{Chunk, LinkInput};
use zk_requests::{Call, Request};
use zk_server::{LinkedPeer, Member, Written};

/// How many servers there are.
const SERVERS: usize = 3;

/// One direction of a connection.
pub struct Wire {
    pub from: usize,
    pub to: usize,
    /// 0 while the connection is cut.
    line: u64,
    /// The bytes that are under way.
    bytes: Vec<u8>,
}

impl Drop for Wire {
    fn drop(self) {
        let Wire {
            from: _,
            to: _,
            line: _,
            bytes: _,
        } = self;
    }
}

/// The servers, their connections, and what else happens to these before each server's next turn.
pub struct Wires {
    pub alloc: Global,
    pub peers: Vec<LinkedPeer<MemoryStorage>>,
    wires: Vec<Wire>,
    waiting: Vec<Vec<LinkInput>>,
    lines: u64,
    seed: u64,
}

impl Drop for Wires {
    fn drop(self) {
        let Wires {
            alloc: _,
            peers: _,
            wires: _,
            waiting: _,
            lines: _,
            seed: _,
        } = self;
    }
}

/// A server on an empty store.
pub fn start_peer(alloc: Global, number: u8) -> Option<LinkedPeer<MemoryStorage>> {
    let me = Member {
        number,
        servers: SERVERS,
    };
    LinkedPeer::start(alloc, me, MemoryStorage::new(alloc)).ok()
}

/// Three servers without connections.
pub fn start(alloc: Global, seed: u64) -> Option<Wires> {
    let mut peers = Vec::new(alloc);
    let mut wires = Vec::new(alloc);
    let mut waiting = Vec::new(alloc);
    for number in 1..=3u8 {
        peers.push(start_peer(alloc, number)?).ok()?;
        waiting.push(Vec::new(alloc)).ok()?;
        for to in 1..=SERVERS {
            let wire = Wire {
                from: usize::from(number),
                to,
                line: 0,
                bytes: Vec::new(alloc),
            };
            wires.push(wire).ok()?;
        }
    }
    Some(Wires {
        alloc,
        peers,
        wires,
        waiting,
        lines: 0,
        seed,
    })
}

impl Wires {
    /// A drawn number below `bound`, which is not 0.
    fn draw(&mut self, bound: u64) -> u64 {
        self.seed = self
            .seed
            .wrapping_mul(6_364_136_223_846_793_005)
            .wrapping_add(1_442_695_040_888_963_407);
        (self.seed >> 33).checked_rem(bound).unwrap_or(0)
    }

    fn wire(&mut self, from: usize, to: usize) -> Option<&mut Wire> {
        let place = from.checked_sub(1)?.checked_mul(SERVERS)?;
        self.wires.get_mut(place.checked_add(to)?.checked_sub(1)?)
    }

    fn is_cut(&mut self, from: usize, to: usize) -> Option<bool> {
        Some(self.wire(from, to)?.line == 0)
    }

    fn tell(&mut self, server: usize, input: LinkInput) -> Option<()> {
        self.waiting
            .get_mut(server.checked_sub(1)?)?
            .push(input)
            .ok()
    }

    /// Ends one direction. What is under way on it is lost.
    fn end(&mut self, from: usize, to: usize) -> Option<()> {
        let alloc = self.alloc;
        let wire = self.wire(from, to)?;
        let line = replace(&mut wire.line, 0);
        wire.bytes = Vec::new(alloc);
        self.tell(to, LinkInput::Closed { line })
    }

    /// Opens one direction.
    fn begin(&mut self, from: usize, to: usize) -> Option<()> {
        self.lines = self.lines.checked_add(1)?;
        let line = self.lines;
        self.wire(from, to)?.line = line;
        self.tell(to, LinkInput::Opened { peer: from, line })
    }

    /// Cuts the connection of two servers, or opens it again: one time of `cuts`.
    pub fn change(&mut self, one: usize, other: usize, cuts: u64) -> Option<()> {
        if self.is_cut(one, other)? {
            self.begin(one, other)?;
            return self.begin(other, one);
        }
        if cuts != 0 && self.draw(cuts) == 0 {
            self.end(one, other)?;
            return self.end(other, one);
        }
        Some(())
    }

    /// The first bytes that are under way, up to a drawn number of at most `most`.
    fn bring(&mut self, from: usize, to: usize, most: u64) -> Option<()> {
        let alloc = self.alloc;
        let count = self.draw(most.checked_add(1)?) as usize;
        let wire = self.wire(from, to)?;
        let line = wire.line;
        let all = replace(&mut wire.bytes, Vec::new(alloc));
        let mut head = Vec::new(alloc);
        let mut tail = Vec::new(alloc);
        for (place, byte) in all.iter().enumerate() {
            if place < count {
                head.push(*byte).ok()?;
            } else {
                tail.push(*byte).ok()?;
            }
        }
        wire.bytes = tail;
        if line == 0 || head.is_empty() {
            return Some(());
        }
        let bytes = Chunk::new(head);
        self.tell(to, LinkInput::Brought { line, bytes })
    }

    /// Puts what a server has written on its connections.
    fn send(&mut self, from: usize, written: Written) -> Option<()> {
        for place in 0..written.outputs.len() {
            let chunk = written.outputs.get(place)?;
            let wire = self.wire(from, place.checked_add(1)?)?;
            if wire.line != 0 {
                wire.bytes.extend_from_slice(chunk.as_slice()).ok()?;
            }
        }
        Some(())
    }

    /// A turn of a server.
    fn turn(&mut self, server: usize, most: u64) -> Option<()> {
        let alloc = self.alloc;
        for from in 1..=SERVERS {
            if from != server {
                self.bring(from, server, most)?;
            }
        }
        let waiting = self.waiting.get_mut(server.checked_sub(1)?)?;
        let inputs = replace(waiting, Vec::new(alloc));
        let peer = self.peers.get_mut(server.checked_sub(1)?)?;
        let written = peer.turn(alloc, inputs.as_slice()).ok()?;
        self.send(server, written)
    }

    /// Some rounds: in each, a connection is cut one time of `cuts`, never if that is 0, and opened
    /// again in the next; each server has a turn.
    pub fn rounds(&mut self, count: usize, cuts: u64, most: u64) -> Option<()> {
        for _ in 0..count {
            self.change(1, 2, cuts)?;
            self.change(1, 3, cuts)?;
            self.change(2, 3, cuts)?;
            for server in 1..=SERVERS {
                self.turn(server, most)?;
            }
        }
        Some(())
    }

    /// Some rounds in which no connection is cut. Whether all servers serve under one leader after
    /// each.
    pub fn stay(&mut self, count: usize, most: u64) -> bool {
        for _ in 0..count {
            if self.rounds(1, 0, most).is_none() || !self.agree() {
                return false;
            }
        }
        true
    }

    /// Whether all servers serve under one leader.
    pub fn agree(&self) -> bool {
        let Some(first) = self.peers.first() else {
            return false;
        };
        let leader = first.notice().leader;
        leader != 0
            && self
                .peers
                .iter()
                .all(|it| it.mode().serves() && it.notice().leader == leader)
    }

    /// A server forwards a client's call to the leader of the first epoch: a session of six seconds.
    pub fn forward(&mut self, from: usize, to: usize, tag: u64) -> Option<()> {
        let alloc = self.alloc;
        let call = Call {
            tag,
            session: 0,
            cxid: 0,
            auths: Ids::new(Vec::new(alloc)),
            now: 0,
            request: Request::OpenSession { timeout: 6000 },
        };
        let message = Message {
            sender: from,
            addressee: to,
            body: Body::Request {
                epoch: 1,
                call: Payload::new(alloc, call).ok()?,
            },
        };
        let wire = self.wire(from, to)?;
        write_message(alloc, &mut wire.bytes, &message).ok()
    }

    /// The leader of the first server.
    pub fn leader(&self) -> usize {
        match self.peers.first() {
            Some(first) => first.notice().leader,
            None => 0,
        }
    }

    /// The last zxid of each server's store.
    pub fn last_zxids(mut self) -> Vec<i64> {
        let alloc = self.alloc;
        let peers = replace(&mut self.peers, Vec::new(alloc));
        let mut zxids = Vec::new(alloc);
        for peer in peers {
            let _ = zxids.push(last_zxid(alloc, peer).unwrap_or(0));
        }
        zxids
    }
}

/// The zxid of a server's vote when it starts on its store.
fn last_zxid(alloc: Global, peer: LinkedPeer<MemoryStorage>) -> Option<i64> {
    let me = Member {
        number: 1,
        servers: SERVERS,
    };
    let again = LinkedPeer::start(alloc, me, peer.into_storage()?).ok()?;
    Some(again.notice().vote.zxid)
}
