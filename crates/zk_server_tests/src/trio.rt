//! Three servers, and links in memory.

ghost use Rattle.zab_epoch.specs.Shortness.{IsShortBody};
ghost use Rattle.std.specs.Prelude.{IfOk, IfSome};

use std::alloc::Global;
use zab_epoch::{Body, Message, Messages};
use zab_host::MemoryStorage;
use zk_path::NoMemory;
use zk_requests::Call;
use zk_server::{Arrival, Member, Posted, QuorumPeer};

pub type Peer = QuorumPeer<MemoryStorage>;

/// The servers, and what waits for each.
pub struct Trio {
    pub alloc: Global,
    pub peers: Vec<Peer>,
    pub waiting: Vec<Vec<Arrival>>,
    /// Servers with no link.
    pub cut: Vec<usize>,
}

impl Drop for Trio {
    fn drop(self) {
        let Trio {
            alloc: _,
            peers: _,
            waiting: _,
            cut: _,
        } = self;
    }
}

/// Starts servers on empty stores.
pub fn start(alloc: Global, servers: u8) -> Option<Trio> {
    let mut peers = Vec::new(alloc);
    let mut waiting = Vec::new(alloc);
    for index in 0..servers {
        let me = Member {
            number: index.saturating_add(1),
            servers: usize::from(servers),
        };
        let peer = QuorumPeer::start(alloc, me, MemoryStorage::new(alloc)).ok()?;
        peers.push(peer).ok()?;
        waiting.push(Vec::new(alloc)).ok()?;
    }
    Some(Trio {
        alloc,
        peers,
        waiting,
        cut: Vec::new(alloc),
    })
}

/// A copy of a message.
fn copied(alloc: Global, message: &Message<Call>) -> Option<Messages<Call>> {
    let body = match &message.body {
        Body::CEpoch { promised } => Body::CEpoch {
            promised: *promised,
        },
        Body::NewEpoch { epoch } => Body::NewEpoch { epoch: *epoch },
        Body::AckEpoch {
            epoch,
            vote,
            current,
            last,
        } => Body::AckEpoch {
            epoch: *epoch,
            vote: *vote,
            current: *current,
            last: *last,
        },
        Body::NewLeader { epoch, keep, rest } => Body::NewLeader {
            epoch: *epoch,
            keep: *keep,
            rest: rest.copy().ok()?,
        },
        Body::AckLeader { epoch, length } => Body::AckLeader {
            epoch: *epoch,
            length: *length,
        },
        Body::Ack { epoch, length } => Body::Ack {
            epoch: *epoch,
            length: *length,
        },
        Body::Commit { epoch, length } => Body::Commit {
            epoch: *epoch,
            length: *length,
        },
        _ => return None,
    };
    let mut one = Messages::new(alloc);
    one.send(message.sender, message.addressee, body).ok()?;
    Some(one)
}

impl Trio {
    fn is_cut(&self, server: usize) -> bool {
        self.cut.iter().any(|it| *it == server)
    }

    /// Gives each other server a notice, and each addressee its messages.
    fn post(&mut self, sender: usize, posted: &Posted) -> Option<()> {
        for index in 0..self.waiting.len() {
            let peer = index.saturating_add(1);
            if peer != sender && !self.is_cut(peer) && !self.is_cut(sender) {
                let arrival = Arrival::Notice(posted.notice);
                self.waiting.get_mut(index)?.push(arrival).ok()?;
            }
        }
        for index in 0..posted.messages.len() {
            let message = posted.messages.as_slice().get(index)?;
            let peer = message.addressee;
            if !self.is_cut(peer) && !self.is_cut(sender) {
                let messages = copied(self.alloc, message)?;
                let line = (sender as u64)
                    .saturating_mul(16)
                    .saturating_add(peer as u64);
                let arrival = Arrival::Mail { line, messages };
                self.waiting
                    .get_mut(peer.checked_sub(1)?)?
                    .push(arrival)
                    .ok()?;
            }
        }
        Some(())
    }

    /// A turn of each server.
    pub fn round(&mut self) -> Option<()> {
        for index in 0..self.peers.len() {
            let arrivals = self.waiting.get_mut(index)?;
            let taken = std::mem::replace(arrivals, Vec::new(self.alloc));
            let peer = self.peers.get_mut(index)?;
            let posted = peer.turn(self.alloc, &taken).ok()?;
            self.post(index.saturating_add(1), &posted)?;
        }
        Some(())
    }

    /// Some rounds.
    pub fn rounds(&mut self, count: usize) -> Option<()> {
        for _ in 0..count {
            self.round()?;
        }
        Some(())
    }

    /// A server hears nothing more of the others, nor they of it.
    pub fn cut_off(&mut self, server: usize) -> Option<()> {
        self.cut.push(server).ok()?;
        for index in 0..self.waiting.len() {
            let peer = index.saturating_add(1);
            if peer != server {
                let arrival = Arrival::Closed(server);
                self.waiting.get_mut(index)?.push(arrival).ok()?;
            } else {
                for other in 1..=self.waiting.len() {
                    self.waiting
                        .get_mut(index)?
                        .push(Arrival::Closed(other))
                        .ok()?;
                }
            }
        }
        Some(())
    }

    /// The leader that each server's next turn names, and whether it serves.
    pub fn leaders(&mut self) -> Vec<usize> {
        let mut leaders = Vec::new(self.alloc);
        for index in 0..self.peers.len() {
            let Some(peer) = self.peers.get_mut(index) else {
                return leaders;
            };
            let leader = match peer.turn(self.alloc, &[]) {
                Ok(posted) => posted.notice.leader,
                Err(_) => 99,
            };
            let _ = leaders.push(leader);
        }
        leaders
    }
}
