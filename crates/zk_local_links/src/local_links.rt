ghost use Rattle.std.specs.Prelude.{◌≡◌, IfOk, OnOk};
ghost use Rattle.zk_local_links.specs.LocalLinks.{LocalView, local};

use crate::inbox::Inbox;
use std::alloc::Global;
use std::marker::Model;
use zk_path::NoMemory;
use zk_peer_links::{Chunk, LinkInput};

/// The greatest number at which two more are left.
const MOST_USED: u64 = 18_446_744_073_709_551_613;

/// The links between the servers of one process. Servers have places: server 1 is at 0. A connection has
/// two numbers, one for each end that reads; no number is used twice.
///
/// After an allocation failure, the links are of no more use.
#[derive(Debug, Drop)]
pub struct LocalLinks {
    alloc: Global,
    inboxes: Vec<Inbox>,
    /// The number that was used last.
    used: u64,
}

impl Model for LocalLinks {
    ghost Value = { LocalView };

    ghost view = { λ it. local it.inboxes.items it.used };
}

impl LocalLinks {
    ghost use Rattle.std.specs.Prelude.{◌<◌, ◌==◌, [], length, not, if◌then◌else◌};
    ghost use Rattle.zk_local_links.specs.Inboxes.{brought, closed, emptied, inputs_at, led, line_at, opened};
    ghost use Rattle.zk_local_links.specs.LocalLinks.{at, connected, disconnected, has_numbers, isolated, new_links, opens, posted};

    /// Links of servers that have no connection.
    pub fn new(alloc: Global, servers: usize) -> Result<LocalLinks, NoMemory>
        ensures { IfOk result (λ it. it ≡ new_links servers) }
    {
        let mut inboxes = Vec::new(alloc);
        for place in 0..servers {
            inboxes.push(Inbox::new(alloc, servers)?)?;
        }
        Ok(LocalLinks {
            alloc,
            inboxes,
            used: 0,
        })
    }

    /// Whether something has come to a server since its last turn.
    pub fn has_input(&self, place: usize) -> bool
        ensures { result ≡ not (length (inputs_at place self.now.boxes) == 0) }
    {
        if place < self.inboxes.len() {
            !self.inboxes[place].is_empty()
        } else {
            false
        }
    }

    /// Whether a server writes to another on a connection.
    pub fn is_open(&self, reader: usize, writer: usize) -> bool
        ensures { result ≡ not (line_at reader writer self.now.boxes == 0) }
    {
        if reader < self.inboxes.len() {
            self.inboxes[reader].is_open(writer)
        } else {
            false
        }
    }

    /// Takes what has come to a server, in order.
    #[tactic(auto, using(crate::proofs::Changing::changed_is, crate::proofs::Changing::none_changed, crate::proofs::Changing::no_inputs))]
    pub fn take(&mut self, place: usize) -> Vec<LinkInput>
        ensures taken { result.items ≡ inputs_at place self.old.boxes }
        ensures left { self.new ≡ at place emptied self.old }
    {
        if place < self.inboxes.len() {
            self.inboxes[place].take(self.alloc)
        } else {
            Vec::new(self.alloc)
        }
    }

    /// An operator makes a server lead.
    #[tactic(auto, using(crate::proofs::Changing::changed_is, crate::proofs::Changing::none_changed))]
    pub fn lead(&mut self, place: usize) -> Result<(), NoMemory>
        ensures { OnOk result (self.new ≡ at place led self.old) }
    {
        if place < self.inboxes.len() {
            self.inboxes[place].lead()?;
        }
        Ok(())
    }

    /// Whether two numbers are left for a connection.
    fn has_numbers(&self) -> bool
        ensures { result ≡ has_numbers self.now }
    {
        self.used <= MOST_USED
    }

    /// Opens a connection between two servers. One that they have ends. Once the numbers are used up,
    /// there is none.
    #[tactic(auto, using(crate::proofs::Changing::within_disconnected, crate::proofs::Changing::within_opened))]
    pub fn connect(&mut self, one: usize, other: usize) -> Result<(), NoMemory>
        requires one { one < length self.old.boxes }
        requires other { other < length self.old.boxes }
        ensures { OnOk result (self.new ≡ (if has_numbers self.old then connected one other self.old else disconnected one other self.old)) }
    {
        self.disconnect(one, other)?;
        if !self.has_numbers() {
            return Ok(());
        }
        self.open(one, other)?;
        self.open(other, one)
    }

    /// A server writes to another on a new connection from now on.
    #[tactic(auto, using(crate::proofs::Changing::changed_is, crate::proofs::Changing::none_changed))]
    fn open(&mut self, reader: usize, writer: usize) -> Result<(), NoMemory>
        requires left { self.old.used < 18446744073709551615 }
        requires writer { writer < length self.old.boxes }
        ensures { OnOk result (self.new ≡ opens reader writer self.old) }
    {
        self.used += 1;
        if reader < self.inboxes.len() {
            self.inboxes[reader].open(writer, self.used)?;
        }
        Ok(())
    }

    /// Ends the connection between two servers, if there is one, after what they have written.
    pub fn disconnect(&mut self, one: usize, other: usize) -> Result<(), NoMemory>
        ensures { OnOk result (self.new ≡ disconnected one other self.old) }
    {
        self.close(one, other)?;
        self.close(other, one)
    }

    #[tactic(auto, using(crate::proofs::Changing::changed_is, crate::proofs::Changing::none_changed))]
    fn close(&mut self, reader: usize, writer: usize) -> Result<(), NoMemory>
        ensures { OnOk result (self.new ≡ at reader (closed writer) self.old) }
    {
        if reader < self.inboxes.len() {
            self.inboxes[reader].close(writer)?;
        }
        Ok(())
    }

    /// Ends all connections of a server that has stopped. What had come to it is lost.
    #[tactic(auto, using(crate::proofs::Changing::apart_none, crate::proofs::Changing::apart_more))]
    pub fn isolate(&mut self, place: usize) -> Result<(), NoMemory>
        ensures { OnOk result (self.new ≡ isolated place self.old) }
    {
        for other in 0..self.inboxes.len() {
            self.disconnect(place, other)?;
        }
        let lost = self.take(place);
        drop(lost);
        Ok(())
    }

    /// A server has written to the others: to each the bytes at its place, which come after what it has
    /// written before.
    #[tactic(auto, using(crate::proofs::Changing::posts_more, crate::proofs::Changing::posts_none, crate::proofs::Changing::more_posted))]
    pub fn post(&mut self, writer: usize, outputs: Vec<Chunk>) -> Result<(), NoMemory>
        ensures { OnOk result (self.new ≡ posted writer outputs.items self.old) }
    {
        let mut reader = 0usize;
        for bytes in outputs {
            self.bring(reader, writer, bytes)?;
            reader = reader.saturating_add(1);
        }
        Ok(())
    }

    #[tactic(auto, using(crate::proofs::Changing::changed_is, crate::proofs::Changing::none_changed))]
    fn bring(&mut self, reader: usize, writer: usize, bytes: Chunk) -> Result<(), NoMemory>
        ensures { OnOk result (self.new ≡ at reader (brought writer bytes) self.old) }
    {
        if reader < self.inboxes.len() {
            self.inboxes[reader].bring(writer, bytes)?;
        }
        Ok(())
    }
}
