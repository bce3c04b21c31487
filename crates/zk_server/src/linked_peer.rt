ghost use Rattle.std.specs.Prelude.{◌≡◌};

use crate::member::Member;
use crate::mode::Mode;
use crate::quorum_peer::QuorumPeer;
use crate::stopped::Stopped;
use std::alloc::Global;
use zab_host::{Storage, StoreFault};
use zk_peer_links::{Chunk, Heard, LinkInput, Links, Notice};

/// What a turn writes to a server's links.
#[derive(Drop)]
pub struct Written {
    /// The bytes for each server, by place: those for server 1 are first.
    pub outputs: Vec<Chunk>,
    /// The connections that are to be ended.
    pub ended: Vec<u64>,
}

/// A server's part in its ensemble, and its links to the others as bytes.
pub struct LinkedPeer<S: Storage> {
    peer: QuorumPeer<S>,
    links: Links,
    ghost mine: { links.me ≡ peer.me.number },
}

impl<S: Storage + Drop> Drop for LinkedPeer<S> {
    fn drop(self) {
        let LinkedPeer { peer: _, links: _ } = self;
    }
}

impl<S: Storage> LinkedPeer<S> {
    ghost use Rattle.std.specs.Prelude.{true, false, Err, IfOk, OnErr};
    ghost use Rattle.zk_server.specs.declared.stopped.Stopped.TheVariants as faults;
    ghost use Rattle.zk_server.specs.LinkedPeers.{linked, LinkedStarts, LinkedStops, LinkedTurns};
    ghost use Rattle.zk_server.specs.Peers.{peer};
    ghost use Rattle.zk_server.specs.Elections.{notice_of};
    ghost use Rattle.zk_server.specs.Modes.{mode_at};
    ghost use Rattle.zk_server.specs.Sites.{is_running, storage_in};

    /// Starts a server on what its store recovers. It has no connection.
    pub fn start(alloc: Global, me: Member, storage: S) -> Result<LinkedPeer<S>, StoreFault>
        ensures { IfOk result (λ it. LinkedStarts S.is_clean S.may_recover S.boots me storage
            (linked (peer it.peer.me it.peer.election it.peer.site) it.links.links.items)) }
    {
        let Ok(links) = Links::new(alloc, usize::from(me.number), me.servers) else {
            return Err(StoreFault::NoMemory);
        };
        Ok(LinkedPeer {
            peer: QuorumPeer::start(alloc, me, storage)?,
            links,
        })
    }

    pub fn is_running(&self) -> bool
        ensures { result ≡ is_running self.now.peer.site }
    {
        self.peer.is_running()
    }

    pub fn mode(&self) -> Mode
        ensures { result ≡ mode_at self.now.peer.election.position self.now.peer.site }
    {
        self.peer.mode()
    }

    /// Its notice to its peers.
    pub fn notice(&self) -> Notice
        ensures { result ≡ notice_of self.now.peer.election }
    {
        self.peer.notice()
    }

    /// Takes what has come on its links, in order, and returns what is to be written to them, all of
    /// which rests on what is stored. After an error the server has stopped: the turn writes no byte,
    /// and its connections are to be ended.
    #[tactic(auto, using(crate::proofs::LinkedTurning::unheard, crate::proofs::LinkedTurning::turn_fails, crate::proofs::LinkedTurning::unwritten, crate::proofs::LinkedTurning::turns_all))]
    pub fn turn(&mut self, alloc: Global, inputs: &[LinkInput]) -> Result<Written, Stopped>
        ensures turns { IfOk result (λ written. LinkedTurns S.may_recover S.boots inputs.now
            (linked (peer self.old.peer.me self.old.peer.election self.old.peer.site) self.old.links.links.items)
            (linked (peer self.new.peer.me self.new.peer.election self.new.peer.site) self.new.links.links.items)
            written.outputs.items written.ended.items) }
        ensures stops { is_running self.old.peer.site ≡ true → OnErr result (LinkedStops S.may_recover S.boots inputs.now
            (linked (peer self.old.peer.me self.old.peer.election self.old.peer.site) self.old.links.links.items)
            (linked (peer self.new.peer.me self.new.peer.election self.new.peer.site) self.new.links.links.items)) }
        ensures idle { is_running self.old.peer.site ≡ false → (result ≡ Err faults.Before)
            × (linked (peer self.new.peer.me self.new.peer.election self.new.peer.site) self.new.links.links.items
            ≡ linked (peer self.old.peer.me self.old.peer.election self.old.peer.site) self.old.links.links.items) }
    {
        if !self.peer.is_running() {
            return Err(Stopped::Before);
        }
        let Ok(Heard { arrivals, ended }) = self.links.hear(alloc, inputs) else {
            return Err(self.stop());
        };
        let posted = match self.peer.turn(alloc, &arrivals) {
            Ok(posted) => posted,
            Err(why) => {
                self.links.close_all();
                return Err(why);
            }
        };
        match self
            .links
            .write(alloc, &posted.notice, &[], &posted.messages)
        {
            Ok(outputs) => Ok(Written { outputs, ended }),
            Err(_) => Err(self.stop()),
        }
    }

    /// Out of memory: the server stops, and has its store alone.
    fn stop(&mut self) -> Stopped
        ensures me { self.new.peer.me ≡ self.old.peer.me }
        ensures election { self.new.peer.election ≡ self.old.peer.election }
        ensures site { self.new.peer.site ≡ sites.Stopped (storage_in self.old.peer.site) }
        ensures links { self.new.links.links.items ≡ none_of self.old.links.links.items }
    {
        self.peer.stop();
        self.links.close_all();
        Stopped::NoMemory
    }

    ghost use Rattle.zk_peer_links.specs.Links.{none_of};
    ghost use Rattle.zk_server.specs.declared.site.Site.TheVariants as sites;

    /// Ends its process, and returns its store for the next start; `None` if a start on it failed.
    pub fn into_storage(self) -> Option<S>
        ensures { result ≡ storage_in self.peer.site }
    {
        let LinkedPeer { peer, links: _ } = self;
        peer.into_storage()
    }
}
