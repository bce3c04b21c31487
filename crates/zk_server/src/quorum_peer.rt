ghost use Rattle.zk_server.specs.Sites.{IsSettled};

use crate::election::Election;
use crate::member::Member;
use crate::mode::Mode;
use crate::site::Site;
use crate::stopped::Stopped;
use crate::turn::run;
use std::alloc::Global;
use std::mem::replace;
use zab_epoch::Messages;
use zab_host::{Storage, StoreFault};
use zk_host::ReplicaHost;
use zk_peer_links::{Arrival, Notice};
use zk_requests::Call;

/// What a turn gives its peers.
pub struct Posted {
    /// For each peer, if it is not the last that the peer was sent.
    pub notice: Notice,
    /// Each for its addressee.
    pub messages: Messages<Call>,
}

impl Drop for Posted {
    fn drop(self) {
        let Posted {
            notice: _,
            messages: _,
        } = self;
    }
}

/// A server's part in its ensemble: its host and its election, without clients. While it runs, all
/// that it has is stored, and it has nothing to send.
pub struct QuorumPeer<S: Storage> {
    me: Member,
    election: Election,
    site: Site<S>,
    ghost settled: { IsSettled S.may_recover me site },
}

impl<S: Storage + Drop> Drop for QuorumPeer<S> {
    fn drop(self) {
        let QuorumPeer {
            me: _,
            election: _,
            site: _,
        } = self;
    }
}

impl<S: Storage> QuorumPeer<S> {
    ghost use Rattle.std.specs.Prelude.{◌≡◌, true, false, Err, IfOk, OnErr};
    ghost use Rattle.zk_server.specs.declared.stopped.Stopped.TheVariants as faults;
    ghost use Rattle.zk_server.specs.Elections.{new_election, notice_of};
    ghost use Rattle.zk_server.specs.Peers.{peer, StartsAt, Stops, Turns};
    ghost use Rattle.zk_server.specs.Modes.{mode_at};
    ghost use Rattle.zk_server.specs.Sites.{is_running, storage_in};

    /// Starts a server on what its store recovers. It looks for a leader.
    pub fn start(alloc: Global, me: Member, storage: S) -> Result<QuorumPeer<S>, StoreFault>
        ensures { IfOk result (λ it. StartsAt S.is_clean S.may_recover S.boots me storage
            (peer it.me it.election it.site)) }
    {
        let host = ReplicaHost::start(alloc, me.servers, me.number, storage)?;
        let election = Election::new(alloc, me.servers, host.vote());
        Ok(QuorumPeer {
            me,
            election,
            site: Site::Runs(host),
        })
    }

    pub fn is_running(&self) -> bool
        ensures { result ≡ is_running self.now.site }
    {
        self.site.is_running()
    }

    pub fn mode(&self) -> Mode
        ensures { result ≡ mode_at self.now.election.position self.now.site }
    {
        self.site.mode(self.election.position())
    }

    /// Its notice to its peers.
    pub fn notice(&self) -> Notice
        ensures { result ≡ notice_of self.now.election }
    {
        self.election.notice()
    }

    /// Takes what has arrived, in order, and returns what is to be sent, all of which is stored. After
    /// an error the server has stopped: no message of the turn is sent, and it runs again once it starts
    /// on its store.
    pub fn turn(&mut self, alloc: Global, arrivals: &[Arrival]) -> Result<Posted, Stopped>
        ensures turns { IfOk result (λ posted. Turns S.may_recover S.boots arrivals.now
            (peer self.old.me self.old.election self.old.site)
            (peer self.new.me self.new.election self.new.site) posted.messages) }
        ensures notice { IfOk result (λ posted. posted.notice ≡ notice_of self.new.election) }
        ensures stops { is_running self.old.site ≡ true → OnErr result (Stops S.may_recover S.boots arrivals.now
            (peer self.old.me self.old.election self.old.site)
            (peer self.new.me self.new.election self.new.site)) }
        ensures idle { is_running self.old.site ≡ false → (result ≡ Err faults.Before)
            × (peer self.new.me self.new.election self.new.site ≡ peer self.old.me self.old.election self.old.site) }
    {
        match replace(&mut self.site, Site::Stopped(None)).into_host() {
            Ok(host) => {
                let (site, turned) = run(alloc, self.me, &mut self.election, host, arrivals);
                self.site = site;
                let messages = turned?;
                Ok(Posted {
                    notice: self.election.notice(),
                    messages,
                })
            }
            Err(storage) => {
                self.site = Site::Stopped(storage);
                Err(Stopped::Before)
            }
        }
    }

    /// Ends its process. It has its store alone.
    pub fn stop(&mut self)
        ensures me { self.new.me ≡ self.old.me }
        ensures election { self.new.election ≡ self.old.election }
        ensures site { self.new.site ≡ sites.Stopped (storage_in self.old.site) }
    {
        let site = replace(&mut self.site, Site::Stopped(None));
        self.site = Site::Stopped(site.into_storage());
    }

    ghost use Rattle.zk_server.specs.declared.site.Site.TheVariants as sites;

    /// Ends its process, and returns its store for the next start; `None` if a start on it failed.
    pub fn into_storage(self) -> Option<S>
        ensures { result ≡ storage_in self.site }
    {
        let QuorumPeer {
            me: _,
            election: _,
            site,
        } = self;
        site.into_storage()
    }
}
