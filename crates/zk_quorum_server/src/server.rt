ghost use Rattle.zk_quorum_server.specs.Servers.{IsAtRest};

use crate::removal::drop_watches_at;
use crate::turn::step;
use std::alloc::Global;
use std::mem::replace;
use zab_epoch::Messages;
use zab_host::{Storage, StoreFault};
use zk_client_port::{Admission, ClientPort};
use zk_connections::{ClientSessions, PASSWORD_BYTES};
use zk_host::ReplicaHost;
use zk_path::NoMemory;
use zk_peer_links::Arrival;
use zk_requests::Call;
use zk_server::{Election, Member, Posted, Site, Stopped};

/// A server of an ensemble: its host, its election and its clients. While it runs, all that it has is
/// stored, and between two turns it has nothing to send or to write.
pub struct Server<S: Storage> {
    me: Member,
    election: Election,
    site: Site<S>,
    /// Its clients. What is heard on their connections is executed in the next turn.
    pub port: ClientPort,
    admission: Admission,
    ghost rests: { IsAtRest S.may_recover me site },
}

impl<S: Storage + Drop> Drop for Server<S> {
    fn drop(self) {
        let Server {
            me: _,
            election: _,
            site: _,
            port: _,
            admission: _,
        } = self;
    }
}

impl<S: Storage> Server<S> {
    ghost use Rattle.std.specs.Prelude.{◌≡◌, true, false, IfOk, OnOk, OnErr, IsErr};
    ghost use Rattle.zk_quorum_server.specs.Servers.{with_clients, StartsAt, Stops, Turns};
    ghost use Rattle.zk_server.specs.Elections.{notice_of};
    ghost use Rattle.zk_server.specs.Peers.{peer};
    ghost use Rattle.zk_server.specs.Sites.{is_running, storage_in};

    /// Starts a server on what its store recovers. It looks for a leader, and has no connections. The
    /// secret makes the passwords of sessions: all servers of an ensemble have the same.
    pub fn start(
        alloc: Global,
        me: Member,
        storage: S,
        secret: [u8; PASSWORD_BYTES],
    ) -> Result<Server<S>, StoreFault>
        ensures { IfOk result (λ it. StartsAt S.is_clean S.may_recover S.boots me storage
            (with_clients (peer it.me it.election it.site) it.port.hub it.port.connections.items it.admission)) }
    {
        let host = ReplicaHost::start(alloc, me.servers, me.number, storage)?;
        let election = Election::new(alloc, me.servers, host.vote());
        Ok(Server {
            me,
            election,
            site: Site::Runs(host),
            port: ClientPort::new(alloc),
            admission: Admission {
                sessions: ClientSessions::new(alloc),
                secret,
            },
        })
    }

    pub fn is_running(&self) -> bool
        ensures { result ≡ is_running self.now.site }
    {
        self.site.is_running()
    }

    /// Takes what has arrived, in order, and what its election decides, and what its clients have sent;
    /// stores all of it; writes to the clients what it has delivered; and returns what is to be sent to
    /// the peers. `now` is in milliseconds.
    ///
    /// After an error the server has stopped: no message of the turn is sent, and no byte of it is
    /// written, since its connections are closed. It runs again once it starts on its store.
    pub fn turn(&mut self, alloc: Global, arrivals: &[Arrival], now: i64) -> Result<Posted, Stopped>
        ensures turns { IfOk result (λ posted. Turns S.may_recover S.boots arrivals.now now
            (with_clients (peer self.old.me self.old.election self.old.site) self.old.port.hub self.old.port.connections.items self.old.admission)
            (with_clients (peer self.new.me self.new.election self.new.site) self.new.port.hub self.new.port.connections.items self.new.admission) posted.messages) }
        ensures notice { IfOk result (λ posted. posted.notice ≡ notice_of self.new.election) }
        ensures stops { is_running self.old.site ≡ true → OnErr result (Stops S.may_recover S.boots arrivals.now
            (with_clients (peer self.old.me self.old.election self.old.site) self.old.port.hub self.old.port.connections.items self.old.admission)
            (with_clients (peer self.new.me self.new.election self.new.site) self.new.port.hub self.new.port.connections.items self.new.admission)) }
        ensures idle { is_running self.old.site ≡ false → IsErr result
            × (with_clients (peer self.new.me self.new.election self.new.site) self.new.port.hub self.new.port.connections.items self.new.admission
            ≡ with_clients (peer self.old.me self.old.election self.old.site) self.old.port.hub self.old.port.connections.items self.old.admission) }
    {
        match replace(&mut self.site, Site::Stopped(None)).into_host() {
            Ok(host) => {
                let (site, turned) = run(
                    alloc,
                    self.me,
                    &mut self.election,
                    host,
                    &mut self.port,
                    &mut self.admission,
                    arrivals,
                    now,
                );
                self.site = site;
                let messages = turned?;
                Ok(Posted {
                    notice: self.election.notice(),
                    messages,
                })
            }
            Err(storage) => {
                self.site = Site::Stopped(storage);
                Err(Stopped::Before)
            }
        }
    }

    /// Removes the connections that are over, with their outstanding requests and their watches. Their
    /// sessions go on to their deadlines. Returns their numbers. After an allocation failure, nothing has
    /// changed.
    pub fn remove_over(&mut self, alloc: Global) -> Result<Vec<u64>, NoMemory>
        ensures numbers { IfOk result (λ over. over.items ≡ numbers_over self.old.port.connections.items) }
        ensures removed { OnOk result (with_clients (peer self.new.me self.new.election self.new.site) self.new.port.hub self.new.port.connections.items self.new.admission
            ≡ without_over_at (with_clients (peer self.old.me self.old.election self.old.site) self.old.port.hub self.old.port.connections.items self.old.admission)) }
        ensures unchanged { OnErr result (with_clients (peer self.new.me self.new.election self.new.site) self.new.port.hub self.new.port.connections.items self.new.admission
            ≡ with_clients (peer self.old.me self.old.election self.old.site) self.old.port.hub self.old.port.connections.items self.old.admission) }
    {
        let over = self.port.remove_over(alloc, &mut self.admission)?;
        drop_watches_at(&mut self.site, &over);
        Ok(over)
    }

    ghost use Rattle.zk_client_port.specs.Ports.{numbers_over};
    ghost use Rattle.zk_quorum_server.specs.Removals.{without_over_at};

    /// Ends its process, and returns its store for the next start; `None` if a start on it failed.
    pub fn into_storage(self) -> Option<S>
        ensures { result ≡ storage_in self.site }
    {
        let Server {
            me: _,
            election: _,
            site,
            port: _,
            admission: _,
        } = self;
        site.into_storage()
    }
}

ghost use Rattle.std.specs.Prelude.{◌≡◌, []};
ghost use Rattle.zk_client_port.specs.Turns.{server};
ghost use Rattle.zk_quorum_server.specs.Servers.{Ran};
ghost use Rattle.zk_quorum_server.specs.Turns.{HasRoom};
ghost use Rattle.zk_server.specs.Sites.{IsReady};

/// A turn of a host and its clients. If it fails, the host stops and leaves its store, and the
/// connections are closed.
#[tactic(auto, using(crate::proofs::Settling::served_on, crate::proofs::Settling::stopped_on))]
fn run<S: Storage>(
    alloc: Global,
    me: Member,
    election: &mut Election,
    host: ReplicaHost<S>,
    port: &mut ClientPort,
    admission: &mut Admission,
    arrivals: &[Arrival],
    now: i64,
) -> (Site<S>, Result<Messages<Call>, Stopped>)
    requires ready { IsReady S.may_recover me host }
    requires written { host.tree.news ≡ [] }
    ensures { Ran S.may_recover S.boots me arrivals.now now
        election.old (server host port.old.hub port.old.connections.items admission.old) election.new
        port.new.hub port.new.connections.items admission.new result.0 result.1 }
{
    let mut host = host;
    let turned = step(
        alloc, me, election, &mut host, port, admission, arrivals, now,
    );
    let host = with_room(host);
    match turned {
        Ok(messages) => (Site::Runs(host), Ok(messages)),
        Err(why) => {
            *port = ClientPort::new(alloc);
            (Site::Stopped(Some(host.into_storage())), Err(why))
        }
    }
}

/// The same host. The count of its tags fits its type.
fn with_room<S: Storage>(host: ReplicaHost<S>) -> ReplicaHost<S>
    ensures same { result ≡ host }
    ensures room { HasRoom result }
{
    host
}
