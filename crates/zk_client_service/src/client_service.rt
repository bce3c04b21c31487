ghost use Rattle.std.specs.Prelude.{◌≡◌, ◌-◌, ◌<◌, ◌++◌, ◌∷◌, ◌||◌, [], length, map, slice_get, None, IfNone, IfOk, IfSome, OnErr, OnOk};
ghost use Rattle.std.specs.Ordering.{nat_cmp};
ghost use Rattle.zk_client_service.specs.Elections.{copies, new_port};
ghost use Rattle.zk_client_service.specs.Ensembles.{server_cut_off, stopped_with};
ghost use Rattle.zk_client_port.specs.Ports.{numbers_over};
ghost use Rattle.zk_client_service.specs.Expiries.{detaching};
ghost use Rattle.zk_client_service.specs.Ports.{at_server, changed_at, connections_in, cut_off, port_of, ports_of, with_new, without_ended};
ghost use Rattle.zk_client_service.specs.Services.{mode_of, place_after, place_with, stop_of, tree_after};

use crate::expiry::{adopt, close_in, renew, touch_all};
use crate::fault::ServiceFault;
use crate::turn::{cut_off_numbers, has_messages, turn_place};
use std::alloc::Global;
use std::cmp::Ordering;
use zab_epoch::Majority;
use zab_host::{Storage, StoreFault};
use zk_client_port::{Admission, ClientPort, Moment, Selection, Turned};
use zk_connections::{ClientSessions, Connection, Mode};
use zk_host::{RecordFault, ReleaseFault, ReplicaHost};
use zk_model::Event;
use zk_path::NoMemory;
use zk_peers::{PeerState, Peers, PeersFault, Place};

/// The most rounds of mail of an election, or of another command.
const MOST_ROUNDS: usize = 1_000_000;

/// The servers of an ensemble, numbered from 1, with their clients.
pub struct ClientService<S: Storage> {
    alloc: Global,
    peers: Peers<S>,
    ports: Vec<ClientPort>,
    admission: Admission,
    /// How many connections were opened.
    opened: u64,
    /// Why each server has stopped by itself, until that is taken.
    stops: Vec<Option<StoreFault>>,
}

impl<S: Storage + Drop> Drop for ClientService<S> {
    fn drop(self) {
        let ClientService {
            alloc: _,
            peers: _,
            ports: _,
            admission: _,
            opened: _,
            stops: _,
        } = self;
    }
}

impl<S: Storage> ClientService<S> {
    ghost use Rattle.std.specs.Prelude.{◌≡◌, ◌-◌, ◌<◌, ◌∷◌, [], length, Some, true, false, IfErr, IfNone, IfOk, IfSome, OnErr, OnOk, IsErrOf, IsOk};
    ghost use Rattle.zk_client_service.specs.Elections.{Begins, CrashesAt, CutsLink, ElectsIfNeeded, ElectsLeader, HealsLinks, LeadsFrom, RestartsServer, Settles, StartsEnsemble};
    ghost use Rattle.zk_client_service.specs.Ensembles.{ensemble, moment_at};
    ghost use Rattle.zk_client_service.specs.Expiries.{detaching, touching, ClosesAt, Expires, RenewsSessions};
    ghost use Rattle.zk_client_service.specs.Ports.{connections_at, over_at, ports_of, with_port, without_ended};
    ghost use Rattle.zk_client_service.specs.Rounds.{has_messages, CutsUnserved, Posts, ReceivesTo, Round, StopsServer, TurnsFor, TurnsHostTo, TurnsTo};
    ghost use Rattle.zk_client_service.specs.Services.{last_in, number_for, opened_then, places_after, places_with, ports_with, stop_at, takes, unserved_cut_off, IsSettled};
    ghost use Rattle.zk_client_service.specs.declared.fault.ServiceFault.TheVariants as faults;
    ghost use Rattle.zk_peers.specs.Peers.{host_at, is_led, is_link, is_server, is_up_at, state_of};
    ghost use Rattle.zk_peers.specs.declared.fault.PeersFault.TheVariants as peers_faults;

    /// Starts 1 to 15 servers, each on its store, and elects a leader. The passwords of sessions
    /// come from the secret.
    pub fn start(
        alloc: Global,
        storages: Vec<S>,
        secret: [u8; 16],
        now: i64,
    ) -> Result<ClientService<S>, ServiceFault>
        ensures starts { IfOk result (λ it. StartsEnsemble S.may_recover S.boots S.is_clean storages.items secret now (ensemble it)) }
        ensures few { length storages.items < 1 → IsErrOf result (faults.Peers peers_faults.Count) }
        ensures many { 15 < length storages.items → IsErrOf result (faults.Peers peers_faults.Count) }
    {
        let servers = storages.len();
        let peers = Peers::start(alloc, storages)?;
        let ports = new_ports(alloc, servers)?;
        let stops = no_stops(alloc, servers)?;
        let mut service = ClientService {
            alloc,
            peers,
            ports,
            admission: Admission {
                sessions: ClientSessions::new(alloc),
                secret,
            },
            opened: 0,
            stops,
        };
        service.elect(now)?;
        Ok(service)
    }

    /// The number of servers.
    pub fn len(&self) -> usize
        ensures { result ≡ length self.now.ports.items }
    {
        self.ports.len()
    }

    /// What a server does.
    pub fn state(&self, server: usize) -> PeerState
        ensures { result ≡ state_of self.now.peers.cuts.items self.now.peers.places.items self.now.peers.leader server }
    {
        self.peers.state(server)
    }

    /// The last transaction of a server; 0 if it is down, or has none.
    pub fn last(&self, server: usize) -> i64
        ensures { result ≡ last_in (host_at self.now.peers.places.items server) }
    {
        match self.peers.host(server) {
            Some(host) => host.last(),
            None => 0,
        }
    }

    /// The number of a server's connections.
    #[tactic(auto, using(crate::proofs::Changing::at_index))]
    pub fn connections(&self, server: usize) -> usize
        ensures { result ≡ length (connections_at (ports_of self.now.ports.items) server) }
    {
        match port_index(&self.ports, server) {
            Some(index) => count_at(&self.ports, index),
            None => 0,
        }
    }

    // ---- connections

    /// Opens a connection to a server. Returns its number; `None` if the server is down.
    pub fn open(&mut self, server: usize) -> Result<Option<u64>, NoMemory>
        ensures number { IfOk result (λ it. it ≡ number_for (takes self.old.peers.places.items (ports_of self.old.ports.items) self.old.opened server) self.old.opened) }
        ensures ports { OnOk result (ports_of self.new.ports.items
            ≡ ports_with (takes self.old.peers.places.items (ports_of self.old.ports.items) self.old.opened server) server self.old.opened (ports_of self.old.ports.items)) }
        ensures opened { OnOk result (self.new.opened ≡ opened_then (takes self.old.peers.places.items (ports_of self.old.ports.items) self.old.opened server) self.old.opened) }
        ensures unchanged { OnErr result ((ports_of self.new.ports.items ≡ ports_of self.old.ports.items) × (self.new.opened ≡ self.old.opened)) }
        ensures rest { (self.new.peers ≡ self.old.peers) × (self.new.admission ≡ self.old.admission) }
    {
        if !self.peers.is_up(server) || self.opened == u64::MAX {
            return Ok(None);
        }
        let Some(index) = port_index(&self.ports, server) else {
            return Ok(None);
        };
        let number = self.opened;
        add_connection(self.alloc, &mut self.ports, index, number)?;
        self.opened += 1;
        Ok(Some(number))
    }

    /// A connection of a server, by its number.
    pub fn connection_mut(&mut self, server: usize, number: u64) -> Option<&mut Connection>
        ensures { IfSome result (λ it. it.now.number ≡ number) }
    {
        let port = port_at_mut(&mut self.ports, server)?;
        let place = place_of(&port.connections, number)?;
        let connection = port.connections.get_mut(place)?;
        if connection.number() != number {
            return None;
        }
        Some(connection)
    }

    /// A server's connections.
    pub fn connections_mut(&mut self, server: usize) -> Option<&mut Vec<Connection>> {
        let port = port_at_mut(&mut self.ports, server)?;
        Some(&mut port.connections)
    }

    /// Removes the connections of a server that are over, and their watches. Returns their numbers.
    #[tactic(auto, using(crate::proofs::Removing::closed, crate::proofs::Removing::none_closed))]
    pub fn remove_over(&mut self, server: usize) -> Result<Vec<u64>, NoMemory>
        ensures numbers { IfOk result (λ over. over.items ≡ over_at (ports_of self.old.ports.items) server) }
        ensures connections { OnOk result (ports_of self.new.ports.items ≡ with_port server without_ended (ports_of self.old.ports.items)) }
        ensures sessions { OnOk result (self.new.admission ≡ detaching (over_at (ports_of self.old.ports.items) server) self.old.admission) }
        ensures watches { IfOk result (λ over. self.new.peers.places.items ≡ places_after over.items server self.old.peers.places.items) }
        ensures unchanged { OnErr result ((self.new.peers ≡ self.old.peers) × ((ports_of self.new.ports.items ≡ ports_of self.old.ports.items)
            × (self.new.admission ≡ self.old.admission))) }
        ensures rest { (self.new.opened ≡ self.old.opened) × (self.new.stops ≡ self.old.stops) }
    {
        let over = self.take_over(server)?;
        if let Some(place) = self.peers.place_mut(server) {
            close_connections(place, &over);
        }
        Ok(over)
    }

    /// Removes the connections of a server that are over.
    #[tactic(auto, using(crate::proofs::Removing::none_over, crate::proofs::Changing::at_no_port))]
    fn take_over(&mut self, server: usize) -> Result<Vec<u64>, NoMemory>
        ensures numbers { IfOk result (λ over. over.items ≡ over_at (ports_of self.old.ports.items) server) }
        ensures connections { OnOk result (ports_of self.new.ports.items ≡ with_port server without_ended (ports_of self.old.ports.items)) }
        ensures sessions { OnOk result (self.new.admission ≡ detaching (over_at (ports_of self.old.ports.items) server) self.old.admission) }
        ensures unchanged { OnErr result ((ports_of self.new.ports.items ≡ ports_of self.old.ports.items) × (self.new.admission ≡ self.old.admission)) }
        ensures rest { (self.new.peers ≡ self.old.peers) × ((self.new.opened ≡ self.old.opened) × (self.new.stops ≡ self.old.stops)) }
    {
        match port_index(&self.ports, server) {
            Some(index) => take_over_at(self.alloc, &mut self.ports, index, &mut self.admission),
            None => Ok(Vec::new(self.alloc)),
        }
    }

    // ---- turns

    /// Turns the servers until no mail is left, or for some rounds: what clients have sent is
    /// executed, and what it gives is written. Returns whether something is left to do.
    #[tactic(auto, using(crate::proofs::Settling::settles))]
    pub fn turn_for(&mut self, rounds: usize, now: i64) -> Result<bool, ServiceFault>
        ensures turns { IfOk result (λ waits. TurnsFor S.may_recover S.boots rounds now (ensemble self.old) (ensemble self.new) waits) }
        ensures settled { IfOk result (λ waits. waits ≡ false → IsSettled self.new.peers (ports_of self.new.ports.items)) }
    {
        'rounds: for made in 0..rounds {
            if !self.turn_all(now)? {
                self.cut_off_unserved();
                return Ok(false);
            }
        }
        Ok(true)
    }

    /// Turns the servers until no mail is left.
    fn settle(&mut self, now: i64) -> Result<(), ServiceFault>
        ensures { OnOk result (Settles S.may_recover S.boots now (ensemble self.old) (ensemble self.new)) }
    {
        self.turn_for(MOST_ROUNDS, now)?;
        Ok(())
    }

    /// Cuts off the clients of servers that serve none.
    #[tactic(auto, using(crate::proofs::Changing::at_number))]
    fn cut_off_unserved(&mut self)
        ensures { CutsUnserved (ensemble self.old) (ensemble self.new) }
    {
        for index in 0..self.ports.len() {
            if !self.peers.serves(index + 1) {
                cut_off_at(&mut self.ports, index, Selection::Served);
            }
        }
    }

    /// A round of mail, and a turn of each server. Returns whether another is needed.
    fn turn_all(&mut self, now: i64) -> Result<bool, ServiceFault>
        ensures round { IfOk result (λ waits. Round S.may_recover S.boots now (ensemble self.old) (ensemble self.new) waits) }
        ensures mail { IfOk result (λ waits. waits ≡ false → self.new.peers.posted ≡ []) }
    {
        self.peers.next_round();
        let mut waits = false;
        'servers: for index in 0..self.ports.len() {
            self.receive(index + 1)?;
            waits = either(self.turn(index + 1, now)?, waits);
        }
        Ok(either(waits, self.peers.has_mail()))
    }

    /// Gives a server its mail of this round. A server whose store fails crashes.
    fn receive(&mut self, server: usize) -> Result<(), ServiceFault>
        ensures { OnOk result (ReceivesTo S.may_recover S.boots server (ensemble self.old) (ensemble self.new)) }
    {
        match self.peers.receive(server) {
            Ok(()) => Ok(()),
            Err(PeersFault::Store(fault)) => self.stop(server, fault),
            Err(fault) => Err(ServiceFault::Peers(fault)),
        }
    }

    /// Crashes a server that cannot go on, and cuts off its clients.
    fn stop(&mut self, server: usize, fault: StoreFault) -> Result<(), ServiceFault>
        ensures { OnOk result (StopsServer S.may_recover S.boots server fault (ensemble self.old) (ensemble self.new)) }
    {
        self.peers.crash(server)?;
        cut_off_server(&mut self.ports, server);
        keep_stop(&mut self.stops, server, fault);
        Ok(())
    }

    /// Takes why a server has stopped by itself since the last call: its store has failed, or memory
    /// ran out. `None` if it has not.
    pub fn take_stop(&mut self, server: usize) -> Option<StoreFault>
        ensures stop { result ≡ stop_at self.old.stops.items server }
        ensures rest { (self.new.peers ≡ self.old.peers) × ((ports_of self.new.ports.items ≡ ports_of self.old.ports.items)
            × ((self.new.admission ≡ self.old.admission) × (self.new.opened ≡ self.old.opened))) }
    {
        if server == 0 {
            return None;
        }
        let stop = *self.stops.get(server - 1)?;
        if let Some(kept) = self.stops.get_mut(server - 1) {
            *kept = None;
        }
        stop
    }

    /// A turn of a server. Returns whether its host has messages again. A server that cannot release
    /// what it has crashes.
    fn turn(&mut self, server: usize, now: i64) -> Result<bool, ServiceFault>
        ensures { IfOk result (λ waits. TurnsTo S.may_recover S.boots server now (ensemble self.old) (ensemble self.new) waits) }
    {
        if !self.peers.is_up(server) {
            return Ok(false);
        }
        let Some(index) = port_index(&self.ports, server) else {
            return Ok(false);
        };
        match self.turn_host(server, index, now) {
            Ok(turned) => self.post(server, turned),
            Err(fault) => {
                self.stop(server, stop_of(fault))?;
                Ok(false)
            }
        }
    }

    /// A turn of a server that is up.
    #[tactic(auto, using(crate::proofs::Places::up_has_place, crate::proofs::Places::place_up))]
    fn turn_host(&mut self, server: usize, index: usize, now: i64) -> Result<Turned, ReleaseFault>
        requires up { is_up_at self.old.peers.places.items server ≡ true }
        requires within { index < length self.old.ports.items }
        requires above { 0 < server }
        requires is { index ≡ server - 1 }
        ensures { TurnsHostTo server now (ensemble self.old) (ensemble self.new) result }
    {
        let moment = self.moment(server, now);
        let quorums = self.quorums();
        let Some(place) = self.peers.place_mut(server) else {
            unreachable!()
        };
        turn_place(
            self.alloc,
            place,
            &mut self.ports[index],
            &quorums,
            &mut self.admission,
            moment,
        )
    }

    /// The majorities of the servers.
    fn quorums(&self) -> Majority
        ensures { result.servers ≡ length self.now.peers.places.items }
    {
        Majority {
            servers: self.peers.len(),
        }
    }

    /// A server at a moment.
    fn moment(&self, server: usize, now: i64) -> Moment
        ensures { result ≡ moment_at server now (ensemble self.now) }
    {
        Moment {
            server,
            now,
            mode: mode_of(self.peers.state(server)),
            connections: self.connections(server),
        }
    }

    /// Cuts off the connections that have lost their sessions, and posts a host's messages. Returns
    /// whether it has messages again.
    fn post(&mut self, server: usize, turned: Turned) -> Result<bool, ServiceFault>
        ensures posts { OnOk result (Posts turned.displaced.items turned.messages (ensemble self.old) (ensemble self.new)) }
        ensures waits { IfOk result (λ waits. waits ≡ has_messages (host_at self.new.peers.places.items server)) }
    {
        let waits = has_messages(&self.peers, server);
        cut_off_numbers(&mut self.ports, &turned.displaced);
        self.peers.post(turned.into_messages(self.alloc))?;
        Ok(waits)
    }

    // ---- sessions

    /// Records that the client of a session was heard of: its session expires its timeout later.
    pub fn hear(&mut self, session: i64, now: i64)
        ensures heard { self.new.admission ≡ touching now (session ∷ []) self.old.admission }
        ensures rest { (self.new.peers ≡ self.old.peers) × ((ports_of self.new.ports.items ≡ ports_of self.old.ports.items)
            × ((self.new.opened ≡ self.old.opened) × (self.new.stops ≡ self.old.stops))) }
    {
        self.admission.sessions.touch(session, now);
    }

    /// Asks the leader to close the sessions that have expired. After an error, nothing is asked.
    #[tactic(auto, using(crate::proofs::Places::up_has_host))]
    pub fn expire(&mut self, now: i64) -> Result<(), ServiceFault>
        ensures led { is_led self.old.peers.cuts.items self.old.peers.places.items self.old.peers.leader ≡ true
            → OnOk result (Expires now (ensemble self.old) (ensemble self.new)) }
        ensures unled { is_led self.old.peers.cuts.items self.old.peers.places.items self.old.peers.leader ≡ false
            → IsOk result × ((self.new.peers ≡ self.old.peers) × (self.new.admission ≡ self.old.admission)) }
        ensures fault { IfErr result (λ fault. fault ≡ faults.NoMemory) }
        ensures failed { OnErr result (self.new.peers ≡ self.old.peers) }
        ensures ports { ports_of self.new.ports.items ≡ ports_of self.old.ports.items }
        ensures opened { self.new.opened ≡ self.old.opened }
        ensures stops { self.new.stops.items ≡ self.old.stops.items }
    {
        let Some(leader) = self.active_leader() else {
            return Ok(());
        };
        let Some(host) = self.peers.host(leader) else {
            unreachable!()
        };
        adopt(host, &mut self.admission, now)?;
        let expired = self.admission.sessions.expired(self.alloc, now)?;
        self.close_sessions(leader, &expired, now);
        Ok(())
    }

    /// The leader, if it leads with a quorum.
    #[tactic(auto, using(crate::proofs::Places::led_up, crate::proofs::Places::none_led))]
    fn active_leader(&self) -> Option<usize>
        ensures leader { IfSome result (λ leader. self.now.peers.leader ≡ Some leader) }
        ensures up { IfSome result (λ leader. is_up_at self.now.peers.places.items leader ≡ true) }
        ensures led { IfSome result (λ leader. is_led self.now.peers.cuts.items self.now.peers.places.items self.now.peers.leader ≡ true) }
        ensures none { IfNone result (is_led self.now.peers.cuts.items self.now.peers.places.items self.now.peers.leader ≡ false) }
    {
        if !self.peers.is_led() {
            return None;
        }
        self.peers.leader()
    }

    /// Asks the leader's host to close sessions. If a closing is lost with its leader, the session
    /// expires again.
    #[tactic(auto, using(crate::proofs::Places::up_has_place, crate::proofs::Places::place_up))]
    fn close_sessions(&mut self, leader: usize, sessions: &[i64], now: i64)
        requires { is_up_at self.old.peers.places.items leader ≡ true }
        ensures { ClosesAt leader now sessions.now (ensemble self.old) (ensemble self.new) }
    {
        let quorums = self.quorums();
        let Some(place) = self.peers.place_mut(leader) else {
            unreachable!()
        };
        close_in(self.alloc, place, &quorums, sessions, now);
        touch_all(&mut self.admission, sessions, now);
    }

    /// Gives each session its whole timeout again, at a new leader. If memory runs out, sessions that
    /// are not known yet are opened at the next tick.
    fn renew_sessions(&mut self, now: i64)
        ensures { RenewsSessions now (ensemble self.old) (ensemble self.new) }
    {
        let Some(leader) = self.peers.leader() else {
            return;
        };
        let Some(host) = self.peers.host(leader) else {
            return;
        };
        renew(host, &mut self.admission, now);
    }

    // ---- elections and crashes

    /// Elects a leader. All connections close: their clients connect again.
    fn elect(&mut self, now: i64) -> Result<(), ServiceFault>
        ensures { OnOk result (ElectsLeader S.may_recover S.boots now (ensemble self.old) (ensemble self.new)) }
    {
        self.peers.elect()?;
        cut_off(&mut self.ports, Selection::All);
        self.begin(now)
    }

    /// Turns the servers for a new leader, and gives each session its whole timeout again.
    fn begin(&mut self, now: i64) -> Result<(), ServiceFault>
        ensures { OnOk result (Begins S.may_recover S.boots now (ensemble self.old) (ensemble self.new)) }
    {
        self.settle(now)?;
        self.renew_sessions(now);
        Ok(())
    }

    /// Elects a leader if there is none with a quorum.
    fn elect_if_needed(&mut self, now: i64) -> Result<(), ServiceFault>
        ensures { OnOk result (ElectsIfNeeded S.may_recover S.boots now (ensemble self.old) (ensemble self.new)) }
    {
        if self.peers.is_led() {
            return self.settle(now);
        }
        self.elect(now)
    }

    /// Elects a leader if there is none with a quorum: the last one may have run out of memory.
    pub fn elect_if_lost(&mut self, now: i64) -> Result<(), ServiceFault>
        ensures led { is_led self.old.peers.cuts.items self.old.peers.places.items self.old.peers.leader ≡ true
            → IsOk result × (self.new ≡ self.old) }
        ensures lost { is_led self.old.peers.cuts.items self.old.peers.places.items self.old.peers.leader ≡ false
            → OnOk result (ElectsLeader S.may_recover S.boots now (ensemble self.old) (ensemble self.new)) }
    {
        if self.peers.is_led() {
            return Ok(());
        }
        self.elect(now)
    }

    /// Makes a server lead.
    pub fn lead(&mut self, server: usize, now: i64) -> Result<(), ServiceFault>
        ensures leads { OnOk result (LeadsFrom S.may_recover S.boots server now (ensemble self.old) (ensemble self.new)) }
        ensures unknown { is_server self.old.peers.places.items server ≡ false → IsErrOf result (faults.Peers peers_faults.NoServer) × (self.new ≡ self.old) }
        ensures down { is_server self.old.peers.places.items server ≡ true → is_up_at self.old.peers.places.items server ≡ false
            → IsErrOf result (faults.Peers peers_faults.Down) × (self.new ≡ self.old) }
    {
        self.peers.lead(server)?;
        cut_off(&mut self.ports, Selection::All);
        self.begin(now)
    }

    /// Stops a server. Its connections close.
    pub fn crash(&mut self, server: usize, now: i64) -> Result<(), ServiceFault>
        ensures crashes { OnOk result (CrashesAt S.may_recover S.boots server now (ensemble self.old) (ensemble self.new)) }
        ensures unknown { is_server self.old.peers.places.items server ≡ false → IsErrOf result (faults.Peers peers_faults.NoServer) × (self.new ≡ self.old) }
        ensures down { is_server self.old.peers.places.items server ≡ true → is_up_at self.old.peers.places.items server ≡ false
            → IsErrOf result (faults.Peers peers_faults.Down) × (self.new ≡ self.old) }
    {
        self.peers.crash(server)?;
        cut_off_server(&mut self.ports, server);
        self.elect_if_needed(now)
    }

    /// Starts a server that has crashed.
    pub fn restart(&mut self, server: usize, now: i64) -> Result<(), ServiceFault>
        ensures restarts { OnOk result (RestartsServer S.may_recover S.boots S.is_clean server now (ensemble self.old) (ensemble self.new)) }
        ensures unknown { is_server self.old.peers.places.items server ≡ false → IsErrOf result (faults.Peers peers_faults.NoServer) × (self.new ≡ self.old) }
        ensures up { is_server self.old.peers.places.items server ≡ true → is_up_at self.old.peers.places.items server ≡ true
            → IsErrOf result (faults.Peers peers_faults.NotDown) × (self.new ≡ self.old) }
    {
        self.peers.restart(server)?;
        self.elect_if_needed(now)
    }

    /// Replaces the store of a server that does not run: by one that was opened again, or by none,
    /// which closes it.
    #[tactic(auto, using(crate::proofs::Removing::placed, crate::proofs::Removing::none_placed))]
    pub fn replace_storage(&mut self, server: usize, storage: Option<S>)
        ensures { self.new.peers.places.items ≡ places_with storage server self.old.peers.places.items }
    {
        if let Some(place) = self.peers.place_mut(server) {
            replace_storage(place, storage);
        }
    }

    /// Cuts the link between two servers.
    pub fn cut(&mut self, one: usize, other: usize, now: i64) -> Result<(), ServiceFault>
        ensures cuts { OnOk result (CutsLink S.may_recover S.boots one other now (ensemble self.old) (ensemble self.new)) }
        ensures unknown { is_link self.old.peers.places.items one other ≡ false → IsErrOf result (faults.Peers peers_faults.NoServer) }
    {
        self.peers.cut(one, other)?;
        self.elect_if_needed(now)
    }

    /// Makes all links healthy.
    pub fn heal(&mut self, now: i64) -> Result<(), ServiceFault>
        ensures { OnOk result (HealsLinks S.may_recover S.boots now (ensemble self.old) (ensemble self.new)) }
    {
        self.peers.heal()?;
        self.elect_if_needed(now)
    }

    // ---- the record

    /// Takes the events that the servers' inputs have been, as [`Peers::take_events`].
    pub fn take_events(&mut self) -> Vec<Event>
        ensures { self.new ≡ self.old }
    {
        self.peers.take_events()
    }

    /// Why events are recorded no more, if they are not.
    pub fn record_fault(&self) -> Option<RecordFault> {
        self.peers.record_fault()
    }

    /// Records no more events.
    pub fn end_record(&mut self)
        ensures { self.new ≡ self.old }
    {
        self.peers.end_record();
    }
}

fn mode_of(state: PeerState) -> Mode
    ensures { result ≡ mode_of state }
{
    match state {
        PeerState::Leading => Mode::Leader,
        PeerState::Following => Mode::Follower,
        PeerState::Down | PeerState::Looking => Mode::Looking,
    }
}

/// Why a server that cannot release what it has stops.
fn stop_of(fault: ReleaseFault) -> StoreFault
    ensures { result ≡ stop_of fault }
{
    match fault {
        ReleaseFault::Store(fault) => fault,
        // No run reaches the second.
        ReleaseFault::NoMemory | ReleaseFault::Shrunk => StoreFault::NoMemory,
    }
}

/// The ports of this number of servers, without connections.
fn new_ports(alloc: Global, servers: usize) -> Result<Vec<ClientPort>, NoMemory>
    ensures { IfOk result (λ ports. ports_of ports.items ≡ copies servers new_port) }
{
    let mut ports = Vec::new(alloc);
    'servers: for count in 0..servers {
        ports.push(ClientPort::new(alloc))?;
    }
    Ok(ports)
}

/// No server has stopped.
fn no_stops(alloc: Global, servers: usize) -> Result<Vec<Option<StoreFault>>, NoMemory>
    ensures { IfOk result (λ stops. stops.items ≡ copies servers None) }
{
    let mut stops = Vec::new(alloc);
    'servers: for count in 0..servers {
        stops.push(None)?;
    }
    Ok(stops)
}

fn either(one: bool, other: bool) -> bool
    ensures { result ≡ (one || other) }
{
    one || other
}

/// Keeps why a server has stopped.
fn keep_stop(stops: &mut Vec<Option<StoreFault>>, server: usize, fault: StoreFault)
    ensures { stops.new.items ≡ stopped_with server fault stops.old.items }
{
    if server > 0
        && let Some(stop) = stops.get_mut(server - 1)
    {
        *stop = Some(fault);
    }
}

/// The place of the connection with a number. Numbers rise along the list, since it grows by new
/// connections alone: a search of halves finds it.
fn place_of(connections: &[Connection], number: u64) -> Option<usize>
    ensures { IfSome result (λ place. place < length connections.now) }
{
    connections
        .binary_search_by(
            |it: &Connection| -> Ordering
                ensures { result ≡ nat_cmp it.now.number number }
            { it.number().cmp(&number) },
        )
        .ok()
}

fn port_at_mut(ports: &mut [ClientPort], server: usize) -> Option<&mut ClientPort> {
    ports.get_mut(server.checked_sub(1)?)
}

/// The index of a server's port.
fn port_index(ports: &[ClientPort], server: usize) -> Option<usize>
    ensures some { IfSome result (λ index. (index ≡ server - 1) × ((index < length ports.now) × (0 < server))) }
    ensures none { IfNone result (at_server (ports_of ports.now) server ≡ None) }
{
    let index = server.checked_sub(1)?;
    if index >= ports.len() {
        return None;
    }
    Some(index)
}

/// The number of a port's connections.
#[tactic(auto, using(crate::proofs::Changing::count_at))]
fn count_at(ports: &[ClientPort], index: usize) -> usize
    requires { index < length ports.now }
    ensures { result ≡ length (connections_in (slice_get (ports_of ports.now) index)) }
{
    ports[index].connections.len()
}

/// Adds a connection to a port.
#[tactic(auto, using(crate::proofs::Changing::changed_is, crate::proofs::Changing::unchanged_is))]
fn add_connection(
    alloc: Global,
    ports: &mut Vec<ClientPort>,
    index: usize,
    number: u64,
) -> Result<(), NoMemory>
    requires { index < length ports.old.items }
    ensures added { OnOk result (ports_of ports.new.items ≡ changed_at index (with_new number) (ports_of ports.old.items)) }
    ensures unchanged { OnErr result (ports_of ports.new.items ≡ ports_of ports.old.items) }
{
    push_connection(alloc, &mut ports[index], number)?;
    Ok(())
}

fn push_connection(alloc: Global, port: &mut ClientPort, number: u64) -> Result<(), NoMemory>
    ensures added { OnOk result (port_of port.new ≡ with_new number (port_of port.old)) }
    ensures unchanged { OnErr result (port_of port.new ≡ port_of port.old) }
{
    port.connections.push(Connection::new(alloc, number))?;
    Ok(())
}

/// Removes the connections of a port that are over.
#[tactic(auto, using(crate::proofs::Changing::changed_is, crate::proofs::Changing::unchanged_is))]
fn take_over_at(
    alloc: Global,
    ports: &mut Vec<ClientPort>,
    index: usize,
    admission: &mut Admission,
) -> Result<Vec<u64>, NoMemory>
    requires { index < length ports.old.items }
    ensures numbers { IfOk result (λ over. over.items ≡ numbers_over (connections_in (slice_get (ports_of ports.old.items) index))) }
    ensures connections { OnOk result (ports_of ports.new.items ≡ changed_at index without_ended (ports_of ports.old.items)) }
    ensures sessions { OnOk result (admission.new ≡ detaching (numbers_over (connections_in (slice_get (ports_of ports.old.items) index))) admission.old) }
    ensures unchanged { OnErr result ((ports_of ports.new.items ≡ ports_of ports.old.items) × (admission.new ≡ admission.old)) }
{
    ports[index].remove_over(alloc, admission)
}

/// Drops the watches of connections at a server.
fn close_connections<S: Storage>(place: &mut Place<S>, numbers: &[u64])
    ensures { place.new ≡ place_after numbers.now place.old }
{
    if let Place::Up(host) = place {
        close_at(host, numbers);
    }
}

fn close_at<S: Storage>(host: &mut ReplicaHost<S>, numbers: &[u64])
    ensures { host.new ≡ record host.old { tree = tree_after numbers.now host.old.tree } }
{
    for number in numbers {
        host.close_connection(*number);
    }
}

/// Replaces the store of a server that does not run.
fn replace_storage<S: Storage>(place: &mut Place<S>, storage: Option<S>)
    ensures { place.new ≡ place_with storage place.old }
{
    if place.is_up() {
        return;
    }
    *place = match storage {
        Some(storage) => Place::Down(storage),
        None => Place::Failed,
    };
}

/// Cuts off connections of a port.
fn cut_off_at(ports: &mut Vec<ClientPort>, index: usize, selection: Selection)
    requires { index < length ports.old.items }
    ensures ports { ports_of ports.new.items ≡ changed_at index (cut_off selection) (ports_of ports.old.items) }
    ensures count { length ports.new.items ≡ length ports.old.items }
{
    ports[index].cut_off(selection);
}

/// Cuts off all connections of a server.
#[tactic(auto, using(crate::proofs::Changing::at_port, crate::proofs::Changing::at_no_port))]
fn cut_off_server(ports: &mut Vec<ClientPort>, server: usize)
    ensures { ports_of ports.new.items ≡ server_cut_off server (ports_of ports.old.items) }
{
    if let Some(index) = port_index(ports, server) {
        cut_off_at(ports, index, Selection::All);
    }
}

/// Cuts off connections of all ports.
pub(crate) fn cut_off(ports: &mut Vec<ClientPort>, selection: Selection)
    ensures ports { ports_of ports.new.items ≡ map (cut_off selection) (ports_of ports.old.items) }
    ensures count { length ports.new.items ≡ length ports.old.items }
{
    for index in 0..ports.len() {
        ports[index].cut_off(selection);
    }
}
