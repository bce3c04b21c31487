//! Servers that do not hear of the others for some ticks. `syncLimit` is 5 in the sample configuration
//! of the ZooKeeper Administrator's Guide.

use std::alloc::Global;
use zab_host::{MemoryStorage, Vote};
use zk_host::ReplicaHost;
use zk_server::{
    Arrival, Election, Member, Mode, Notice, Position, SessionNews, SessionNotice, decide, hear,
};

const ME: Member = Member {
    number: 1,
    servers: 3,
};

type Host = ReplicaHost<MemoryStorage>;

fn start(alloc: Global) -> Option<Host> {
    ReplicaHost::start(alloc, ME.servers, ME.number, MemoryStorage::new(alloc)).ok()
}

/// Something arrives, and the election decides.
fn takes(alloc: Global, election: &mut Election, host: &mut Host, arrival: Arrival) -> bool {
    hear(alloc, ME, election, host, &[arrival]).is_ok() && decide(alloc, ME, election, host).is_ok()
}

fn ping_of(sender: usize) -> Arrival {
    Arrival::Session(SessionNotice {
        sender,
        addressee: 1,
        news: SessionNews::Ping,
        session: 0,
        timeout: 0,
    })
}

/// The notice of server 2, which leads.
fn notice_of_leader() -> Arrival {
    Arrival::Notice(Notice {
        round: 0,
        vote: Vote {
            epoch: 0,
            zxid: 0,
            server: 2,
        },
        leader: 2,
    })
}

/// Some ticks, before each of which a peer pings. Returns the position then.
fn pinged(
    alloc: Global,
    election: &mut Election,
    host: &mut Host,
    ticks: u64,
    peer: usize,
) -> Option<Position> {
    for _ in 0..ticks {
        if !takes(alloc, election, host, ping_of(peer)) {
            return None;
        }
        election.tick(true);
    }
    Some(election.position())
}

/// Some ticks in silence.
fn silent(election: &mut Election, ticks: u64) -> Position {
    for _ in 0..ticks {
        election.tick(true);
    }
    election.position()
}

#[test]
fn a_leader_without_a_quorum_looks_again(rt: HostRuntime) {
    let alloc = rt.alloc();
    let Some(mut host) = start(alloc) else {
        return;
    };
    let mut election = Election::new(alloc, 3, host.vote());
    assert!(rt; takes(alloc, &mut election, &mut host, Arrival::Lead));
    assert!(rt; election.position() == Position::Leads);
    let mode = Mode::of(election.position(), host.role());
    assert!(rt; mode == Mode::Leading { established: false } && !mode.serves());
    assert!(rt; pinged(alloc, &mut election, &mut host, 20, 3) == Some(Position::Leads));
    election.tick(false);
    assert!(rt; silent(&mut election, 4) == Position::Leads);
    assert!(rt; silent(&mut election, 1) == Position::Looking);
    assert!(rt; Mode::of(election.position(), host.role()) == Mode::Looking);
}

#[test]
fn a_follower_keeps_its_leader_while_their_link_is_open(rt: HostRuntime) {
    let alloc = rt.alloc();
    let Some(mut host) = start(alloc) else {
        return;
    };
    let mut election = Election::new(alloc, 3, host.vote());
    assert!(rt; takes(alloc, &mut election, &mut host, notice_of_leader()));
    let mode = Mode::of(election.position(), host.role());
    assert!(rt;
        mode == Mode::Following {
            leader: 2,
            synced: false
        }
    );
    assert!(rt; silent(&mut election, 20) == Position::Follows(2));
    assert!(rt; takes(alloc, &mut election, &mut host, Arrival::Closed(2)));
    assert!(rt; election.position() == Position::Looking);
}

#[test]
fn the_only_server_needs_no_other(rt: HostRuntime) {
    let alloc = rt.alloc();
    let vote = Vote {
        epoch: 0,
        zxid: 0,
        server: 1,
    };
    let mut election = Election::new(alloc, 1, vote);
    assert!(rt; silent(&mut election, 20) == Position::Looking);
}
