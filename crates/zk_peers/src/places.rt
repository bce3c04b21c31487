//! All servers' places.

ghost use Rattle.std.specs.Prelude.{◌≡◌, ◌≤◌, length, true, OnErr, OnOk};
ghost use Rattle.zab_epoch.specs.Quorums.{marked};
ghost use Rattle.zk_peers.specs.Peers.{is_heard, heard_by, is_server, TakesRoleAt, FirstTakeRoles, RejoinsIf, FirstRejoin};
ghost use Rattle.zk_peers.specs.Hosts.{setting_for};
ghost use Rattle.zk_peers.specs.Links.{is_cut, mail_for};
ghost use Rattle.zk_peers.specs.Places.{ChangesAt, after_crash, is_up, Restarts, HearsAt};

use crate::cut::{Cut, is_cut};
use crate::fault::PeersFault;
use crate::place::Place;
use std::alloc::Global;
use std::mem::replace;
use zab_epoch::{Majority, Messages};
use zab_host::Storage;
use zk_host::Record;
use zk_requests::Call;

/// The number of servers that are up and whose link to this one is not cut.
#[tactic(auto, using(crate::proofs::Quorums::heard_yes, crate::proofs::Quorums::heard_no, crate::proofs::Quorums::heard_all))]
pub(crate) fn count_heard<S: Storage>(cuts: &[Cut], server: usize, places: &[Place<S>]) -> usize
    ensures heard { result ≡ marked (heard_by cuts.now server 1 places.now) }
    ensures bound { result ≤ length places.now }
{
    let mut count = 0;
    for index in 0..places.len() {
        if is_heard(cuts, server, index + 1, &places[index]) {
            count += 1;
        }
    }
    count
}

/// Whether the server at a place is up, and its link to this server is not cut.
fn is_heard<S: Storage>(cuts: &[Cut], server: usize, at: usize, place: &Place<S>) -> bool
    ensures { result ≡ is_heard cuts.now server at place.now }
{
    place.is_up() && !is_cut(cuts, server, at)
}

/// Makes a server that is up lead, or follow the leader.
#[tactic(auto, using(crate::proofs::Changing::changes))]
pub(crate) fn take_role<S: Storage>(
    alloc: Global,
    places: &mut Vec<Place<S>>,
    server: usize,
    leader: usize,
) -> Result<(), PeersFault>
    requires { is_server places.old.items server ≡ true }
    ensures takes { OnOk result (TakesRoleAt S.may_recover S.boots server leader places.old.items places.new.items) }
    ensures servers { length places.new.items ≡ length places.old.items }
{
    let quorums = Majority {
        servers: places.len(),
    };
    places[server - 1].take_role(alloc, &quorums, server, leader)
}

/// Makes a server lead, and each other that is up follow it.
#[tactic(auto, using(crate::proofs::Changing::roles_more))]
pub(crate) fn take_roles<S: Storage>(
    alloc: Global,
    places: &mut Vec<Place<S>>,
    leader: usize,
) -> Result<(), PeersFault>
    ensures { OnOk result (FirstTakeRoles S.may_recover S.boots leader (length places.old.items) places.old.items places.new.items) }
{
    for index in 0..places.len() {
        take_role(alloc, places, index + 1, leader)?;
    }
    Ok(())
}

/// Makes each server that is up and whose link to the leader is cut follow it again.
#[tactic(auto, using(crate::proofs::Changing::rejoin_more))]
pub(crate) fn rejoin<S: Storage>(
    alloc: Global,
    places: &mut Vec<Place<S>>,
    cuts: &[Cut],
    leader: usize,
) -> Result<(), PeersFault>
    ensures { OnOk result (FirstRejoin S.may_recover S.boots cuts.now leader (length places.old.items) places.old.items places.new.items) }
{
    for index in 0..places.len() {
        rejoin_at(alloc, places, cuts, index + 1, leader)?;
    }
    Ok(())
}

/// Makes a server that is up follow the leader again if its link to it is cut.
#[tactic(auto, using(crate::proofs::Changing::rejoins_not, crate::proofs::Changing::rejoins_now))]
fn rejoin_at<S: Storage>(
    alloc: Global,
    places: &mut Vec<Place<S>>,
    cuts: &[Cut],
    server: usize,
    leader: usize,
) -> Result<(), PeersFault>
    requires { is_server places.old.items server ≡ true }
    ensures rejoins { OnOk result (RejoinsIf S.may_recover S.boots (is_cut cuts.now leader server) server leader places.old.items places.new.items) }
    ensures servers { length places.new.items ≡ length places.old.items }
{
    if !is_cut(cuts, leader, server) {
        return Ok(());
    }
    take_role(alloc, places, server, leader)
}

/// Stops a server.
#[tactic(auto, using(crate::proofs::Changing::changes))]
pub(crate) fn crash<S: Storage>(places: &mut Vec<Place<S>>, server: usize)
    requires { is_server places.old.items server ≡ true }
    ensures { ChangesAt server (λ before after. after ≡ after_crash before) places.old.items places.new.items }
{
    let place = &mut places[server - 1];
    *place = replace(place, Place::Failed).crash();
}

/// Starts a server that is down on its store.
#[tactic(auto, using(crate::proofs::Changing::changes))]
pub(crate) fn restart<S: Storage>(
    alloc: Global,
    places: &mut Vec<Place<S>>,
    server: usize,
) -> Result<(), PeersFault>
    requires { is_server places.old.items server ≡ true }
    ensures starts { OnOk result (ChangesAt server (Restarts S.is_clean S.may_recover S.boots (length places.old.items) server) places.old.items places.new.items) }
    ensures servers { length places.new.items ≡ length places.old.items }
{
    let Ok(me) = u8::try_from(server) else {
        return Err(PeersFault::NoServer);
    };
    let servers = places.len();
    let place = &mut places[server - 1];
    *place = replace(place, Place::Failed).restart(alloc, servers, me)?;
    Ok(())
}

/// Gives a server that is up its mail.
#[tactic(auto, using(crate::proofs::Changing::changes))]
pub(crate) fn receive<S: Storage>(
    alloc: Global,
    places: &mut Vec<Place<S>>,
    cuts: &[Cut],
    server: usize,
    mail: &Messages<Call>,
    recorded: &Record,
) -> Result<(), PeersFault>
    requires { is_server places.old.items server ≡ true }
    ensures hears { OnOk result (ChangesAt server (HearsAt S.may_recover S.boots (setting_for (length places.old.items)) (mail_for cuts.now server mail.now)) places.old.items places.new.items) }
    ensures failed { OnErr result (ChangesAt server (λ before after. is_up after ≡ true) places.old.items places.new.items) }
{
    let quorums = Majority {
        servers: places.len(),
    };
    places[server - 1].receive(alloc, &quorums, cuts, server, mail, recorded)
}

/// Moves what a server has stored to the record.
pub(crate) fn collect<S: Storage>(places: &mut Vec<Place<S>>, server: usize, recorded: &mut Record)
    requires { is_server places.old.items server ≡ true }
    ensures { places.new ≡ places.old }
{
    places[server - 1].collect(recorded);
}

/// Records no more of a server.
pub(crate) fn end_record<S: Storage>(places: &mut Vec<Place<S>>, server: usize)
    requires { is_server places.old.items server ≡ true }
    ensures { places.new ≡ places.old }
{
    places[server - 1].end_record();
}
