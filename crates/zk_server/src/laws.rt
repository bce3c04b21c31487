ghost use Rattle.zk_server.specs.Ensembles.{PeersAgree};
ghost use Rattle.zk_server.specs.LinkedEnsembles.{LinkedPeersAgree};

use zab_epoch::Majority;
use zab_host::Storage;
use zk_model::Preparer;
use zk_server_laws::servers_agree;

/// The servers of an ensemble agree over every list of turns, stops and starts, on links that lose
/// what they carry, and are cut and opened again.
pub fn peers_agree<S: Storage>(_servers: usize)
    ensures { PeersAgree S.is_clean S.may_recover S.boots _servers }
{
    let quorums = Majority { servers: _servers };
    servers_agree::<Preparer, Majority, S>(&quorums, _servers);
}

/// The same of servers whose links are connections that carry bytes, in chunks of any size, and are
/// cut at any byte.
pub fn linked_peers_agree<S: Storage>(_servers: usize)
    ensures { LinkedPeersAgree S.is_clean S.may_recover S.boots _servers }
{
    peers_agree::<S>(_servers);
}
