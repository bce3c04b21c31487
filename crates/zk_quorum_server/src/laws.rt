ghost use Rattle.zk_quorum_server.specs.Ensembles.{ServersAgree};

use zab_epoch::Majority;
use zab_host::Storage;
use zk_model::Preparer;
use zk_server_laws::servers_agree;

/// The servers of an ensemble agree over every list of turns, stops and starts, independent of what
/// their clients send, on links that lose what they carry, and are cut and opened again.
pub fn whole_servers_agree<S: Storage>(_servers: usize)
    ensures { ServersAgree S.is_clean S.may_recover S.boots _servers }
{
    let quorums = Majority { servers: _servers };
    servers_agree::<Preparer, Majority, S>(&quorums, _servers);
}
