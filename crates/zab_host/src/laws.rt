ghost use Rattle.zab_broadcast.specs.Calls.{setting_of};
ghost use Rattle.zab_host.specs.LoneLeaders.{LoneServersAccept, LoneServersLead};
ghost use Rattle.zab_epoch.specs.Quorums.{is_majority};

use zab_broadcast::Primary;

/// The only server of an ensemble leads once it has acknowledged itself, if an epoch is left. It has
/// the history that it had, and has delivered all of it.
#[tactic(auto, using(crate::proofs::Leading::lone_servers_lead))]
pub fn lone_servers_lead<P: Primary>()
    ensures { LoneServersLead (setting_of (is_majority 1) P.made_of P.tag_of) }
{}

/// A lone leader delivers each call of its clients at once, as the next entry of its history, and
/// sends nothing.
#[tactic(auto, using(crate::proofs::Leading::lone_servers_accept))]
pub fn lone_servers_accept<P: Primary>()
    ensures { LoneServersAccept (setting_of (is_majority 1) P.made_of P.tag_of) }
{}
