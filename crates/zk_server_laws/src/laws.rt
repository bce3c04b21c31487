ghost use Rattle.zk_server_laws.specs.Schedules.{SchedulesAreSteps, ServersAgree};
ghost use Rattle.zk_server_laws.specs.Stores.{StoresKeepFirstInputs};
ghost use Rattle.zab_broadcast.specs.Calls.{setting_of};
ghost use Rattle.zab_model.specs.Worlds.{profile_of};

use zab_broadcast::Primary;
use zab_epoch::Quorums;
use zab_host::Storage;
use zab_host_laws::{
    accepted_inputs_are_steps, crashes_leave_input_prefixes, hosts_agree, releases_are_steps,
    tags_are_issued_once, taken_syncs_change_nothing,
};

/// The turns, stops and starts of servers are steps that hosts may make, and a running server is
/// the host that these steps give.
pub fn schedules_are_steps<P: Primary, Q: Quorums, S: Storage>(_quorums: &Q, _servers: usize)
    ensures { SchedulesAreSteps (profile_of (Q.passes _quorums.now) P.made_of P.tag_of P.closing_of)
        S.may_recover S.boots _servers }
{
    accepted_inputs_are_steps::<P, Q>(_quorums);
    releases_are_steps::<P, Q>(_quorums);
    tags_are_issued_once::<P, Q>(_quorums);
    taken_syncs_change_nothing::<P, Q>(_quorums);
}

/// Running servers agree, after every schedule.
pub fn servers_agree<P: Primary, Q: Quorums, S: Storage>(_quorums: &Q, _servers: usize)
    ensures { ServersAgree (profile_of (Q.passes _quorums.now) P.made_of P.tag_of P.closing_of)
        S.may_recover S.boots _servers }
{
    schedules_are_steps::<P, Q, S>(_quorums, _servers);
    hosts_agree::<P, Q>(_quorums);
}

/// A turn that stops leaves a store that recovers the stable part after some first inputs.
pub fn stores_keep_first_inputs<P: Primary, Q: Quorums, S: Storage>(_quorums: &Q)
    ensures { StoresKeepFirstInputs (setting_of (Q.passes _quorums.now) P.made_of P.tag_of) S.may_recover }
{
    crashes_leave_input_prefixes::<P, Q>(_quorums);
}
