ghost use Rattle.zab_host_laws.specs.Composition.{InputsAreSteps, RestartsAreSteps};
ghost use Rattle.zab_host_laws.specs.Fits.{HostsKeepTheirNumbers, AcceptedInputsAreSteps};
ghost use Rattle.zab_broadcast.specs.Calls.{setting_of};
ghost use Rattle.zab_host_laws.specs.Prefixes.{CrashesLeaveInputPrefixes};
ghost use Rattle.zab_host_laws.specs.Releases.{ReleasesAreSteps};
ghost use Rattle.zab_host.specs.Tags.{TagsDiffer};
ghost use Rattle.zab_host_laws.specs.Syncs.{HostSyncsAreCaught};
ghost use Rattle.zab_host_laws.specs.Tags.{IssuedTagsAreFresh};
ghost use Rattle.zab_host_laws.specs.TakenSyncs.{TakenSyncsChangeNothing};
ghost use Rattle.zab_host_laws.specs.NeverBack.{HostsNeverGoBack, HostsOnlyGrow};
ghost use Rattle.zab_model.specs.Worlds.{profile_of};

use crate::hosts_are_a_run;
use zab_agreement_laws::runs_agree;
use zab_broadcast::Primary;
use zab_call_laws::syncs_catch_up;
use zab_epoch::Quorums;

/// A step of a host by its own contract is a step of the network, and so is a restart.
pub fn inputs_are_steps<P: Primary, Q: Quorums>(_quorums: &Q)
    ensures inputs { InputsAreSteps (profile_of (Q.passes _quorums.now) P.made_of P.tag_of P.closing_of) }
    ensures starts { RestartsAreSteps (profile_of (Q.passes _quorums.now) P.made_of P.tag_of P.closing_of) }
{}

/// A host's server keeps its number, and the number of servers. So each input that a host accepts
/// by its own contract is a step of the network.
pub fn accepted_inputs_are_steps<P: Primary, Q: Quorums>(_quorums: &Q)
    ensures numbers { HostsKeepTheirNumbers (profile_of (Q.passes _quorums.now) P.made_of P.tag_of P.closing_of) }
    ensures inputs { AcceptedInputsAreSteps (profile_of (Q.passes _quorums.now) P.made_of P.tag_of P.closing_of) }
{}

/// A host's delivered list only grows while its process runs. A client that says what it has seen
/// never goes back, with any host that it asks.
pub fn hosts_never_go_back<P: Primary, Q: Quorums>(_quorums: &Q)
    ensures grows { HostsOnlyGrow (profile_of (Q.passes _quorums.now) P.made_of P.tag_of P.closing_of) }
    ensures back { HostsNeverGoBack (profile_of (Q.passes _quorums.now) P.made_of P.tag_of P.closing_of) }
{
    runs_agree::<P, Q>(_quorums);
}

/// A crash during a store leaves the stable part after a prefix of the inputs since the last store.
pub fn crashes_leave_input_prefixes<P: Primary, Q: Quorums>(_quorums: &Q)
    ensures { CrashesLeaveInputPrefixes (setting_of (Q.passes _quorums.now) P.made_of P.tag_of) }
{}

/// Hosts that store a group of inputs at once are hosts that store each.
pub fn releases_are_steps<P: Primary, Q: Quorums>(_quorums: &Q)
    ensures { ReleasesAreSteps (profile_of (Q.passes _quorums.now) P.made_of P.tag_of P.closing_of) }
{}

/// No two requests share a tag, and so no step of hosts reuses one that was issued for another
/// request.
pub fn tags_are_issued_once<P: Primary, Q: Quorums>(_quorums: &Q)
    ensures differ { TagsDiffer }
    ensures fresh { IssuedTagsAreFresh (profile_of (Q.passes _quorums.now) P.made_of P.tag_of P.closing_of) }
{}

/// A host with a completed sync has delivered what its leader had delivered when the sync was
/// taken.
pub fn host_syncs_catch_up<P: Primary, Q: Quorums>(_quorums: &Q)
    ensures { HostSyncsAreCaught (profile_of (Q.passes _quorums.now) P.made_of P.tag_of P.closing_of) }
{
    syncs_catch_up::<P, Q>(_quorums);
    hosts_are_a_run::<P, Q>(_quorums);
}

/// A host does the same whether its clients have taken its completed syncs or not.
pub fn taken_syncs_change_nothing<P: Primary, Q: Quorums>(_quorums: &Q)
    ensures { TakenSyncsChangeNothing (setting_of (Q.passes _quorums.now) P.made_of P.tag_of) }
{}
