ghost use Rattle.zab_host_laws.specs.Hosts.{HostsAreARun};
ghost use Rattle.zab_host_laws.specs.Adoptions.{AdoptionsAreAtomic, AdoptionsAreRepeatable};
ghost use Rattle.zab_host_laws.specs.Survival.{OnlyItsServerChanges, CrashesLeaveAPrefix};
ghost use Rattle.zab_host_laws.specs.Recovery.{ForgettingIsFaithful, RunsForget, RecoveryContinuesTheRun, RecoveriesAreOneRun};
ghost use Rattle.zab_model.specs.Worlds.{profile_of};

use zab_broadcast::Primary;
use zab_epoch::Quorums;

/// A world that discards its first messages and tags behaves as before, as long as those messages
/// do not arrive again and those tags are not used again.
pub fn forgetting_is_faithful<P: Primary, Q: Quorums>(_quorums: &Q)
    ensures one { ForgettingIsFaithful (profile_of (Q.passes _quorums.now) P.made_of P.tag_of P.closing_of) }
    ensures all { RunsForget (profile_of (Q.passes _quorums.now) P.made_of P.tag_of P.closing_of) }
{}

/// Servers that restart on what they had stored continue the run.
pub fn recovery_continues_the_run<P: Primary, Q: Quorums>(_quorums: &Q)
    ensures next { RecoveryContinuesTheRun (profile_of (Q.passes _quorums.now) P.made_of P.tag_of P.closing_of) }
    ensures lives { RecoveriesAreOneRun (profile_of (Q.passes _quorums.now) P.made_of P.tag_of P.closing_of) }
{}

/// If each event is stored before the next one happens, a crash at any moment leaves the servers of
/// a prefix of the run.
pub fn crashes_leave_a_prefix<P: Primary, Q: Quorums>(_quorums: &Q)
    ensures one_server { OnlyItsServerChanges (profile_of (Q.passes _quorums.now) P.made_of P.tag_of P.closing_of) }
    ensures front { CrashesLeaveAPrefix (profile_of (Q.passes _quorums.now) P.made_of P.tag_of P.closing_of) }
{}

/// A NewLeader that truncates a history changes a server's files atomically, whenever the server
/// crashes, recovery included.
pub fn adoptions_are_atomic()
    ensures once { AdoptionsAreAtomic }
    ensures repeated { AdoptionsAreRepeatable }
{}

/// Hosts that receive only messages that were sent are a run, with any messages lost, repeated or
/// reordered, and any hosts restarted.
pub fn hosts_are_a_run<P: Primary, Q: Quorums>(_quorums: &Q)
    ensures { HostsAreARun (profile_of (Q.passes _quorums.now) P.made_of P.tag_of P.closing_of) }
{}
