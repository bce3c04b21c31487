ghost use Rattle.zab_host_laws.specs.Agreement.{RecoveriesAgree, HostsAgree};
ghost use Rattle.zab_model.specs.Worlds.{profile_of};

use crate::{hosts_are_a_run, recovery_continues_the_run};
use zab_agreement_laws::runs_agree;
use zab_broadcast::Primary;
use zab_epoch::Quorums;

/// Servers agree before and after all of them recover from what they had stored.
pub fn recoveries_agree<P: Primary, Q: Quorums>(_quorums: &Q)
    ensures { RecoveriesAgree (profile_of (Q.passes _quorums.now) P.made_of P.tag_of P.closing_of) }
{
    runs_agree::<P, Q>(_quorums);
    recovery_continues_the_run::<P, Q>(_quorums);
}

/// Hosts agree, with any messages lost, repeated or reordered, and any hosts restarted.
pub fn hosts_agree<P: Primary, Q: Quorums>(_quorums: &Q)
    ensures { HostsAgree (profile_of (Q.passes _quorums.now) P.made_of P.tag_of P.closing_of) }
{
    runs_agree::<P, Q>(_quorums);
    hosts_are_a_run::<P, Q>(_quorums);
}
