ghost use Rattle.zk_host_laws.specs.Guarantees.{TreesShowWhatIsDelivered, ReleasesDeliver, ReleasesShowAll, NewsFollowsTheTrace, TreesAgree, ReadsNeverGoBack, SyncedReadsAreCurrent};
ghost use Rattle.zk_model.specs.Ensembles.{profile_by};

use zab_agreement_laws::runs_agree;
use zab_epoch::Quorums;
use zab_host_laws::{host_syncs_catch_up, hosts_agree, hosts_are_a_run, hosts_never_go_back};
use zk_model::Preparer;

/// A host's tree is the table's over what its server has delivered up to its last release.
pub fn trees_show_what_is_delivered<Q: Quorums>(_quorums: &Q)
    ensures shown { TreesShowWhatIsDelivered (profile_by (Q.passes _quorums.now)) }
    ensures delivered { ReleasesDeliver }
    ensures released { ReleasesShowAll (profile_by (Q.passes _quorums.now)) }
{
    hosts_never_go_back::<Preparer, Q>(_quorums);
}

/// A host's news since it started are those of its trace: for each entry the events of the watches
/// that earlier reads have set, and then the entry's result.
pub fn news_follows_the_trace<Q: Quorums>(_quorums: &Q)
    ensures { NewsFollowsTheTrace (profile_by (Q.passes _quorums.now)) }
{
    hosts_never_go_back::<Preparer, Q>(_quorums);
}

/// All hosts show one order of entries. A client that passes on what it has seen never goes back,
/// whichever host it reads at.
pub fn reads_never_go_back<Q: Quorums>(_quorums: &Q)
    ensures order { TreesAgree (profile_by (Q.passes _quorums.now)) }
    ensures back { ReadsNeverGoBack (profile_by (Q.passes _quorums.now)) }
{
    runs_agree::<Preparer, Q>(_quorums);
    hosts_are_a_run::<Preparer, Q>(_quorums);
    hosts_agree::<Preparer, Q>(_quorums);
    hosts_never_go_back::<Preparer, Q>(_quorums);
}

/// A read at a host after its completed sync, and a release, shows what the leader had delivered
/// when the sync was taken.
pub fn synced_reads_are_current<Q: Quorums>(_quorums: &Q)
    ensures { SyncedReadsAreCurrent (profile_by (Q.passes _quorums.now)) }
{
    host_syncs_catch_up::<Preparer, Q>(_quorums);
    hosts_never_go_back::<Preparer, Q>(_quorums);
}
