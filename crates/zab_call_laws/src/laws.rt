ghost use Rattle.std.specs.Prelude.{ℕ, List};
ghost use Rattle.zab_model.specs.declared.event.Event.{Event};
ghost use Rattle.zab_agreement_laws.specs.Laws.{IsTaggedOnce};
ghost use Rattle.zab_agreement_laws.specs.Origins.{ComeFromCalls};
ghost use Rattle.zab_agreement_laws.specs.Syncs.{AreCaught};
ghost use Rattle.zab_model.specs.Worlds.{profile_of};
ghost use Rattle.zab_broadcast.specs.Calls.{setting_of};
ghost use Rattle.zab_call_laws.specs.Counters.{SubmitsStopFullLeaders, RequestsStopFullLeaders};

use zab_broadcast::Primary;
use zab_epoch::Quorums;

/// In every run, of any number of servers, a tag belongs to at most one entry.
pub fn one_entry_for_a_tag<P: Primary, Q: Quorums>(_quorums: &Q)
    ensures { (servers : ℕ) (events : List (Event P.Call))
        → IsTaggedOnce (profile_of (Q.passes _quorums.now) P.made_of P.tag_of P.closing_of) servers events }
{}

/// In every run, each entry of each history is built from an accepted call, after the entries
/// before it.
pub fn entries_come_from_calls<P: Primary, Q: Quorums>(_quorums: &Q)
    ensures { (servers : ℕ) (events : List (Event P.Call))
        → ComeFromCalls (profile_of (Q.passes _quorums.now) P.made_of P.tag_of P.closing_of) servers events }
{}

/// In every run, a server that has completed a sync with a length has delivered at least that many
/// entries. The leader of the epoch in which the sync was accepted had delivered no more at that
/// event, and those are a prefix of what the server has delivered.
pub fn syncs_catch_up<P: Primary, Q: Quorums>(_quorums: &Q)
    ensures { (servers : ℕ) (events : List (Event P.Call))
        → AreCaught (profile_of (Q.passes _quorums.now) P.made_of P.tag_of P.closing_of) servers events }
{}

/// A leader that has made 4,294,967,295 entries in its epoch has no zxid left. The next call, of
/// its own client or by a Request, fails with
/// [`RuleFault::EpochFull`](zab_epoch::RuleFault::EpochFull) and stops it: it looks for a leader,
/// and nothing else changes.
pub fn full_leaders_stop<P: Primary, Q: Quorums>(_quorums: &Q)
    ensures submit { SubmitsStopFullLeaders (setting_of (Q.passes _quorums.now) P.made_of P.tag_of) }
    ensures request { RequestsStopFullLeaders (setting_of (Q.passes _quorums.now) P.made_of P.tag_of) }
{}
