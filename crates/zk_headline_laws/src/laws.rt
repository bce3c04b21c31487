ghost use Rattle.std.specs.Prelude.{◌≡◌, ℕ, List};
ghost use Rattle.zab_epoch.specs.declared.history.Entry.{Entry};
ghost use Rattle.zk_headline_laws.specs.Consequences.{HasConsequences};
ghost use Rattle.zk_model.specs.Ensembles.{profile_by};
ghost use Rattle.zk_model.specs.declared.event.Event.{Event as SomeEvent};
ghost use Rattle.zk_headline_laws.specs.Headline.{Headline, HasTableResults};
ghost use Rattle.zk_headline_laws.specs.ReadWatches.{ReadsEnableEvents, OtherSessionsStay, UnwatchedReadsStay};

use zab_epoch::Quorums;

/// The headline's first half: over every list of events, number of servers and quorum system.
pub fn every_run_keeps_the_headline<Q: Quorums>(_quorums: &Q)
    ensures { (servers : ℕ) (events : List SomeEvent) → Headline (profile_by (Q.passes _quorums.now)) servers events }
{}

/// What follows from the origin of entries: over every list of events, number of servers and quorum
/// system.
pub fn every_run_keeps_the_consequences<Q: Quorums>(_quorums: &Q)
    ensures { (servers : ℕ) (events : List SomeEvent) → HasConsequences (profile_by (Q.passes _quorums.now)) servers events }
{}

/// The results of a delivered list's entries are the table's.
pub fn answers_have_the_tables_results()
    ensures { (entries : List Entry) → HasTableResults entries }
{}

/// Which reads set which watches ("Semantics of Watches"). After a read with a watch, the next
/// change at its path fires an event for the session in two cases: the call enables that event and
/// succeeded, or the event fires without the read too. Other sessions get the same events as
/// without the read. A read without a watch sets none.
pub fn reads_enable_events()
    ensures enabled { ReadsEnableEvents }
    ensures others { OtherSessionsStay }
    ensures unwatched { UnwatchedReadsStay }
{}
