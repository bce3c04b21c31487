ghost use Rattle.std.specs.Prelude.{◌≡◌, ℕ, List};
ghost use Rattle.zab_model.specs.declared.event.Event.{Event};
ghost use Rattle.zab_agreement_laws.specs.Agreement.{Agrees};
ghost use Rattle.zab_agreement_laws.specs.Facts.{OneLeaderAnEpoch, AcknowledgedLasts};
ghost use Rattle.zab_agreement_laws.specs.Facts.{HistoriesBeginWithTheirEpoch, DeliveredWasAcknowledged};
ghost use Rattle.zab_agreement_laws.specs.Facts.{FactsGiveOneOrder};
ghost use Rattle.zab_agreement_laws.specs.Promises.{ServersShareTheirLeadersFront, NewLeadersMeanTheirLeadersHistory, LeadersEndBelow};
ghost use Rattle.zab_model.specs.declared.event.Event.TheVariants as events;
ghost use Rattle.zab_model.specs.Worlds.{World, happens, profile_of};
ghost use Rattle.zab_model.specs.Runs.{stable_of};

use zab_broadcast::Primary;
use zab_epoch::Quorums;

/// A crash keeps a server's stable part, and a restart restores it.
pub fn stable_part_outlasts_crashes<P: Primary, Q: Quorums>(_quorums: &Q)
    ensures crash { (w : World P.Call) (number : ℕ)
        → stable_of (happens (profile_of (Q.passes _quorums.now) P.made_of P.tag_of P.closing_of) w (events.Crash number)).0 number
        ≡ stable_of w number }
    ensures restart { (w : World P.Call) (number : ℕ)
        → stable_of (happens (profile_of (Q.passes _quorums.now) P.made_of P.tag_of P.closing_of) w (events.Restart number)).0 number
        ≡ stable_of w number }
{}

/// Every run agrees, over every list of events and for every quorum system and primary.
pub fn runs_agree<P: Primary, Q: Quorums>(_quorums: &Q)
    ensures { (servers : ℕ) (events : List (Event P.Call))
        → Agrees (profile_of (Q.passes _quorums.now) P.made_of P.tag_of P.closing_of) servers events }
{}

/// The four facts of every run that imply agreement. A change of a rule must keep these; the rest
/// of agreement follows.
pub fn runs_keep_the_four_facts<P: Primary, Q: Quorums>(_quorums: &Q)
    ensures one_leader_an_epoch { (servers : ℕ) (events : List (Event P.Call))
        → OneLeaderAnEpoch
        (profile_of (Q.passes _quorums.now) P.made_of P.tag_of P.closing_of) servers events }
    ensures what_a_quorum_acknowledged_lasts { (servers : ℕ) (events : List (Event P.Call))
        → AcknowledgedLasts
        (profile_of (Q.passes _quorums.now) P.made_of P.tag_of P.closing_of) servers events }
    ensures a_history_begins_with_its_epoch { (servers : ℕ) (events : List (Event P.Call))
        → HistoriesBeginWithTheirEpoch
        (profile_of (Q.passes _quorums.now) P.made_of P.tag_of P.closing_of) servers events }
    ensures what_is_delivered_was_acknowledged { (servers : ℕ) (events : List (Event P.Call))
        → DeliveredWasAcknowledged
        (profile_of (Q.passes _quorums.now) P.made_of P.tag_of P.closing_of) servers events }
{}

/// Of two delivered lists one is a prefix of the other, given only the four facts and the law of
/// quorums.
pub fn four_facts_give_one_order<P: Primary, Q: Quorums>(_quorums: &Q)
    ensures { (servers : ℕ) (events : List (Event P.Call))
        → FactsGiveOneOrder (profile_of (Q.passes _quorums.now) P.made_of P.tag_of P.closing_of) servers events }
{}

/// What a server shares with its promised leader: from a server's last zxid, a leader knows what
/// that server has of its history. And a leader's history ends below the zxid of its next entry.
pub fn servers_share_their_leaders_front<P: Primary, Q: Quorums>(_quorums: &Q)
    ensures front { (servers : ℕ) (events : List (Event P.Call))
        → ServersShareTheirLeadersFront (profile_of (Q.passes _quorums.now) P.made_of P.tag_of P.closing_of) servers events }
    ensures end { (servers : ℕ) (events : List (Event P.Call))
        → LeadersEndBelow (profile_of (Q.passes _quorums.now) P.made_of P.tag_of P.closing_of) servers events }
{}

/// What a follower takes from a NewLeader is a history of its epoch's leader, whenever the message
/// arrives: it begins with the epoch's starting history, and is a prefix of the longest that the
/// leader held in it.
pub fn new_leaders_mean_their_leaders_history<P: Primary, Q: Quorums>(_quorums: &Q)
    ensures { (servers : ℕ) (events : List (Event P.Call))
        → NewLeadersMeanTheirLeadersHistory (profile_of (Q.passes _quorums.now) P.made_of P.tag_of P.closing_of) servers events }
{}
