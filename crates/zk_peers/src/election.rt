ghost use Rattle.std.specs.Prelude.{◌++◌, ◌∷◌, [], List};
ghost use Rattle.zab_host.specs.declared.vote.Vote.{Vote};
ghost use Rattle.zk_peers.specs.Elections.{IsResult};

use zab_host::Vote;

/// The vote that wins over all others; `None` if there are no votes.
pub(crate) fn winner(votes: &[Vote]) -> Option<Vote>
    ensures { IsResult result votes.now }
{
    let mut best = None;
    for vote in votes {
        best = better(best, vote);
    }
    best
}

/// The winner of some votes and one more.
#[tactic(auto, using(crate::proofs::Winning::first_vote, crate::proofs::Winning::next_wins, crate::proofs::Winning::next_loses))]
fn better(best: Option<Vote>, vote: &Vote) -> Option<Vote>
    ensures { (votes : List Vote) → IsResult best votes → IsResult result (votes ++ vote.now ∷ []) }
{
    let Some(other) = best else {
        return Some(*vote);
    };
    if vote.wins_over(&other) {
        return Some(*vote);
    }
    Some(other)
}
