//! What a follower has printed.
ghost use Rattle.zk_listings.specs.Growths.{PrintsWhatWasRead};

/// After any growths of a log, what was printed is the listing of what was read so far.
#[tactic(auto, using(crate::proofs::Following::read_so_far))]
pub fn prints_what_was_read()
    ensures { PrintsWhatWasRead }
{}
