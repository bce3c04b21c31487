//! What a follower has written.
ghost use Rattle.zk_listings.specs.FollowedListings.{WritesListings};

/// All steps of a follower that begins with nothing read write the listing of each log in order, of
/// each the transactions that no earlier log has.
#[tactic(auto, using(crate::proofs::FollowedListings::all_listed))]
pub fn writes_listings()
    ensures { WritesListings }
{}
