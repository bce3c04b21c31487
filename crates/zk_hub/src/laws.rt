//! What holds of every hub. The functions do nothing; each is there for its contract.

ghost use Rattle.zk_hub.specs.Laws.{FirstInFirstOut, OthersStay};
ghost use Rattle.zk_hub.specs.Resumptions.{PartsAreTheWhole};

/// A connection's requests are replied to in the order in which it sent them.
pub fn first_in_first_out<V: Drop, E: Drop, R: Drop>()
    ensures { FirstInFirstOut V E R }
{}

/// What happens at one connection changes no request of another, and takes none.
pub fn others_stay<V: Drop, E: Drop, R: Drop>()
    ensures { OthersStay V E R }
{}

/// The watches of a client that comes back may be set in parts: nothing is lost between them.
pub fn parts_are_the_whole()
    ensures { PartsAreTheWhole }
{}
