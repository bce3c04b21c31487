ghost use Rattle.zk_store.specs.Stores.{OneStablePart};

/// The files of a store stand for at most one stable part and number of starts.
pub fn one_stable_part()
    ensures { OneStablePart }
{}
