//! Laws of all listings: a function without code, whose contract is a theorem.
ghost use Rattle.zk_listing.specs.Promises.{ListingsAreTexts, ListingsHaveOneMeaning};

/// A listing is UTF-8, and no two lists of transactions have the same listing.
pub fn listings_read_back()
    ensures texts { ListingsAreTexts }
    ensures one_meaning { ListingsHaveOneMeaning }
{}
