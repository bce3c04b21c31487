ghost use Rattle.zk_store.specs.Changes.{ChangesAreNoticed};

/// A changed byte of a book's file leaves its book, or is an error.
pub fn changes_are_noticed()
    ensures { ChangesAreNoticed }
{}
