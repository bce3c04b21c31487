ghost use Rattle.std.specs.Prelude.{IsTrue, OnOk};
ghost use Rattle.zk_store.specs.Holding.{AreUsable};

use sqlite_disk::Disk;

/// The files of a host's store.
#[derive(Drop)]
pub struct StoreFiles<D: Disk> {
    /// The transaction log, as a 3.4 server's.
    pub log: D,
    /// The tags of the log's entries.
    pub tags: D,
    /// The log of the entries that join the history in a change of it.
    pub joining: D,
    /// Their tags.
    pub joining_tags: D,
    /// The epochs, the number of starts, and how many entries count.
    pub book: D,
}

impl<D: Disk> StoreFiles<D> {
    /// Whether no sync of a file has failed.
    pub fn may_be_used(&self) -> bool
        ensures usable { IsTrue result → AreUsable D.Disk self.now }
        ensures unusable { AreUsable D.Disk self.now → IsTrue result }
    {
        self.log.may_be_used()
            && self.tags.may_be_used()
            && self.joining.may_be_used()
            && self.joining_tags.may_be_used()
            && self.book.may_be_used()
    }
}
