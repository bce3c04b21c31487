//! The listing of a log.
ghost use Rattle.std.specs.Prelude.{◌≡◌, []};
ghost use Rattle.std.specs.String.{string_bytes};

use std::alloc::Global;
use zk_format::spell_line;
use zk_log::TxnSink;
use zk_path::NoMemory;
use zk_table::Txn;

/// The lines of a log's transactions. Each is written as its transaction is read, so that no
/// transaction is kept.
#[derive(Drop)]
pub(crate) struct ListSink {
    pub(crate) text: String,
}

impl ListSink {
    pub(crate) fn new(alloc: Global) -> ListSink
        ensures { string_bytes result.text ≡ [] }
    {
        ListSink {
            text: String::new(alloc),
        }
    }
}

impl TxnSink for ListSink {
    ghost use Rattle.std.specs.Prelude.{◌++◌};
    ghost use Rattle.zk_format.specs.Listings.{listing_of};

    ghost took = { λ start txns it. string_bytes it.text ≡ string_bytes start.text ++ listing_of txns };

    fn take(&mut self, txn: Txn) -> Result<(), NoMemory> {
        spell_line(&mut self.text, &txn)?;
        Ok(())
    }
}
