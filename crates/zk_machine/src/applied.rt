ghost use Rattle.std.specs.Prelude.{◌≡◌};

use crate::change::Change;
use crate::undo::Undo;
use zk_table::TxnResult;

/// The result of a transaction, its changes, and its undo record.
#[derive(Debug, Drop)]
pub struct Applied {
    pub result: TxnResult,
    /// In the order of the instructions, where each part of a multi is one. Within an instruction
    /// sorted by path; at one path the content precedes the children.
    pub changes: Vec<Change>,
    pub undo: Undo,
}

impl Applied {
    /// Frees the memory that its lists reserve and do not use, for those who keep many.
    pub fn shrink(&mut self)
        ensures result { self.new.result ≡ self.old.result }
        ensures changes { self.new.changes.items ≡ self.old.changes.items }
        ensures undo { self.new.undo ≡ self.old.undo }
    {
        self.changes.shrink_to_fit();
        self.undo.shrink();
    }
}
