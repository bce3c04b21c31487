ghost use Rattle.std.specs.Prelude.{OnOk};
ghost use Rattle.zk_newer_records.specs.declared.newer_record.NewerRecord.{NewerRecord as Record};

use crate::NewerRecord;
use zk_path::NoMemory;

/// A fold over the records of logs, in their order.
pub trait RecordFold {
    /// A record leads from the first state to the second.
    ghost follows: { Self → Record → Self → Type 0 };

    /// Takes the next record. Nothing is specified after an allocation failure.
    fn take(&mut self, newer: &NewerRecord) -> Result<(), NoMemory>
        ensures { OnOk result (follows self.old newer.now self.new) };
}
