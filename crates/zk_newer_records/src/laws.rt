//! Laws of the records of 3.5 to 3.8 servers: functions without code, whose contracts are theorems.

ghost use Rattle.zk_newer_records.specs.Laws.{OldOnesStand, NewerOnesAreOfOne, UnchangedOnesAreOld, OldOnesAreUnchanged};

/// No bytes are two records, so they represent one transaction at most.
pub fn newer_records_are_of_one()
    ensures { NewerOnesAreOfOne }
{}

/// A record of 3.4 represents its own transaction, and exactly these records are converted to the
/// same bytes.
pub fn old_records_stand()
    ensures stand { OldOnesStand }
    ensures unchanged { UnchangedOnesAreOld }
    ensures others { OldOnesAreUnchanged }
{}
