//! Laws of records: a function without code, whose contract is a theorem.

ghost use Rattle.zk_jute.specs.Laws.{OnlyOldCreatesBeginOthers, RecordsAreOfOne};

/// No bytes are the records of two transactions, and only the record of a 3.3 create is a prefix of
/// another record.
pub fn only_old_creates_begin_others()
    // If one record is a proper prefix of another, the shorter is a 3.3 create, and the longer is
    // the same with four more bytes.
    ensures begins { OnlyOldCreatesBeginOthers }
    // No bytes are the records of two transactions.
    ensures one { RecordsAreOfOne }
{}
