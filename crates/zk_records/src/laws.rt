//! A law of records: a function without code, whose contract is a theorem.

ghost use Rattle.zk_records.specs.Laws.{ShortOnesHaveRecords};

/// Every transaction has a record if its [`size`](crate::size) is at most 16,777,216.
pub fn short_transactions_have_records()
    ensures { ShortOnesHaveRecords }
{}
