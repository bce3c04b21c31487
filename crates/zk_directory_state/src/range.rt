//! A range of transactions.
ghost use Rattle.std.specs.Prelude.{◌≡◌};
ghost use Rattle.zk_directory_state.specs.Ranges.{is_from, is_in, is_to, unbounded};

use zk_table::Txn;

/// A transaction at which a range begins or ends.
#[derive(Clone, Copy, Debug, PartialEq, Eq)]
pub enum Bound {
    Zxid(i64),
    /// Milliseconds since 1970.
    Time(i64),
}

/// The transactions between two bounds, both included; `None` is no bound.
#[derive(Clone, Copy, Debug, PartialEq, Eq)]
pub struct Range {
    pub from: Option<Bound>,
    pub to: Option<Bound>,
}

impl Range {
    /// All transactions.
    pub fn unbounded() -> Range
        ensures { result ≡ unbounded }
    {
        Range {
            from: None,
            to: None,
        }
    }

    /// Whether a transaction is in the range.
    pub fn contains(&self, txn: &Txn) -> bool
        ensures { result ≡ is_in self.now txn.now }
    {
        is_from(self.from, txn) && is_to(self.to, txn)
    }
}

fn is_from(from: Option<Bound>, txn: &Txn) -> bool
    ensures { result ≡ is_from from txn.now }
{
    match from {
        None => true,
        Some(Bound::Zxid(zxid)) => zxid <= txn.zxid,
        Some(Bound::Time(time)) => time <= txn.time,
    }
}

fn is_to(to: Option<Bound>, txn: &Txn) -> bool
    ensures { result ≡ is_to to txn.now }
{
    match to {
        None => true,
        Some(Bound::Zxid(zxid)) => txn.zxid <= zxid,
        Some(Bound::Time(time)) => txn.time <= time,
    }
}
