//! A transaction and its time.
ghost use Rattle.std.specs.Prelude.{◌≡◌};
ghost use Rattle.zk_sessions.specs.Moments.{moment_of};

use zk_table::Txn;

/// A transaction, and its time, in milliseconds since 1970.
#[derive(Clone, Copy, Debug, PartialEq, Eq)]
pub struct Moment {
    pub zxid: i64,
    pub time: i64,
}

/// The zxid and the time of a transaction.
pub fn moment_of(txn: &Txn) -> Moment
    ensures { result ≡ moment_of txn.now }
{
    Moment {
        zxid: txn.zxid,
        time: txn.time,
    }
}
