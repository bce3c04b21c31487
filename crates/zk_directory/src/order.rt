//! Where reading begins.
ghost use Rattle.std.specs.Prelude.{◌≡◌};
ghost use Rattle.zk_directory.specs.Orders.{first_log, may_hold_next};

/// The log in which the entries after the transaction `base` begin, as an index into the zxids of
/// the logs' names, in order. It is the log with the greatest name at most `base + 1`, or else the
/// first log.
///
/// It need not be named `base + 1`: a server rolls its log before or after it begins a snapshot.
pub fn first_log(zxids: &[i64], base: i64) -> usize
    ensures { result ≡ first_log base zxids.now }
{
    let mut earlier = 0usize;
    for zxid in zxids {
        if may_hold_next(base, *zxid) {
            earlier += 1;
        }
    }
    earlier.saturating_sub(1)
}

/// Whether a log of this name was created for the entry after `base`, or before it.
fn may_hold_next(base: i64, zxid: i64) -> bool
    ensures { result ≡ may_hold_next base zxid }
{
    zxid <= base || zxid - 1 == base
}
