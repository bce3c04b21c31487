//! Which zxid continues which.
ghost use Rattle.std.specs.Prelude.{◌≡◌};
ghost use Rattle.zk_directory.specs.Continuing.{continues, counter_of, epoch_of, starts_history};

/// The number of zxids in an epoch.
const EPOCH: u64 = 4_294_967_296;

/// Whether a transaction of this zxid may follow one of the zxid `before`, with none between them:
/// the next of its epoch, or the first of a later one.
pub fn continues(before: i64, zxid: i64) -> bool
    ensures { result ≡ continues before zxid }
{
    if zxid <= before {
        return false;
    }
    zxid - 1 == before || (counter_of(zxid) == 1 && epoch_of(before) < epoch_of(zxid))
}

/// The epoch of a zxid: its high 32 bits.
pub(crate) fn epoch_of(zxid: i64) -> u64
    ensures { result ≡ epoch_of zxid }
{
    zxid.cast_unsigned() / EPOCH
}

/// The number of a transaction within its epoch, from 1: the low 32 bits of its zxid.
pub fn counter_of(zxid: i64) -> u64
    ensures { result ≡ counter_of zxid }
{
    zxid.cast_unsigned() % EPOCH
}

/// Whether a transaction of this zxid starts a history: the first of epoch 1, or of the epoch 0 of a
/// server that is alone.
pub fn starts_history(zxid: i64) -> bool
    ensures { result ≡ starts_history zxid }
{
    counter_of(zxid) == 1 && epoch_of(zxid) <= 1
}
