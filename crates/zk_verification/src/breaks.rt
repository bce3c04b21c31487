//! Where the history that logs hold is broken.
ghost use Rattle.std.specs.Prelude.{◌≡◌};
ghost use Rattle.zk_verification.specs.Breaks.{earlier, from_of, greater, is_within, narrowed, reach_of};

/// A place at which the history that the logs hold is broken.
#[derive(Clone, Copy, Debug, PartialEq, Eq)]
pub enum Break {
    /// The transactions between these two are in no log.
    Missing { from: i64, to: i64 },
    /// A log is damaged after the transaction `from`, or before all. A server does not read its
    /// later ones, of which `last` is the last.
    Damaged { from: i64, last: i64 },
}

/// Up to which zxid the transactions after a snapshot are there, if not to the end of the logs.
pub(crate) fn reach_of(zxid: i64, breaks: &[Break]) -> Option<i64>
    ensures { result ≡ reach_of zxid breaks.now }
{
    let mut reach = None;
    for place in breaks {
        reach = narrowed(zxid, reach, *place);
    }
    reach
}

fn narrowed(zxid: i64, reach: Option<i64>, place: Break) -> Option<i64>
    ensures { result ≡ narrowed zxid reach place }
{
    if is_within(zxid, place) {
        return earlier(reach, greater(zxid, from_of(place)));
    }
    reach
}

/// Whether a snapshot comes before the end of a broken place.
fn is_within(zxid: i64, place: Break) -> bool
    ensures { result ≡ is_within zxid place }
{
    match place {
        Break::Missing { to, .. } => zxid < to,
        Break::Damaged { last, .. } => zxid <= last,
    }
}

fn from_of(place: Break) -> i64
    ensures { result ≡ from_of place }
{
    match place {
        Break::Missing { from, .. } => from,
        Break::Damaged { from, .. } => from,
    }
}

pub(crate) fn greater(a: i64, b: i64) -> i64
    ensures { result ≡ greater a b }
{
    if a < b { b } else { a }
}

pub(crate) fn earlier(end: Option<i64>, zxid: i64) -> Option<i64>
    ensures { result ≡ earlier end zxid }
{
    match end {
        Some(end) if end < zxid => Some(end),
        _ => Some(zxid),
    }
}
