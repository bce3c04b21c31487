//! How a case ended.

/// Whether a call failed to allocate, and the state after it.
#[derive(Clone, Copy, Debug, PartialEq, Eq)]
pub(crate) enum Seen {
    /// No allocation failed.
    Done,
    /// An allocation failed, and the state is as documented.
    Refused,
    /// An allocation failed, and the state is wrong; or none failed, and the effect is wrong.
    Differs,
}

impl Seen {
    /// The outcome of a call that failed to allocate.
    pub(crate) fn refused(holds: bool) -> Seen {
        if holds { Seen::Refused } else { Seen::Differs }
    }

    /// The outcome of a call that did not fail.
    pub(crate) fn done(holds: bool) -> Seen {
        if holds { Seen::Done } else { Seen::Differs }
    }
}
