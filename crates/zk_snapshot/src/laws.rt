//! Laws of snapshots: the contract of a function that does nothing.

ghost use Rattle.zk_snapshot.specs.Fuzzy.{ReplayIsExact};

/// If each field of a snapshot is of some moment of a window, a replay of all writes from the
/// window's start gives the server's state from the window's end on.
pub fn replay_is_exact()
    ensures { ReplayIsExact }
{}
