ghost use Rattle.std.specs.Prelude.{◌≡◌};
ghost use Rattle.zab_world.specs.Rollbacks.{kept_before, kept_at};

use zab_broadcast::State;
use zab_epoch::History;
use zk_path::NoMemory;

/// What undoes a step: the state of the server that it changed, and how much all servers had sent.
#[derive(Debug, Drop)]
pub struct Rollback {
    /// The server's number in its world.
    pub server: usize,
    pub kept: RollbackState,
    /// The number of messages,
    pub messages: usize,
    /// of tags of calls,
    pub calls: usize,
    /// and of tags of syncs.
    pub syncs: usize,
}

/// A server's stable part before a step.
#[derive(Debug, Drop)]
pub struct RollbackState {
    pub servers: usize,
    pub me: usize,
    pub promised: u32,
    pub current: u32,
    /// The number of its entries, if they are still the first ones;
    pub length: usize,
    /// its history, if the step may remove some.
    pub replaced: Option<History>,
}

impl RollbackState {
    ghost use Rattle.std.specs.Prelude.{◌≡◌, IfOk};
    ghost use Rattle.zab_world.specs.Rollbacks.{kept_at};

    /// Records the stable part: the whole history if entries may be removed, otherwise its length.
    pub fn of(state: &State, replaced: bool) -> Result<RollbackState, NoMemory>
        ensures { IfOk result (λ kept. kept ≡ kept_at replaced state.now) }
    {
        let peer = &state.peer;
        let history = &peer.stable.history;
        let whole = if replaced {
            Some(history.copy()?)
        } else {
            None
        };
        Ok(RollbackState {
            servers: peer.servers,
            me: peer.me,
            promised: peer.stable.promised,
            current: peer.stable.current,
            length: history.len(),
            replaced: whole,
        })
    }
}

/// Restores the history from the present one.
pub(crate) fn kept_before(length: usize, replaced: Option<History>, now: History) -> History
    ensures { result ≡ kept_before length replaced now }
{
    match replaced {
        Some(history) => history,
        None => {
            let mut history = now;
            history.truncate(length);
            history
        }
    }
}
