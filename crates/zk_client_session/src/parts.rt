//! An action's work, and its parts.

ghost use Rattle.std.specs.Prelude.{◌≡◌, IfOk};
ghost use Rattle.zk_client_session.specs.Parts.{left_by, left_by_ask, split, watches_split};
ghost use Rattle.zk_client_session.specs.declared.ask.Action.TheVariants as actions;
ghost use Rattle.zk_client_session.specs.declared.ask.Ask.TheVariants as asks;

use crate::ask::{Action, Ask};
use crate::expected_reply::{ExpectedReply, ReplyKind};
use crate::saved_watch::SavedWatches;
use zk_acl::Ids;
use zk_path::NoMemory;

impl Action {
    /// The action with at most `most` watches, and what is left of it: the reply is that of the last
    /// part.
    pub fn split(self, most: usize) -> Result<(Action, Option<Action>), NoMemory>
        ensures { IfOk result (λ parts. parts ≡ split most self) }
    {
        match self {
            Action::Asks { ask, expected } => split_ask(most, ask, expected),
            action => Ok((action, None)),
        }
    }

    /// What an action leaves of the work of a turn: it takes one unit, and one for each of its
    /// watches; one that reads all nodes takes all.
    pub fn left_by(&self, work: usize) -> usize
        ensures { result ≡ left_by self.now work }
    {
        match self {
            Action::Asks { ask, .. } => left_by_ask(ask, work),
            Action::Replies(_) | Action::Closes => work.saturating_sub(1),
        }
    }
}

fn left_by_ask(ask: &Ask, work: usize) -> usize
    ensures { result ≡ left_by_ask ask.now work }
{
    let left = work.saturating_sub(1);
    match ask {
        Ask::SetWatches { watches, .. } => left.saturating_sub(watches.len()),
        Ask::Ephemerals { .. } | Ask::CountDescendants { .. } => 0,
        _ => left,
    }
}

fn split_ask(
    most: usize,
    ask: Ask,
    expected: ExpectedReply,
) -> Result<(Action, Option<Action>), NoMemory>
    ensures { IfOk result (λ parts. parts ≡ split most (actions.Asks ask expected)) }
{
    match ask {
        Ask::SetWatches {
            session,
            relative_zxid,
            auths,
            watches,
        } => split_watches(most, session, relative_zxid, auths, watches, expected),
        ask => Ok((Action::Asks { ask, expected }, None)),
    }
}

fn split_watches(
    most: usize,
    session: i64,
    relative_zxid: i64,
    auths: Ids,
    watches: SavedWatches,
    expected: ExpectedReply,
) -> Result<(Action, Option<Action>), NoMemory>
    ensures { IfOk result (λ parts. parts ≡ watches_split most session relative_zxid auths watches expected) }
{
    let mut first = watches;
    if first.len() <= most {
        let ask = set_watches(session, relative_zxid, auths, first);
        return Ok((Action::Asks { ask, expected }, None));
    }
    let others = first.split_off(most)?;
    let ask = set_watches(session, relative_zxid, auths.copy()?, first);
    let begun = ExpectedReply {
        xid: expected.xid,
        kind: ReplyKind::WatchesBegun,
    };
    let part = Action::Asks {
        ask,
        expected: begun,
    };
    let ask = set_watches(session, relative_zxid, auths, others);
    Ok((part, Some(Action::Asks { ask, expected })))
}

fn set_watches(session: i64, relative_zxid: i64, auths: Ids, watches: SavedWatches) -> Ask
    ensures { result ≡ asks.SetWatches session relative_zxid auths watches }
{
    Ask::SetWatches {
        session,
        relative_zxid,
        auths,
        watches,
    }
}
