//! The size of a reply, before it is written.

ghost use Rattle.std.specs.Prelude.{◌≡◌};
ghost use Rattle.std.specs.List.{flat_map};
ghost use Rattle.zk_records.specs.Records.{ustring, buffer, vector, acl_entry, acl_vector};
ghost use Rattle.zk_records.specs.Sizes.{size_of};
ghost use Rattle.zk_frames.specs.Replies.{stat_record, result_of, body_of, reply_of, event_of};

use crate::reply::{ClientReply, MultiResult, MultiResults, ReplyBody, WatcherEvent};
use zk_acl::{Acl, Acls, Stat};
use zk_table::{Content, Names};

/// A length, a count or a type, each a 32-bit number.
const INT: u64 = 4;

const REPLY_HEADER: u64 = 16;

const MULTI_HEADER: u64 = 9;

#[tactic(auto, unfolding(crate::specs::Replies::stat_record))]
fn stat_size(_stat: Stat) -> u64
    ensures { result ≡ size_of (stat_record _stat) }
{
    68
}

fn text_size(text: &str) -> u64
    ensures { result ≡ size_of (ustring text.now) }
{
    INT.saturating_add(text.len() as u64)
}

fn content_size(content: &Option<Content>) -> u64
    ensures { result ≡ size_of (buffer content.now) }
{
    match content {
        None => INT,
        Some(content) => INT.saturating_add(content.as_slice().len() as u64),
    }
}

fn acl_size(acl: &Acl) -> u64
    ensures { result ≡ size_of (acl_entry acl.now) }
{
    INT.saturating_add(text_size(acl.id.scheme.as_str()))
        .saturating_add(text_size(acl.id.id.as_str()))
}

fn acl_vector_size(acls: &Acls) -> u64
    ensures { result ≡ size_of (acl_vector acls.now) }
{
    let mut size = INT;
    for acl in acls.as_slice() {
        size = size.saturating_add(acl_size(acl));
    }
    size
}

fn names_size(names: &Names) -> u64
    ensures { result ≡ size_of (vector ustring names.now) }
{
    let mut size = INT;
    for name in names.as_slice() {
        size = size.saturating_add(text_size(name.as_str()));
    }
    size
}

#[tactic(auto, unfolding(crate::specs::Replies::result_of))]
fn result_size(part: &MultiResult) -> u64
    ensures { result ≡ size_of (result_of part.now) }
{
    match part {
        MultiResult::Create(path) => MULTI_HEADER.saturating_add(text_size(path.as_str())),
        MultiResult::Delete | MultiResult::Check => MULTI_HEADER,
        MultiResult::SetData(stat) => MULTI_HEADER.saturating_add(stat_size(*stat)),
        MultiResult::Error(_) => MULTI_HEADER + INT,
    }
}

fn results_size(results: &MultiResults) -> u64
    ensures { result ≡ size_of (flat_map result_of results.now) }
{
    let mut size: u64 = 0;
    for part in results.as_slice() {
        size = size.saturating_add(result_size(part));
    }
    size
}

fn body_size(body: &ReplyBody) -> u64
    ensures { result ≡ size_of (body_of body.now) }
{
    match body {
        ReplyBody::Empty => 0,
        ReplyBody::Path(path) => text_size(path.as_str()),
        ReplyBody::PathAndStat { path, stat } => text_size(path.as_str()).saturating_add(stat_size(
            *stat,
        )),
        ReplyBody::Stat(stat) => stat_size(*stat),
        ReplyBody::Data { content, stat } => content_size(content).saturating_add(stat_size(*stat)),
        ReplyBody::Acl { acl, stat } => acl_vector_size(acl).saturating_add(stat_size(*stat)),
        ReplyBody::Children(names) => names_size(names),
        ReplyBody::ChildrenAndStat { children, stat } => {
            names_size(children).saturating_add(stat_size(*stat))
        }
        ReplyBody::Count(_) => INT,
        ReplyBody::Multi(results) => results_size(results).saturating_add(MULTI_HEADER),
    }
}

#[tactic(auto, unfolding(crate::specs::Replies::reply_of))]
pub(crate) fn reply_size(reply: &ClientReply) -> u64
    ensures { result ≡ size_of (reply_of reply.now) }
{
    REPLY_HEADER.saturating_add(body_size(&reply.body))
}

#[tactic(auto, unfolding(crate::specs::Replies::event_of))]
pub(crate) fn event_size(event: &WatcherEvent) -> u64
    ensures { result ≡ size_of (event_of event.now) }
{
    (REPLY_HEADER + 2 * INT).saturating_add(text_size(event.path.as_str()))
}
