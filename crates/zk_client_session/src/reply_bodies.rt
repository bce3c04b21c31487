//! The bodies of replies to writes and reads.

ghost use Rattle.std.specs.Prelude.{◌≡◌, ◌++◌, map, Some, IfOk, OnOk, option_map};
ghost use Rattle.zk_frames.specs.declared.reply.ReplyBody.TheVariants as bodies;
ghost use Rattle.zk_frames.specs.declared.reply.MultiResult.TheVariants as multi_results;
ghost use Rattle.zk_client_session.specs.Replies.{new_stat, or_error, part_done, parts_done, part_failed, body_done, body_read};

use crate::expected_reply::{PartKind, PartKinds, ReplyKind};
use std::alloc::Global;
use zk_acl::{Acls, Stat, Text};
use zk_frames::{MultiResult, MultiResults, ReplyBody};
use zk_path::{NoMemory, Path};
use zk_table::{Content, Names, PartResult, ReadReply, TxnResult};

/// A result does not fit the request.
pub(crate) const SYSTEM_ERROR: i32 = -1;

fn text_of(alloc: Global, path: &Option<Path>) -> Result<Option<Text>, NoMemory>
    ensures { IfOk result (λ text. text ≡ path.now) }
{
    match path {
        Some(path) => Ok(Some(Text::read(alloc, path.text())?)),
        None => Ok(None),
    }
}

fn created_part(alloc: Global, path: &Option<Path>) -> Result<MultiResult, NoMemory>
    ensures { IfOk result (λ it. it ≡ or_error (option_map multi_results.Create path.now)) }
{
    match text_of(alloc, path)? {
        Some(path) => Ok(MultiResult::Create(path)),
        None => Ok(MultiResult::Error(SYSTEM_ERROR)),
    }
}

fn changed_part(stat: &Option<Stat>) -> MultiResult
    ensures { result ≡ or_error (option_map multi_results.SetData stat.now) }
{
    match stat {
        Some(stat) => MultiResult::SetData(*stat),
        None => MultiResult::Error(SYSTEM_ERROR),
    }
}

fn part_done(alloc: Global, kind: PartKind, part: &PartResult) -> Result<MultiResult, NoMemory>
    ensures { IfOk result (λ it. it ≡ part_done kind part.now) }
{
    match kind {
        PartKind::Create => created_part(alloc, &part.path),
        PartKind::Delete => Ok(MultiResult::Delete),
        PartKind::SetData => Ok(changed_part(&part.stat)),
        PartKind::Check => Ok(MultiResult::Check),
    }
}

/// The results of the parts of a multi that was applied.
fn parts_done(
    alloc: Global,
    kinds: &PartKinds,
    parts: &[PartResult],
) -> Result<MultiResults, NoMemory>
    ensures { IfOk result (λ results. results ≡ parts_done parts.now kinds.now) }
{
    let mut results = Vec::new(alloc);
    let mut left = kinds.as_slice();
    for part in parts {
        let Some((kind, rest)) = left.split_first() else {
            return Ok(MultiResults::new(results));
        };
        results.push(part_done(alloc, *kind, part)?)?;
        left = rest;
    }
    Ok(MultiResults::new(results))
}

/// The codes of the parts of a multi that failed.
pub(crate) fn parts_failed(alloc: Global, parts: &[PartResult]) -> Result<MultiResults, NoMemory>
    ensures { IfOk result (λ results. results ≡ map part_failed parts.now) }
{
    let mut results = Vec::new(alloc);
    for part in parts {
        results.push(MultiResult::Error(part.err))?;
    }
    Ok(MultiResults::new(results))
}

fn created_body(alloc: Global, path: &Option<Path>) -> Result<Option<ReplyBody>, NoMemory>
    ensures { IfOk result (λ body. body ≡ option_map bodies.Path path.now) }
{
    match text_of(alloc, path)? {
        Some(path) => Ok(Some(ReplyBody::Path(path))),
        None => Ok(None),
    }
}

fn created_stat_body(
    alloc: Global,
    path: &Option<Path>,
    stat: Stat,
) -> Result<Option<ReplyBody>, NoMemory>
    ensures { IfOk result (λ body. body ≡ option_map (λ text. bodies.PathAndStat text stat) path.now) }
{
    match text_of(alloc, path)? {
        Some(path) => Ok(Some(ReplyBody::PathAndStat { path, stat })),
        None => Ok(None),
    }
}

fn changed_body(stat: &Option<Stat>) -> Option<ReplyBody>
    ensures { result ≡ option_map bodies.Stat stat.now }
{
    match stat {
        Some(stat) => Some(ReplyBody::Stat(*stat)),
        None => None,
    }
}

fn multi_body(
    alloc: Global,
    kinds: &PartKinds,
    parts: &[PartResult],
) -> Result<Option<ReplyBody>, NoMemory>
    ensures { IfOk result (λ body. body ≡ Some (bodies.Multi (parts_done parts.now kinds.now))) }
{
    Ok(Some(ReplyBody::Multi(parts_done(alloc, kinds, parts)?)))
}

/// The stat of a node right after the transaction that created it.
fn new_stat(zxid: i64, time: i64, owner: i64, length: i32) -> Stat
    ensures { result ≡ new_stat zxid time owner length }
{
    Stat {
        czxid: zxid,
        mzxid: zxid,
        ctime: time,
        mtime: time,
        version: 0,
        cversion: 0,
        aversion: 0,
        ephemeral_owner: owner,
        data_length: length,
        num_children: 0,
        pzxid: zxid,
    }
}

/// The body of the reply to a write that succeeded; `None` if another reply is expected.
pub(crate) fn body_done(
    alloc: Global,
    kind: &ReplyKind,
    wrote: &TxnResult,
    time: &i64,
) -> Result<Option<ReplyBody>, NoMemory>
    ensures { IfOk result (λ body. body ≡ body_done kind.now wrote.now time.now) }
{
    match kind {
        ReplyKind::Created => created_body(alloc, &wrote.path),
        ReplyKind::CreatedWithStat { owner, length } => created_stat_body(
            alloc,
            &wrote.path,
            new_stat(wrote.zxid, *time, *owner, *length),
        ),
        ReplyKind::Deleted | ReplyKind::Closed => Ok(Some(ReplyBody::Empty)),
        ReplyKind::Changed => Ok(changed_body(&wrote.stat)),
        ReplyKind::Multi(kinds) => multi_body(alloc, kinds, wrote.parts.as_slice()),
        _ => Ok(None),
    }
}

fn data_body(content: &Option<Content>, stat: Stat) -> Result<Option<ReplyBody>, NoMemory>
    ensures { IfOk result (λ body. body ≡ Some (bodies.Data content.now stat)) }
{
    let content = Content::copy_of(content)?;
    Ok(Some(ReplyBody::Data { content, stat }))
}

fn acl_body(acl: &Acls, stat: Stat) -> Result<Option<ReplyBody>, NoMemory>
    ensures { IfOk result (λ body. body ≡ Some (bodies.Acl acl.now stat)) }
{
    let acl = acl.copy()?;
    Ok(Some(ReplyBody::Acl { acl, stat }))
}

fn children_body(names: &Names) -> Result<Option<ReplyBody>, NoMemory>
    ensures { IfOk result (λ body. body ≡ Some (bodies.Children names.now)) }
{
    Ok(Some(ReplyBody::Children(names.copy()?)))
}

fn children_stat_body(names: &Names, stat: Stat) -> Result<Option<ReplyBody>, NoMemory>
    ensures { IfOk result (λ body. body ≡ Some (bodies.ChildrenAndStat names.now stat)) }
{
    let children = names.copy()?;
    Ok(Some(ReplyBody::ChildrenAndStat { children, stat }))
}

/// The body of the reply to a read that succeeded; `None` if another reply is expected.
pub(crate) fn body_read(kind: &ReplyKind, reply: &ReadReply) -> Result<Option<ReplyBody>, NoMemory>
    ensures { IfOk result (λ body. body ≡ body_read kind.now reply.now) }
{
    match (kind, reply) {
        (ReplyKind::Existence, ReadReply::Found(stat)) => Ok(Some(ReplyBody::Stat(*stat))),
        (ReplyKind::Data, ReadReply::Content { content, stat }) => data_body(content, *stat),
        (ReplyKind::Acl, ReadReply::AclIs { acl, stat }) => acl_body(acl, *stat),
        (ReplyKind::Children, ReadReply::Children { names, .. }) => children_body(names),
        (ReplyKind::ChildrenWithStat, ReadReply::Children { names, stat }) => {
            children_stat_body(names, *stat)
        }
        _ => Ok(None),
    }
}
