//! That the lines of events are read as these events. The functions have no code: their contracts
//! are theorems.
ghost use Rattle.std.specs.Prelude.{◌≡◌, ◌<◌, ◌^◌, ◌&&◌, true, length, FitsSigned};
ghost use Rattle.std.specs.Int.{w32, w64};
ghost use Rattle.std.specs.List.{AllByRecursion};
ghost use Rattle.std.specs.Str.{IsUtf8};
ghost use Rattle.zk_format.specs.Listings.{AreListedAcls, IsListedAcl, IsListedContent, IsListedPath};
ghost use Rattle.zk_request_syntax.specs.RequestLines.{IsDigestId, SpellsCreate, SpellsIds, SpellsPart, SpellsRequest, SpellsRead as SpellsLook, flags_of};
ghost use Rattle.zk_run_script.specs.Commands.{SpellsEvent, SpellsSubmit};
ghost use Rattle.zk_run_script.specs.Lines.{are_digests, are_flags, create_text, event_text, has_line, has_part_line, has_request_line, ids_text, is_counted, is_digest, is_ephemeral, is_sequential, lookup_text, may_watch, part_text, request_text, submit_text};
ghost use Rattle.zk_table.specs.Replies.{path_read};

use zab_model::Event as WorldEvent;
use zk_acl::{Acl, Acls, Id, Ids, Text};
use zk_model::Event;
use zk_path::Path;
use zk_requests::{Call, Part, Request};
use zk_table::{Content, ReadCall};

pub(crate) fn event_is_spelled(event: &Event)
    ensures { has_line event.now ≡ true → SpellsEvent event.now (event_text event.now) }
{
    match event {
        Event::World(WorldEvent::Submit { server, call }) => {
            call_is_spelled(*server, call);
        }
        Event::World(
            WorldEvent::Lead { server }
            | WorldEvent::Crash { server }
            | WorldEvent::Restart { server },
        ) => numbers_are_read(*server, 0),
        Event::World(WorldEvent::Arrive { message }) => numbers_are_read(*message, 0),
        Event::World(WorldEvent::Follow { server, leader }) => numbers_are_read(
            *server,
            *leader as u64,
        ),
        Event::World(WorldEvent::Sync { server, tag }) => numbers_are_read(*server, *tag),
        Event::World(
            WorldEvent::Expire {
                server,
                tag,
                session,
                now,
            },
        ) => {
            numbers_are_read(*server, *tag);
            ids_are_read(*session, *now);
        }
        Event::Read(question) => {
            numbers_are_read(question.server, 0);
            ids_are_read(question.session, question.seen);
            ids_are_spelled(&question.auths);
            lookup_is_spelled(&question.call, question.watch);
        }
    }
}

fn numbers_are_read(server: usize, tag: u64)
    ensures server { server < 2 ^ 64 }
    ensures tag { tag < 2 ^ 64 }
{}

fn ids_are_read(one: i64, other: i64)
    ensures one { FitsSigned w64 one }
    ensures other { FitsSigned w64 other }
{}

fn int_is_read(number: i32)
    ensures { FitsSigned w32 number }
{}

fn text_is_read(text: &Text)
    ensures { IsUtf8 text.now }
{
    let _text = text.as_str();
}

fn path_is_read(path: &Path)
    ensures { IsListedPath path.now }
{
    let _text = path.text();
}

fn content_is_read(content: &Option<Content>)
    ensures { IsListedContent content.now }
{
    if let Some(content) = content {
        bytes_are_read(content.as_slice());
    }
}

fn bytes_are_read(bytes: &[u8])
    ensures { AllByRecursion (λ b. b < 256) bytes.now }
{}

fn acls_are_read(acl: &Acls)
    ensures { is_counted acl.now ≡ true → AreListedAcls acl.now }
{
    let entries = acl.as_slice();
    for entry in entries {
        acl_is_read(entry);
    }
}

fn acl_is_read(entry: &Acl)
    ensures { IsListedAcl entry.now }
{
    int_is_read(entry.perms);
    text_is_read(&entry.id.scheme);
    text_is_read(&entry.id.id);
}

fn flags_are_read(flags: i32)
    ensures { are_flags flags ≡ true → flags ≡ flags_of (is_sequential flags) (is_ephemeral flags) }
{
    match flags {
        0 | 1 | 2 | 3 => (),
        _ => (),
    }
}

fn ids_are_spelled(ids: &Ids)
    ensures { are_digests ids.now ≡ true → SpellsIds ids.now (ids_text ids.now) }
{
    let entries = ids.as_slice();
    let _count = entries.len();
    each_id_is_spelled(entries);
}

fn each_id_is_spelled(ids: &[Id])
    ensures { AllByRecursion (λ id. is_digest id ≡ true → IsDigestId id) ids.now }
{
    for id in ids {
        id_is_spelled(id);
    }
}

fn id_is_spelled(id: &Id)
    ensures { is_digest id.now ≡ true → IsDigestId id.now }
{
    text_is_read(&id.id);
}

#[tactic(auto, using(crate::proofs::Spelled::submit))]
fn call_is_spelled(server: usize, call: &Call)
    ensures { are_digests call.entry.now.auths && has_request_line call.entry.now.request ≡ true
        → SpellsSubmit server call.entry.now (submit_text server call.entry.now) }
{
    numbers_are_read(server, call.tag);
    ids_are_read(call.session, call.now);
    int_is_read(call.cxid);
    ids_are_spelled(&call.auths);
    request_is_spelled(&call.request);
}

#[tactic(auto, using(crate::proofs::Spelled::created))]
fn create_is_spelled(path: &Text, content: &Option<Content>, acl: &Acls, flags: i32)
    ensures { are_flags flags && is_counted acl.now ≡ true
        → SpellsCreate path.now content.now acl.now flags (create_text path.now content.now acl.now flags) }
{
    text_is_read(path);
    content_is_read(content);
    acls_are_read(acl);
    flags_are_read(flags);
}

#[tactic(auto, using(crate::proofs::Spelled::multi))]
fn request_is_spelled(request: &Request)
    ensures { has_request_line request.now ≡ true → SpellsRequest request.now (request_text request.now) }
{
    match request {
        Request::Create {
            path,
            content,
            acl,
            flags,
        } => {
            create_is_spelled(path, content, acl, *flags);
        }
        Request::Delete { path, version } => {
            text_is_read(path);
            int_is_read(*version);
        }
        Request::SetData {
            path,
            content,
            version,
        } => {
            text_is_read(path);
            content_is_read(content);
            int_is_read(*version);
        }
        Request::SetAcl { path, acl, version } => {
            text_is_read(path);
            acls_are_read(acl);
            int_is_read(*version);
        }
        Request::Multi { parts } => parts_are_spelled(parts.as_slice()),
        Request::OpenSession { timeout } => int_is_read(*timeout),
        Request::CloseSession => (),
    }
}

fn parts_are_spelled(parts: &[Part])
    ensures { AllByRecursion (λ part. has_part_line part ≡ true → SpellsPart part (part_text part)) parts.now }
{
    for part in parts {
        part_is_spelled(part);
    }
}

fn part_is_spelled(part: &Part)
    ensures { has_part_line part.now ≡ true → SpellsPart part.now (part_text part.now) }
{
    match part {
        Part::Create {
            path,
            content,
            acl,
            flags,
        } => {
            create_is_spelled(path, content, acl, *flags);
        }
        Part::Delete { path, version } => {
            text_is_read(path);
            int_is_read(*version);
        }
        Part::SetData {
            path,
            content,
            version,
        } => {
            text_is_read(path);
            content_is_read(content);
            int_is_read(*version);
        }
        Part::Check { path, version } => {
            text_is_read(path);
            int_is_read(*version);
        }
    }
}

fn lookup_is_spelled(call: &ReadCall, watch: bool)
    ensures spelled { may_watch call.now watch ≡ true → SpellsLook call.now watch (lookup_text call.now watch) }
    ensures path { IsListedPath (path_read call.now) }
{
    path_is_read(call.path());
}
