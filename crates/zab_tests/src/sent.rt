//! Messages between two servers, and what a decoder makes of their bytes.

ghost use Rattle.std.specs.Prelude.{◌≡◌, true};
ghost use Rattle.zab_epoch.specs.Shortness.{IsShortBody};

use crate::asked::{entry, is_short, push};
use std::alloc::Global;
use zab_epoch::{Body, History, Message, Payload};
use zab_frames::{DecodeFault, Decoder, write_message};
use zk_acl::{Acl, Acls, Id, Ids, Text};
use zk_path::NoMemory;
use zk_requests::{Call, Part, Parts, Request};
use zk_table::Content;

fn id(alloc: Global, scheme: &str, id: &str) -> Result<Id, NoMemory> {
    let scheme = Text::read(alloc, scheme)?;
    let id = Text::read(alloc, id)?;
    Ok(Id { scheme, id })
}

fn acls(alloc: Global, perms: &[i32]) -> Result<Acls, NoMemory> {
    let mut entries = Vec::new(alloc);
    for perms in perms {
        let id = if *perms == 31 {
            id(alloc, "world", "anyone")?
        } else {
            id(alloc, "digest", "u:é")?
        };
        entries.push(Acl { perms: *perms, id })?;
    }
    Acls::new(alloc, entries)
}

/// A message from server 1 to server 2.
fn sent(body: Body<Call>) -> Message<Call> {
    Message {
        sender: 1,
        addressee: 2,
        body,
    }
}

fn asked(alloc: Global, request: Request) -> Result<Message<Call>, NoMemory> {
    let mut auths = Vec::new(alloc);
    auths.push(id(alloc, "digest", "u:p")?)?;
    let call = Call {
        tag: 11,
        session: 0x100_0000_0000_0001,
        cxid: -3,
        auths: Ids::new(auths),
        now: 1_400_000_000_000,
        request,
    };
    Ok(sent(Body::Request {
        epoch: 8,
        call: Payload::new(alloc, call)?,
    }))
}

/// A message of discovery, synchronization or broadcast, by its kind; `None` for requests.
pub(crate) fn message(alloc: Global, kind: u32) -> Result<Option<Message<Call>>, NoMemory> {
    let epoch = 8;
    let body = match kind {
        1 => Body::CEpoch { promised: 7 },
        2 => Body::NewEpoch { epoch },
        3 => Body::AckEpoch {
            epoch,
            vote: true,
            current: 7,
            last: 0x7_0000_0004,
        },
        4 => new_leader(alloc)?,
        5 => Body::AckLeader { epoch, length: 4 },
        6 => Body::Propose {
            epoch,
            index: 5,
            entry: Payload::new(alloc, entry(9, 0x8_0000_0001))?,
        },
        7 => Body::Ack { epoch, length: 5 },
        8 => Body::Commit { epoch, length: 5 },
        10 => Body::SyncAsk { epoch, tag: 12 },
        11 => Body::SyncTell {
            epoch,
            tag: 12,
            length: 5,
        },
        _ => return Ok(None),
    };
    Ok(Some(sent(body)))
}

fn new_leader(alloc: Global) -> Result<Body<Call>, NoMemory> {
    let mut history = History::new(alloc);
    push(&mut history, entry(5, 0x7_0000_0003))?;
    push(&mut history, entry(6, 0x7_0000_0004))?;
    Ok(Body::NewLeader {
        epoch: 8,
        keep: 0x7_0000_0002,
        rest: Payload::new(alloc, history)?,
    })
}

fn create(alloc: Global) -> Result<Request, NoMemory> {
    let path = Text::read(alloc, "/a")?;
    let content = Content::read(alloc, b"hi\0")?;
    let acl = acls(alloc, &[31, 1])?;
    Ok(Request::Create {
        path,
        content: Some(content),
        acl,
        flags: 3,
    })
}

fn change(alloc: Global, index: usize) -> Result<Request, NoMemory> {
    let path = Text::read(alloc, "/a")?;
    match index {
        1 => Ok(Request::Delete { path, version: -1 }),
        _ => Ok(Request::SetData {
            path,
            content: None,
            version: 4,
        }),
    }
}

fn set_acl(alloc: Global) -> Result<Request, NoMemory> {
    let path = Text::read(alloc, "/a")?;
    let acl = acls(alloc, &[31])?;
    Ok(Request::SetAcl {
        path,
        acl,
        version: 2,
    })
}

/// A request to create, change or delete `/a`, or of a session; by the order of its frame.
pub(crate) fn request(alloc: Global, index: usize) -> Result<Message<Call>, NoMemory> {
    let request = match index {
        0 => create(alloc)?,
        1 | 2 => change(alloc, index)?,
        3 => set_acl(alloc)?,
        4 => multi(alloc)?,
        5 => Request::OpenSession { timeout: 6000 },
        _ => Request::CloseSession,
    };
    asked(alloc, request)
}

fn create_part(alloc: Global) -> Result<Part, NoMemory> {
    let path = Text::read(alloc, "/a")?;
    let content = Content::read(alloc, b"hi\0")?;
    let acl = acls(alloc, &[31, 1])?;
    Ok(Part::Create {
        path,
        content: Some(content),
        acl,
        flags: 3,
    })
}

fn set_data_part(alloc: Global) -> Result<Part, NoMemory> {
    let path = Text::read(alloc, "/a")?;
    let content = Content::read(alloc, b"")?;
    Ok(Part::SetData {
        path,
        content: Some(content),
        version: 0,
    })
}

fn multi(alloc: Global) -> Result<Request, NoMemory> {
    let mut parts = Vec::new(alloc);
    let path = Text::read(alloc, "/a")?;
    parts.push(Part::Check { path, version: 4 })?;
    parts.push(create_part(alloc)?)?;
    parts.push(set_data_part(alloc)?)?;
    let path = Text::read(alloc, "/a")?;
    parts.push(Part::Delete { path, version: 1 })?;
    Ok(Request::Multi {
        parts: Parts::new(parts),
    })
}

/// Whether the entry that a message proposes is short.
fn is_short_body(body: &Body<Call>) -> bool
    ensures { result ≡ true → IsShortBody body.now }
{
    match body {
        Body::Propose { entry, .. } => is_short(entry),
        _ => true,
    }
}

/// Appends the frame of a message.
pub(crate) fn append(alloc: Global, out: &mut Vec<u8>, message: &Message<Call>) -> bool {
    is_short_body(&message.body) && write_message(alloc, out, message).is_ok()
}

/// What a decoder makes of bytes.
#[derive(Clone, Copy, Debug, PartialEq, Eq)]
pub(crate) struct Decoded {
    pub messages: usize,
    /// Whether it stopped at a fault.
    pub broken: bool,
}

/// Decodes a stream that comes in two chunks; `None` if an allocation fails.
pub(crate) fn decode(alloc: Global, first: &[u8], second: &[u8]) -> Option<Decoded> {
    let mut decoder = Decoder::new(alloc);
    let mut decoded = Decoded {
        messages: 0,
        broken: false,
    };
    decoder.push(first).ok()?;
    take(alloc, &mut decoder, &mut decoded)?;
    decoder.push(second).ok()?;
    take(alloc, &mut decoder, &mut decoded)?;
    Some(decoded)
}

/// Takes messages up to 32.
fn take(alloc: Global, decoder: &mut Decoder, decoded: &mut Decoded) -> Option<()> {
    for _ in 0..32 {
        match decoder.next(alloc) {
            Ok(Some(_)) => decoded.messages = decoded.messages.saturating_add(1),
            Ok(None) => return Some(()),
            Err(DecodeFault::Broken(_)) => {
                decoded.broken = true;
                return Some(());
            }
            Err(DecodeFault::NoMemory) => return None,
        }
    }
    None
}
