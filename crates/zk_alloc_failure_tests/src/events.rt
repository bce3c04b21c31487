//! Events, of plain values, and their answers.

use std::alloc::Global;
use zk_acl::{Acl, Acls, Id, Ids, Text};
use zk_model::{Answer, EnsembleFault, Event, Question};
use zk_path::{NoMemory, Path};
use zk_requests::{Call, Request};
use zk_table::ReadCall;

/// The session that the first call of the first epoch opens, by its own transaction.
pub const FIRST: i64 = 0x1_0000_0001;

/// An event. Servers and messages are numbered from 1.
#[derive(Clone, Copy)]
pub enum Happening {
    Lead(usize),
    Follow(usize, usize),
    Arrive(usize),
    Crash(usize),
    Restart(usize),
    /// A session is opened at a server.
    Open(usize),
    /// The session creates an ephemeral node.
    Make(usize),
    /// The session is closed.
    Close(usize),
    /// Another session lists the root, and sets a watch.
    Look(usize),
    /// The first session, which has seen this transaction, reads the root's stat at a server.
    Stat(usize, i64),
}

/// `world:anyone` with all permissions.
fn open_to_all(alloc: Global) -> Result<Acls, NoMemory> {
    let scheme = Text::read(alloc, "world")?;
    let id = Text::read(alloc, "anyone")?;
    let mut entries = Vec::new(alloc);
    entries.push(Acl {
        perms: 31,
        id: Id { scheme, id },
    })?;
    Acls::new(alloc, entries)
}

fn own_node(alloc: Global) -> Result<Request, NoMemory> {
    let path = Text::read(alloc, "/e")?;
    Ok(Request::Create {
        path,
        content: None,
        acl: open_to_all(alloc)?,
        flags: 1,
    })
}

/// The first session submits a request to a server, with a tag.
fn submit(alloc: Global, server: usize, tag: u64, request: Request) -> Event {
    Event::World(zab_model::Event::Submit {
        server,
        call: Call {
            tag,
            session: FIRST,
            cxid: 1,
            auths: Ids::new(Vec::new(alloc)),
            now: 1000,
            request,
        },
    })
}

fn root(alloc: Global) -> Result<Path, NoMemory> {
    Path::read(alloc, "/").map_err(|_| NoMemory)
}

/// The first session's read of the root at a server.
pub fn question(alloc: Global, server: usize, seen: i64) -> Result<Question, NoMemory> {
    Ok(Question {
        server,
        session: FIRST,
        seen,
        auths: Ids::new(Vec::new(alloc)),
        call: ReadCall::Exists { path: root(alloc)? },
        watch: true,
    })
}

/// Another session's read of the names below the root.
fn look(alloc: Global, server: usize) -> Result<Question, NoMemory> {
    Ok(Question {
        server,
        session: 2,
        seen: 0,
        auths: Ids::new(Vec::new(alloc)),
        call: ReadCall::GetChildren { path: root(alloc)? },
        watch: true,
    })
}

pub fn event_of(alloc: Global, happening: Happening) -> Result<Event, NoMemory> {
    let event = match happening {
        Happening::Lead(server) => zab_model::Event::Lead { server },
        Happening::Follow(server, leader) => zab_model::Event::Follow { server, leader },
        Happening::Arrive(message) => zab_model::Event::Arrive { message },
        Happening::Crash(server) => zab_model::Event::Crash { server },
        Happening::Restart(server) => zab_model::Event::Restart { server },
        Happening::Open(server) => {
            return Ok(submit(alloc, server, 1, Request::OpenSession { timeout: 4000 }));
        }
        Happening::Make(server) => return Ok(submit(alloc, server, 2, own_node(alloc)?)),
        Happening::Close(server) => return Ok(submit(alloc, server, 3, Request::CloseSession)),
        Happening::Look(server) => return Ok(Event::Read(look(alloc, server)?)),
        Happening::Stat(server, seen) => {
            return Ok(Event::Read(question(alloc, server, seen)?));
        }
    };
    Ok(Event::World(event))
}

/// Formats a line of a number, an answer and a last transaction. The answer has the number of
/// messages sent and the first one's number, the fact that a read has a reply, or an error's
/// number.
fn line_of(
    alloc: Global,
    number: usize,
    answer: &Result<Answer, EnsembleFault>,
    zxid: i64,
) -> Result<String, NoMemory> {
    Ok(match answer {
        Ok(Answer::Moved(it)) => {
            format!(in alloc; "{number} {} from {} {zxid:016x}", it.count, it.first)?
        }
        Ok(Answer::Looked(_)) => format!(in alloc; "{number} told {zxid:016x}")?,
        Err(fault) => format!(in alloc; "{number} {fault} {zxid:016x}")?,
    })
}

/// Whether the line is this one.
pub fn is_told(
    alloc: Global,
    number: usize,
    answer: &Result<Answer, EnsembleFault>,
    zxid: i64,
    expected: &str,
) -> bool {
    match line_of(alloc, number, answer, zxid) {
        Ok(line) => line.as_str() == expected,
        Err(_) => false,
    }
}
