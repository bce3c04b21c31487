//! Events, of plain values.

ghost use Rattle.std.specs.Prelude.{◌≡◌, IfOk, length};

use std::alloc::Global;
use zk_acl::{Acl, Acls, Id, Ids, Text};
use zk_model::Event;
use zk_path::NoMemory;
use zk_requests::{Call, Request};

/// The session that the first call of the first epoch opens, by its own transaction.
pub const FIRST: i64 = 0x1_0000_0001;

/// An event. Servers and messages are numbered from 1.
#[derive(Clone, Copy)]
pub enum Happening {
    Lead(usize),
    Follow(usize, usize),
    Arrive(usize),
    /// A session is opened at a server.
    Open(usize),
    /// The first session creates the node `/q`.
    Make(usize),
    /// It does so at server 1, with this tag.
    Again(u64),
}

/// `world:anyone` with all permissions.
pub fn open_to_all(alloc: Global) -> Result<Acls, NoMemory> {
    let scheme = Text::read(alloc, "world")?;
    let id = Text::read(alloc, "anyone")?;
    let mut entries = Vec::new(alloc);
    entries.push(Acl {
        perms: 31,
        id: Id { scheme, id },
    })?;
    Acls::new(alloc, entries)
}

fn node(alloc: Global) -> Result<Request, NoMemory> {
    let path = Text::read(alloc, "/q")?;
    Ok(Request::Create {
        path,
        content: None,
        acl: open_to_all(alloc)?,
        flags: 0,
    })
}

fn call(alloc: Global, tag: u64, session: i64, request: Request) -> Call {
    Call {
        tag,
        session,
        cxid: 1,
        auths: Ids::new(Vec::new(alloc)),
        now: 1000,
        request,
    }
}

pub fn event_of(alloc: Global, happening: Happening) -> Result<Event, NoMemory> {
    let event = match happening {
        Happening::Lead(server) => zab_model::Event::Lead { server },
        Happening::Follow(server, leader) => zab_model::Event::Follow { server, leader },
        Happening::Arrive(message) => zab_model::Event::Arrive { message },
        Happening::Open(server) => zab_model::Event::Submit {
            server,
            call: call(alloc, 1, 0, Request::OpenSession { timeout: 30000 }),
        },
        Happening::Make(server) => {
            let request = node(alloc)?;
            zab_model::Event::Submit {
                server,
                call: call(alloc, 2, FIRST, request),
            }
        }
        Happening::Again(tag) => {
            let request = node(alloc)?;
            zab_model::Event::Submit {
                server: 1,
                call: call(alloc, tag, FIRST, request),
            }
        }
    };
    Ok(Event::World(event))
}

/// Returns one server's jobs.
fn jobs_of(alloc: Global, happenings: &[Happening]) -> Result<Vec<Event>, NoMemory> {
    let mut jobs = Vec::new(alloc);
    for happening in happenings {
        jobs.push(event_of(alloc, *happening)?)?;
    }
    Ok(jobs)
}

/// The jobs by which the first of two servers becomes leader, and the second follows it.
pub fn jobs_of_two(alloc: Global) -> Result<Vec<Vec<Event>>, NoMemory>
    ensures { IfOk result (λ jobs. length jobs.items ≡ 2) }
{
    let first = jobs_of(alloc, &[Happening::Lead(1)])?;
    let second = jobs_of(alloc, &[Happening::Follow(2, 1)])?;
    let mut jobs = Vec::new(alloc);
    jobs.reserve(2)?;
    jobs.push_reserved(first);
    jobs.push_reserved(second);
    Ok(jobs)
}
