//! Asks, of plain values, and their results as text.

use crate::events::open_to_all;
use std::alloc::Global;
use zk_acl::{Ids, Text};
use zk_front::{Ask, Clock, Reply, Service, ServiceFault, Told};
use zk_path::{NoMemory, Path};
use zk_requests::Request;
use zk_table::{Content, ReadCall, ReadReply, TxnResult};

/// What a session asks. Nodes are open to all, and have no content.
#[derive(Clone, Copy)]
pub enum Asking {
    Open(i32),
    Create(&'static str),
    /// Creates an ephemeral node.
    CreateOwned(&'static str),
    Exists(&'static str),
    /// Whether a node exists, with a watch.
    WatchExistence(&'static str),
    /// The children, with a watch.
    WatchChildren(&'static str),
    Sync,
    Close,
}

/// A session's ask, and its result.
#[derive(Clone, Copy)]
pub struct Row {
    pub session: i64,
    pub asking: Asking,
    pub told: &'static str,
}

/// Returns the times in order, and then the last one again and again.
#[derive(Drop)]
pub struct Times {
    pub times: &'static [i64],
    pub at: usize,
}

impl Clock for Times {
    fn now(&mut self) -> i64 {
        let at = self.at;
        let next = at.saturating_add(1);
        if next < self.times.len() {
            self.at = next;
        }
        match self.times.get(at) {
            Some(now) => *now,
            None => 0,
        }
    }
}

fn create(alloc: Global, path: &str, flags: i32) -> Result<Request, NoMemory> {
    let path = Text::read(alloc, path)?;
    let content = Content::read(alloc, &[])?;
    Ok(Request::Create {
        path,
        content: Some(content),
        acl: open_to_all(alloc)?,
        flags,
    })
}

fn write(alloc: Global, session: i64, request: Request) -> Ask {
    Ask::Write {
        session,
        cxid: 1,
        auths: Ids::new(Vec::new(alloc)),
        request,
    }
}

fn read(alloc: Global, session: i64, call: ReadCall, watch: bool) -> Ask {
    Ask::Read {
        session,
        seen: 0,
        auths: Ids::new(Vec::new(alloc)),
        call,
        watch,
    }
}

fn exists(alloc: Global, session: i64, path: &str, watch: bool) -> Result<Ask, NoMemory> {
    let path = Path::read(alloc, path).ok().ok_or(NoMemory)?;
    Ok(read(alloc, session, ReadCall::Exists { path }, watch))
}

/// Returns the ask of a session in the service's form.
pub fn ask_of(alloc: Global, session: i64, asking: Asking) -> Result<Ask, NoMemory> {
    match asking {
        Asking::Open(timeout) => Ok(write(alloc, 0, Request::OpenSession { timeout })),
        Asking::Create(path) => Ok(write(alloc, session, create(alloc, path, 0)?)),
        Asking::CreateOwned(path) => Ok(write(alloc, session, create(alloc, path, 1)?)),
        Asking::Exists(path) => exists(alloc, session, path, false),
        Asking::WatchExistence(path) => exists(alloc, session, path, true),
        Asking::WatchChildren(path) => {
            let path = Path::read(alloc, path).ok().ok_or(NoMemory)?;
            Ok(read(alloc, session, ReadCall::GetChildren { path }, true))
        }
        Asking::Sync => Ok(Ask::Sync { session }),
        Asking::Close => Ok(write(alloc, session, Request::CloseSession)),
    }
}

fn push_wrote(text: &mut String, wrote: &TxnResult) -> Result<(), NoMemory> {
    write!(text, "wrote {:016x} {}", wrote.zxid, wrote.err)?;
    if let Some(path) = &wrote.path {
        write!(text, " {}", path.text())?;
    }
    Ok(())
}

fn push_looked(text: &mut String, reply: &ReadReply) -> Result<(), NoMemory> {
    match reply {
        ReadReply::Found(stat) => write!(text, "found {:016x}", stat.czxid)?,
        ReadReply::Children { names, .. } => {
            text.push_str("children")?;
            for name in names.as_slice() {
                write!(text, " {}", name.as_str())?;
            }
        }
        ReadReply::Refused(code) => write!(text, "refused {code}")?,
        _ => text.push_str("another")?,
    }
    Ok(())
}

fn push_told(text: &mut String, told: &Told) -> Result<(), NoMemory> {
    for event in told.events.as_slice() {
        write!(text, "{:?} {} ", event.kind, event.path.text())?;
    }
    match &told.reply {
        Reply::Wrote(wrote) => push_wrote(text, wrote),
        Reply::Looked { reply, zxid } => {
            push_looked(text, reply)?;
            write!(text, " at {zxid:016x}")?;
            Ok(())
        }
        Reply::Caught => Ok(text.push_str("caught")?),
    }
}

fn spelled(alloc: Global, told: &Result<Told, ServiceFault>) -> Result<String, NoMemory> {
    let mut text = String::new(alloc);
    match told {
        Ok(told) => push_told(&mut text, told)?,
        Err(fault) => write!(text, "{fault:?}")?,
    }
    Ok(text)
}

/// Whether a text is one of those between bars; one that ends with `*` represents each text with
/// that prefix.
fn is_one_of(text: &str, expected: &str) -> bool {
    for one in expected.split('|') {
        let is_it = match one.strip_suffix('*') {
            Some(front) => text.starts_with(front),
            None => text == one,
        };
        if is_it {
            return true;
        }
    }
    false
}

/// Whether a service's result, as text, is this.
pub fn is_told<S: Service>(
    alloc: Global,
    service: &mut S,
    ask: Ask,
    expected: &str,
) -> Result<bool, NoMemory> {
    let told = service.ask(ask);
    let text = spelled(alloc, &told)?;
    Ok(is_one_of(text.as_str(), expected))
}
