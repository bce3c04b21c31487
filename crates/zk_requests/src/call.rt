ghost use Rattle.std.specs.Prelude.{◌≡◌, IfOk};
ghost use Rattle.zk_requests.specs.Requests.{closing_call};

use std::alloc::Global;
use std::marker::Model;
use zk_acl::{Acls, Ids, Text};
use zk_path::NoMemory;
use zk_table::Content;

/// A client's request to the leader. Version -1 matches any; flags are 0 plain, 1 ephemeral, 2
/// sequential, 3 both.
///
/// ZooKeeper Programmer's Guide, "ZNodes", "Ephemeral Nodes" and "Sequence Nodes".
#[derive(Debug)]
pub enum Request {
    /// Creates a node. A sequential one's path ends with the number of its parent's creates.
    Create {
        path: Text,
        content: Option<Content>,
        acl: Acls,
        flags: i32,
    },
    /// Deletes a node without children.
    Delete {
        path: Text,
        version: i32,
    },
    /// Sets a node's content.
    SetData {
        path: Text,
        content: Option<Content>,
        version: i32,
    },
    /// Sets a node's access control list; the version is that list's.
    SetAcl {
        path: Text,
        acl: Acls,
        version: i32,
    },
    /// Several operations, each on the nodes after those before it; all are applied or none.
    Multi {
        parts: Parts,
    },
    /// Opens a session with a timeout in milliseconds. The call's session is ignored.
    OpenSession {
        timeout: i32,
    },
    /// Closes the call's session.
    CloseSession,
}

impl Drop for Request {
    fn drop(self) {
        match self {
            Request::Create {
                path: _,
                content: _,
                acl: _,
                flags: _,
            } => (),
            Request::Delete {
                path: _,
                version: _,
            } => (),
            Request::SetData {
                path: _,
                content: _,
                version: _,
            } => (),
            Request::SetAcl {
                path: _,
                acl: _,
                version: _,
            } => (),
            Request::Multi { parts: _ } => (),
            Request::OpenSession { timeout: _ } => (),
            Request::CloseSession => (),
        }
    }
}

/// A part of a multi. The fields are those of [`Request`].
#[derive(Debug)]
pub enum Part {
    Create {
        path: Text,
        content: Option<Content>,
        acl: Acls,
        flags: i32,
    },
    Delete {
        path: Text,
        version: i32,
    },
    SetData {
        path: Text,
        content: Option<Content>,
        version: i32,
    },
    /// Tests a node's version.
    Check {
        path: Text,
        version: i32,
    },
}

impl Drop for Part {
    fn drop(self) {
        match self {
            Part::Create {
                path: _,
                content: _,
                acl: _,
                flags: _,
            } => (),
            Part::Delete {
                path: _,
                version: _,
            } => (),
            Part::SetData {
                path: _,
                content: _,
                version: _,
            } => (),
            Part::Check {
                path: _,
                version: _,
            } => (),
        }
    }
}

/// The parts of a multi; contracts see a list.
#[derive(Debug, Drop)]
pub struct Parts {
    parts: Vec<Part>,
}

impl Model for Parts {
    ghost use Rattle.std.specs.Prelude.{List};
    ghost use Rattle.zk_requests.specs.declared.call.Part.{Part};

    ghost Value = { List Part };

    ghost view = { λ parts. parts.parts.items };
}

impl Parts {
    /// Wraps the parts; allocates nothing.
    pub fn new(parts: Vec<Part>) -> Parts
        ensures { result ≡ parts.items }
    {
        Parts { parts }
    }

    pub fn as_slice(&self) -> &[Part]
        ensures { result.now ≡ self.now }
    {
        self.parts.as_slice()
    }

    pub fn copy(&self) -> Result<Parts, NoMemory>
        ensures { IfOk result (λ copy. copy ≡ self.now) }
    {
        let mut parts = Vec::new(*self.parts.allocator());
        for part in &self.parts {
            parts.push(part.copy()?)?;
        }
        Ok(Parts { parts })
    }
}

/// A request, and its caller.
#[derive(Debug)]
pub struct Call {
    /// Identifies the call among all others.
    pub tag: u64,
    /// The caller's session.
    pub session: i64,
    /// The number of the request within its session.
    pub cxid: i32,
    /// The identities that the caller has proved.
    pub auths: Ids,
    /// The leader's time, in milliseconds.
    pub now: i64,
    pub request: Request,
}

impl Drop for Call {
    fn drop(self) {
        let Call {
            tag: _,
            session: _,
            cxid: _,
            auths: _,
            now: _,
            request: _,
        } = self;
    }
}

/// Returns the call that closes an expired session. Allocates nothing.
pub fn closing_call(alloc: Global, tag: u64, session: i64, now: i64) -> Call
    ensures { result ≡ closing_call tag session now }
{
    Call {
        tag,
        session,
        cxid: 0,
        auths: Ids::new(Vec::new(alloc)),
        now,
        request: Request::CloseSession,
    }
}
