//! Equality of events and of answers, over all their fields.

ghost use Rattle.std.specs.Prelude.{◌≡◌, ◌≢◌, true, false};

use crate::answer::{Answer, Answered};
use crate::event::{Event, Question};
use crate::fault::EnsembleFault;
use zk_acl::{Acl, Acls, Id, Ids, Stat, Text};
use zk_path::Path;
use zk_requests::{Call, Part, Parts, Request};
use zk_table::{Content, Names, PartResult, PartResults, ReadCall, ReadReply, TxnResult};

/// Equality of the values that contracts see.
pub trait Equals {
    fn equals(&self, other: &Self) -> bool
        ensures yes { result ≡ true → self.now ≡ other.now }
        ensures no { result ≡ false → self.now ≢ other.now };
}

fn are_same<T: Equals>(ones: &[T], others: &[T]) -> bool
    ensures yes { result ≡ true → ones.now ≡ others.now }
    ensures no { result ≡ false → ones.now ≢ others.now }
{
    if ones.len() != others.len() {
        return false;
    }
    for at in 0..ones.len() {
        if !ones[at].equals(&others[at]) {
            return false;
        }
    }
    true
}

fn same_if_any<T: Equals>(one: &Option<T>, other: &Option<T>) -> bool
    ensures yes { result ≡ true → one.now ≡ other.now }
    ensures no { result ≡ false → one.now ≢ other.now }
{
    match (one, other) {
        (Some(one), Some(other)) => one.equals(other),
        (None, None) => true,
        _ => false,
    }
}

impl Equals for Text {
    fn equals(&self, other: &Text) -> bool
        ensures yes { result ≡ true → self.now ≡ other.now }
        ensures no { result ≡ false → self.now ≢ other.now }
    {
        self.as_str() == other.as_str()
    }
}

impl Equals for Path {
    fn equals(&self, other: &Path) -> bool
        ensures yes { result ≡ true → self.now ≡ other.now }
        ensures no { result ≡ false → self.now ≢ other.now }
    {
        self.text() == other.text()
    }
}

impl Equals for Content {
    fn equals(&self, other: &Content) -> bool
        ensures yes { result ≡ true → self.now ≡ other.now }
        ensures no { result ≡ false → self.now ≢ other.now }
    {
        self.as_slice() == other.as_slice()
    }
}

impl Equals for Stat {
    fn equals(&self, other: &Stat) -> bool
        ensures yes { result ≡ true → self.now ≡ other.now }
        ensures no { result ≡ false → self.now ≢ other.now }
    {
        if self.czxid != other.czxid {
            return false;
        }
        if self.mzxid != other.mzxid {
            return false;
        }
        if self.ctime != other.ctime {
            return false;
        }
        if self.mtime != other.mtime {
            return false;
        }
        if self.version != other.version {
            return false;
        }
        if self.cversion != other.cversion {
            return false;
        }
        if self.aversion != other.aversion {
            return false;
        }
        if self.ephemeral_owner != other.ephemeral_owner {
            return false;
        }
        if self.data_length != other.data_length {
            return false;
        }
        if self.num_children != other.num_children {
            return false;
        }
        self.pzxid == other.pzxid
    }
}

impl Equals for Id {
    fn equals(&self, other: &Id) -> bool
        ensures yes { result ≡ true → self.now ≡ other.now }
        ensures no { result ≡ false → self.now ≢ other.now }
    {
        self.scheme.equals(&other.scheme) && self.id.equals(&other.id)
    }
}

impl Equals for Ids {
    fn equals(&self, other: &Ids) -> bool
        ensures yes { result ≡ true → self.now ≡ other.now }
        ensures no { result ≡ false → self.now ≢ other.now }
    {
        are_same(self.as_slice(), other.as_slice())
    }
}

impl Equals for Acl {
    fn equals(&self, other: &Acl) -> bool
        ensures yes { result ≡ true → self.now ≡ other.now }
        ensures no { result ≡ false → self.now ≢ other.now }
    {
        self.perms == other.perms && self.id.equals(&other.id)
    }
}

impl Equals for Acls {
    fn equals(&self, other: &Acls) -> bool
        ensures yes { result ≡ true → self.now ≡ other.now }
        ensures no { result ≡ false → self.now ≢ other.now }
    {
        are_same(self.as_slice(), other.as_slice())
    }
}

impl Equals for Names {
    fn equals(&self, other: &Names) -> bool
        ensures yes { result ≡ true → self.now ≡ other.now }
        ensures no { result ≡ false → self.now ≢ other.now }
    {
        are_same(self.as_slice(), other.as_slice())
    }
}

impl Equals for Part {
    fn equals(&self, other: &Part) -> bool
        ensures yes { result ≡ true → self.now ≡ other.now }
        ensures no { result ≡ false → self.now ≢ other.now }
    {
        match (self, other) {
            (
                Part::Create {
                    path,
                    content,
                    acl,
                    flags,
                },
                Part::Create {
                    path: other_path,
                    content: other_content,
                    acl: other_acl,
                    flags: other_flags,
                },
            ) => {
                path.equals(other_path)
                    && same_if_any(content, other_content)
                    && acl.equals(other_acl)
                    && *flags == *other_flags
            }
            (
                Part::Delete { path, version },
                Part::Delete {
                    path: other_path,
                    version: other_version,
                },
            ) => path.equals(other_path) && *version == *other_version,
            (
                Part::SetData {
                    path,
                    content,
                    version,
                },
                Part::SetData {
                    path: other_path,
                    content: other_content,
                    version: other_version,
                },
            ) => {
                path.equals(other_path)
                    && same_if_any(content, other_content)
                    && *version == *other_version
            }
            (
                Part::Check { path, version },
                Part::Check {
                    path: other_path,
                    version: other_version,
                },
            ) => path.equals(other_path) && *version == *other_version,
            _ => false,
        }
    }
}

impl Equals for Parts {
    fn equals(&self, other: &Parts) -> bool
        ensures yes { result ≡ true → self.now ≡ other.now }
        ensures no { result ≡ false → self.now ≢ other.now }
    {
        are_same(self.as_slice(), other.as_slice())
    }
}

impl Equals for Request {
    fn equals(&self, other: &Request) -> bool
        ensures yes { result ≡ true → self.now ≡ other.now }
        ensures no { result ≡ false → self.now ≢ other.now }
    {
        match (self, other) {
            (
                Request::Create {
                    path,
                    content,
                    acl,
                    flags,
                },
                Request::Create {
                    path: other_path,
                    content: other_content,
                    acl: other_acl,
                    flags: other_flags,
                },
            ) => {
                path.equals(other_path)
                    && same_if_any(content, other_content)
                    && acl.equals(other_acl)
                    && *flags == *other_flags
            }
            (
                Request::Delete { path, version },
                Request::Delete {
                    path: other_path,
                    version: other_version,
                },
            ) => path.equals(other_path) && *version == *other_version,
            (
                Request::SetData {
                    path,
                    content,
                    version,
                },
                Request::SetData {
                    path: other_path,
                    content: other_content,
                    version: other_version,
                },
            ) => {
                path.equals(other_path)
                    && same_if_any(content, other_content)
                    && *version == *other_version
            }
            (
                Request::SetAcl { path, acl, version },
                Request::SetAcl {
                    path: other_path,
                    acl: other_acl,
                    version: other_version,
                },
            ) => path.equals(other_path) && acl.equals(other_acl) && *version == *other_version,
            (Request::Multi { parts }, Request::Multi { parts: other_parts }) => {
                parts.equals(other_parts)
            }
            (
                Request::OpenSession { timeout },
                Request::OpenSession {
                    timeout: other_timeout,
                },
            ) => *timeout == *other_timeout,
            (Request::CloseSession, Request::CloseSession) => true,
            _ => false,
        }
    }
}

impl Equals for Call {
    fn equals(&self, other: &Call) -> bool
        ensures yes { result ≡ true → self.entry.now ≡ other.entry.now }
        ensures no { result ≡ false → self.entry.now ≢ other.entry.now }
    {
        self.tag == other.tag
            && self.session == other.session
            && self.cxid == other.cxid
            && self.auths.equals(&other.auths)
            && self.now == other.now
            && self.request.equals(&other.request)
    }
}

impl Equals for zab_model::Event<Call> {
    fn equals(&self, other: &zab_model::Event<Call>) -> bool
        ensures yes { result ≡ true → self.now ≡ other.now }
        ensures no { result ≡ false → self.now ≢ other.now }
    {
        use zab_model::Event;
        match (self, other) {
            (Event::Lead { server }, Event::Lead { server: other }) => *server == *other,
            (
                Event::Follow { server, leader },
                Event::Follow {
                    server: other,
                    leader: other_leader,
                },
            ) => *server == *other && *leader == *other_leader,
            (Event::Arrive { message }, Event::Arrive { message: other }) => *message == *other,
            (
                Event::Submit { server, call },
                Event::Submit {
                    server: other,
                    call: other_call,
                },
            ) => *server == *other && call.equals(other_call),
            (
                Event::Expire {
                    server,
                    tag,
                    session,
                    now,
                },
                Event::Expire {
                    server: other,
                    tag: other_tag,
                    session: other_session,
                    now: other_now,
                },
            ) => {
                *server == *other
                    && *tag == *other_tag
                    && *session == *other_session
                    && *now == *other_now
            }
            (
                Event::Sync { server, tag },
                Event::Sync {
                    server: other,
                    tag: other_tag,
                },
            ) => *server == *other && *tag == *other_tag,
            (Event::Crash { server }, Event::Crash { server: other }) => *server == *other,
            (Event::Restart { server }, Event::Restart { server: other }) => *server == *other,
            _ => false,
        }
    }
}

impl Equals for ReadCall {
    fn equals(&self, other: &ReadCall) -> bool
        ensures yes { result ≡ true → self.now ≡ other.now }
        ensures no { result ≡ false → self.now ≢ other.now }
    {
        match (self, other) {
            (ReadCall::GetData { path }, ReadCall::GetData { path: other })
            | (ReadCall::Exists { path }, ReadCall::Exists { path: other })
            | (ReadCall::GetChildren { path }, ReadCall::GetChildren { path: other })
            | (ReadCall::GetAcl { path }, ReadCall::GetAcl { path: other }) => path.equals(other),
            _ => false,
        }
    }
}

impl Equals for Question {
    fn equals(&self, other: &Question) -> bool
        ensures yes { result ≡ true → self.now ≡ other.now }
        ensures no { result ≡ false → self.now ≢ other.now }
    {
        self.server == other.server
            && self.session == other.session
            && self.seen == other.seen
            && self.auths.equals(&other.auths)
            && self.call.equals(&other.call)
            && self.watch == other.watch
    }
}

impl Equals for Event {
    fn equals(&self, other: &Event) -> bool
        ensures yes { result ≡ true → self.now ≡ other.now }
        ensures no { result ≡ false → self.now ≢ other.now }
    {
        match (self, other) {
            (Event::World(event), Event::World(other)) => event.equals(other),
            (Event::Read(question), Event::Read(other)) => question.equals(other),
            _ => false,
        }
    }
}

impl Equals for ReadReply {
    fn equals(&self, other: &ReadReply) -> bool
        ensures yes { result ≡ true → self.now ≡ other.now }
        ensures no { result ≡ false → self.now ≢ other.now }
    {
        match (self, other) {
            (
                ReadReply::Content { content, stat },
                ReadReply::Content {
                    content: other_content,
                    stat: other_stat,
                },
            ) => same_if_any(content, other_content) && stat.equals(other_stat),
            (ReadReply::Found(stat), ReadReply::Found(other)) => stat.equals(other),
            (
                ReadReply::Children { names, stat },
                ReadReply::Children {
                    names: other_names,
                    stat: other_stat,
                },
            ) => names.equals(other_names) && stat.equals(other_stat),
            (
                ReadReply::AclIs { acl, stat },
                ReadReply::AclIs {
                    acl: other_acl,
                    stat: other_stat,
                },
            ) => acl.equals(other_acl) && stat.equals(other_stat),
            (ReadReply::Refused(code), ReadReply::Refused(other)) => *code == *other,
            _ => false,
        }
    }
}

impl Equals for Answer {
    fn equals(&self, other: &Answer) -> bool
        ensures yes { result ≡ true → self.now ≡ other.now }
        ensures no { result ≡ false → self.now ≢ other.now }
    {
        match (self, other) {
            (Answer::Moved(moved), Answer::Moved(other)) => *moved == *other,
            (Answer::Looked(reply), Answer::Looked(other)) => reply.equals(other),
            _ => false,
        }
    }
}

impl Equals for Result<Answer, EnsembleFault> {
    fn equals(&self, other: &Result<Answer, EnsembleFault>) -> bool
        ensures yes { result ≡ true → self.now ≡ other.now }
        ensures no { result ≡ false → self.now ≢ other.now }
    {
        match (self, other) {
            (Ok(answer), Ok(other)) => answer.equals(other),
            (Err(fault), Err(other)) => *fault == *other,
            _ => false,
        }
    }
}

impl Equals for PartResult {
    fn equals(&self, other: &PartResult) -> bool
        ensures yes { result ≡ true → self.now ≡ other.now }
        ensures no { result ≡ false → self.now ≢ other.now }
    {
        self.err == other.err
            && same_if_any(&self.path, &other.path)
            && same_if_any(&self.stat, &other.stat)
    }
}

impl Equals for PartResults {
    fn equals(&self, other: &PartResults) -> bool
        ensures yes { result ≡ true → self.now ≡ other.now }
        ensures no { result ≡ false → self.now ≢ other.now }
    {
        are_same(self.as_slice(), other.as_slice())
    }
}

impl Equals for TxnResult {
    fn equals(&self, other: &TxnResult) -> bool
        ensures yes { result ≡ true → self.now ≡ other.now }
        ensures no { result ≡ false → self.now ≢ other.now }
    {
        self.zxid == other.zxid
            && self.err == other.err
            && same_if_any(&self.path, &other.path)
            && same_if_any(&self.stat, &other.stat)
            && self.parts.equals(&other.parts)
    }
}

impl Equals for Answered {
    fn equals(&self, other: &Answered) -> bool
        ensures yes { result ≡ true → self.now ≡ other.now }
        ensures no { result ≡ false → self.now ≢ other.now }
    {
        self.tag == other.tag && self.session == other.session && self.result.equals(&other.result)
    }
}
