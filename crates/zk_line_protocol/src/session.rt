ghost use Rattle.std.specs.Prelude.{◌≡◌, pos, IfOk, option_map};
ghost use Rattle.zk_line_protocol.specs.Connections.{opened, next_cxid, writing, looking, gathered, obeyed, taken_in_session};
ghost use Rattle.zk_line_protocol.specs.declared.parsed_line.ParsedLine.TheVariants as saids;
ghost use Rattle.zk_line_protocol.specs.declared.parsed_line.ParsedMultiLine.TheVariants as insides;

use crate::ask::{Action, Ask, Immediate};
use crate::lists::{Gathered, Identities};
use crate::{ExpectedReply, ParsedLine, ParsedMultiLine, meaning_in_multi, meaning_of};
use std::alloc::Global;
use zk_acl::Id;
use zk_path::NoMemory;
use zk_requests::{Part, Request};
use zk_table::ReadCall;
use zk_table::codes::BAD_ARGUMENTS;

/// A session that a connection has opened.
#[derive(Debug)]
pub struct Session {
    /// The transaction that opened it.
    id: i64,
    /// The identities that it has proved.
    auths: Identities,
    /// The number of its last request: counted from 1, in 32 bits that wrap.
    cxid: i32,
    /// The parts of the open multi.
    parts: Option<Gathered>,
}

impl Drop for Session {
    fn drop(self) {
        let Session {
            id: _,
            auths: _,
            cxid: _,
            parts: _,
        } = self;
    }
}

impl Session {
    /// Returns a session that was just opened.
    pub(crate) fn opened(alloc: Global, id: i64) -> Session
        ensures { result ≡ opened id }
    {
        Session {
            id,
            auths: Identities::new(alloc),
            cxid: 0,
            parts: None,
        }
    }

    /// Executes a line, from a client that has seen a transaction.
    pub(crate) fn take(
        &mut self,
        alloc: Global,
        seen: i64,
        line: Option<&str>,
    ) -> Result<Action, NoMemory>
        ensures { IfOk result (λ deed. taken_in_session self.old seen (option_map (λ text. text.now) line.entry) ≡ (self.new, deed)) }
    {
        match self.parts.take() {
            Some(parts) => self.gather(parts, meaning_in_multi(alloc, line)?),
            None => self.obey(alloc, seen, meaning_of(alloc, line)?),
        }
    }

    /// Executes a line inside the multi with these parts. A line that is no part ends the multi.
    fn gather(&mut self, parts: Gathered, said: ParsedMultiLine) -> Result<Action, NoMemory>
        ensures { IfOk result (λ deed. gathered self.old parts said ≡ (self.new, deed)) }
    {
        match said {
            ParsedMultiLine::Adds { part } => self.add(parts, part),
            ParsedMultiLine::Commits => {
                let parts = parts.into_parts();
                self.write(Request::Multi { parts })
            }
            ParsedMultiLine::Nothing => Ok(Action::Says(Immediate::Refused(BAD_ARGUMENTS))),
        }
    }

    /// Executes a line outside a multi.
    fn obey(&mut self, alloc: Global, seen: i64, said: ParsedLine) -> Result<Action, NoMemory>
        ensures { IfOk result (λ deed. obeyed self.old seen said ≡ (self.new, deed)) }
    {
        match said {
            ParsedLine::Proves { id } => self.prove(id),
            ParsedLine::Writes { request } => self.write(request),
            ParsedLine::Closes => self.write(Request::CloseSession),
            ParsedLine::Looks { call, watch } => self.look(seen, call, watch),
            ParsedLine::Syncs { path } => Ok(Action::Asks {
                ask: Ask::Sync { session: self.id },
                wish: ExpectedReply::Caught { path },
            }),
            ParsedLine::BeginsMulti => {
                self.parts = Some(Gathered::new(alloc));
                Ok(Action::Says(Immediate::Nothing))
            }
            ParsedLine::AsksWhetherWell => Ok(Action::Says(Immediate::Well)),
            ParsedLine::Opens { .. } | ParsedLine::Nothing => Ok(Action::Says(Immediate::Refused(
                BAD_ARGUMENTS,
            ))),
        }
    }

    /// Appends a part to the multi.
    fn add(&mut self, parts: Gathered, part: Part) -> Result<Action, NoMemory>
        ensures { IfOk result (λ deed. gathered self.old parts (insides.Adds part) ≡ (self.new, deed)) }
    {
        let mut parts = parts;
        parts.add(part)?;
        self.parts = Some(parts);
        Ok(Action::Says(Immediate::Nothing))
    }

    /// Adds a proved identity.
    fn prove(&mut self, id: Id) -> Result<Action, NoMemory>
        ensures { IfOk result (λ deed. obeyed self.old (pos 0) (saids.Proves id) ≡ (self.new, deed)) }
    {
        self.auths.add(id)?;
        Ok(Action::Says(Immediate::Done))
    }

    /// Asks for a request, with the next number.
    fn write(&mut self, request: Request) -> Result<Action, NoMemory>
        ensures { IfOk result (λ deed. writing self.old request ≡ (self.new, deed)) }
    {
        let auths = self.auths.copy()?;
        let wish = ExpectedReply::of_request(&request);
        self.cxid = next_cxid(self.cxid);
        let ask = Ask::Write {
            session: self.id,
            cxid: self.cxid,
            auths,
            request,
        };
        Ok(Action::Asks { ask, wish })
    }

    /// Asks for a read.
    fn look(&self, seen: i64, call: ReadCall, watch: bool) -> Result<Action, NoMemory>
        ensures { IfOk result (λ deed. deed ≡ looking self.now seen call watch) }
    {
        let auths = self.auths.copy()?;
        let wish = ExpectedReply::of_call(&call);
        let ask = Ask::Read {
            session: self.id,
            seen,
            auths,
            call,
            watch,
        };
        Ok(Action::Asks { ask, wish })
    }
}

/// Returns the number of the next request.
fn next_cxid(cxid: i32) -> i32
    ensures { result ≡ next_cxid cxid }
{
    cxid.wrapping_add(1)
}
