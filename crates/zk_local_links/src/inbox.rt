//! What comes to a server on its links.

ghost use Rattle.std.specs.Prelude.{◌≡◌};
ghost use Rattle.zk_local_links.specs.Inboxes.{InboxView, inbox};

use std::alloc::Global;
use std::marker::Model;
use std::mem::replace;
use zk_path::NoMemory;
use zk_peer_links::{Chunk, LinkInput};

/// No connection.
const NO_LINE: u64 = 0;

/// What has come to a server since its last turn, and on which connections the others write to it.
/// Places are those of servers: server 1 is at 0.
#[derive(Debug, Drop)]
pub struct Inbox {
    /// By place: the number of the connection on which the server there writes; 0 for none.
    lines: Vec<u64>,
    inputs: Vec<LinkInput>,
}

impl Model for Inbox {
    ghost Value = { InboxView };

    ghost view = { λ it. inbox it.lines.items it.inputs.items };
}

impl Inbox {
    ghost use Rattle.std.specs.Prelude.{◌==◌, [], ◌++◌, ◌∷◌, not, set, length, IfOk, OnOk, OnErr};
    ghost use Rattle.zk_local_links.specs.Inboxes.{brought, closed, led, line_of, new_inbox, opened};

    /// That of a server without connections.
    pub(crate) fn new(alloc: Global, servers: usize) -> Result<Inbox, NoMemory>
        ensures { IfOk result (λ it. it ≡ new_inbox servers) }
    {
        let mut lines = Vec::new(alloc);
        for place in 0..servers {
            lines.push(NO_LINE)?;
        }
        Ok(Inbox {
            lines,
            inputs: Vec::new(alloc),
        })
    }

    /// Whether nothing has come.
    pub(crate) fn is_empty(&self) -> bool
        ensures { result ≡ (length self.now.inputs == 0) }
    {
        self.inputs.is_empty()
    }

    /// Takes what has come, in order.
    pub(crate) fn take(&mut self, alloc: Global) -> Vec<LinkInput>
        ensures taken { result.items ≡ self.old.inputs }
        ensures left { self.new ≡ inbox self.old.lines [] }
    {
        replace(&mut self.inputs, Vec::new(alloc))
    }

    /// An operator makes the server lead.
    pub(crate) fn lead(&mut self) -> Result<(), NoMemory>
        ensures led { OnOk result (self.new ≡ led self.old) }
        ensures unchanged { OnErr result (self.new ≡ self.old) }
    {
        self.inputs.push(LinkInput::Lead)?;
        Ok(())
    }

    fn line(&self, writer: usize) -> u64
        ensures { result ≡ line_of writer self.now }
    {
        if writer < self.lines.len() {
            self.lines[writer]
        } else {
            NO_LINE
        }
    }

    /// Whether a server writes on a connection.
    pub(crate) fn is_open(&self, writer: usize) -> bool
        ensures { result ≡ not (line_of writer self.now == 0) }
    {
        self.line(writer) != NO_LINE
    }

    fn set_line(&mut self, writer: usize, line: u64)
        ensures { self.new ≡ inbox (set self.old.lines writer line) self.old.inputs }
    {
        if writer < self.lines.len() {
            self.lines[writer] = line;
        }
    }

    fn push(&mut self, input: LinkInput) -> Result<(), NoMemory>
        ensures pushed { OnOk result (self.new ≡ inbox self.old.lines (self.old.inputs ++ input ∷ [])) }
        ensures unchanged { OnErr result (self.new ≡ self.old) }
    {
        self.inputs.push(input)?;
        Ok(())
    }

    /// A server writes on a new connection from now on.
    pub(crate) fn open(&mut self, writer: usize, line: u64) -> Result<(), NoMemory>
        requires { writer < 18446744073709551615 }
        ensures opened { OnOk result (self.new ≡ opened writer line self.old) }
        ensures unchanged { OnErr result (self.new ≡ self.old) }
    {
        let peer = writer + 1;
        self.push(LinkInput::Opened { peer, line })?;
        self.set_line(writer, line);
        Ok(())
    }

    ghost use Rattle.std.specs.Prelude.{◌<◌};

    /// The connection on which a server writes ends, if there is one, after what it has written.
    pub(crate) fn close(&mut self, writer: usize) -> Result<(), NoMemory>
        ensures closed { OnOk result (self.new ≡ closed writer self.old) }
        ensures unchanged { OnErr result (self.new ≡ self.old) }
    {
        let line = self.line(writer);
        if line == NO_LINE {
            return Ok(());
        }
        self.push(LinkInput::Closed { line })?;
        self.set_line(writer, NO_LINE);
        Ok(())
    }

    /// A server has written bytes. They are lost if there is no connection.
    pub(crate) fn bring(&mut self, writer: usize, bytes: Chunk) -> Result<(), NoMemory>
        ensures brought { OnOk result (self.new ≡ brought writer bytes self.old) }
        ensures unchanged { OnErr result (self.new ≡ self.old) }
    {
        let line = self.line(writer);
        if line == NO_LINE || bytes.as_slice().is_empty() {
            return Ok(());
        }
        self.push(LinkInput::Brought { line, bytes })
    }
}
