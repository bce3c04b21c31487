ghost use Rattle.std.specs.Prelude.{◌≡◌, drop, length, OnOk, OnErr, nat_lt, Some};
ghost use Rattle.zk_connections.specs.Connections.{with_event, with_reply, with_immediate, with_session, with_no_session, with_output, awaited, closing, lost, is_over, is_slow, is_new, may_open, session_of};
ghost use Rattle.zk_frames.specs.Frames.{framed};
ghost use Rattle.zk_frames.specs.Replies.{connect_response_of};
ghost use Rattle.zk_client_session.specs.ConnectionWatches.{after_read, has_any, without_any};

use crate::connection::{Connection, Phase};
use crate::word::Word;
use std::alloc::Global;
use zk_client_session::{ExpectedReply, Immediate, Link, Reply, WatcherType};
use zk_frames::{ConnectResponse, FrameFault, write_connect_response};
use zk_machine::ChangeKind;
use zk_path::{NoMemory, Path};
use zk_table::{ReadCall, ReadReply};

impl Connection {
    pub fn number(&self) -> u64
        ensures { result ≡ self.now.number }
    {
        self.number
    }

    /// Whether it has not asked for a session.
    pub fn is_new(&self) -> bool
        ensures { result ≡ is_new self.now.phase }
    {
        matches!(self.phase, Phase::New)
    }

    /// The session that it has.
    pub fn session(&self) -> Option<i64>
        ensures { result ≡ session_of self.now }
    {
        match &self.phase {
            Phase::Connected(link) => Some(link.session()),
            Phase::New | Phase::Connecting => None,
        }
    }

    /// Appends bytes to what is to be sent. Once the connection closes, nothing more is: if some
    /// of its output was dropped, its client would take what follows for that.
    fn append(&mut self, bytes: &[u8]) -> Result<(), NoMemory>
        ensures written { OnOk result (self.new ≡ with_output bytes.now self.old) }
        ensures unchanged { OnErr result (self.new ≡ self.old) }
    {
        if !self.closes {
            self.output.append(bytes)?;
        }
        Ok(())
    }

    /// Writes a watch event, if it fires one of the connection's watches. After an error, the
    /// connection is lost.
    pub fn write_event(
        &mut self,
        alloc: Global,
        kind: ChangeKind,
        path: &Path,
    ) -> Result<(), FrameFault>
        ensures { OnOk result (self.new ≡ with_event kind path.now self.old) }
    {
        let Phase::Connected(link) = &self.phase else {
            return Ok(());
        };
        if self.watches.fire(kind, path.text()) {
            let mut bytes = Vec::new(alloc);
            link.notify(alloc, &mut bytes, kind, path.text())?;
            self.append(bytes.as_slice())?;
        }
        Ok(())
    }

    /// Writes the reply that the service's reply gives, after the events that come with it. After
    /// an error, the connection is lost.
    pub fn write_reply(
        &mut self,
        alloc: Global,
        expected: ExpectedReply,
        reply: Reply,
    ) -> Result<(), FrameFault>
        ensures { OnOk result (self.new ≡ with_reply expected reply self.old) }
    {
        let Phase::Connected(link) = &mut self.phase else {
            return Ok(());
        };
        let closes = expected.closes();
        let mut bytes = Vec::new(alloc);
        link.tell(alloc, &mut bytes, expected, reply)?;
        self.append(bytes.as_slice())?;
        self.closes |= closes;
        Ok(())
    }

    /// Writes a reply that needs no service, when `last` is the server's last transaction. After an
    /// error, the connection is lost.
    pub fn write_immediate(
        &mut self,
        alloc: Global,
        last: i64,
        immediate: Immediate,
    ) -> Result<(), FrameFault>
        ensures { OnOk result (self.new ≡ with_immediate last immediate self.old) }
    {
        let Phase::Connected(link) = &mut self.phase else {
            return Ok(());
        };
        let mut bytes = Vec::new(alloc);
        link.reply(&mut bytes, last, immediate)?;
        self.append(bytes.as_slice())?;
        self.closes |= immediate.closes();
        Ok(())
    }

    /// Whether it may get a session: it has none, and does not close.
    pub fn may_open(&self) -> bool
        ensures { result ≡ may_open self.now }
    {
        !self.closes && self.session().is_none()
    }

    /// Gives the connection a session, if it may get one, and writes the connect response. `seen` is
    /// the last transaction that its client has seen. After an allocation failure, the connection is
    /// lost.
    pub fn open_session(
        &mut self,
        alloc: Global,
        response: &ConnectResponse,
        seen: i64,
    ) -> Result<(), NoMemory>
        ensures { OnOk result (self.new ≡ with_session response.now seen self.old) }
    {
        if !self.may_open() {
            return Ok(());
        }
        self.write_response(alloc, response)?;
        self.phase = Phase::Connected(Link::new(alloc, response.session, seen));
        Ok(())
    }

    /// Writes that there is no such session, and closes. After an allocation failure, the
    /// connection is lost.
    pub fn reject_session(&mut self, alloc: Global, read_only: Option<bool>) -> Result<(), NoMemory>
        ensures { OnOk result (self.new ≡ with_no_session read_only self.old) }
    {
        let response = ConnectResponse {
            timeout: 0,
            session: 0,
            password: [0; 16],
            read_only,
        };
        self.write_response(alloc, &response)?;
        self.close();
        Ok(())
    }

    fn write_response(&mut self, alloc: Global, response: &ConnectResponse) -> Result<(), NoMemory>
        ensures { OnOk result (self.new ≡ with_output (framed (connect_response_of response.now)) self.old) }
    {
        let mut bytes = Vec::new(alloc);
        write_connect_response(&mut bytes, response)?;
        self.append(bytes.as_slice())
    }

    /// Writes a text, and closes.
    pub fn write_text(&mut self, text: &str) -> Result<(), NoMemory>
        ensures written { OnOk result (self.new ≡ closing (with_output text.now self.old)) }
        ensures unchanged { OnErr result (self.new ≡ self.old) }
    {
        self.append(text.as_bytes())?;
        self.close();
        Ok(())
    }

    /// Adds the watch that a read with this reply has set, if any.
    pub fn set_watch(&mut self, call: &ReadCall, reply: &ReadReply) -> Result<(), NoMemory>
        ensures set { OnOk result (self.new ≡ record self.old { watches = after_read call.now reply.now self.old.watches }) }
        ensures unchanged { OnErr result (self.new ≡ self.old) }
    {
        self.watches.set(call, reply)
    }

    /// Removes the watches of a type at a path. Whether there were any.
    pub fn remove_watches(&mut self, kind: WatcherType, path: &Path) -> bool
        ensures found { result ≡ has_any kind path.now self.old.watches }
        ensures left { self.new ≡ record self.old { watches = without_any kind path.now self.old.watches } }
    {
        self.watches.remove(kind, path)
    }

    /// Records that the reply to this word is a list, which is written later.
    pub fn await_listing(&mut self, word: Word)
        ensures { self.new ≡ record self.old { listing = Some word } }
    {
        self.listing = Some(word);
    }

    /// The word whose reply is a list that is not written yet.
    pub fn listing(&self) -> Option<Word>
        ensures { result ≡ awaited self.now }
    {
        if self.closes {
            return None;
        }
        self.listing
    }

    /// Closes once what is written is sent.
    pub fn close(&mut self)
        ensures { self.new ≡ closing self.old }
    {
        self.ends = true;
        self.closes = true;
    }

    /// Closes at once: what is written and not sent is dropped.
    pub fn cut_off(&mut self)
        ensures { self.new ≡ lost self.old }
    {
        self.output.clear();
        self.close();
    }

    /// What is to be sent to its client.
    pub fn unsent(&self) -> &[u8]
        ensures { result.now ≡ self.now.output }
    {
        self.output.as_slice()
    }

    /// Records that the first `count` bytes are sent.
    pub fn sent(&mut self, count: usize)
        ensures { self.new ≡ record self.old { output = drop count self.old.output } }
    {
        self.output.remove(count);
    }

    /// Whether its client reads more slowly than it asks: no more of its input is to be taken.
    pub fn is_slow(&self) -> bool
        ensures { result ≡ is_slow self.now }
    {
        self.output.len() > Connection::ENOUGH_OUTPUT
    }

    /// Whether it closes once its output is sent.
    pub fn is_closing(&self) -> bool
        ensures { result ≡ self.now.closes }
    {
        self.closes
    }

    /// Whether its client has read so little that it is to be cut off.
    pub fn is_clogged(&self) -> bool
        ensures { result ≡ nat_lt Self.MOST_OUTPUT (length self.now.output) }
    {
        self.output.len() > Connection::MOST_OUTPUT
    }

    /// Whether it is to be closed now.
    pub fn is_over(&self) -> bool
        ensures { result ≡ is_over self.now }
    {
        self.closes && self.output.is_empty()
    }
}
