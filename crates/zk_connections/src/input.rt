ghost use Rattle.std.specs.Prelude.{◌≡◌, ◌+◌, ◌≤◌, length, is_some, IsTrue, IfOk, IfNone, IfSome, OnOk, OnErr};
ghost use Rattle.zk_connections.specs.Inputs.{heard, is_spent, rests, taken_action, worked, broken, frame_in, ends_by, taken_connect, taken_frame, taken_of, taken_first, taken_request, wants_input};
ghost use Rattle.zk_connections.specs.Connections.{most_work};
ghost use Rattle.zk_client_session.specs.Parts.{split};
ghost use Rattle.zk_frames.specs.Frames.{next_frame_in};

use crate::connection::{Connection, Phase};
use crate::word::{Word, word_in};
use std::alloc::Global;
use std::mem::replace;
use zk_client_session::Action;
use zk_frames::{ConnectRequest, FrameFault, MOST_BYTES, next_frame, read_connect_request};
use zk_jute::JuteFault;
use zk_path::NoMemory;

/// The bytes of a frame's length.
const LENGTH: usize = 4;

/// The most bytes of input that wait: those of the longest frame. More are not read of a client
/// before these are taken.
const MOST_INPUT: usize = LENGTH + MOST_BYTES;

/// What is taken of a connection's input.
#[derive(Debug, Drop)]
pub enum Taken {
    /// A four-letter word. No more is taken.
    Word(Word),
    /// The client asks for a session.
    Connects(ConnectRequest),
    /// A frame's action.
    Acts(Action),
    /// Bytes that no client sends. No more is taken: the connection closes once the requests before
    /// them have their replies.
    Breaks,
}

impl Connection {
    /// Whether more is to be read of its client.
    pub fn wants_input(&self) -> bool
        ensures { result ≡ wants_input self.now }
    {
        !self.ends && self.input.len() < MOST_INPUT
    }

    /// The number of bytes that were heard and are not taken.
    pub fn unread_len(&self) -> usize
        ensures { result ≡ length self.now.input }
    {
        self.input.len()
    }

    /// Appends what was heard of its client. After the end it is ignored.
    pub fn hear(&mut self, bytes: &[u8]) -> Result<(), NoMemory>
        ensures heard { OnOk result (self.new ≡ heard bytes.now self.old) }
        ensures unchanged { OnErr result (self.new ≡ self.old) }
    {
        if self.ends {
            return Ok(());
        }
        self.input.append(bytes)
    }

    /// Takes the first frame of the input, if it is whole; of many watches, as many as may be taken
    /// in this turn. `None` if there is none, if the connection waits for its session or for the
    /// next turn, or has ended. After an allocation failure, the connection
    /// is lost.
    pub fn take(&mut self, alloc: Global) -> Result<Option<Taken>, NoMemory>
        ensures taken { IfOk result (λ taken. taken_of self.old ≡ (self.new, taken)) }
        ensures idle { IfOk result (λ taken. IfNone taken (self.new ≡ self.old)) }
    {
        if self.rests() {
            return Ok(None);
        }
        match &self.phase {
            Phase::New => self.take_first(alloc),
            Phase::Connecting => Ok(None),
            Phase::Connected(_) => self.take_request(alloc),
        }
    }

    /// Takes a four-letter word or a connect request.
    fn take_first(&mut self, alloc: Global) -> Result<Option<Taken>, NoMemory>
        ensures taken { IfOk result (λ taken. taken_first self.old ≡ (self.new, taken)) }
        ensures idle { IfOk result (λ taken. IfNone taken (self.new ≡ self.old)) }
    {
        if let Some(word) = word_in(self.input.as_slice()) {
            self.ends = true;
            return Ok(Some(Taken::Word(word)));
        }
        match first_frame(self.input.as_slice()) {
            Ok(Some(count)) => self.take_connect(alloc, count),
            Ok(None) => Ok(None),
            Err(_) => Ok(Some(self.break_off())),
        }
    }

    /// Takes a connect request of this length.
    fn take_connect(&mut self, alloc: Global, count: usize) -> Result<Option<Taken>, NoMemory>
        requires { 4 + count ≤ length self.old.input }
        ensures taken { IfOk result (λ taken. taken_connect count self.old ≡ (self.new, taken)) }
        ensures idle { IfOk result (λ taken. IfNone taken (self.new ≡ self.old)) }
    {
        let frame = frame_in(self.input.as_slice(), count);
        let request = match read_connect_request(alloc, frame) {
            Ok(request) => request,
            Err(JuteFault::NoMemory) => return Err(NoMemory),
            Err(_) => return Ok(Some(self.break_off())),
        };
        self.input.remove(LENGTH + count);
        self.phase = Phase::Connecting;
        Ok(Some(Taken::Connects(request)))
    }

    /// Takes a frame of the session.
    fn take_request(&mut self, alloc: Global) -> Result<Option<Taken>, NoMemory>
        ensures taken { IfOk result (λ taken. taken_request self.old ≡ (self.new, taken)) }
        ensures idle { IfOk result (λ taken. IfNone taken (self.new ≡ self.old)) }
    {
        match first_frame(self.input.as_slice()) {
            Ok(Some(count)) => self.take_frame(alloc, count),
            Ok(None) => Ok(None),
            Err(_) => Ok(Some(self.break_off())),
        }
    }

    /// Takes a frame of this length, or what is left of it.
    fn take_frame(&mut self, alloc: Global, count: usize) -> Result<Option<Taken>, NoMemory>
        requires { 4 + count ≤ length self.old.input }
        ensures taken { IfOk result (λ taken. taken_frame self.old.left count self.old ≡ (self.new, taken)) }
        ensures idle { IfOk result (λ taken. IfNone taken (self.new ≡ self.old)) }
    {
        if self.left.is_none() {
            return self.take_action(alloc, count);
        }
        match replace(&mut self.left, None) {
            Some(action) => self.work_on(action, count),
            None => Ok(None),
        }
    }

    /// Takes a frame of this length.
    fn take_action(&mut self, alloc: Global, count: usize) -> Result<Option<Taken>, NoMemory>
        requires { 4 + count ≤ length self.old.input }
        ensures taken { IfOk result (λ taken. taken_action self.old.phase count self.old ≡ (self.new, taken)) }
        ensures idle { IfOk result (λ taken. IfNone taken (self.new ≡ self.old)) }
    {
        let Phase::Connected(link) = &mut self.phase else {
            return Ok(None);
        };
        let action = link.take(alloc, frame_in(self.input.as_slice(), count))?;
        self.work_on(action, count)
    }

    /// Takes an action, or as much of it as may be taken in this turn. Its frame has this length.
    fn work_on(&mut self, action: Action, count: usize) -> Result<Option<Taken>, NoMemory>
        requires { 4 + count ≤ length self.old.input }
        ensures taken { IfOk result (λ taken. worked (split self.old.work action) count self.old ≡ (self.new, taken)) }
        ensures some { IfOk result (λ taken. IsTrue (is_some taken)) }
    {
        // Its length fits its type.
        let _waiting = self.input.len();
        let (part, left) = action.split(self.work)?;
        self.work = part.left_by(self.work);
        if left.is_none() {
            self.input.remove(LENGTH + count);
            self.ends = ends_by(&part);
        }
        self.left = left;
        Ok(Some(Taken::Acts(part)))
    }

    /// Whether no more is taken, or none in this turn.
    fn rests(&self) -> bool
        ensures { result ≡ rests self.now }
    {
        self.ends || self.is_spent()
    }

    /// Whether no more is taken in this turn.
    fn is_spent(&self) -> bool
        ensures { result ≡ is_spent self.now }
    {
        self.work == 0
    }

    /// Begins another turn. Returns whether more may have waited for it.
    pub fn begin_turn(&mut self) -> bool
        ensures waited { result ≡ is_spent self.old }
        ensures begun { self.new ≡ record self.old { work = most_work } }
    {
        let waited = self.is_spent();
        self.work = Connection::MOST_WORK;
        waited
    }

    fn break_off(&mut self) -> Taken
        ensures { broken self.old ≡ (self.new, Some result) }
    {
        self.ends = true;
        Taken::Breaks
    }
}

/// The length of the first frame, without the four bytes that state it; `None` if it is not whole.
fn first_frame(input: &[u8]) -> Result<Option<usize>, FrameFault>
    ensures length { result ≡ next_frame_in input.now }
    ensures whole { IfOk result (λ it. IfSome it (λ count. 4 + count ≤ length input.now)) }
{
    next_frame(input)
}

/// The contents of a frame of this length.
fn frame_in(input: &[u8], count: usize) -> &[u8]
    requires { 4 + count ≤ length input.now }
    ensures { result.now ≡ frame_in count input.now }
{
    &input[LENGTH..LENGTH + count]
}

/// Whether no more is taken after an action.
fn ends_by(action: &Action) -> bool
    ensures { result ≡ ends_by action.now }
{
    match action {
        Action::Replies(immediate) => immediate.closes(),
        Action::Asks { expected, .. } => expected.closes(),
        Action::Closes => true,
    }
}
