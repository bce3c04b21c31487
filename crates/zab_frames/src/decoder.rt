use crate::fault::{BadFrame, DecodeFault, FrameFault};
use crate::frame::{HEADER, first_frame};
use crate::messages::read_message;
use std::alloc::Global;
use std::marker::Model;
use zab_epoch::Message;
use zk_path::NoMemory;
use zk_requests::Call;

/// Takes the messages of a stream whose bytes come in any chunks.
///
/// It keeps the bytes that have come and were not taken, and no more memory than for these. After a
/// fault it takes no more bytes, and returns the same fault each time.
#[derive(Debug, Drop)]
pub struct Decoder {
    bytes: Vec<u8>,
    /// How many of the first bytes are taken.
    removed: usize,
    /// How many bytes were taken in all.
    taken: u64,
    fault: Option<BadFrame>,
}

impl Model for Decoder {
    ghost use Rattle.std.specs.Prelude.{◌≤◌, drop, length};
    ghost use Rattle.zab_frames.specs.Streams.{Stream};

    ghost Value = { Stream };

    ghost view = { λ it. record { taken = it.taken; rest = drop it.removed it.bytes.items; fault = it.fault } };

    ghost invariant = { λ it. it.removed ≤ length it.bytes.items };
}

impl Decoder {
    ghost use Rattle.std.specs.Prelude.{◌≡◌, ◌≤◌, ◌++◌, ◌+◌, drop, length, Ok, Err, Some, None, IfOk, IfSome, IfNone, OnOk, OnErr, IsErrOf};
    ghost use Rattle.std.specs.Result.{IfErr};
    ghost use Rattle.zab_epoch.specs.Shortness.{IsShortBody};
    ghost use Rattle.zab_frames.specs.Streams.{new_stream, with_bytes, without, bad_at, stopped_at, Takes, Waits, Breaks, IfBroken};
    ghost use Rattle.zab_frames.specs.declared.fault.DecodeFault.TheVariants as faults;

    /// Allocates nothing.
    pub fn new(alloc: Global) -> Decoder
        ensures { result ≡ new_stream }
    {
        Decoder {
            bytes: Vec::new(alloc),
            removed: 0,
            taken: 0,
            fault: None,
        }
    }

    /// The bytes that have come and were not taken.
    pub fn rest(&self) -> &[u8]
        ensures { result.now ≡ self.now.rest }
    {
        &self.bytes.as_slice()[self.removed..]
    }

    /// Takes the next bytes of the stream. If an allocation fails, nothing changes. A decoder that
    /// has a fault ignores them.
    pub fn push(&mut self, bytes: &[u8]) -> Result<(), NoMemory>
        ensures ok { OnOk result (self.new ≡ with_bytes bytes.now self.old) }
        ensures err { OnErr result (self.new ≡ self.old) }
    {
        if self.fault.is_some() {
            return Ok(());
        }
        // Copied only once half is removed: the copies cost no more than the bytes that came.
        if self.removed > self.bytes.len() / 2 {
            self.forget_removed()?;
        }
        self.bytes.extend_from_slice(bytes)?;
        Ok(())
    }

    fn forget_removed(&mut self) -> Result<(), NoMemory>
        ensures { self.new ≡ self.old }
    {
        let left = Vec::from_slice(*self.bytes.allocator(), self.rest())?;
        self.bytes = left;
        self.removed = 0;
        Ok(())
    }

    /// Takes the first message, if its frame is whole; `None` if more bytes are needed.
    ///
    /// Fails with [`DecodeFault::Broken`] if the first frame has a wrong header or checksum, or is
    /// not that of a message. If an allocation fails, nothing changes.
    pub fn next(&mut self, alloc: Global) -> Result<Option<Message<Call>>, DecodeFault>
        ensures message { IfOk result (λ found. IfSome found (λ message. Takes self.old message self.new)) }
        ensures short { IfOk result (λ found. IfSome found (λ message. IsShortBody message.body)) }
        ensures waits { IfOk result (λ found. IfNone found (Waits self.old self.new)) }
        ensures broken { IfErr result (λ fault. IfBroken fault (λ bad. Breaks self.old bad self.new)) }
        ensures memory { IsErrOf result faults.NoMemory → self.new ≡ self.old }
    {
        if let Some(bad) = self.fault {
            return Err(DecodeFault::Broken(bad));
        }
        match first_frame(self.rest()) {
            Ok(None) => Ok(None),
            Ok(Some(contents)) => {
                let count = HEADER + contents.len();
                match read_message(alloc, contents) {
                    Ok(Some(message)) => {
                        self.remove(count);
                        Ok(Some(message))
                    }
                    Ok(None) => Err(self.stop(FrameFault::Contents)),
                    Err(NoMemory) => Err(DecodeFault::NoMemory),
                }
            }
            Err(fault) => Err(self.stop(fault)),
        }
    }

    /// Removes the first bytes.
    fn remove(&mut self, count: usize)
        requires { count ≤ length self.old.rest }
        ensures { self.new ≡ without count self.old }
    {
        self.removed += count;
        self.taken = self.taken.saturating_add(count as u64);
        if self.removed == self.bytes.len() {
            self.bytes.clear();
            self.removed = 0;
        }
    }

    /// Stops at the first frame.
    fn stop(&mut self, fault: FrameFault) -> DecodeFault
        ensures fault { result ≡ faults.Broken (bad_at self.old fault) }
        ensures stopped { self.new ≡ stopped_at (bad_at self.old fault) self.old }
    {
        let bad = BadFrame {
            place: self.taken,
            fault,
        };
        self.fault = Some(bad);
        DecodeFault::Broken(bad)
    }
}
