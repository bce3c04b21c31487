use crate::fault::{BadItem, DecodeFault, StreamFault};
use crate::item::{Item, Phase};
use crate::items::{are_bytes, read_item};
use crate::packets::MOST_BYTES;
use std::alloc::Global;
use std::marker::Model;
use zk_jute::JuteFault;
use zk_path::NoMemory;

/// Takes the items of one direction of a connection, whose bytes come in any chunks.
///
/// It keeps the bytes that have come and were not taken, and no more memory than for these. After a
/// fault it takes no more bytes, and returns the same fault each time.
#[derive(Debug, Drop)]
pub struct Decoder {
    bytes: Vec<u8>,
    /// How many of the first bytes are taken.
    removed: usize,
    /// How many bytes were taken in all.
    taken: u64,
    phase: Phase,
    fault: Option<BadItem>,
}

impl Model for Decoder {
    ghost use Rattle.std.specs.Prelude.{◌≤◌, drop, length};
    ghost use Rattle.zk_quorum_records.specs.Streams.{Stream};

    ghost Value = { Stream };

    ghost view = { λ it. record { taken = it.taken; rest = drop it.removed it.bytes.items; phase = it.phase; fault = it.fault } };

    ghost invariant = { λ it. it.removed ≤ length it.bytes.items };
}

impl Decoder {
    ghost use Rattle.std.specs.Prelude.{◌≡◌, ◌≤◌, ◌++◌, ◌+◌, drop, length, Ok, Err, Some, None, IfOk, IfSome, IfNone, OnOk, OnErr, IsErrOf};
    ghost use Rattle.std.specs.Result.{IfErr};
    ghost use Rattle.zk_quorum_records.specs.Streams.{new_stream, with_bytes, without, bad_at, stopped_at, TakesItem, Waits, Breaks, IfBroken};
    ghost use Rattle.zk_quorum_records.specs.declared.fault.DecodeFault.TheVariants as faults;

    /// A stream that begins in a phase. Allocates nothing.
    pub fn new(alloc: Global, phase: Phase) -> Decoder
        ensures { result ≡ new_stream phase }
    {
        Decoder {
            bytes: Vec::new(alloc),
            removed: 0,
            taken: 0,
            phase,
            fault: None,
        }
    }

    /// The bytes that have come and were not taken.
    pub fn rest(&self) -> &[u8]
        ensures { result.now ≡ self.now.rest }
    {
        &self.bytes.as_slice()[self.removed..]
    }

    /// How many bytes were taken, at most the greatest `u64`.
    pub fn taken(&self) -> u64
        ensures { result ≡ self.now.taken }
    {
        self.taken
    }

    pub fn phase(&self) -> Phase
        ensures { result ≡ self.now.phase }
    {
        self.phase
    }

    /// Takes the next bytes of the stream. If an allocation fails, nothing changes. A decoder that
    /// has a fault ignores them.
    pub fn push(&mut self, bytes: &[u8]) -> Result<(), NoMemory>
        ensures ok { OnOk result (self.new ≡ with_bytes bytes.now self.old) }
        ensures err { OnErr result (self.new ≡ self.old) }
    {
        if self.fault.is_some() {
            return Ok(());
        }
        // Copied only once half is removed: the copies cost no more than the bytes that came.
        if self.removed > self.bytes.len() / 2 {
            self.forget_removed()?;
        }
        self.bytes.extend_from_slice(bytes)?;
        Ok(())
    }

    fn forget_removed(&mut self) -> Result<(), NoMemory>
        ensures { self.new ≡ self.old }
    {
        let left = Vec::from_slice(*self.bytes.allocator(), self.rest())?;
        self.bytes = left;
        self.removed = 0;
        Ok(())
    }

    /// Takes the first item, if it is whole; `None` if more bytes are needed.
    ///
    /// Fails with [`DecodeFault::Broken`] if the first item is too long, or has a field that cannot
    /// be read. If an allocation fails, nothing changes.
    #[tactic(auto, using(crate::proofs::Streams::takes_one, crate::proofs::Streams::within_bytes, crate::proofs::Streams::broken_field))]
    pub fn next(&mut self, alloc: Global) -> Result<Option<Item>, DecodeFault>
        ensures item { IfOk result (λ found. IfSome found (λ item. TakesItem self.old item self.new)) }
        ensures waits { IfOk result (λ found. IfNone found (Waits self.old self.new)) }
        ensures broken { IfErr result (λ fault. IfBroken fault (λ bad. Breaks self.old bad self.new)) }
        ensures memory { IsErrOf result faults.NoMemory → self.new ≡ self.old }
    {
        if let Some(bad) = self.fault {
            return Err(DecodeFault::Broken(bad));
        }
        let before = self.rest().len();
        let mut input = self.rest();
        are_bytes(input);
        match read_item(alloc, self.phase, &mut input) {
            Ok(item) => {
                let count = before - input.len();
                self.remove(count, self.phase.after(&item));
                Ok(Some(item))
            }
            Err(JuteFault::NoMemory) => Err(DecodeFault::NoMemory),
            Err(JuteFault::Short) => {
                if before < MOST_BYTES as usize {
                    return Ok(None);
                }
                Err(self.stop(StreamFault::TooLong))
            }
            Err(fault) => Err(self.stop(StreamFault::Field(fault))),
        }
    }

    /// Removes the first bytes; the stream goes on in a phase.
    fn remove(&mut self, count: usize, phase: Phase)
        requires { count ≤ length self.old.rest }
        ensures { self.new ≡ without count phase self.old }
    {
        self.removed += count;
        self.taken = self.taken.saturating_add(count as u64);
        self.phase = phase;
        if self.removed == self.bytes.len() {
            self.bytes.clear();
            self.removed = 0;
        }
    }

    /// Stops at the first item.
    fn stop(&mut self, fault: StreamFault) -> DecodeFault
        ensures fault { result ≡ faults.Broken (bad_at self.old fault) }
        ensures stopped { self.new ≡ stopped_at (bad_at self.old fault) self.old }
    {
        let bad = BadItem {
            place: self.taken,
            fault,
        };
        self.fault = Some(bad);
        DecodeFault::Broken(bad)
    }
}
