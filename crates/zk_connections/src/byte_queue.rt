use std::alloc::Global;
use std::marker::Model;
use zk_path::NoMemory;

/// Bytes, first in, first out, modelled as the list of those that are left.
#[derive(Debug, Drop)]
pub struct ByteQueue {
    bytes: Vec<u8>,
    /// How many of the first bytes are removed.
    removed: usize,
}

impl Model for ByteQueue {
    ghost use Rattle.std.specs.Prelude.{List, ℕ, ◌≤◌, drop, length};

    ghost Value = { List ℕ };

    ghost view = { λ queue. drop queue.removed queue.bytes.items };

    ghost invariant = { λ queue. queue.removed ≤ length queue.bytes.items };
}

impl ByteQueue {
    ghost use Rattle.std.specs.Prelude.{◌≡◌, ◌++◌, [], drop, length, IsTrue, ◌↔◌, OnErr, OnOk};

    /// Allocates no memory.
    pub fn new(alloc: Global) -> ByteQueue
        ensures { result ≡ [] }
    {
        ByteQueue {
            bytes: Vec::new(alloc),
            removed: 0,
        }
    }

    pub fn as_slice(&self) -> &[u8]
        ensures { result.now ≡ self.now }
    {
        &self.bytes.as_slice()[self.removed..]
    }

    pub fn len(&self) -> usize
        ensures { result ≡ length self.now }
    {
        self.bytes.len() - self.removed
    }

    pub fn is_empty(&self) -> bool
        ensures { IsTrue result ↔ self.now ≡ [] }
    {
        self.len() == 0
    }

    pub fn append(&mut self, bytes: &[u8]) -> Result<(), NoMemory>
        ensures appended { OnOk result (self.new ≡ self.old ++ bytes.now) }
        ensures unchanged { OnErr result (self.new ≡ self.old) }
    {
        // Copied only once half is removed: the copies cost no more than the bytes that came.
        if self.removed > self.bytes.len() / 2 {
            self.forget_removed()?;
        }
        self.bytes.extend_from_slice(bytes)?;
        Ok(())
    }

    fn forget_removed(&mut self) -> Result<(), NoMemory>
        ensures { self.new ≡ self.old }
    {
        let left = Vec::from_slice(*self.bytes.allocator(), self.as_slice())?;
        self.bytes = left;
        self.removed = 0;
        Ok(())
    }

    /// Removes the first `count` bytes, or all if there are fewer.
    pub fn remove(&mut self, count: usize)
        ensures { self.new ≡ drop count self.old }
    {
        let left = self.len();
        if count < left {
            self.removed += count;
        } else {
            self.bytes.clear();
            self.removed = 0;
        }
    }

    pub fn clear(&mut self)
        ensures { self.new ≡ [] }
    {
        self.bytes.clear();
        self.removed = 0;
    }
}
