use std::alloc::Global;
use zk_path::NoMemory;

/// The most bytes of a line, with its newline.
const MOST_BYTES: usize = 65_536;

/// The bytes of a line that has not ended. Keeps no byte of a line that is too long.
#[derive(Debug, Drop)]
pub struct Pending {
    bytes: Vec<u8>,
    long: bool,
}

impl Pending {
    ghost use Rattle.std.specs.Prelude.{◌≡◌, ◌<◌, ◌++◌, [], ℕ, List, length, true, false, OnOk, option_map};
    ghost use Rattle.zk_line_protocol.specs.Pendings.{Holds};
    ghost use Rattle.zk_line_protocol.specs.Lines.{line, read_line};

    /// Holds no byte of a line.
    pub fn new(alloc: Global) -> Pending
        ensures { Holds result [] }
    {
        Pending {
            bytes: Vec::new(alloc),
            long: false,
        }
    }

    /// Appends bytes of the line. After an allocation failure, the line is lost.
    pub fn add(&mut self, more: &[u8]) -> Result<(), NoMemory>
        ensures { OnOk result ((text : List ℕ) → Holds self.old text → Holds self.new (text ++ more.now)) }
    {
        if self.long || more.len() > MOST_BYTES.saturating_sub(self.bytes.len()) {
            self.long = true;
            self.bytes.clear();
            return Ok(());
        }
        self.bytes.extend_from_slice(more)?;
        Ok(())
    }

    /// Returns the line, or `None` if it is longer than 65,536 bytes. The newline that ended it
    /// counts.
    pub fn line(&self, ended: bool) -> Option<&[u8]>
        ensures { (text : List ℕ) → Holds self.now text
            → option_map (λ bytes. bytes.now) result ≡ read_line (line text ended) }
    {
        if self.long || (ended && self.bytes.len() == MOST_BYTES) {
            return None;
        }
        Some(self.bytes.as_slice())
    }

    /// Whether the line has no bytes.
    pub fn is_empty(&self) -> bool
        ensures no { result ≡ false → (text : List ℕ) → Holds self.now text → 0 < length text }
        ensures yes { result ≡ true → (text : List ℕ) → Holds self.now text → text ≡ [] }
    {
        !self.long && self.bytes.is_empty()
    }

    /// Begins the next line.
    pub fn clear(&mut self)
        ensures { Holds self.new [] }
    {
        self.bytes.clear();
        self.long = false;
    }
}
