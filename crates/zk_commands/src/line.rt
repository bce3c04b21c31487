//! A line while it is read.
ghost use Rattle.std.specs.Prelude.{◌∷◌, ◌++◌, [], ℕ, List, OnOk};
ghost use Rattle.zk_commands.specs.Lines.{Holds};

use std::alloc::Global;
use zk_path::NoMemory;

/// The maximum number of bytes of a line, without its newline.
const MOST_BYTES: usize = 65_536;

/// The part of a line that was read. Of a line that is too long nothing is kept.
#[derive(Debug, Drop)]
pub(crate) struct Line {
    pub bytes: Vec<u8>,
    pub is_long: bool,
}

impl Line {
    pub(crate) fn new(alloc: Global) -> Line
        ensures { Holds result [] }
    {
        Line {
            bytes: Vec::new(alloc),
            is_long: false,
        }
    }

    /// Starts the next line.
    pub(crate) fn begin(&mut self)
        ensures { Holds self.new [] }
    {
        self.bytes.clear();
        self.is_long = false;
    }

    pub(crate) fn push(&mut self, byte: u8) -> Result<(), NoMemory>
        ensures { OnOk result ((text : List ℕ) → Holds self.old text → Holds self.new (text ++ byte ∷ [])) }
    {
        if self.is_long || self.bytes.len() == MOST_BYTES {
            self.is_long = true;
            self.bytes.clear();
            return Ok(());
        }
        self.bytes.push(byte)?;
        Ok(())
    }
}
