ghost use Rattle.std.specs.Prelude.{◌≡◌, IfOk, OnErr, OnOk};
ghost use Rattle.zk_reactor.specs.Commands.{TakesLine, with_input};

use std::alloc::Global;
use zk_line_protocol::split_line;
use zk_path::NoMemory;

/// The longest line, in bytes. The rest of a longer one is another line.
const LONGEST: usize = 4096;

/// Bytes of standard input whose lines were not taken.
#[derive(Debug, Drop)]
pub(crate) struct Lines {
    bytes: Vec<u8>,
}

impl Lines {
    pub(crate) fn new(alloc: Global) -> Lines {
        Lines {
            bytes: Vec::new(alloc),
        }
    }

    /// Appends bytes. Those of a line that is too long are dropped first.
    pub(crate) fn push(&mut self, bytes: &[u8]) -> Result<(), NoMemory>
        ensures { OnOk result (self.new.bytes.items ≡ with_input bytes.now self.old.bytes.items) }
    {
        if self.bytes.len() > LONGEST {
            self.bytes.clear();
        }
        self.bytes.extend_from_slice(bytes)?;
        Ok(())
    }

    /// Takes the first line, without its newline; `None` if no line is whole.
    pub(crate) fn take(&mut self, alloc: Global) -> Result<Option<Vec<u8>>, NoMemory>
        ensures taken { IfOk result (λ line. TakesLine line self.old.bytes.items self.new.bytes.items) }
        ensures unchanged { OnErr result (self.new ≡ self.old) }
    {
        let Some((line, rest)) = split_line(&self.bytes) else {
            return Ok(None);
        };
        let line = Vec::from_slice(alloc, line)?;
        let rest = Vec::from_slice(alloc, rest)?;
        self.bytes = rest;
        Ok(Some(line))
    }
}
