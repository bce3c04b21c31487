ghost use Rattle.std.specs.Prelude.{◌≡◌, ◌-◌, ◌<◌, ◌^◌, OnOk, IfErr};
ghost use Rattle.std.specs.String.{string_bytes};
ghost use Rattle.zk_records.specs.Sinks.{writer_of, write_failures_of, AppendsSome};
ghost use Rattle.zk_front.specs.Reaching.{Added, Flushes, IsFresh, MayFlush};
ghost use Rattle.zk_front.specs.Serving.{writes_failed};
ghost use Rattle.zk_front.specs.declared.fault.FrontFault.TheVariants as faults;

use crate::fault::FrontFault;
use std::alloc::Global;
use std::io::Write;
use zk_line_protocol::{ConnectionState, Pending};
use zk_log::Sink;
use zk_path::NoMemory;

/// The number of bytes of replies that may wait for the next lines.
const PAGE: usize = 65_536;

/// A connection: its state, the line that has not ended, the replies that are not written, and the
/// number of lines that have their replies.
#[derive(Debug)]
pub(crate) struct Connection {
    pub standing: ConnectionState,
    pub pending: Pending,
    pub page: String,
    pub lines: u64,
}

impl Drop for Connection {
    fn drop(self) {
        let Connection {
            standing: _,
            pending: _,
            page: _,
            lines: _,
        } = self;
    }
}

impl Connection {
    /// No byte was read.
    pub(crate) fn new(alloc: Global) -> Connection
        ensures { IsFresh result }
    {
        Connection {
            standing: ConnectionState::new(),
            pending: Pending::new(alloc),
            page: String::new(alloc),
            lines: 0,
        }
    }

    /// Appends bytes to the line that has not ended.
    pub(crate) fn keep(&mut self, text: &[u8]) -> Result<(), NoMemory>
        ensures { OnOk result (Added self.old self.new text.now) }
    {
        self.pending.add(text)
    }

    /// Writes the replies that wait.
    pub(crate) fn flush<W: Write>(&mut self, writer: &mut Sink<W>) -> Result<(), FrontFault>
        requires failures { write_failures_of writer.old < 2 ^ 64 - 1 }
        ensures ok { OnOk result (Flushes self.old (W.contents (writer_of writer.old)) self.new (W.contents (writer_of writer.new))) }
        ensures err { IfErr result (λ fault. (fault ≡ faults.Write) × AppendsSome (W.contents (writer_of writer.old)) (W.contents (writer_of writer.new)) (string_bytes self.old.page)) }
        ensures failures { write_failures_of writer.new ≡ writes_failed (write_failures_of writer.old) result }
    {
        writer.write_all(self.page.as_str().as_bytes())?;
        self.page.clear();
        Ok(())
    }

    /// Writes the replies that wait, if they are many.
    pub(crate) fn flush_if_full<W: Write>(&mut self, writer: &mut Sink<W>) -> Result<(), FrontFault>
        requires failures { write_failures_of writer.old < 2 ^ 64 - 1 }
        ensures ok { OnOk result (MayFlush self.old (W.contents (writer_of writer.old)) self.new (W.contents (writer_of writer.new))) }
        ensures lines { OnOk result (self.new.lines ≡ self.old.lines) }
        ensures err { IfErr result (λ fault. (fault ≡ faults.Write) × AppendsSome (W.contents (writer_of writer.old)) (W.contents (writer_of writer.new)) (string_bytes self.old.page)) }
        ensures failures { write_failures_of writer.new ≡ writes_failed (write_failures_of writer.old) result }
    {
        if self.page.len() < PAGE {
            return Ok(());
        }
        self.flush(writer)
    }
}
