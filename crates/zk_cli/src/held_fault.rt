//! Standard error, but for the line of a log with a record that is not one of 3.4.

use std::io;
use std::io::Write;

/// What that line begins with.
const RECORD: &[u8] = b"zk: G3 ";

/// Room for the line: a position has at most 20 digits.
const ROOM: usize = 28;

/// A writer that holds back the line of such a log.
#[derive(Drop)]
pub(crate) struct HeldFault<W: Write> {
    inner: W,
    line: [u8; ROOM],
    length: usize,
}

impl<W: Write + Drop> HeldFault<W> {
    pub(crate) fn new(inner: W) -> HeldFault<W> {
        HeldFault {
            inner,
            line: [0; ROOM],
            length: 0,
        }
    }

    /// Whether a line is held.
    pub(crate) fn is_held(&self) -> bool {
        self.length > 0
    }

    /// Writes the line, if one is held. An error in that is ignored, since it cannot be reported.
    pub(crate) fn release(mut self) {
        if let Some(line) = self.line.get(..self.length) {
            let _ = self.inner.write_all(line);
        }
    }
}

impl<W: Write> Write for HeldFault<W> {
    fn write(&mut self, buf: &[u8]) -> io::Result<usize> {
        if buf.starts_with(RECORD)
            && let Some(line) = self.line.get_mut(..buf.len())
        {
            line.copy_from_slice(buf);
            self.length = buf.len();
            return Ok(buf.len());
        }
        self.inner.write(buf)
    }

    fn flush(&mut self) -> io::Result<()> {
        self.inner.flush()
    }
}
