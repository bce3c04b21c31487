use crate::explanations::explanation_of;
use std::io;
use std::io::Write;

/// A writer of lines for errors that may also say what each means and what helps, on a line of its
/// own.
///
/// Nothing is specified of what it has written: its bytes are more than those that it is given.
#[derive(Debug, Drop)]
pub struct Explaining<W: Write> {
    inner: W,
    explains: bool,
}

impl<W: Write> Explaining<W> {
    ghost use Rattle.std.specs.Prelude.{◌≡◌};

    /// `explains`: whether the second lines are written.
    pub fn new(inner: W, explains: bool) -> Explaining<W>
        ensures inner { result.inner ≡ inner }
        ensures explains { result.explains ≡ explains }
    {
        Explaining { inner, explains }
    }
}

impl<W: Write> Write for Explaining<W> {
    /// Writes what it is given; after a whole line for an error, its explanation. An error in that
    /// is ignored, since it cannot be reported.
    fn write(&mut self, buf: &[u8]) -> io::Result<usize> {
        let taken = self.inner.write(buf)?;
        if self.explains
            && taken == buf.len()
            && let Some(words) = explanation_of(buf)
        {
            let _ = self.inner.write_all(words.as_bytes());
            let _ = self.inner.write_all(b"\n");
        }
        Ok(taken)
    }

    fn flush(&mut self) -> io::Result<()> {
        self.inner.flush()
    }
}
