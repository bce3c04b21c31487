ghost use Rattle.std.specs.Prelude.{◌≡◌};
ghost use Rattle.zk_reactor.specs.Sockets.{failed_with, outcome_of};

use std::io;
use std::io::ErrorKind;

/// What a read or a write of a socket comes to.
#[derive(Clone, Copy, Debug, PartialEq, Eq)]
pub(crate) enum Outcome {
    /// No byte: its other side has ended.
    Ended,
    /// This number of bytes.
    Bytes(usize),
    /// It would wait.
    Waits,
    /// A signal has interrupted it.
    Interrupted,
    /// Any other error.
    Failed,
}

/// What a read or a write has come to.
pub(crate) fn outcome_of(returned: io::Result<usize>) -> Outcome
    ensures { result ≡ outcome_of returned }
{
    match returned {
        Ok(0) => Outcome::Ended,
        Ok(count) => Outcome::Bytes(count),
        Err(error) => failed_with(error.kind()),
    }
}

fn failed_with(kind: ErrorKind) -> Outcome
    ensures { result ≡ failed_with kind }
{
    match kind {
        ErrorKind::WouldBlock => Outcome::Waits,
        ErrorKind::Interrupted => Outcome::Interrupted,
        _ => Outcome::Failed,
    }
}
