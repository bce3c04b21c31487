ghost use Rattle.std.specs.Prelude.{◌≡◌};
ghost use Rattle.zk_front.specs.Keeping.{turn_of};

use crate::Ask;
use zk_prepare::Request;

/// The effect of a successful write on sessions.
#[derive(Clone, Copy, Debug, Drop)]
pub(crate) enum SessionEffect {
    /// Opens a session, with the requested timeout in milliseconds.
    Opens(i32),
    /// Closes the write's session.
    Closes,
    Neither,
}

/// Returns the effect of an ask on sessions, if it succeeds.
pub(crate) fn turn_of(ask: &Ask) -> SessionEffect
    ensures { result ≡ turn_of ask.now }
{
    match ask {
        Ask::Write {
            request: Request::OpenSession { timeout },
            ..
        } => SessionEffect::Opens(*timeout),
        Ask::Write {
            request: Request::CloseSession,
            ..
        } => SessionEffect::Closes,
        _ => SessionEffect::Neither,
    }
}
