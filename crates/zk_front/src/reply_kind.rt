ghost use Rattle.std.specs.Prelude.{◌≡◌};
ghost use Rattle.zk_front.specs.Asks.{sought_by};

use zk_line_protocol::Ask;

/// How the reply to an ask is found.
#[derive(Clone, Copy, Debug, PartialEq, Eq)]
pub enum ReplyKind {
    /// The result of the call with the ask's tag.
    Written,
    /// The immediate reply to the read.
    Looked,
    /// That the server has caught up, for the ask's tag.
    Caught,
}

/// Returns how the reply to an ask is found.
pub fn sought_by(ask: &Ask) -> ReplyKind
    ensures { result ≡ sought_by ask.now }
{
    match ask {
        Ask::Write { .. } => ReplyKind::Written,
        Ask::Read { .. } => ReplyKind::Looked,
        Ask::Sync { .. } => ReplyKind::Caught,
    }
}
