ghost use Rattle.std.specs.Prelude.{◌≡◌};
ghost use Rattle.zk_listing.specs.declared.list_fault.ListCause.TheVariants as causes;
ghost use Rattle.zk_debug.specs.Reading.{fault_of};
ghost use Rattle.zk_debug.specs.declared.command_fault.CommandFault.TheVariants as faults;

use thiserror::Error;
use zk_listing::ListCause;

/// Why a line is not a command.
#[derive(Clone, Copy, Debug, PartialEq, Eq, Error)]
pub enum CommandFault {
    /// The line is not in the format of a command.
    #[error("malformed")]
    Malformed,
    /// An allocation failed.
    #[error("no memory")]
    NoMemory,
}

impl From<ListCause> for CommandFault {
    ghost from_gives = { λ cause fault. fault ≡ fault_of cause };

    fn from(cause: ListCause) -> CommandFault {
        match cause {
            ListCause::NoMemory => CommandFault::NoMemory,
            _ => CommandFault::Malformed,
        }
    }
}
