ghost use Rattle.std.specs.Prelude.{◌≡◌};
ghost use Rattle.zk_log_commands.specs.Assembling.{fault_of_text, fault_of_list};
ghost use Rattle.zk_log_commands.specs.declared.asm_fault.AsmFault.TheVariants as faults;

use crate::text::TextFault;
use thiserror::Error;
use zk_listing::{ListCause, ListFault};
use zk_log::NotPushed;

/// Why a text was not converted to a log. Its lines are counted from 1.
#[derive(Clone, Copy, Debug, PartialEq, Eq, Error)]
pub enum AsmFault {
    /// The text could not be read to its end.
    #[error("read")]
    Read,
    /// The text is not UTF-8.
    #[error("utf8")]
    Utf8,
    /// The text is not a listing.
    #[error("{0}")]
    Listing(ListFault),
    /// The zxid of this line is not above the one before, which is 0 for the first line.
    #[error("order {0}")]
    Order(u64),
    /// The record of this line's transaction has more than 16,777,216 bytes.
    #[error("length {0}")]
    Length(u64),
    /// An allocation failed.
    #[error("memory")]
    NoMemory,
}

impl From<TextFault> for AsmFault {
    ghost from_gives = { λ fault read. read ≡ fault_of_text fault };

    fn from(fault: TextFault) -> AsmFault {
        match fault {
            TextFault::Read => AsmFault::Read,
            TextFault::Utf8 => AsmFault::Utf8,
            TextFault::NoMemory => AsmFault::NoMemory,
        }
    }
}

impl From<ListFault> for AsmFault {
    ghost from_gives = { λ fault refused. refused ≡ fault_of_list fault };

    fn from(fault: ListFault) -> AsmFault {
        match fault.cause {
            ListCause::NoMemory => AsmFault::NoMemory,
            _ => AsmFault::Listing(fault),
        }
    }
}

impl From<NotPushed> for AsmFault {
    ghost from_gives = { λ _ fault. fault ≡ faults.NoMemory };

    fn from(_refused: NotPushed) -> AsmFault {
        AsmFault::NoMemory
    }
}
