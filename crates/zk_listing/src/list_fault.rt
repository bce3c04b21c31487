ghost use Rattle.std.specs.Prelude.{◌≡◌};
ghost use Rattle.zk_listing.specs.declared.list_fault.ListCause.TheVariants as causes;

use std::alloc::{AllocError, AllocFailed};
use thiserror::Error;
use zk_path::NoMemory;

/// The fault of a line of a listing.
#[derive(Clone, Copy, Debug, PartialEq, Eq, Error)]
pub enum ListCause {
    /// A field is empty, missing or superfluous, or the separator of two fields is not one space.
    #[error("L1")]
    Fields,
    /// A field is not a number in the listing format, or is out of range.
    #[error("L2")]
    Number,
    /// A field is not a quoted text in the listing format.
    #[error("L3")]
    Quote,
    /// A field is not a content: `-`, or `x` and lower-case hexadecimal digits, two for each byte.
    #[error("L4")]
    Hex,
    /// A field is not one of the expected words.
    #[error("L5")]
    Word,
    /// A quoted text is not a path.
    #[error("L6")]
    Path,
    /// The last line does not end with a newline.
    #[error("L7")]
    NoNewline,
    /// An allocation failed.
    #[error("L8")]
    NoMemory,
}

impl From<NoMemory> for ListCause {
    ghost from_gives = { λ _ cause. cause ≡ causes.NoMemory };

    fn from(_refused: NoMemory) -> ListCause {
        ListCause::NoMemory
    }
}

impl From<AllocError> for ListCause {
    ghost from_gives = { λ _ cause. cause ≡ causes.NoMemory };

    fn from(_refused: AllocError) -> ListCause {
        ListCause::NoMemory
    }
}

impl<T: Drop> From<AllocFailed<T>> for ListCause {
    ghost from_gives = { λ _ cause. cause ≡ causes.NoMemory };

    fn from(_refused: AllocFailed<T>) -> ListCause {
        ListCause::NoMemory
    }
}

/// The first fault of a text that is not a listing.
#[derive(Clone, Copy, Debug, PartialEq, Eq, Error)]
#[error("{cause} {line}")]
pub struct ListFault {
    /// The first faulty line, counted from 1.
    pub line: u64,
    pub cause: ListCause,
}
