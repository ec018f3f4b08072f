//! Why a text is not in a grammar.

ghost use Rattle.std.specs.Prelude.{◌≡◌};
ghost use Rattle.fp_text.specs.declared.fault.TextFault.TheVariants.{Memory};

use std::alloc::{AllocError, AllocFailed};

/// The kind of a text's first fault. The order of the variants says nothing of the order in which
/// they are tried.
#[derive(Clone, Copy, Debug, PartialEq, Eq)]
pub enum Kind {
    /// A token is needed and there is none.
    Ended,
    /// A keyword is needed and the token is another word.
    Word,
    /// A number is needed and the token is none, or is above the greatest that is read.
    Number,
    /// A name is needed and the token is none.
    Name,
    /// A name or a section stands there a second time.
    Twice,
    /// A name that must be known is not.
    Unknown,
    /// A number is outside the range of its place.
    Range,
    /// A die's rows leave the frame.
    Rows,
    /// A count is above its limit.
    Limit,
    /// A token stands behind the end of the grammar.
    Trailing,
}

/// Why a text was not read.
#[derive(Clone, Copy, Debug, PartialEq, Eq)]
pub enum TextFault {
    /// The text is not in the grammar: its first fault, at a place from 0.
    Wrong { at: u64, kind: Kind },
    /// Memory was asked for and refused.
    Memory,
}

impl From<AllocError> for TextFault {
    ghost from_gives = { λ _ e. e ≡ Memory };

    fn from(_e: AllocError) -> TextFault {
        TextFault::Memory
    }
}

impl<T: Drop> From<AllocFailed<T>> for TextFault {
    ghost from_gives = { λ _ e. e ≡ Memory };

    fn from(_e: AllocFailed<T>) -> TextFault {
        TextFault::Memory
    }
}
