ghost use Rattle.std.specs.Prelude.{◌≡◌};
ghost use Rattle.flag_text.specs.declared.fault.TextFault.TheVariants.{WantOfMemory};
ghost use Rattle.flag_text.specs.Fault.{number_of, name_of};

use std::alloc::{AllocError, AllocFailed};
use thiserror::Error;

/// Why a text is not read as a tree.
///
/// The variants stand in the order of their numbers; a text is tested for `TooLarge`, `NotJson`,
/// `TooDeep` and `NotWhole` in that order.
#[derive(Clone, Copy, Debug, PartialEq, Eq, Error)]
pub enum TextFault {
    /// Memory ran out. It may come in place of any answer but `TooLarge`.
    #[error("out of memory")]
    WantOfMemory,
    /// The bytes are no JSON text in UTF-8, nest deeper than 127 levels, or have a number that is too
    /// large for a float.
    #[error("not a JSON text")]
    NotJson,
    /// A number is spelled with a fraction or an exponent or as `-0`, or is not from -(2^53-1) to
    /// 2^53-1.
    #[error("a number is not whole")]
    NotWhole,
    /// There are more bytes than the caller's limit.
    #[error("the text is too large")]
    TooLarge,
    /// The tree has more than 120 levels.
    #[error("the text nests too deep")]
    TooDeep,
}

impl TextFault {
    /// The number that a refusal is printed with, from 0 for want of memory.
    pub fn number(&self) -> u32
        ensures { result ≡ number_of self.now }
    {
        match self {
            TextFault::WantOfMemory => 0,
            TextFault::NotJson => 1,
            TextFault::NotWhole => 2,
            TextFault::TooLarge => 3,
            TextFault::TooDeep => 4,
        }
    }

    /// The name that a refusal is printed with: the variant's.
    pub fn name(&self) -> &'static str
        ensures { result.now ≡ name_of self.now }
    {
        match self {
            TextFault::WantOfMemory => "WantOfMemory",
            TextFault::NotJson => "NotJson",
            TextFault::NotWhole => "NotWhole",
            TextFault::TooLarge => "TooLarge",
            TextFault::TooDeep => "TooDeep",
        }
    }
}

impl From<AllocError> for TextFault {
    ghost from_gives = { λ _ e. e ≡ WantOfMemory };

    fn from(_e: AllocError) -> TextFault {
        TextFault::WantOfMemory
    }
}

impl<T: Drop> From<AllocFailed<T>> for TextFault {
    ghost from_gives = { λ _ e. e ≡ WantOfMemory };

    fn from(_e: AllocFailed<T>) -> TextFault {
        TextFault::WantOfMemory
    }
}
