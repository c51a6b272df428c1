ghost use Rattle.std.specs.Prelude.{◌≡◌};
ghost use Rattle.flag_defs.specs.declared.fault.DefFault.TheVariants.{WantOfMemory};
ghost use Rattle.flag_defs.specs.Fault.{number_of, name_of};

use std::alloc::{AllocError, AllocFailed};
use thiserror::Error;

/// Why bytes are no flag document.
#[derive(Clone, Copy, Debug, PartialEq, Eq, Error)]
pub enum DefFault {
    #[error("out of memory")]
    WantOfMemory,
    #[error("not a JSON text")]
    NotJson,
    #[error("not an object with an object of flags")]
    NoFlags,
    #[error("too large, as given or as printed, or too many flags")]
    TooLarge,
}

impl DefFault {
    /// The number that a refusal is printed with, from 0 for want of memory.
    pub fn number(&self) -> u32
        ensures { result ≡ number_of self.now }
    {
        match self {
            DefFault::WantOfMemory => 0,
            DefFault::NotJson => 1,
            DefFault::NoFlags => 2,
            DefFault::TooLarge => 3,
        }
    }

    /// The name that a refusal is printed with: the variant's.
    pub fn name(&self) -> &'static str
        ensures { result.now ≡ name_of self.now }
    {
        match self {
            DefFault::WantOfMemory => "WantOfMemory",
            DefFault::NotJson => "NotJson",
            DefFault::NoFlags => "NoFlags",
            DefFault::TooLarge => "TooLarge",
        }
    }
}

impl From<AllocError> for DefFault {
    ghost from_gives = { λ _ e. e ≡ WantOfMemory };

    fn from(_e: AllocError) -> DefFault {
        DefFault::WantOfMemory
    }
}

impl<T: Drop> From<AllocFailed<T>> for DefFault {
    ghost from_gives = { λ _ e. e ≡ WantOfMemory };

    fn from(_e: AllocFailed<T>) -> DefFault {
        DefFault::WantOfMemory
    }
}
