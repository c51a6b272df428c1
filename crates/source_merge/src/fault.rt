ghost use Rattle.std.specs.Prelude.{◌≡◌};
ghost use Rattle.source_merge.specs.declared.fault.SourceFault.TheVariants.{WantOfMemory};
ghost use Rattle.source_merge.specs.Fault.{number_of, name_of, of_document};

use flag_defs::DefFault;
use std::alloc::{AllocError, AllocFailed};
use thiserror::Error;

/// Why sources refuse a call, in the order of the numbers.
#[derive(Clone, Copy, Debug, PartialEq, Eq, Error)]
pub enum SourceFault {
    /// Out of memory; may occur at any point.
    #[error("out of memory")]
    WantOfMemory,
    /// There is a source of this name already.
    #[error("there is a source of this name")]
    Known,
    /// There are 16 sources already.
    #[error("there are 16 sources")]
    TooMany,
    /// There is no source of this name.
    #[error("there is no source of this name")]
    Unknown,
    /// The document is refused.
    #[error("the document is refused: {0}")]
    Refused(DefFault),
    /// Together there are more than 10,000 flags, or they are printed in more than 4,194,304 bytes.
    #[error("too many flags together, or too large as printed")]
    TooLarge,
}

impl SourceFault {
    /// The number that a refusal is printed with, from 0 for want of memory.
    pub fn number(&self) -> u32
        ensures { result ≡ number_of self.now }
    {
        match self {
            SourceFault::WantOfMemory => 0,
            SourceFault::Known => 1,
            SourceFault::TooMany => 2,
            SourceFault::Unknown => 3,
            SourceFault::Refused(_) => 4,
            SourceFault::TooLarge => 5,
        }
    }

    /// The name that a refusal is printed with: the variant's.
    pub fn name(&self) -> &'static str
        ensures { result.now ≡ name_of self.now }
    {
        match self {
            SourceFault::WantOfMemory => "WantOfMemory",
            SourceFault::Known => "Known",
            SourceFault::TooMany => "TooMany",
            SourceFault::Unknown => "Unknown",
            SourceFault::Refused(_) => "Refused",
            SourceFault::TooLarge => "TooLarge",
        }
    }
}

impl From<AllocError> for SourceFault {
    ghost from_gives = { λ _ e. e ≡ WantOfMemory };

    fn from(_e: AllocError) -> SourceFault {
        SourceFault::WantOfMemory
    }
}

impl<T: Drop> From<AllocFailed<T>> for SourceFault {
    ghost from_gives = { λ _ e. e ≡ WantOfMemory };

    fn from(_e: AllocFailed<T>) -> SourceFault {
        SourceFault::WantOfMemory
    }
}

/// A refused document: its want of memory is this call's.
impl From<DefFault> for SourceFault {
    ghost use Rattle.source_merge.specs.Fault.{of_document};

    ghost from_gives = { λ f e. e ≡ of_document f };

    fn from(fault: DefFault) -> SourceFault {
        match fault {
            DefFault::WantOfMemory => SourceFault::WantOfMemory,
            refused => SourceFault::Refused(refused),
        }
    }
}
