ghost use Rattle.std.specs.Prelude.{◌≡◌};
ghost use Rattle.price_core.specs.Fault.{number_of, name_of, of_text};
ghost use Rattle.price_core.specs.declared.fault.PriceFault.TheVariants.{WantOfMemory};

use flag_text::TextFault;
use std::alloc::{AllocError, AllocFailed};
use thiserror::Error;

/// Why a request is refused: no request first, then a pair of equal names, a price out of range, an empty range.
#[derive(Clone, Copy, Debug, PartialEq, Eq, Error)]
pub enum PriceFault {
    /// Out of memory; may occur at any point.
    #[error("out of memory")]
    WantOfMemory,
    /// The text is no JSON tree of whole numbers, a member is of another form, or a pair is named twice.
    #[error("not a request")]
    BadRequest,
    /// The totals, the prices or the prohibitions name what is none of the variants.
    #[error("a name is none of the variants")]
    UnknownVariant,
    /// A price or a prohibition is of a change from a name to itself.
    #[error("a pair of equal names")]
    SelfPair,
    /// A price, the usual one among them, is not from 0 to 1000000.
    #[error("a price is not from 0 to 1000000")]
    PriceRange,
    /// The low limit on a total is above the high one.
    #[error("a low limit is above its high limit")]
    EmptyRange,
}

impl PriceFault {
    /// The number that a refusal is printed with, from 0 for want of memory.
    pub fn number(&self) -> u32
        ensures { result ≡ number_of self.now }
    {
        match self {
            PriceFault::WantOfMemory => 0,
            PriceFault::BadRequest => 1,
            PriceFault::UnknownVariant => 2,
            PriceFault::SelfPair => 3,
            PriceFault::PriceRange => 4,
            PriceFault::EmptyRange => 5,
        }
    }

    /// The name that a refusal is printed with: the variant's.
    pub fn name(&self) -> &'static str
        ensures { result.now ≡ name_of self.now }
    {
        match self {
            PriceFault::WantOfMemory => "WantOfMemory",
            PriceFault::BadRequest => "BadRequest",
            PriceFault::UnknownVariant => "UnknownVariant",
            PriceFault::SelfPair => "SelfPair",
            PriceFault::PriceRange => "PriceRange",
            PriceFault::EmptyRange => "EmptyRange",
        }
    }
}

impl From<AllocError> for PriceFault {
    ghost from_gives = { λ _ e. e ≡ WantOfMemory };

    fn from(_e: AllocError) -> PriceFault {
        PriceFault::WantOfMemory
    }
}

impl<T: Drop> From<AllocFailed<T>> for PriceFault {
    ghost from_gives = { λ _ e. e ≡ WantOfMemory };

    fn from(_e: AllocFailed<T>) -> PriceFault {
        PriceFault::WantOfMemory
    }
}

impl From<TextFault> for PriceFault {
    ghost from_gives = { λ f e. e ≡ of_text f };

    fn from(fault: TextFault) -> PriceFault {
        match fault {
            TextFault::WantOfMemory => PriceFault::WantOfMemory,
            _ => PriceFault::BadRequest,
        }
    }
}
