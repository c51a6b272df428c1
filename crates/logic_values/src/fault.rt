ghost use Rattle.std.specs.Prelude.{◌≡◌};
ghost use Rattle.logic_values.specs.declared.fault.EvalFault.TheVariants.{WantOfMemory};
ghost use Rattle.logic_values.specs.Fault.{number_of, name_of};

use std::alloc::{AllocError, AllocFailed};
use thiserror::Error;

/// Why an evaluation gives no value.
#[derive(Clone, Copy, Debug, PartialEq, Eq, Error)]
pub enum EvalFault {
    /// Memory ran out.
    #[error("out of memory")]
    WantOfMemory,
    /// An operator needs a number where there is none, a result is outside -(2^53-1) to 2^53-1, or `%` divides by 0.
    #[error("a number is missing, out of range or divided by 0")]
    Arithmetic,
    /// What was done so far costs more than 100,000 units.
    #[error("the evaluation costs more than 100000 units")]
    TooLong,
    /// A site has a name that is no text, a weight that is none, or weights that sum to 2^31 or more.
    #[error("a bucket has no name, or the weights are no weights of a rule")]
    BadBuckets,
    /// `cat` or a default hash input makes a text of more than 65,536 bytes.
    #[error("a text that was made is longer than 65536 bytes")]
    TextTooLong,
}

impl EvalFault {
    /// The number that a refusal is printed with, from 0 for want of memory.
    pub fn number(&self) -> u32
        ensures { result ≡ number_of self.now }
    {
        match self {
            EvalFault::WantOfMemory => 0,
            EvalFault::Arithmetic => 1,
            EvalFault::TooLong => 2,
            EvalFault::BadBuckets => 3,
            EvalFault::TextTooLong => 4,
        }
    }

    /// The name that a refusal is printed with: the variant's.
    pub fn name(&self) -> &'static str
        ensures { result.now ≡ name_of self.now }
    {
        match self {
            EvalFault::WantOfMemory => "WantOfMemory",
            EvalFault::Arithmetic => "Arithmetic",
            EvalFault::TooLong => "TooLong",
            EvalFault::BadBuckets => "BadBuckets",
            EvalFault::TextTooLong => "TextTooLong",
        }
    }
}

impl From<AllocError> for EvalFault {
    ghost from_gives = { λ _ e. e ≡ WantOfMemory };

    fn from(_e: AllocError) -> EvalFault {
        EvalFault::WantOfMemory
    }
}

impl<T: Drop> From<AllocFailed<T>> for EvalFault {
    ghost from_gives = { λ _ e. e ≡ WantOfMemory };

    fn from(_e: AllocFailed<T>) -> EvalFault {
        EvalFault::WantOfMemory
    }
}
