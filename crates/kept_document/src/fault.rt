//! Why a document is not edited.
ghost use Rattle.std.specs.Prelude.{◌≡◌};
ghost use Rattle.kept_document.specs.declared.fault.KeepFault.TheVariants.{WantOfMemory};

use std::alloc::{AllocError, AllocFailed};
use thiserror::Error;

/// Why a rule is not put into a document in the place of a site's buckets.
#[derive(Clone, Copy, Debug, PartialEq, Eq, Error)]
pub enum KeepFault {
    /// Memory ran out.
    #[error("out of memory")]
    WantOfMemory,
    /// The site's buckets stand in an evaluator, to which other flags may refer too.
    #[error("the site stands in an evaluator")]
    Shared,
    /// The edited document has more than 4,194,304 bytes.
    #[error("the edited document is too long")]
    TooLong,
    /// No text with the rule in the place of the site's buckets means the flags that are wanted.
    #[error("the edited document does not mean the flags that are wanted")]
    Differs,
}

impl From<AllocError> for KeepFault {
    ghost from_gives = { λ _ e. e ≡ WantOfMemory };

    fn from(_e: AllocError) -> KeepFault {
        KeepFault::WantOfMemory
    }
}

impl<T: Drop> From<AllocFailed<T>> for KeepFault {
    ghost from_gives = { λ _ e. e ≡ WantOfMemory };

    fn from(_e: AllocFailed<T>) -> KeepFault {
        KeepFault::WantOfMemory
    }
}
