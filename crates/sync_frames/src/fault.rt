//! What can be wrong with a stream of frames.
ghost use Rattle.std.specs.Prelude.{◌≡◌};
ghost use Rattle.sync_frames.specs.declared.fault.FrameFault.TheVariants.{WantOfMemory};
ghost use Rattle.sync_frames.specs.Fault.{number_of, name_of};

use std::alloc::{AllocError, AllocFailed};
use thiserror::Error;

/// Why a stream gives no more snapshots.
#[derive(Clone, Copy, Debug, PartialEq, Eq, Error)]
pub enum FrameFault {
    #[error("out of memory")]
    WantOfMemory,
    #[error("a length that no frame has")]
    Length,
    #[error("a number that is not above the last one")]
    NotRising,
    #[error("a document that is refused")]
    Document,
    #[error("the stream had a fault before")]
    Failed,
}

impl FrameFault {
    /// The number that a refusal is printed with, from 0 for want of memory.
    pub fn number(&self) -> u32
        ensures { result ≡ number_of self.now }
    {
        match self {
            FrameFault::WantOfMemory => 0,
            FrameFault::Length => 1,
            FrameFault::NotRising => 2,
            FrameFault::Document => 3,
            FrameFault::Failed => 4,
        }
    }

    /// The name that a refusal is printed with: the variant's.
    pub fn name(&self) -> &'static str
        ensures { result.now ≡ name_of self.now }
    {
        match self {
            FrameFault::WantOfMemory => "WantOfMemory",
            FrameFault::Length => "Length",
            FrameFault::NotRising => "NotRising",
            FrameFault::Document => "Document",
            FrameFault::Failed => "Failed",
        }
    }
}

impl From<AllocError> for FrameFault {
    ghost from_gives = { λ _ e. e ≡ WantOfMemory };

    fn from(_e: AllocError) -> FrameFault {
        FrameFault::WantOfMemory
    }
}

impl<T: Drop> From<AllocFailed<T>> for FrameFault {
    ghost from_gives = { λ _ e. e ≡ WantOfMemory };

    fn from(_e: AllocFailed<T>) -> FrameFault {
        FrameFault::WantOfMemory
    }
}
