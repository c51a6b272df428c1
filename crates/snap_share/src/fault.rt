//! Why a snapshot is not shared, published or read.
ghost use Rattle.std.specs.Prelude.{◌≡◌};
ghost use Rattle.snap_share.specs.declared.fault.ShareFault.TheVariants.{WantOfMemory};
ghost use Rattle.snap_share.specs.Fault.{number_of, name_of};

use std::alloc::{AllocError, AllocFailed};
use thiserror::Error;

/// Why a call on shared snapshots was refused.
#[derive(Clone, Copy, Debug, PartialEq, Eq, Error)]
pub enum ShareFault {
    #[error("out of memory")]
    WantOfMemory,
    #[error("no seats")]
    NoSeats,
    #[error("more than 64 seats")]
    TooManySeats,
    #[error("no place for a reader")]
    NoReader,
    #[error("no number is left")]
    LastNumber,
    #[error("the publisher was given up")]
    Closed,
}

impl ShareFault {
    /// The number that a refusal is printed with, from 0 for want of memory.
    pub fn number(&self) -> u32
        ensures { result ≡ number_of self.now }
    {
        match self {
            ShareFault::WantOfMemory => 0,
            ShareFault::NoSeats => 1,
            ShareFault::TooManySeats => 2,
            ShareFault::NoReader => 3,
            ShareFault::LastNumber => 4,
            ShareFault::Closed => 5,
        }
    }

    /// The name that a refusal is printed with: the variant's.
    pub fn name(&self) -> &'static str
        ensures { result.now ≡ name_of self.now }
    {
        match self {
            ShareFault::WantOfMemory => "WantOfMemory",
            ShareFault::NoSeats => "NoSeats",
            ShareFault::TooManySeats => "TooManySeats",
            ShareFault::NoReader => "NoReader",
            ShareFault::LastNumber => "LastNumber",
            ShareFault::Closed => "Closed",
        }
    }
}

impl From<AllocError> for ShareFault {
    ghost from_gives = { λ _ e. e ≡ WantOfMemory };

    fn from(_e: AllocError) -> ShareFault {
        ShareFault::WantOfMemory
    }
}

impl<T: Drop> From<AllocFailed<T>> for ShareFault {
    ghost from_gives = { λ _ e. e ≡ WantOfMemory };

    fn from(_e: AllocFailed<T>) -> ShareFault {
        ShareFault::WantOfMemory
    }
}
