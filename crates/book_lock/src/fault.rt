ghost use Rattle.std.specs.Prelude.{◌≡◌};
ghost use Rattle.book_lock.specs.declared.fault.SealFault.TheVariants.{WantOfMemory as SealWantOfMemory};
ghost use Rattle.book_lock.specs.declared.fault.SeatsFault.TheVariants.{WantOfMemory};
ghost use Rattle.book_lock.specs.Limits.{name_of, number_of, seal_name_of, seal_number_of};

use std::alloc::{AllocError, AllocFailed};
use thiserror::Error;

/// Why there are no blanks for so many seats.
#[derive(Clone, Copy, Debug, PartialEq, Eq, Error)]
pub enum SeatsFault {
    /// Out of memory; may occur at any point.
    #[error("out of memory")]
    WantOfMemory,
    /// A book has a seat at least.
    #[error("a book has a seat at least")]
    NoSeats,
    /// A book has at most 64 seats.
    #[error("a book has at most 64 seats")]
    TooManySeats,
}

/// Why a shared book was not sealed, or a page not frozen.
#[derive(Clone, Copy, Debug, PartialEq, Eq, Error)]
pub enum SealFault {
    /// Out of memory; may occur at any point of a freeze, never in a seal.
    #[error("out of memory")]
    WantOfMemory,
    /// Not all seats of the book were handed back.
    #[error("a seat of the book is missing")]
    SeatMissing,
}

impl SeatsFault {
    /// The number that a refusal is printed with, from 0 for want of memory.
    pub fn number(&self) -> u32
        ensures { result ≡ number_of self.now }
    {
        match self {
            SeatsFault::WantOfMemory => 0,
            SeatsFault::NoSeats => 1,
            SeatsFault::TooManySeats => 2,
        }
    }

    /// The name that a refusal is printed with: the variant's.
    pub fn name(&self) -> &'static str
        ensures { result.now ≡ name_of self.now }
    {
        match self {
            SeatsFault::WantOfMemory => "WantOfMemory",
            SeatsFault::NoSeats => "NoSeats",
            SeatsFault::TooManySeats => "TooManySeats",
        }
    }
}

impl From<AllocError> for SeatsFault {
    ghost from_gives = { λ _ e. e ≡ WantOfMemory };

    fn from(_e: AllocError) -> SeatsFault {
        SeatsFault::WantOfMemory
    }
}

impl<T: Drop> From<AllocFailed<T>> for SeatsFault {
    ghost from_gives = { λ _ e. e ≡ WantOfMemory };

    fn from(_e: AllocFailed<T>) -> SeatsFault {
        SeatsFault::WantOfMemory
    }
}

impl SealFault {
    /// The number that a refusal is printed with, from 0 for want of memory.
    pub fn number(&self) -> u32
        ensures { result ≡ seal_number_of self.now }
    {
        match self {
            SealFault::WantOfMemory => 0,
            SealFault::SeatMissing => 1,
        }
    }

    /// The name that a refusal is printed with: the variant's.
    pub fn name(&self) -> &'static str
        ensures { result.now ≡ seal_name_of self.now }
    {
        match self {
            SealFault::WantOfMemory => "WantOfMemory",
            SealFault::SeatMissing => "SeatMissing",
        }
    }
}

impl From<AllocError> for SealFault {
    ghost from_gives = { λ _ e. e ≡ SealWantOfMemory };

    fn from(_e: AllocError) -> SealFault {
        SealFault::WantOfMemory
    }
}
