ghost use Rattle.std.specs.Prelude.{◌≡◌};
ghost use Rattle.snap_core.specs.declared.fault.HubFault.TheVariants.{WantOfMemory};
ghost use Rattle.snap_core.specs.declared.fault.WorldFault.TheVariants.{WantOfMemory as WorldWantOfMemory};
ghost use Rattle.snap_core.specs.Fault.{number_of, name_of, world_number_of, world_name_of};

use std::alloc::{AllocError, AllocFailed};
use thiserror::Error;

/// Why a hub refuses a call, in the order of the numbers.
#[derive(Clone, Copy, Debug, PartialEq, Eq, Error)]
pub enum HubFault {
    /// Out of memory; may occur at any point.
    #[error("out of memory")]
    WantOfMemory,
    /// The current snapshot has the number 2^64-1.
    #[error("the last number is taken")]
    LastNumber,
    /// There are 256 subscribers, or each id has been given.
    #[error("there are too many subscribers")]
    TooManySubs,
    /// The id is no subscriber's.
    #[error("there is no such subscriber")]
    NoSub,
}

/// Why there is no world of these sources and seats, in the order of the numbers.
#[derive(Clone, Copy, Debug, PartialEq, Eq, Error)]
pub enum WorldFault {
    /// Out of memory; may occur at any point.
    #[error("out of memory")]
    WantOfMemory,
    /// A source is named twice.
    #[error("a source is named twice")]
    Known,
    /// There are more than 16 sources.
    #[error("there are more than 16 sources")]
    TooMany,
    /// There is no seat.
    #[error("there is no seat")]
    NoSeats,
    /// There are more than 64 seats.
    #[error("there are more than 64 seats")]
    TooManySeats,
}

impl HubFault {
    /// The number that a refusal is printed with, from 0 for want of memory.
    pub fn number(&self) -> u32
        ensures { result ≡ number_of self.now }
    {
        match self {
            HubFault::WantOfMemory => 0,
            HubFault::LastNumber => 1,
            HubFault::TooManySubs => 2,
            HubFault::NoSub => 3,
        }
    }

    /// The name that a refusal is printed with: the variant's.
    pub fn name(&self) -> &'static str
        ensures { result.now ≡ name_of self.now }
    {
        match self {
            HubFault::WantOfMemory => "WantOfMemory",
            HubFault::LastNumber => "LastNumber",
            HubFault::TooManySubs => "TooManySubs",
            HubFault::NoSub => "NoSub",
        }
    }
}

impl WorldFault {
    /// The number that a refusal is printed with, from 0 for want of memory.
    pub fn number(&self) -> u32
        ensures { result ≡ world_number_of self.now }
    {
        match self {
            WorldFault::WantOfMemory => 0,
            WorldFault::Known => 1,
            WorldFault::TooMany => 2,
            WorldFault::NoSeats => 3,
            WorldFault::TooManySeats => 4,
        }
    }

    /// The name that a refusal is printed with: the variant's.
    pub fn name(&self) -> &'static str
        ensures { result.now ≡ world_name_of self.now }
    {
        match self {
            WorldFault::WantOfMemory => "WantOfMemory",
            WorldFault::Known => "Known",
            WorldFault::TooMany => "TooMany",
            WorldFault::NoSeats => "NoSeats",
            WorldFault::TooManySeats => "TooManySeats",
        }
    }
}

impl From<AllocError> for HubFault {
    ghost from_gives = { λ _ e. e ≡ WantOfMemory };

    fn from(_e: AllocError) -> HubFault {
        HubFault::WantOfMemory
    }
}

impl<T: Drop> From<AllocFailed<T>> for HubFault {
    ghost from_gives = { λ _ e. e ≡ WantOfMemory };

    fn from(_e: AllocFailed<T>) -> HubFault {
        HubFault::WantOfMemory
    }
}

impl From<AllocError> for WorldFault {
    ghost from_gives = { λ _ e. e ≡ WorldWantOfMemory };

    fn from(_e: AllocError) -> WorldFault {
        WorldFault::WantOfMemory
    }
}

impl<T: Drop> From<AllocFailed<T>> for WorldFault {
    ghost from_gives = { λ _ e. e ≡ WorldWantOfMemory };

    fn from(_e: AllocFailed<T>) -> WorldFault {
        WorldFault::WantOfMemory
    }
}
