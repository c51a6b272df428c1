ghost use Rattle.std.specs.Prelude.{◌≡◌};
ghost use Rattle.book_share.specs.declared.drive_fault.DriveFault.TheVariants.{WantOfMemory};
ghost use Rattle.book_share.specs.DriveFault.{name_of, number_of, workers_fault};

use limits::SEATS;
use std::alloc::{AllocError, AllocFailed};
use thiserror::Error;

/// Why asks were not driven, in the order of the numbers.
#[derive(Clone, Copy, Debug, PartialEq, Eq, Error)]
pub enum DriveFault {
    /// Out of memory; may occur at any point.
    #[error("out of memory")]
    WantOfMemory,
    /// There is a worker at least.
    #[error("there is a worker at least")]
    NoWorkers,
    /// There are at most 64 workers.
    #[error("there are at most 64 workers")]
    TooManyWorkers,
    /// The gate refused an ask 1000000 times.
    #[error("the gate did not let an ask start")]
    Stalled,
}

impl DriveFault {
    /// Why so many workers drive nothing, whatever is asked.
    pub fn of_workers(workers: usize) -> Option<DriveFault>
        ensures { result ≡ workers_fault workers }
    {
        if workers == 0 {
            Some(DriveFault::NoWorkers)
        } else if workers > SEATS {
            Some(DriveFault::TooManyWorkers)
        } else {
            None
        }
    }

    /// The number that a refusal is printed with, from 0 for want of memory.
    pub fn number(&self) -> u32
        ensures { result ≡ number_of self.now }
    {
        match self {
            DriveFault::WantOfMemory => 0,
            DriveFault::NoWorkers => 1,
            DriveFault::TooManyWorkers => 2,
            DriveFault::Stalled => 3,
        }
    }

    /// The name that a refusal is printed with: the variant's.
    pub fn name(&self) -> &'static str
        ensures { result.now ≡ name_of self.now }
    {
        match self {
            DriveFault::WantOfMemory => "WantOfMemory",
            DriveFault::NoWorkers => "NoWorkers",
            DriveFault::TooManyWorkers => "TooManyWorkers",
            DriveFault::Stalled => "Stalled",
        }
    }
}

impl From<AllocError> for DriveFault {
    ghost from_gives = { λ _ e. e ≡ WantOfMemory };

    fn from(_e: AllocError) -> DriveFault {
        DriveFault::WantOfMemory
    }
}

impl<T: Drop> From<AllocFailed<T>> for DriveFault {
    ghost from_gives = { λ _ e. e ≡ WantOfMemory };

    fn from(_e: AllocFailed<T>) -> DriveFault {
        DriveFault::WantOfMemory
    }
}
