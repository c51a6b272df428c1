ghost use Rattle.std.specs.Prelude.{◌≡◌};
ghost use Rattle.book_share.specs.declared.drive_fault.DriveFault.TheVariants.{WantOfMemory};
ghost use Rattle.flagops_drive.specs.Fault.{name_of, number_of, of_union};
ghost use Rattle.flagops_drive.specs.declared.fault.DriveRefusal.TheVariants.{Drive};

use book_core::BookFault;
use book_share::DriveFault;
use std::alloc::{AllocError, AllocFailed};
use thiserror::Error;

/// Why the command `drive` refuses what it read. BadAsks comes first, PageFull last.
#[derive(Clone, Copy, Debug, PartialEq, Eq, Error)]
pub enum DriveRefusal {
    /// The asks were not driven, or memory ran out.
    #[error("the asks were not driven: {0}")]
    Drive(DriveFault),
    /// The file is no list of asks.
    #[error("the file is no list of asks")]
    BadAsks,
    /// A page of the book that was there before would have more than 1000000 inputs.
    #[error("a page of the book would have more than 1000000 inputs")]
    PageFull,
}

impl DriveRefusal {
    /// The number that a refusal is printed with, from 0 for want of memory.
    pub fn number(&self) -> u32
        ensures { result ≡ number_of self.now }
    {
        match self {
            DriveRefusal::Drive(fault) => fault.number(),
            DriveRefusal::BadAsks => 5,
            DriveRefusal::PageFull => 6,
        }
    }

    /// The name that a refusal is printed with: the variant's.
    pub fn name(&self) -> &'static str
        ensures { result.now ≡ name_of self.now }
    {
        match self {
            DriveRefusal::Drive(fault) => fault.name(),
            DriveRefusal::BadAsks => "BadAsks",
            DriveRefusal::PageFull => "PageFull",
        }
    }
}

impl From<AllocError> for DriveRefusal {
    ghost from_gives = { λ _ e. e ≡ Drive WantOfMemory };

    fn from(_e: AllocError) -> DriveRefusal {
        DriveRefusal::Drive(DriveFault::WantOfMemory)
    }
}

impl<T: Drop> From<AllocFailed<T>> for DriveRefusal {
    ghost from_gives = { λ _ e. e ≡ Drive WantOfMemory };

    fn from(_e: AllocFailed<T>) -> DriveRefusal {
        DriveRefusal::Drive(DriveFault::WantOfMemory)
    }
}

impl From<BookFault> for DriveRefusal {
    ghost from_gives = { λ f e. e ≡ of_union f };

    fn from(fault: BookFault) -> DriveRefusal {
        match fault {
            BookFault::WantOfMemory => DriveRefusal::Drive(DriveFault::WantOfMemory),
            _ => DriveRefusal::PageFull,
        }
    }
}
