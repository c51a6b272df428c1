ghost use Rattle.std.specs.Prelude.{◌≡◌};
ghost use Rattle.book_core.specs.declared.fault.BookFault.TheVariants.{WantOfMemory};
ghost use Rattle.book_core.specs.declared.fault.BookFileFault.TheVariants.{WantOfMemory as FileWantOfMemory};
ghost use Rattle.book_core.specs.Fault.{number_of, name_of, file_number_of, file_name_of};

use std::alloc::{AllocError, AllocFailed};
use thiserror::Error;

/// Why a book does not take an input, in the order of the numbers unless a call says another.
#[derive(Clone, Copy, Debug, PartialEq, Eq, Error)]
pub enum BookFault {
    /// Out of memory; may occur at any point.
    #[error("out of memory")]
    WantOfMemory,
    /// The page has 1000000 inputs, and this one is not among them.
    #[error("the page has 1000000 inputs")]
    PageFull,
    /// The input has more than 1024 bytes; this is looked at first.
    #[error("the input has more than 1024 bytes")]
    InputTooLong,
    /// The seat has made as many calls as it can count; only a shared book answers this.
    #[error("the seat has made its last call")]
    LastCall,
    /// There is no seat of this number; only a book with numbered seats answers this.
    #[error("no such seat")]
    Stranger,
}

/// Why a file is no book, with the number of the line at fault, from 1.
#[derive(Clone, Copy, Debug, PartialEq, Eq, Error)]
pub enum BookFileFault {
    /// Out of memory; may occur at any point.
    #[error("out of memory")]
    WantOfMemory,
    /// The first line is not the JSON value `{"book":1}`.
    #[error("the first line is not that of a book")]
    Header,
    /// A line is neither a page nor an input, or has no line feed; an input stands before a page; a page has no
    /// inputs. Of the faults of one line this comes first.
    #[error("line {0} is neither a page with inputs nor an input")]
    Line(u64),
    /// A page does not come after the one before, or an input is not above those before it on its page.
    #[error("line {0} does not come after the one before in the order of pages and inputs")]
    Order(u64),
    /// An input has more than 1024 bytes; of the faults of one line this comes before Order.
    #[error("the input on line {0} has more than 1024 bytes")]
    InputTooLong(u64),
    /// The page has 1000000 inputs before this one; of the faults of one line this comes last.
    #[error("the page has 1000000 inputs before line {0}")]
    PageFull(u64),
}

impl BookFault {
    /// The number that a refusal is printed with, from 0 for want of memory.
    pub fn number(&self) -> u32
        ensures { result ≡ number_of self.now }
    {
        match self {
            BookFault::WantOfMemory => 0,
            BookFault::PageFull => 1,
            BookFault::InputTooLong => 2,
            BookFault::LastCall => 3,
            BookFault::Stranger => 4,
        }
    }

    /// The name that a refusal is printed with: the variant's.
    pub fn name(&self) -> &'static str
        ensures { result.now ≡ name_of self.now }
    {
        match self {
            BookFault::WantOfMemory => "WantOfMemory",
            BookFault::PageFull => "PageFull",
            BookFault::InputTooLong => "InputTooLong",
            BookFault::LastCall => "LastCall",
            BookFault::Stranger => "Stranger",
        }
    }
}

impl BookFileFault {
    /// The number that a refusal is printed with, from 0 for want of memory.
    pub fn number(&self) -> u32
        ensures { result ≡ file_number_of self.now }
    {
        match self {
            BookFileFault::WantOfMemory => 0,
            BookFileFault::Header => 1,
            BookFileFault::Line(_) => 2,
            BookFileFault::Order(_) => 3,
            BookFileFault::InputTooLong(_) => 4,
            BookFileFault::PageFull(_) => 5,
        }
    }

    /// The name that a refusal is printed with: the variant's.
    pub fn name(&self) -> &'static str
        ensures { result.now ≡ file_name_of self.now }
    {
        match self {
            BookFileFault::WantOfMemory => "WantOfMemory",
            BookFileFault::Header => "Header",
            BookFileFault::Line(_) => "Line",
            BookFileFault::Order(_) => "Order",
            BookFileFault::InputTooLong(_) => "InputTooLong",
            BookFileFault::PageFull(_) => "PageFull",
        }
    }
}

impl From<AllocError> for BookFault {
    ghost from_gives = { λ _ e. e ≡ WantOfMemory };

    fn from(_e: AllocError) -> BookFault {
        BookFault::WantOfMemory
    }
}

impl<T: Drop> From<AllocFailed<T>> for BookFault {
    ghost from_gives = { λ _ e. e ≡ WantOfMemory };

    fn from(_e: AllocFailed<T>) -> BookFault {
        BookFault::WantOfMemory
    }
}

impl From<AllocError> for BookFileFault {
    ghost from_gives = { λ _ e. e ≡ FileWantOfMemory };

    fn from(_e: AllocError) -> BookFileFault {
        BookFileFault::WantOfMemory
    }
}

impl<T: Drop> From<AllocFailed<T>> for BookFileFault {
    ghost from_gives = { λ _ e. e ≡ FileWantOfMemory };

    fn from(_e: AllocFailed<T>) -> BookFileFault {
        BookFileFault::WantOfMemory
    }
}
