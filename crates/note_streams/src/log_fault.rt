//! Why log files have no tally of a page.
ghost use Rattle.std.specs.Prelude.{◌≡◌};
ghost use Rattle.note_streams.specs.declared.log_fault.LogTallyFault.TheVariants.{WantOfMemory};

use std::alloc::AllocError;
use thiserror::Error;

/// Why log files have no tally of a page.
#[derive(Clone, Copy, Debug, PartialEq, Eq, Error)]
pub enum LogTallyFault {
    /// Memory ran out.
    #[error("out of memory")]
    WantOfMemory,
    /// A line is neither blank nor that of a note, with an input or without: the number of its file among those that were given, from 0, and that of the line
    /// in the file, from 1.
    #[error("line {1} of file {0} is that of no note")]
    Line(usize, u64),
    /// There are more than 67,108,864 inputs on a point, or than 8,589,934,592 in all.
    #[error("too many inputs")]
    TooMany,
    /// Some lines are those of notes with inputs, and some those of notes without.
    #[error("some notes have inputs and some have hashes")]
    Mixed,
}

impl From<AllocError> for LogTallyFault {
    ghost from_gives = { λ _ e. e ≡ WantOfMemory };

    fn from(_e: AllocError) -> LogTallyFault {
        LogTallyFault::WantOfMemory
    }
}
