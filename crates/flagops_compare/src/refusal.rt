//! Why `compare` refuses.
ghost use Rattle.std.specs.Prelude.{◌≡◌};
ghost use Rattle.flagops_compare.specs.FileLines.{file_line};
ghost use Rattle.flagops_compare.specs.Refusal.{is_unread, is_want, line_of};
ghost use Rattle.flagops_compare.specs.declared.refusal.CompareRefusal.TheVariants.{Load};

use flagops_files::{Refusal, fault_line};
use flagops_shell::CommandRefusal;
use std::alloc::{AllocError, Global};

/// Why `compare` refuses.
#[derive(Debug, Drop)]
pub enum CompareRefusal {
    /// Memory ran out.
    WantOfMemory,
    /// A file is refused as every other command refuses it.
    Load(Refusal),
    /// The total of a rule does not divide the number of points of the tally.
    OtherTally,
}

impl From<Refusal> for CompareRefusal {
    ghost from_gives = { λ r e. e ≡ Load r };

    fn from(refusal: Refusal) -> CompareRefusal {
        CompareRefusal::Load(refusal)
    }
}

impl CommandRefusal for CompareRefusal {
    ghost is_want = { is_want };

    ghost is_unread = { is_unread };

    ghost line_of = { line_of };

    fn is_want(&self) -> bool {
        match self {
            CompareRefusal::WantOfMemory => true,
            CompareRefusal::Load(refusal) => refusal.is_want(),
            CompareRefusal::OtherTally => false,
        }
    }

    fn line(&self, alloc: Global) -> Result<String, AllocError> {
        match self {
            CompareRefusal::WantOfMemory => fault_line(alloc, "compare", 0, "WantOfMemory", ""),
            CompareRefusal::Load(refusal) => refusal.line(alloc),
            CompareRefusal::OtherTally => fault_line(alloc, "compare", 1, "OtherTally", ""),
        }
    }

    ghost unread_lines = { file_line };
}
