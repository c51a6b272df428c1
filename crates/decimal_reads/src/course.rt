//! How an evaluation goes on after a part.
ghost use Rattle.std.specs.Prelude.{◌≡◌, None, option_map};
ghost use Rattle.decimal_reads.specs.Course.{course_view};
ghost use Rattle.decimal_reads.specs.Reads.{read_view, reading_or};

use crate::reading::DecimalRead;

/// Whether an evaluation goes on after a part of its expression.
#[derive(Drop)]
pub(crate) enum Course {
    /// The part gave a value, or is not evaluated.
    GoesOn,
    /// The evaluation ended in it: at this number that is not whole, or for another reason.
    Ends(Option<DecimalRead>),
}

impl Course {
    /// The number at which it ended, where nothing follows the part.
    pub(crate) fn reading(self) -> Option<DecimalRead>
        ensures { option_map read_view result ≡ reading_or (course_view self) None }
    {
        match self {
            Course::GoesOn => None,
            Course::Ends(reading) => reading,
        }
    }
}
