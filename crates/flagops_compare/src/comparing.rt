//! What the edit does to what was recorded.
ghost use Rattle.std.specs.Prelude.{◌≡◌, option_copied};
ghost use Rattle.flag_defs.specs.Flags.{flags_view};
ghost use Rattle.flagops_compare.specs.Compared.{IsComparedBy};
ghost use Rattle.rule_switches.specs.Tallied.{ComparesTally};

use flagops_files::Evidence;
use rule_switches::{Comparison, Edit, TallyFault, compare_book, compare_tally};
use std::alloc::Global;

/// What an edit does on each page of a book that is asked for, or on that of a tally.
pub(crate) fn compared(
    alloc: Global,
    edit: Edit<'_>,
    only: Option<&str>,
    evidence: &Evidence,
) -> Result<Comparison, TallyFault>
    ensures { ComparesTally (IsComparedBy (flags_view edit.entry.old.now) (flags_view edit.entry.new.now) (option_copied only.entry) evidence.now) result }
{
    match evidence {
        Evidence::Book(book) => Ok(compare_book(alloc, edit, only, book)?),
        Evidence::Tally(tally) => compare_tally(alloc, edit, only, tally),
    }
}
