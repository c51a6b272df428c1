//! What the definition of a tally amounts to.
ghost use Rattle.std.specs.Prelude.{◌≡◌, ◌<◌, ℕ, List, Ok};
ghost use Rattle.book_core.specs.Page.{PageName};
ghost use Rattle.note_lines.specs.Hashed.{Hashed};
ghost use Rattle.note_lines.specs.Note.{Noted};
ghost use Rattle.note_tallies.specs.Law.{with_hashes, with_notes, BookPagesAreTallied, IsTallyOfHashedNotes, IsTallyOfNotes, SortedNotesAreTallied, TalliedAreOfOneKind};
ghost use Rattle.note_tallies.specs.Lines.{Tallied, untallied};

use crate::a_tally_is_in_any_order;

/// Where no line was refused, the lines rise strictly, so each input of the page was there once, and what was tallied is
/// how many of them there are and how many on each point.
pub fn a_tally_is_of_its_lines()
    ensures { (page : PageName) (total : ℕ) (notes : List Noted) (tally : Tallied) → 0 < total → with_notes (Ok (untallied page total)) notes ≡ Ok tally → IsTallyOfNotes page notes tally }
{}

/// The same of notes without inputs: what was tallied is how many different hashes there are and how many on each point.
pub fn a_tally_is_of_its_hashes()
    ensures { (page : PageName) (total : ℕ) (notes : List Hashed) (tally : Tallied) → 0 < total → with_hashes (Ok (untallied page total)) notes ≡ Ok tally → IsTallyOfHashedNotes page notes tally }
{}

/// Where no line was refused, all have inputs or all have hashes.
pub fn tallied_lines_are_of_one_kind()
    ensures { TalliedAreOfOneKind }
{}

/// Notes whose lines rise strictly are tallied as the inputs of their page, in whatever order these are given, where they are
/// no more than 67,108,864.
pub fn sorted_notes_are_tallied()
    ensures { SortedNotesAreTallied }
{
    a_tally_is_in_any_order();
}

/// The lines of a page of a book can be sorted, and are then tallied as the inputs of the book, which have an order of their
/// own: the input `anna` stands before `anna b`, the line of `anna b` before that of `anna`.
pub fn a_book_page_is_tallied()
    ensures { BookPagesAreTallied }
{
    a_tally_is_in_any_order();
}
