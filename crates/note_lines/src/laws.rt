//! What the definition of a note line amounts to.
ghost use Rattle.std.specs.Prelude.{◌≡◌};
ghost use Rattle.note_lines.specs.Law.{EachHasItsLine, NoLineIsOfBoth};
ghost use Rattle.note_lines.specs.Note.{Noted, IsNote, note_line};

/// The lines of different notes differ.
pub fn each_note_has_its_line()
    ensures { (one other : Noted) → IsNote one → IsNote other → note_line one ≡ note_line other → one ≡ other }
{}

/// The lines of different notes without inputs differ.
pub fn each_hashed_note_has_its_line()
    ensures { EachHasItsLine }
{}

/// No line is that of a note and that of one without its input.
pub fn no_line_is_of_both()
    ensures { NoLineIsOfBoth }
{}
