//! What the definitions amount to.
ghost use Rattle.note_lines.specs.BookLaw.{BooksBegin, LinesBegin, NotesItsLines};

/// What is taken of a file that is not refused is what was noted before and the notes whose lines stand in it, and nothing else,
/// whatever their order and however often.
pub fn a_file_notes_its_lines()
    ensures { NotesItsLines }
{}

/// The file of a book begins as one, and a file that begins with a note line does not.
pub fn a_file_begins_as_it_is()
    ensures book { BooksBegin }
    ensures lines { LinesBegin }
{}
