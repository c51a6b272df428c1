//! What the definitions of a book amount to.
ghost use Rattle.std.specs.Prelude.{[]};
ghost use Rattle.book_core.specs.Calls.{NotesOneCall, Shows, ShowsItsCalls};

/// A book is its calls: the empty book shows no call, and where a book shows some calls, the answer to one more is the
/// one that comes after them, and the book then shows that call too; the calls from a book's making on leave a book. So whatever is noted, a book holds what was
/// accepted and nothing else, and each answer follows from the calls before it.
pub fn a_book_is_its_calls()
    ensures opening { Shows [] [] }
    ensures next { NotesOneCall }
    ensures whole { ShowsItsCalls }
{}
