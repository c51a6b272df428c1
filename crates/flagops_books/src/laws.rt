//! What the definitions amount to.
ghost use Rattle.flagops_books.specs.Law.{UnitesFiles};

/// The book that `book` writes is the union of the notes of its files.
pub fn a_book_is_the_union_of_its_files()
    ensures { UnitesFiles }
{}
