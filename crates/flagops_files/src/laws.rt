//! What the definitions amount to.
ghost use Rattle.flagops_files.specs.Law.{BooksMayBegin, FilesAreReadWhole, OthersAreNoRecords, TalliesMayBegin};

/// The first piece of a book, and of what begins as a tally, may begin a record; and where it may not, neither the file nor the
/// piece alone is a book or a tally, and both are refused for their first line. A law: it computes nothing.
pub fn records_are_told_by_their_first_piece()
    ensures books { BooksMayBegin }
    ensures tallies { TalliesMayBegin }
    ensures others { OthersAreNoRecords }
{}

/// The book of a file, and what it records, are those of all its bytes, though no more than the first piece is read of a file
/// that is neither a book nor a tally. A law: it computes nothing.
pub fn files_are_read_whole()
    ensures { FilesAreReadWhole }
{}
