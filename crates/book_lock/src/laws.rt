//! What the definitions of a shared book amount to.
ghost use Rattle.book_lock.specs.Told.{LegalHasFirstSightings, PageFullIsFull};

/// The New calls of a legal list are first sightings: no input is New twice on a page, a page has at most 1000000 of them,
/// and none is above 1024 bytes. A page that refuses an input after such a list has 1000000, and not that one.
pub fn a_legal_list_has_first_sightings()
    ensures legal { LegalHasFirstSightings }
    ensures full { PageFullIsFull }
{}
