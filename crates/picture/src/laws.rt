//! What escaping is for.
ghost use Rattle.picture.specs.Escape.{EscapedAreData, EscapedReadBack};

/// An escaped text has no `<`, `>` or quote, and each `&` of it begins one of the five entities. A law: it computes nothing.
pub fn escaped_texts_are_data()
    ensures { EscapedAreData }
{}

/// An escaped text reads as the text, with U+FFFD for the characters that no document may have. A law: it computes nothing.
pub fn escaped_texts_read_back()
    ensures { EscapedReadBack }
{}
