//! How a file begins.
ghost use Rattle.std.specs.Prelude.{◌≡◌};
ghost use Rattle.note_lines.specs.Blank.{begins_book};

use crate::blank::is_white;

/// Whether bytes begin as the file of a book does, and as no note line does: with an object of JSON, perhaps behind blanks.
pub fn begins_book(bytes: &[u8]) -> bool
    ensures { result ≡ begins_book bytes.now }
{
    for byte in bytes {
        if !is_white(*byte) {
            return *byte == b'{';
        }
    }
    false
}
