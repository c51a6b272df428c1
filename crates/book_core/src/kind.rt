//! Of which kind a note's line is.
ghost use Rattle.std.specs.Prelude.{◌≡◌};
ghost use Rattle.book_core.specs.Hashed.{has_hash};

/// Whether a line is of the kind with a hash in the place of the input, where it is the line of a note at all. It takes no
/// memory.
pub fn has_hash(line: &[u8]) -> bool
    ensures { result ≡ has_hash line.now }
{
    !line.ends_with(b"\"]\n")
}
