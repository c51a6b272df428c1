//! The pages that begin on lines.
ghost use Rattle.std.specs.Prelude.{◌≡◌, ◌<◌, [], ◌∷◌, length, IfOk, IfSome, MatchOption};
ghost use Rattle.book_core.specs.Reading.{leading, lines_of, pages_in};

use crate::book_line::{Line, first_line};
use book_core::Page;
use std::alloc::{AllocError, Global};

/// The page that begins first, where one does, with the bytes behind its line.
pub fn next_page<'a>(alloc: Global, bytes: &'a [u8]) -> Result<Option<(Page, &'a [u8])>, AllocError>
    ensures next { IfOk result (λ r. MatchOption r (pages_in (lines_of bytes.now) ≡ [])
        (λ p. pages_in (lines_of bytes.now) ≡ (p.0, leading (lines_of p.1.now)) ∷ pages_in (lines_of p.1.now))) }
    ensures shorter { IfOk result (λ r. IfSome r (λ p. length p.1.now < length bytes.now)) }
{
    let mut rest = bytes;
    loop {
        let Some((line, behind)) = first_line(alloc, rest)? else {
            return Ok(None);
        };
        rest = behind;
        if let Line::Page(page) = line {
            return Ok(Some((page, rest)));
        }
    }
}
