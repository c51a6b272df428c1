//! The lines of a book file, one at a time.
ghost use Rattle.std.specs.Prelude.{◌≡◌, ◌+◌, ◌<◌, ◌≤◌, ◌^◌, true, [], ◌∷◌, length, MatchOption, IfSome, IfOk, IfErr};
ghost use Rattle.std.specs.Ordering.{is_lt};
ghost use Rattle.book_core.specs.Book.{most_bytes};
ghost use Rattle.book_core.specs.Page.{bytes_cmp};
ghost use Rattle.book_core.specs.Reading.{adds, lines_of};
ghost use Rattle.page_tally.specs.Lines.{line_view};

use crate::input::is_below;
use crate::line::{Line, read_line};
use crate::plain::short_line;
use book_core::{BookFileFault, cut_line};
use limits::INPUT_BYTES;
use std::alloc::Global;

/// The bytes that are left of a file, and the number of lines that were taken before them.
#[derive(Drop)]
pub(crate) struct Lines<'a> {
    pub(crate) rest: &'a [u8],
    pub(crate) taken: u64,
    ghost counted: { taken + length rest.now < 2 ^ 64 },
}

impl<'a> Lines<'a> {
    /// Takes the next line, where there is one.
    pub(crate) fn take(&mut self, alloc: Global) -> Result<Option<Line<'a>>, BookFileFault>
        ensures next { IfOk result (λ r. MatchOption r (lines_of self.old.rest.now ≡ [])
            (λ line. lines_of self.old.rest.now ≡ line_view line ∷ lines_of self.new.rest.now)) }
        ensures number { IfOk result (λ r. MatchOption r (self.new ≡ self.old)
            (λ line. self.new.taken ≡ self.old.taken + 1)) }
        ensures shorter { IfOk result (λ r. MatchOption r (self.new ≡ self.old)
            (λ line. length self.new.rest.now < length self.old.rest.now)) }
        ensures want { IfErr result (λ e. e ≡ BookFileFault.WantOfMemory) }
    {
        let bytes = self.rest;
        if bytes.is_empty() {
            return Ok(None);
        }
        self.taken += 1;
        match cut_line(bytes) {
            Some((line, rest)) => {
                self.rest = rest;
                Ok(Some(read_line(alloc, line)?))
            }
            None => {
                self.rest = &bytes[bytes.len()..];
                Ok(Some(Line::Other))
            }
        }
    }

    /// Takes the next line where it is plain ASCII and its input is above this one and not too long. Else it takes
    /// none, which says nothing of the line. It takes no memory.
    pub(crate) fn take_above(&mut self, last: &[u8]) -> Option<&'a [u8]>
        ensures line { MatchOption result (self.new ≡ self.old) (λ input. lines_of self.old.rest.now ≡ adds input.now ∷ lines_of self.new.rest.now) }
        ensures above { IfSome result (λ input. is_lt (bytes_cmp last.now input.now) ≡ true) }
        ensures short { IfSome result (λ input. length input.now ≤ most_bytes) }
        ensures number { IfSome result (λ input. self.new.taken ≡ self.old.taken + 1) }
        ensures shorter { IfSome result (λ input. length self.new.rest.now < length self.old.rest.now) }
    {
        let (input, rest) = short_line(self.rest)?;
        if !is_below(last, input) {
            return None;
        }
        self.rest = rest;
        self.taken += 1;
        Some(input)
    }
}
