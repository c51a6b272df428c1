//! Lines that need no reader of JSON.
ghost use Rattle.std.specs.Prelude.{◌≡◌, ◌+◌, ◌<◌, ◌≤◌, ◌++◌, [], ◌∷◌, length, drop, IfSome};
ghost use Rattle.book_core.specs.Book.{most_bytes};
ghost use Rattle.book_core.specs.Reading.{adds, lines_of};

use crate::ascii::plain_end;
use limits::INPUT_BYTES;

/// The input of the first line and the bytes after that line, where the line is a quoted text of ASCII without an
/// escape, no longer than an input may be. `None` says nothing of the line. Cost: a pass over the line, and no memory.
pub(crate) fn short_line(bytes: &[u8]) -> Option<(&[u8], &[u8])>
    ensures line { IfSome result (λ r. lines_of bytes.now ≡ adds r.0.now ∷ lines_of r.1.now) }
    ensures short { IfSome result (λ r. length r.0.now ≤ most_bytes) }
    ensures behind { IfSome result (λ r. r.1.now ≡ drop (length r.0.now + 3) bytes.now) }
    ensures shorter { IfSome result (λ r. length r.1.now < length bytes.now) }
{
    let (input, rest) = plain_line(bytes)?;
    if input.len() > INPUT_BYTES {
        return None;
    }
    Some((input, rest))
}

/// The same of a line that may be longer.
fn plain_line(bytes: &[u8]) -> Option<(&[u8], &[u8])>
    ensures line { IfSome result (λ r. lines_of bytes.now ≡ adds r.0.now ∷ lines_of r.1.now) }
    ensures behind { IfSome result (λ r. r.1.now ≡ drop (length r.0.now + 3) bytes.now) }
    ensures shorter { IfSome result (λ r. length r.1.now < length bytes.now) }
{
    let inner = quoted(bytes)?;
    let end = plain_end(inner);
    let rest = ended(&inner[end..])?;
    Some((&inner[..end], rest))
}

/// What stands behind a quote.
fn quoted(bytes: &[u8]) -> Option<&[u8]>
    ensures { IfSome result (λ inner. bytes.now ≡ 34 ∷ inner.now) }
{
    match bytes {
        [b'"', inner @ ..] => Some(inner),
        _ => None,
    }
}

/// What stands behind a quote and a line feed.
fn ended(bytes: &[u8]) -> Option<&[u8]>
    ensures { IfSome result (λ rest. bytes.now ≡ 34 ∷ 10 ∷ rest.now) }
{
    match bytes {
        [b'"', b'\n', rest @ ..] => Some(rest),
        _ => None,
    }
}
