//! From a line to its point.
ghost use Rattle.std.specs.Prelude.{◌≡◌, ◌≢◌, ◌++◌, ◌∷◌, ◌<◌, ℕ, List, length, MatchOption, IfSome};
ghost use Rattle.note_tallies.specs.Point.{IsPointCount, point_line};
ghost use Rattle.note_tallies.specs.declared.point.PointCount.{PointCount};

use crate::number::number;
use crate::point::PointCount;

/// The point whose line the bytes begin with, and the bytes after that line: none where they begin with no such line, as
/// where a blank stands in it, a number has a sign or a zero in front, or is 2^32 or more. It takes no memory.
pub fn take_point(bytes: &[u8]) -> Option<(PointCount, &[u8])>
    ensures line { MatchOption result
        ((e : PointCount) (rest : List ℕ) → IsPointCount e → bytes.now ≢ point_line e ++ rest)
        (λ r. bytes.now ≡ point_line r.0 ++ r.1.now) }
    ensures numbers { IfSome result (λ r. IsPointCount r.0) }
    ensures shorter { IfSome result (λ r. length r.1.now < length bytes.now) }
{
    let rest = after(bytes, b'[')?;
    let (point, rest) = number(rest, b',')?;
    let (inputs, rest) = number(rest, b']')?;
    let rest = after(rest, b'\n')?;
    Some((PointCount { point, inputs }, rest))
}

/// The bytes after this one.
fn after(bytes: &[u8], byte: u8) -> Option<&[u8]>
    ensures { MatchOption result ((rest : List ℕ) → bytes.now ≢ byte ∷ rest) (λ rest. bytes.now ≡ byte ∷ rest.now) }
{
    match bytes {
        [first, rest @ ..] if *first == byte => Some(rest),
        _ => None,
    }
}
