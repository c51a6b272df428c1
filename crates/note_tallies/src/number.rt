//! Numbers in their shortest spelling.
ghost use Rattle.std.specs.Prelude.{◌≡◌, ◌≢◌, ◌<◌, ◌^◌, ◌++◌, ◌∷◌, ◌⊎◌, ◌==◌, ℕ, List, MatchOption, IfSome};
ghost use Rattle.std.specs.Fmt.{decimal};
ghost use Rattle.std.specs.List.{position};
ghost use Rattle.note_tallies.specs.Point.{is_shortest};

use std::str;

/// The number that the bytes begin with, up to a byte that is no digit, and the bytes after that one.
pub(crate) fn number(bytes: &[u8], stop: u8) -> Option<(u32, &[u8])>
    requires { (stop < 48) ⊎ (57 < stop) }
    ensures number { MatchOption result
        ((n : ℕ) (rest : List ℕ) → n < 2 ^ 32 → bytes.now ≢ decimal n ++ stop ∷ rest)
        (λ r. bytes.now ≡ decimal r.0 ++ stop ∷ r.1.now) }
    ensures small { IfSome result (λ r. r.0 < 2 ^ 32) }
{
    let at = position_of(bytes, stop)?;
    let n = whole(&bytes[..at])?;
    Some((n, &bytes[at + 1..]))
}

fn position_of(bytes: &[u8], stop: u8) -> Option<usize>
    ensures { result ≡ position (λ b. b == stop) bytes.now }
{
    bytes.iter().position(|b| *b == stop)
}

/// The number whose digits these are.
fn whole(digits: &[u8]) -> Option<u32>
    ensures number { MatchOption result ((n : ℕ) → n < 2 ^ 32 → digits.now ≢ decimal n) (λ n. digits.now ≡ decimal n) }
    ensures small { IfSome result (λ n. n < 2 ^ 32) }
{
    if !is_shortest(digits) {
        return None;
    }
    let Ok(text) = str::from_utf8(digits) else {
        return None;
    };
    match text.parse::<u32>() {
        Ok(n) => Some(n),
        Err(_) => None,
    }
}

/// Whether there is one byte, or the first one is a digit above zero.
fn is_shortest(digits: &[u8]) -> bool
    ensures { result ≡ is_shortest digits.now }
{
    match digits {
        [_] => true,
        [b'1'..=b'9', ..] => true,
        _ => false,
    }
}
