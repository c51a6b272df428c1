//! The first line of some bytes.
ghost use Rattle.std.specs.Prelude.{◌≡◌, ◌≢◌, ◌++◌, ◌∷◌, ◌==◌, ℕ, List, MatchOption, IfSome};
ghost use Rattle.std.specs.List.{position};
ghost use Rattle.note_tallies.specs.Cut.{HasNoFeed};

/// The bytes before the first line feed, and those after it.
pub(crate) fn cut(bytes: &[u8]) -> Option<(&[u8], &[u8])>
    ensures parts { MatchOption result ((line : List ℕ) (rest : List ℕ) → bytes.now ≢ line ++ 10 ∷ rest) (λ r. bytes.now ≡ r.0.now ++ 10 ∷ r.1.now) }
    ensures line { IfSome result (λ r. HasNoFeed r.0.now) }
{
    let at = feed_at(bytes)?;
    Some((&bytes[..at], &bytes[at + 1..]))
}

/// Where the first line feed stands.
fn feed_at(bytes: &[u8]) -> Option<usize>
    ensures { result ≡ position (λ b. b == 10) bytes.now }
{
    bytes.iter().position(|b| *b == b'\n')
}
