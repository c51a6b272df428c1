//! Texts that stand for themselves between two quotes.
ghost use Rattle.std.specs.Prelude.{◌≡◌, ℕ, List, length, Ok, IfSome, MatchOption};
ghost use Rattle.std.specs.List.{list_all};
ghost use Rattle.flag_text.specs.Plain.{is_plain, IsQuoted, StandsBetween};
ghost use Rattle.flag_text.specs.Reading.{tree_of};
ghost use Rattle.flag_text.specs.Shape.{text};

use std::str;

/// The text that the bytes stand for, where they are a quoted text without an escape and nothing stands around it. `None`
/// says no more of them: their reading as a tree decides. Cost: a pass over the bytes, and no memory.
pub fn plain_text(bytes: &[u8]) -> Option<&str>
    ensures quoted { MatchOption result ((s : List ℕ) → ¬ (IsQuoted bytes.now s)) (λ s. IsQuoted bytes.now s.now) }
    ensures reads { IfSome result (λ s. tree_of bytes.now (length bytes.now) ≡ Ok (text s.now)) }
{
    let inner = unquoted(bytes)?;
    if !is_all_plain(inner) {
        return None;
    }
    match str::from_utf8(inner) {
        Ok(text) => Some(text),
        Err(_) => None,
    }
}

/// What stands between two quotes.
fn unquoted(bytes: &[u8]) -> Option<&[u8]>
    ensures { MatchOption result ((s : List ℕ) → ¬ (StandsBetween bytes.now s)) (λ inner. StandsBetween bytes.now inner.now) }
{
    match bytes {
        [b'"', inner @ .., b'"'] => Some(inner),
        _ => None,
    }
}

/// Whether each byte stands for itself in a quoted text.
pub(crate) fn is_all_plain(bytes: &[u8]) -> bool
    ensures { result ≡ list_all is_plain bytes.now }
{
    bytes
        .iter()
        .all(|b| *b >= b' ' && *b != b'"' && *b != b'\\')
}
