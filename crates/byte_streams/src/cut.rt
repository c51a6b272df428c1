//! From the bytes of a batch to its lines.
ghost use Rattle.std.specs.Prelude.{◌≡◌, ◌++◌, ◌∷◌, ◌<◌, ◌≤◌, ◌+◌, length, IfOk, IfSome, MatchOption};
ghost use Rattle.std.specs.List.{position};
ghost use Rattle.byte_streams.specs.Lines.{HasNoFeed, IsCut, IsFirst, is_feed, lines_view};

use std::alloc::{AllocError, Global};

/// The lines that ended, without their line feeds, and the bytes behind the last of them.
pub fn cut_lines(alloc: Global, bytes: &[u8]) -> Result<(Vec<&[u8]>, &[u8]), AllocError>
    ensures cut { IfOk result (λ r. IsCut bytes.now (lines_view r.0.items) r.1.now) }
    ensures rest { IfOk result (λ r. HasNoFeed r.1.now) }
    ensures fewer { IfOk result (λ r. length r.0.items + length r.1.now ≤ length bytes.now) }
{
    let mut lines = Vec::new(alloc);
    let mut rest = bytes;
    'lines: while let Some((line, behind)) = cut(rest) {
        lines.push(line)?;
        rest = behind;
    }
    Ok((lines, rest))
}

/// The first line that ended, with its line feed, and the bytes behind it. It takes no memory.
pub fn cut_line(bytes: &[u8]) -> Option<(&[u8], &[u8])>
    ensures parts { MatchOption result (HasNoFeed bytes.now) (λ r. IsFirst bytes.now r.0.now r.1.now) }
    ensures fewer { IfSome result (λ r. length r.1.now < length bytes.now) }
{
    match feed_at(bytes) {
        None => None,
        Some(at) => Some((&bytes[..at + 1], &bytes[at + 1..])),
    }
}

/// The bytes before the first line feed, and those after it.
fn cut(bytes: &[u8]) -> Option<(&[u8], &[u8])>
    ensures parts { MatchOption result (HasNoFeed bytes.now) (λ r. bytes.now ≡ r.0.now ++ 10 ∷ r.1.now) }
    ensures line { IfSome result (λ r. HasNoFeed r.0.now) }
    ensures shorter { IfSome result (λ r. length r.1.now < length bytes.now) }
{
    match feed_at(bytes) {
        None => None,
        Some(at) => Some((&bytes[..at], &bytes[at + 1..])),
    }
}

/// Where the first line feed stands.
fn feed_at(bytes: &[u8]) -> Option<usize>
    ensures at { result ≡ position is_feed bytes.now }
    ensures within { IfSome result (λ at. at < length bytes.now) }
{
    bytes.iter().position(|b| *b == b'\n')
}
