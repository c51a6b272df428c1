//! Which tags a field names.
ghost use Rattle.std.specs.Prelude.{◌≡◌, ◌∷◌, ◌<◌, [], length, IfSome, MatchOption};
ghost use Rattle.std.specs.List.{slice_split};
ghost use Rattle.ofrep_requests.specs.Tag.{is_quote, is_tag_in};
ghost use Rattle.ofrep_requests.specs.Tag as spec;

use memchr::memchr;

/// Whether the value of a field `If-None-Match` names the opaque tag, be it as a weak one: it is `*`, or its list has the tag.
pub fn is_listed(opaque: &str, field: &[u8]) -> bool
    ensures exact { result ≡ spec.is_listed opaque.now field.now }
{
    field == b"*".as_slice() || is_tag_in(opaque.as_bytes(), field)
}

/// Whether one of the opaque tags of a list is this one.
#[tactic(auto, using(crate::proofs::Tags::without_quote, crate::proofs::Tags::unclosed, crate::proofs::Tags::closed))]
fn is_tag_in(opaque: &[u8], field: &[u8]) -> bool
    ensures { result ≡ is_tag_in opaque.now field.now }
{
    let mut rest = field;
    while let Some((_, opened)) = split_at_quote(rest) {
        let Some((tag, closed)) = split_at_quote(opened) else {
            return false;
        };
        if tag == opaque {
            return true;
        }
        rest = closed;
    }
    false
}

/// What stands before the first quote, and what stands behind it.
#[tactic(auto, using(crate::proofs::Tags::no_quote, crate::proofs::Tags::first_quote))]
fn split_at_quote(bytes: &[u8]) -> Option<(&[u8], &[u8])>
    ensures parts { MatchOption result (slice_split is_quote bytes.now ≡ bytes.now ∷ [])
        (λ r. slice_split is_quote bytes.now ≡ r.0.now ∷ slice_split is_quote r.1.now) }
    ensures shorter { IfSome result (λ r. length r.1.now < length bytes.now) }
{
    let place = memchr(b'"', bytes)?;
    Some((&bytes[..place], &bytes[place + 1..]))
}
