//! The key of the flag that a path asks for.
ghost use Rattle.std.specs.Prelude.{◌≡◌, true, false, Ok, None, IfOk, length, drop, option_map, string_bytes};
ghost use Rattle.ofrep_requests.specs.Request as spec;

use crate::place::ONE_FLAG_ROUTE;
use percent_encoding::percent_decode;
use std::alloc::{AllocError, Global};
use std::str;

/// The key of the flag that a request's path, without its query, asks for: the last segment of the path, its escapes decoded. None where
/// the path leads elsewhere, or the key is empty, has a further `/` that isn't escaped, or isn't UTF-8. Memory is taken only for a segment that is not empty and has no `/`.
pub fn key_in(alloc: Global, path: &str) -> Result<Option<String>, AllocError>
    ensures exact { IfOk result (λ key. option_map string_bytes key ≡ spec.key_in path.now) }
    ensures elsewhere { spec.is_of_one_flag path.now ≡ false → result ≡ Ok None }
    ensures no_key { spec.is_no_key (drop (length spec.one_flag_route) path.now) ≡ true → result ≡ Ok None }
{
    match path.as_bytes().strip_prefix(ONE_FLAG_ROUTE) {
        Some(segment) => key_of(alloc, segment),
        None => Ok(None),
    }
}

/// The key that a segment stands for.
fn key_of(alloc: Global, segment: &[u8]) -> Result<Option<String>, AllocError>
    ensures exact { IfOk result (λ key. option_map string_bytes key ≡ spec.key_of segment.now) }
    ensures no_key { spec.is_no_key segment.now ≡ true → result ≡ Ok None }
{
    if segment.is_empty() || segment.contains(&b'/') {
        return Ok(None);
    }
    let mut bytes = Vec::new(alloc);
    percent_decode(segment).append_to(&mut bytes)?;
    text_if(alloc, bytes.as_slice())
}

/// The bytes as a text, where they are UTF-8.
#[tactic(auto, using(crate::proofs::Texts::text_if_utf8, crate::proofs::Texts::text_if_not))]
fn text_if(alloc: Global, bytes: &[u8]) -> Result<Option<String>, AllocError>
    ensures exact { IfOk result (λ text. option_map string_bytes text ≡ spec.text_if bytes.now) }
{
    match str::from_utf8(bytes) {
        Ok(text) => Ok(Some(String::from_str(alloc, text)?)),
        Err(_) => Ok(None),
    }
}
