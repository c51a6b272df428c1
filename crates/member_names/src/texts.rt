//! Texts in which a name stands more than once.
ghost use Rattle.std.specs.Prelude.{◌≡◌, is_some, option_and_then, None, Err, IfOk};
ghost use Rattle.json.specs.Json.{document};
ghost use Rattle.member_names.specs.Places.{place_of, told};
ghost use Rattle.member_names.specs.Repeated.{is_repeating, json_of};

use crate::walk::{Stop, place_in};
use json::{Reader, Scratch};
use simdutf8::basic;
use std::alloc::{AllocError, Global};

/// How deep lists and objects of a text nest at most.
const MAX_DEPTH: usize = flag_text::JSON_LEVELS + 1;

/// The place of the first name that stands in an object of a JSON text before, as `.totals.on`: none where each name stands once
/// in its object, or where the bytes are no JSON text. An object's own names come before those of the objects in it.
///
/// It fails only where memory runs out. It walks the tokens, and keeps the names of the objects that are open.
pub fn repeated_place(alloc: Global, bytes: &[u8]) -> Result<Option<String>, AllocError>
    ensures repeats { IfOk result (λ o. is_some o ≡ is_repeating bytes.now) }
    ensures place { IfOk result (λ o. told o ≡ option_and_then place_of (json_of bytes.now)) }
{
    let Ok(text) = basic::from_utf8(bytes) else {
        return Ok(None);
    };
    match place_in_text(alloc, text) {
        Ok(place) => Ok(place),
        Err(Stop::Invalid) => Ok(None),
        Err(Stop::WantOfMemory) => Err(AllocError),
    }
}

fn place_in_text(alloc: Global, text: &str) -> Result<Option<String>, Stop>
    ensures ok { IfOk result (λ o. told o ≡ option_and_then place_of (document text.now)) }
    ensures err { result ≡ Err Stop.Invalid → document text.now ≡ None }
{
    let mut scratch = Scratch::new(alloc);
    let mut reader = Reader::new(text, &mut scratch)?;
    let mut names = Vec::new(alloc);
    let place = place_in(alloc, &mut reader, MAX_DEPTH, &mut names)?;
    if reader.next().is_some() {
        return Err(Stop::Invalid);
    }
    Ok(place)
}
