//! The tag of a representation.
ghost use Rattle.std.specs.Prelude.{◌≡◌, IfOk, string_bytes};
ghost use Rattle.ofrep_requests.specs.Tag as spec;

use sha2::{Digest, Sha256};
use std::alloc::{AllocError, Global};

/// The opaque tag of a representation: the SHA-256 digest of its bytes in hexadecimal digits, lower case. Equal bytes have
/// equal tags.
#[tactic(auto, unfolding(crate::specs::Tag::opaque_tag))]
pub fn opaque_tag(alloc: Global, representation: &[u8]) -> Result<String, AllocError>
    ensures exact { IfOk result (λ tag. string_bytes tag ≡ spec.opaque_tag representation.now) }
{
    hex::encode(alloc, Sha256::digest(representation))
}

/// A strong entity tag, as the field `ETag` has it: the opaque tag in quotes.
pub fn entity_tag(alloc: Global, opaque: &str) -> Result<String, AllocError>
    ensures exact { IfOk result (λ tag. string_bytes tag ≡ spec.entity_tag opaque.now) }
{
    format!(in alloc; "\"{opaque}\"")
}
