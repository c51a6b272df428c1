//! Hash inputs with their hashes.
ghost use Rattle.std.specs.Prelude.{◌≡◌, IfOk, string_bytes};
ghost use Rattle.std.specs.Arc.{arc_value};
ghost use Rattle.murmur_core.specs.Murmur.{hash as hash_of};

use murmur_core::hash;
use std::alloc::AllocError;
use std::sync::Arc;

/// A hash input, with its hash, so that one that many sites are reached by is hashed once.
#[derive(Drop)]
pub(crate) struct HashInput {
    /// The input.
    pub(crate) text: Arc<String>,
    /// Its hash with seed 0.
    pub(crate) hash: u32,
    pub ghost hashed: { hash ≡ hash_of (string_bytes (arc_value text)) 0 },
}

/// The input with its hash.
pub(crate) fn hashed(text: Arc<String>) -> HashInput
    ensures { arc_value result.text ≡ arc_value text }
{
    let hash = hash(text.as_str().as_bytes(), 0);
    HashInput { text, hash }
}

/// The same input once more.
pub(crate) fn shared(input: &HashInput) -> Result<HashInput, AllocError>
    ensures { IfOk result (λ h. arc_value h.text ≡ arc_value input.now.text) }
{
    let text = input.text.clone()?;
    Ok(HashInput {
        text,
        hash: input.hash,
    })
}
