//! The keys that may be meant by one that no flag has.
ghost use Rattle.std.specs.Prelude.{◌≡◌, ◌++◌, IfOk, OnOk, map, string_bytes};
ghost use Rattle.flag_defs.specs.Flags.{flags_view};
ghost use Rattle.flagops_files.specs.Known.{all_words, key_if_near, known_words, near_keys, similar_words};

use file_diagnostics::Listed;
use flag_defs::Flags;
use near_names::is_near;
use std::alloc::{AllocError, Global};

/// The keys that are near one that no flag has, and where none is near those that there are; of either the first ten, and how
/// many more.
#[tactic(auto, unfolding(crate::specs::Known::known_words))]
pub fn known_keys(alloc: Global, flags: &Flags, key: &str) -> Result<String, AllocError>
    ensures exact { IfOk result (λ s. string_bytes s ≡ known_words key.now (flags_view flags.now)) }
{
    let near = near_keys(alloc, flags, key)?;
    if near.is_empty() {
        all_keys(alloc, flags)
    } else {
        similar_keys(alloc, near.as_slice())
    }
}

/// The keys that are near.
fn near_keys(alloc: Global, flags: &Flags, key: &str) -> Result<Vec<String>, AllocError>
    ensures { IfOk result (λ v. map string_bytes v.items ≡ near_keys key.now (flags_view flags.now)) }
{
    let mut near = Vec::new(alloc);
    for i in 0..flags.len() {
        let (known, _) = flags.at(i);
        push_if_near(alloc, &mut near, key, known)?;
    }
    Ok(near)
}

/// Adds a key that is near.
fn push_if_near(
    alloc: Global,
    near: &mut Vec<String>,
    key: &str,
    known: &str,
) -> Result<(), AllocError>
    ensures { OnOk result (map string_bytes near.new.items ≡ map string_bytes near.old.items ++ key_if_near key.now known.now) }
{
    if is_near(key, known) {
        near.push(String::from_str(alloc, known)?)?;
    }
    Ok(())
}

/// The keys of all flags, in words.
fn all_keys(alloc: Global, flags: &Flags) -> Result<String, AllocError>
    ensures { IfOk result (λ s. string_bytes s ≡ all_words (flags_view flags.now)) }
{
    let names = Listed {
        alloc,
        names: flags,
    };
    format!(in alloc; "known flags: {names}")
}

/// The keys that are near, in words.
fn similar_keys(alloc: Global, near: &[String]) -> Result<String, AllocError>
    ensures { IfOk result (λ s. string_bytes s ≡ similar_words (map string_bytes near.now)) }
{
    let names = Listed { alloc, names: near };
    format!(in alloc; "similar keys: {names}")
}
