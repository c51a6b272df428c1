//! The places of members within a text.
ghost use Rattle.std.specs.Prelude.{◌≡◌, ◌++◌, Some, string_bytes, IfOk};
ghost use Rattle.std.specs.List.{list_all};
ghost use Rattle.std.specs.Option.{option_or};
ghost use Rattle.member_names.specs.Places.{behind, is_word, is_word_byte, step_at, step_to, told, within};

use flag_text::{Tree, print_tree};
use std::alloc::{AllocError, Global};

/// `before` if there is one; else `inner`, a place within this item, with the step to the item in front of it.
pub(crate) fn item_place(
    alloc: Global,
    before: Option<String>,
    item: usize,
    inner: Option<String>,
) -> Result<Option<String>, AllocError>
    ensures { IfOk result (λ o. told o ≡ option_or (told before) (behind (step_at item) (told inner))) }
{
    match before {
        Some(place) => Ok(Some(place)),
        None => match inner {
            Some(place) => Ok(Some(format!(in alloc; "[{item}]{place}")?)),
            None => Ok(None),
        },
    }
}

/// `before` if there is one; else `inner`, a place within this member, with the step to the member in front of it.
pub fn member_place(
    alloc: Global,
    before: Option<String>,
    name: &str,
    inner: Option<String>,
) -> Result<Option<String>, AllocError>
    ensures { IfOk result (λ o. told o ≡ option_or (told before) (behind (step_to name.now) (told inner))) }
{
    match before {
        Some(place) => Ok(Some(place)),
        None => match inner {
            Some(place) => {
                let step = step_to(alloc, name)?;
                Ok(Some(format!(in alloc; "{step}{place}")?))
            }
            None => Ok(None),
        },
    }
}

/// A place within an object as people are told it, without the dot before its first step.
pub fn within(place: &str) -> &str
    ensures { result.now ≡ within place.now }
{
    match place.strip_prefix('.') {
        Some(place) => place,
        None => place,
    }
}

/// The step to a member: `.name`, or the name in brackets where it is no plain word.
#[tactic(auto, unfolding(crate::specs::Places::step_to))]
pub(crate) fn step_to(alloc: Global, name: &str) -> Result<String, AllocError>
    ensures { IfOk result (λ s. string_bytes s ≡ step_to name.now) }
{
    if is_word(name) {
        return format!(in alloc; ".{name}");
    }
    let name = print_tree(alloc, &Tree::Text(String::from_str(alloc, name)?))?;
    format!(in alloc; "[{name}]")
}

fn is_word(name: &str) -> bool
    ensures { result ≡ is_word name.now }
{
    !name.is_empty() && are_word_bytes(name.as_bytes())
}

fn are_word_bytes(bytes: &[u8]) -> bool
    ensures { result ≡ list_all is_word_byte bytes.now }
{
    bytes.iter().all(|byte| is_word_byte(*byte))
}

fn is_word_byte(byte: u8) -> bool
    ensures { result ≡ is_word_byte byte }
{
    byte.is_ascii_alphanumeric() || matches!(byte, b'_' | b'-' | b'$')
}
