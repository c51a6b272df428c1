//! Names as JSON texts, and as steps to what they name.
ghost use Rattle.std.specs.Prelude.{◌≡◌, ◌++◌, codes, IfNone, IfOk, IfSome, string_bytes};
ghost use Rattle.flag_text.specs.Printing.{text_of};
ghost use Rattle.flag_text.specs.Shape.{text};
ghost use Rattle.file_diagnostics.specs.Named.{are_plain, is_plain, is_plain_byte, quoted, shown, step};

use flag_text::{Tree, print_tree};
use std::alloc::{AllocError, Global};

/// The most characters of a name or a value that are shown.
const MOST_CHARACTERS: usize = 60;

/// The step from an object to its member: `.name`, or the name in brackets where it is no plain word.
#[tactic(auto, unfolding(crate::specs::Named::step))]
pub(crate) fn quoted_step(alloc: Global, name: &str) -> Result<String, AllocError>
    ensures { IfOk result (λ s. string_bytes s ≡ step name.now) }
{
    if is_plain(name) {
        format!(in alloc; ".{name}")
    } else {
        let name = quoted_name(alloc, name)?;
        format!(in alloc; "[{name}]")
    }
}

/// A text as a JSON text.
pub fn quoted(alloc: Global, name: &str) -> Result<String, AllocError>
    ensures { IfOk result (λ s. string_bytes s ≡ text_of (text name.now)) }
{
    print_tree(alloc, &Tree::Text(String::from_str(alloc, name)?))
}

/// A name as a JSON text, cut where it is long.
pub fn quoted_name(alloc: Global, name: &str) -> Result<String, AllocError>
    ensures { IfOk result (λ s. string_bytes s ≡ quoted name.now) }
{
    match front(name) {
        Some(front) => {
            let cut = format!(in alloc; "{front}..")?;
            quoted(alloc, cut.as_str())
        }
        None => quoted(alloc, name),
    }
}

/// The first characters of a text that has more.
#[tactic(auto, unfolding(crate::specs::Named::shown))]
fn front(text: &str) -> Option<&str>
    ensures long { IfSome result (λ f. shown text.now ≡ f.now ++ codes "..") }
    ensures whole { IfNone result (shown text.now ≡ text.now) }
{
    let (end, _) = text.char_indices().nth(MOST_CHARACTERS)?;
    let (front, _) = text.split_at_checked(end)?;
    Some(front)
}

/// Whether a name is a word of letters, digits, `_`, `-` and `$`, and is shown whole.
pub(crate) fn is_plain(name: &str) -> bool
    ensures { result ≡ is_plain name.now }
{
    are_plain(name.as_bytes()) && !name.is_empty() && name.len() <= MOST_CHARACTERS
}

fn are_plain(bytes: &[u8]) -> bool
    ensures { result ≡ are_plain bytes.now }
{
    for byte in bytes {
        if !is_plain_byte(*byte) {
            return false;
        }
    }
    true
}

fn is_plain_byte(byte: u8) -> bool
    ensures { result ≡ is_plain_byte byte }
{
    byte.is_ascii_alphanumeric() || byte == b'_' || byte == b'-' || byte == b'$'
}
