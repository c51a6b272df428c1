//! JSON texts.
ghost use Rattle.std.specs.Prelude.{◌≡◌, IfOk, string_bytes};
ghost use Rattle.control_answers.specs.Body.{comma_if, quoted};

use flag_text::push_string;
use std::alloc::{AllocError, Global};

/// A text as JSON has it.
pub(crate) fn quoted(alloc: Global, text: &str) -> Result<String, AllocError>
    ensures { IfOk result (λ s. string_bytes s ≡ quoted text.now) }
{
    let mut out = String::new(alloc);
    push_string(alloc, &mut out, text)?;
    Ok(out)
}

/// A comma, where it is not the first item.
pub(crate) fn comma_if(later: bool) -> &'static str
    ensures { result.now ≡ comma_if later }
{
    if later { "," } else { "" }
}
