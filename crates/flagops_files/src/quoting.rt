//! Names in what the program prints.
ghost use Rattle.std.specs.Prelude.{◌≡◌, IfOk, string_bytes};
ghost use Rattle.flag_text.specs.Shape.{text};
ghost use Rattle.flag_text.specs.Printing.{text_of};

use flag_text::{Tree, print_tree};
use std::alloc::{AllocError, Global};

/// A name as a JSON text.
pub fn quoted(alloc: Global, name: &str) -> Result<String, AllocError>
    ensures { IfOk result (λ s. string_bytes s ≡ text_of (text name.now)) }
{
    print_tree(alloc, &Tree::Text(String::from_str(alloc, name)?))
}
