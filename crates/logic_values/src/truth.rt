//! Which values count as true.
ghost use Rattle.std.specs.Prelude.{◌≡◌};
ghost use Rattle.logic_values.specs.Truth.{is_true};
ghost use Rattle.logic_values.specs.Views.{seen_view};

use crate::seen::Seen;

/// Whether the value counts as true: all but `false`, null, 0, the empty text and the empty list do.
pub fn is_true(value: Seen) -> bool
    ensures { result ≡ is_true (seen_view value.entry) }
{
    match value {
        Seen::Null => false,
        Seen::Bool(b) => b,
        Seen::Whole(n) => n != 0,
        Seen::Text(text) => !text.is_empty(),
        Seen::Trees(items) => !items.is_empty(),
        Seen::Values(items) => !items.is_empty(),
        Seen::Other | Seen::Object(_) | Seen::Context(_) | Seen::Fold(..) => true,
    }
}
