//! Kinds of values, as words of the command line.
ghost use Rattle.std.specs.Prelude.{◌≡◌};
ghost use Rattle.flagops_words.specs.Kinds.{kind_spelled};

use flag_defs::Kind;

/// The kind of value that a word asks for: flagd's `boolean`, `string` and `integer` beside the words of asks.
pub fn kind_spelled(word: &str) -> Option<Kind>
    ensures { result ≡ kind_spelled word.now }
{
    match word {
        "boolean" => Some(Kind::Bool),
        "string" => Some(Kind::Text),
        "integer" => Some(Kind::Whole),
        _ => Kind::named(word),
    }
}
