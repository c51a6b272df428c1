//! The kinds of values.
ghost use Rattle.std.specs.Prelude.{◌≡◌, ◌==◌, if◌then◌else◌, slice_index};
ghost use Rattle.flag_text.specs.View.{view, members_view};
ghost use Rattle.flag_defs.specs.Definition.{all_values, are_of_one_kind};
ghost use Rattle.flag_defs.specs.Floats.{are_of_objects, is_of_object};
ghost use Rattle.flag_defs.specs.Kind.{is_of_kind, kind_named, kind_of, word_of};

use flag_text::Tree;

/// The kind of value that a flag is asked for (OpenFeature: boolean, string, number and structure evaluation).
#[derive(Clone, Copy, Debug, PartialEq, Eq)]
pub enum Kind {
    /// `true` or `false`.
    Bool,
    /// A text.
    Text,
    /// A whole number.
    Whole,
    /// An object.
    Object,
    /// A number, whole or not. Of the values that a tree has, a whole one is.
    Float,
}

impl Kind {
    /// The kind of this word: `bool`, `text`, `whole`, `object` or `float`.
    pub fn named(word: &str) -> Option<Kind>
        ensures { result ≡ kind_named word.now }
    {
        match word {
            "bool" => Some(Kind::Bool),
            "text" => Some(Kind::Text),
            "whole" => Some(Kind::Whole),
            "object" => Some(Kind::Object),
            "float" => Some(Kind::Float),
            _ => None,
        }
    }

    /// The word for the kind.
    pub fn as_str(&self) -> &'static str
        ensures { result.now ≡ word_of self.now }
    {
        match self {
            Kind::Bool => "bool",
            Kind::Text => "text",
            Kind::Whole => "whole",
            Kind::Object => "object",
            Kind::Float => "float",
        }
    }

    /// The kind that the value is of, if it is of one: a whole number is of the kind `Whole`.
    pub fn of(value: &Tree) -> Option<Kind>
        ensures { result ≡ kind_of (view value.now) }
    {
        [Kind::Bool, Kind::Text, Kind::Whole, Kind::Object]
            .iter()
            .copied()
            .find(|kind| kind.is_of(value))
    }

    /// Whether the value is of this kind. A null and a list are of none.
    pub fn is_of(&self, value: &Tree) -> bool
        ensures { result ≡ is_of_kind self.now (view value.now) }
    {
        match self {
            Kind::Bool => value.as_bool().is_some(),
            Kind::Text => value.as_text().is_some(),
            Kind::Whole | Kind::Float => value.as_whole().is_some(),
            Kind::Object => value.as_object().is_some(),
        }
    }

    fn is_of_all(self, variants: &[(String, Tree)]) -> bool
        ensures { result ≡ all_values (is_of_kind self) (members_view variants.now) }
    {
        for (_, value) in variants {
            if !self.is_of(value) {
                return false;
            }
        }
        true
    }
}

/// Whether the values are of one kind.
pub(crate) fn are_of_one_kind(variants: &[(String, Tree)]) -> bool
    ensures { result ≡ are_of_one_kind (members_view variants.now) }
{
    Kind::Bool.is_of_all(variants)
        || Kind::Text.is_of_all(variants)
        || Kind::Whole.is_of_all(variants)
        || Kind::Object.is_of_all(variants)
}

/// The kind of variants whose values stand as texts, which are their spelling.
pub(crate) fn kind_as_spelled(variants: &[(String, Tree)]) -> Kind
    ensures { result ≡ (if are_of_objects (members_view variants.now) then Kind.Object else Kind.Float) }
{
    if are_of_objects(variants) {
        Kind::Object
    } else {
        Kind::Float
    }
}

fn are_of_objects(variants: &[(String, Tree)]) -> bool
    ensures { result ≡ are_of_objects (members_view variants.now) }
{
    match variants {
        [] => false,
        [first, ..] => is_of_object(&first.1),
    }
}

/// Whether the value is the text of an object.
fn is_of_object(value: &Tree) -> bool
    ensures { result ≡ is_of_object (view value.now) }
{
    match value {
        Tree::Text(text) => has_brace(text.as_bytes()),
        _ => false,
    }
}

fn has_brace(bytes: &[u8]) -> bool
    ensures { result ≡ (slice_index bytes.now 0 == 123) }
{
    !bytes.is_empty() && bytes[0] == b'{'
}
