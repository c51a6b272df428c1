//! References to evaluators.
ghost use Rattle.std.specs.Prelude.{◌≡◌, option_copied};
ghost use Rattle.flag_text.specs.View.{view, members_view};
ghost use Rattle.flag_references.specs.Inlining.{is_reference_name, name_in, reference_in, reference_of};

use flag_text::Tree;

/// The name that a tree refers to, where it is wholly a reference.
pub(crate) fn reference_in(tree: &Tree) -> Option<&str>
    ensures { option_copied result ≡ reference_in (view tree.now) }
{
    match tree.as_object() {
        Some(members) => reference_of(members),
        None => None,
    }
}

/// The name that an object refers to, where its one member is `$ref` with a text.
pub fn reference_of(members: &[(String, Tree)]) -> Option<&str>
    ensures { option_copied result ≡ reference_of (members_view members.now) }
{
    match members {
        [] => None,
        [(key, member)] => name_in(key.as_str(), member),
        [_, _, ..] => None,
    }
}

pub(crate) fn name_in<'a>(key: &str, member: &'a Tree) -> Option<&'a str>
    ensures { option_copied result ≡ name_in key.now (view member.now) }
{
    let Tree::Text(name) = member else {
        return None;
    };
    if is_reference_name(key) {
        Some(name.as_str())
    } else {
        None
    }
}

pub(crate) fn is_reference_name(key: &str) -> bool
    ensures { result ≡ is_reference_name key.now }
{
    key == "$ref"
}
