//! What a definition says beside its targeting.
ghost use Rattle.std.specs.Prelude.{◌≡◌, ◌&&◌, nat_le, true, Some, codes, option_map, option_copied};
ghost use Rattle.flag_text.specs.Readers.{find_member};
ghost use Rattle.flag_text.specs.Shape.{is_whole, levels, names_rise};
ghost use Rattle.flag_text.specs.View.{view, members_view};
ghost use Rattle.flag_defs.specs.Outline.{outline_of, outline_view};
ghost use Rattle.flag_defs.specs.Definition.{default_of, member_count, state_named, state_of, variants_of};

use crate::kind::are_of_one_kind;
use flag_text::{Tree, member_by_halving};
use limits::VARIANTS;

const MAX_LEVELS: usize = limits::EXPRESSION_LEVELS as usize;

/// State, variants and default variant of a flag that has them.
#[derive(Clone, Copy)]
pub(crate) struct Outline<'a> {
    pub(crate) enabled: bool,
    pub(crate) variants: &'a [(String, Tree)],
    pub(crate) default_variant: Option<&'a str>,
}

/// What the members of a definition say beside its targeting, unless this breaks the flag.
pub(crate) fn outline_of<'a>(members: &'a [(String, Tree)]) -> Option<Outline<'a>>
    requires { names_rise (members_view members.now) ≡ true }
    ensures { option_map outline_view result ≡ outline_of (members_view members.now) }
{
    let enabled = state(members)?;
    let variants = variants(members)?;
    let default_variant = default_variant(members, variants)?;
    Some(Outline {
        enabled,
        variants,
        default_variant,
    })
}

/// Whether the state is `ENABLED`, where it is that or `DISABLED`.
pub(crate) fn state(members: &[(String, Tree)]) -> Option<bool>
    requires { names_rise (members_view members.now) ≡ true }
    ensures { result ≡ state_of (find_member (codes "state") (members_view members.now)) }
{
    match member_by_halving(members, "state") {
        Some(Tree::Text(text)) => state_named(text.as_str()),
        _ => None,
    }
}

fn state_named(text: &str) -> Option<bool>
    ensures { result ≡ state_named text.now }
{
    if text == "ENABLED" {
        Some(true)
    } else if text == "DISABLED" {
        Some(false)
    } else {
        None
    }
}

/// The variants, unless they break the flag.
pub(crate) fn variants(members: &[(String, Tree)]) -> Option<&[(String, Tree)]>
    requires { names_rise (members_view members.now) ≡ true }
    ensures { option_map (λ ms. members_view ms.now) result ≡ variants_of (find_member (codes "variants") (members_view members.now)) }
{
    match member_by_halving(members, "variants") {
        Some(tree) => variants_in(tree),
        None => None,
    }
}

fn variants_in(tree: &Tree) -> Option<&[(String, Tree)]>
    ensures { option_map (λ ms. members_view ms.now) result ≡ variants_of (Some (view tree.now)) }
{
    let variants = tree.as_object()?;
    if are_few(variants) && are_of_one_kind(variants) && is_whole_and_flat(tree) {
        Some(variants)
    } else {
        None
    }
}

/// Whether there are 1 to 64.
#[tactic(auto, using(crate::proofs::Counted::counted))]
pub(crate) fn are_few(variants: &[(String, Tree)]) -> bool
    ensures { result ≡ (nat_le 1 (member_count (members_view variants.now)) && nat_le (member_count (members_view variants.now)) 64) }
{
    let count = variants.len();
    1 <= count && count <= VARIANTS
}

/// Whether all numbers are whole, and there are at most 100 levels.
#[tactic(auto, using(crate::proofs::Counted::test_is))]
fn is_whole_and_flat(tree: &Tree) -> bool
    ensures { result ≡ (is_whole (view tree.now) && nat_le (levels (view tree.now)) 100) }
{
    tree.is_whole() && tree.fits(MAX_LEVELS)
}

/// The name of the default variant, if there is one, unless it breaks the flag.
pub(crate) fn default_variant<'a>(
    members: &'a [(String, Tree)],
    variants: &[(String, Tree)],
) -> Option<Option<&'a str>>
    requires members { names_rise (members_view members.now) ≡ true }
    requires variants { names_rise (members_view variants.now) ≡ true }
    ensures { option_map option_copied result ≡ default_of (members_view variants.now) (find_member (codes "defaultVariant") (members_view members.now)) }
{
    match member_by_halving(members, "defaultVariant") {
        Some(tree) => default_in(tree, variants),
        None => Some(None),
    }
}

fn default_in<'a>(tree: &'a Tree, variants: &[(String, Tree)]) -> Option<Option<&'a str>>
    requires { names_rise (members_view variants.now) ≡ true }
    ensures { option_map option_copied result ≡ default_of (members_view variants.now) (Some (view tree.now)) }
{
    match tree {
        Tree::Null => Some(None),
        Tree::Text(name) if member_by_halving(variants, name.as_str()).is_some() => {
            Some(Some(name.as_str()))
        }
        _ => None,
    }
}
