//! Which of its forms a plan file has.
ghost use Rattle.std.specs.Prelude.{◌≡◌, codes};
ghost use Rattle.flag_text.specs.Readers.{member_of};
ghost use Rattle.flag_text.specs.View.{view};
ghost use Rattle.plan_text.specs.PlanFile.{first_form, second_form, form_in, has, has_rule_member, is_under};

use flag_text::Tree;
use transport_core::CutKind;

/// What a plan file holds.
#[derive(Clone, Copy, Debug, PartialEq, Eq)]
pub(crate) enum Form {
    /// A rule with its certificate.
    Rule,
    /// A set of names that is deficient by its kind.
    Set(CutKind),
}

/// What the file says that it holds.
pub(crate) fn form_in(tree: &Tree) -> Option<Form>
    ensures { result ≡ form_in (view tree.now) }
{
    match tree.member("plan")?.as_whole()? {
        1 => Some(first_form(tree)),
        2 => second_form(tree),
        _ => None,
    }
}

fn first_form(tree: &Tree) -> Form
    ensures { result ≡ first_form (view tree.now) }
{
    if has(tree, "none") {
        Form::Set(CutKind::Over)
    } else {
        Form::Rule
    }
}

fn second_form(tree: &Tree) -> Option<Form>
    ensures { result ≡ second_form (view tree.now) }
{
    if is_under(tree) {
        Some(Form::Set(CutKind::Under))
    } else {
        None
    }
}

fn is_under(tree: &Tree) -> bool
    ensures { result ≡ is_under (member_of (codes "side") (view tree.now)) }
{
    match tree.member("side") {
        Some(Tree::Text(side)) => side.as_str() == "under",
        _ => false,
    }
}

/// Whether a member of a rule's file is there.
pub(crate) fn has_rule_member(tree: &Tree) -> bool
    ensures { result ≡ has_rule_member (view tree.now) }
{
    has(tree, "alpha") || has(tree, "beta") || has(tree, "cost") || has(tree, "rule")
}

/// Whether the member of this name is there.
pub(crate) fn has(tree: &Tree, name: &str) -> bool
    ensures { result ≡ has name.now (view tree.now) }
{
    tree.member(name).is_some()
}
