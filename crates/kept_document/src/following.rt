//! A way followed through a document.
ghost use Rattle.std.specs.Prelude.{◌≡◌, IfOk, option_copied, reverse};
ghost use Rattle.flag_text.specs.View.{members_view, view};
ghost use Rattle.flag_references.specs.Inlining.{name_in, reference_in, reference_of};
ghost use Rattle.text_spans.specs.View.{path_of, step_of};
ghost use Rattle.kept_document.specs.Following.{followed, led};
ghost use Rattle.kept_document.specs.View.{inside_view, spot_view};

use flag_text::Tree;
use std::alloc::{AllocError, Global};
use text_spans::Step;

/// Where a way leads.
#[derive(Drop)]
pub(crate) enum Spot<'a> {
    /// To this part of the document, on this way.
    Part(Vec<Step<'a>>, &'a Tree),
    /// Into the evaluator of this name.
    Referred(&'a str),
    /// To no part.
    Lost,
}

/// Follows the way, whose last step comes first, from a part of the document to which these steps lead.
pub(crate) fn followed<'a>(
    done: Vec<Step<'a>>,
    tree: &'a Tree,
    way: Vec<Step<'a>>,
) -> Result<Spot<'a>, AllocError>
    ensures { IfOk result (λ s. spot_view s ≡ followed (path_of done.entry.items) (view tree.now) (reverse (path_of way.entry.items))) }
{
    let mut done = done;
    let mut way = way;
    let mut part = tree;
    'steps: while let Some(step) = way.pop() {
        if let Some(name) = reference_in(part) {
            return Ok(Spot::Referred(name));
        }
        match led(part, step) {
            Inside::Nothing => return Ok(Spot::Lost),
            Inside::Itself => {}
            Inside::Part(inner) => {
                done.push(step)?;
                part = inner;
            }
        }
    }
    match reference_in(part) {
        Some(name) => Ok(Spot::Referred(name)),
        None => Ok(Spot::Part(done, part)),
    }
}

/// Where a step leads from a tree.
#[derive(Clone, Copy, Drop)]
enum Inside<'a> {
    Nothing,
    Itself,
    Part(&'a Tree),
}

/// Where a step leads from a tree. One argument may stand without its list.
fn led<'a>(tree: &'a Tree, step: Step<'_>) -> Inside<'a>
    ensures { inside_view result ≡ led (step_of step.entry) (view tree.now) }
{
    match step {
        Step::Name(name) => match tree.member(name) {
            Some(member) => Inside::Part(member),
            None => Inside::Nothing,
        },
        Step::Index(index) => match tree.as_list() {
            Some(items) => match items.get(index) {
                Some(item) => Inside::Part(item),
                None => Inside::Nothing,
            },
            None => if index == 0 {
                Inside::Itself
            } else {
                Inside::Nothing
            },
        },
    }
}

/// The name that a tree refers to, where it is wholly a reference: an object whose one member is `$ref` with a text.
fn reference_in(tree: &Tree) -> Option<&str>
    ensures { option_copied result ≡ reference_in (view tree.now) }
{
    match tree.as_object() {
        Some(members) => reference_of(members),
        None => None,
    }
}

fn reference_of(members: &[(String, Tree)]) -> Option<&str>
    ensures { option_copied result ≡ reference_of (members_view members.now) }
{
    match members {
        [] => None,
        [(key, member)] => named(key.as_str(), member),
        [_, _, ..] => None,
    }
}

fn named<'a>(key: &str, member: &'a Tree) -> Option<&'a str>
    ensures { option_copied result ≡ name_in key.now (view member.now) }
{
    if key == "$ref" {
        member.as_text()
    } else {
        None
    }
}
