//! What a path finds in a scope.
ghost use Rattle.std.specs.Prelude.{◌≡◌, false, IfOk, map, option_map, option_and_then, slice_get, ◌∷◌, ◌<◌, length, IfSome};
ghost use Rattle.flag_text.specs.Shape.{object};
ghost use Rattle.flag_text.specs.View.{view, members_view};
ghost use Rattle.logic_values.specs.Number.{below};
ghost use Rattle.logic_values.specs.Objects.{reduce_scope, with_flagd};
ghost use Rattle.logic_eval.specs.Scope.{step, follow, index_of, find_text, find, is_dot};
ghost use Rattle.logic_values.specs.Truth.{is_empty_text};
ghost use Rattle.logic_values.specs.Views.{root_view, seen_view, value_view};
ghost use Rattle.logic_eval.specs.Views.{scope_view, place_view, found_view, names_after};
ghost use Rattle.std.specs.List.{slice_split};

use crate::scope::Scope;
use flag_text::{Tree, member_by_halving};
use logic_values::number::digits_value;
use logic_values::{Part, Root, Seen, Value, copy, seen_tree};
use std::alloc::{AllocError, Global};

/// Where a value stands that a path comes to.
#[derive(Clone, Copy)]
pub(crate) enum Place<'s, 'a> {
    /// In the expression.
    Lent(&'a Tree),
    /// In the context.
    Given(Part<'a>),
    /// In a value that was made.
    Held(&'s Value<'a>),
}

/// What a path finds.
#[derive(Clone, Copy)]
pub(crate) enum Found<'s, 'a> {
    /// The whole scope.
    Whole,
    /// A part of it.
    Part(Place<'s, 'a>),
}

impl<'s, 'a> Place<'s, 'a> {
    /// What is seen of the value there.
    pub(crate) fn seen(self) -> Seen<'s, 'a>
        ensures { seen_view result ≡ place_view self.entry }
    {
        match self {
            Place::Lent(tree) => seen_tree(tree),
            Place::Given(part) => seen_tree(part.tree),
            Place::Held(value) => value.seen(),
        }
    }

    /// The value there: what is lent stays lent.
    pub(crate) fn value(self, alloc: Global) -> Result<Value<'a>, AllocError>
        ensures { IfOk result (λ v. value_view v ≡ place_view self.entry) }
    {
        match self {
            Place::Lent(tree) => Ok(Value::Lent(tree)),
            Place::Given(part) => Ok(Value::Given(part)),
            Place::Held(value) => copy(alloc, value),
        }
    }
}

// A number without leading zeros, where it is below the largest `usize`.
fn index_of(name: &str) -> Option<usize>
    ensures { result ≡ option_and_then (below usize.MAX) (index_of name.now) }
{
    match name.as_bytes() {
        [b'0', _, ..] => None,
        digits => Some(digits_value(digits, u64::MAX)? as usize),
    }
}

// The item at an index.
fn item_at<'a>(items: &'a [Tree], name: &str) -> Option<&'a Tree>
    ensures { option_map (λ t. view t.now) result ≡ option_and_then (slice_get (map view items.now)) (index_of name.now) }
{
    let length = items.len();
    match index_of(name) {
        Some(index) if index < length => Some(&items[index]),
        _ => None,
    }
}

// One step of a path in the expression: an object's member, or a list's item by its index. It looks at the members one by one.
fn step<'a>(tree: &'a Tree, name: &str) -> Option<&'a Tree>
    ensures { option_map (λ t. view t.now) result ≡ step (view tree.now) name.now }
{
    match tree {
        Tree::Object(_) => tree.member(name),
        Tree::List(items) => item_at(items.as_slice(), name),
        _ => None,
    }
}

// One step of a path in the context: a member is found by halving.
fn step_in_part<'a>(part: Part<'a>, name: &str) -> Option<Part<'a>>
    ensures { option_map (λ p. view p.tree.now) result ≡ step (view part.entry.tree.now) name.now }
{
    match part.tree {
        Tree::Object(members) => {
            let tree = member_by_halving(members.as_slice(), name)?;
            Some(Part { tree })
        }
        Tree::List(items) => {
            let tree = item_at(items.as_slice(), name)?;
            Some(Part { tree })
        }
        _ => None,
    }
}

// The value at an index.
fn value_at<'s, 'a>(values: &'s [Value<'a>], name: &str) -> Option<&'s Value<'a>>
    ensures { option_map (λ v. value_view v.now) result ≡ option_and_then (slice_get (map value_view values.now)) (index_of name.now) }
{
    let length = values.len();
    match index_of(name) {
        Some(index) if index < length => Some(&values[index]),
        _ => None,
    }
}

// One step from a value: into what is lent, or into a value that was made.
fn step_in_value<'s, 'a>(value: &'s Value<'a>, name: &str) -> Option<Place<'s, 'a>>
    ensures { option_map place_view result ≡ step (value_view value.now) name.now }
{
    match value {
        Value::Lent(tree) => Some(Place::Lent(step(tree, name)?)),
        Value::Given(part) => Some(Place::Given(step_in_part(*part, name)?)),
        Value::Items(values) => Some(Place::Held(value_at(values.as_slice(), name)?)),
        Value::Context(root) => Some(Place::Given(at_root(*root, name)?)),
        Value::Fold(so_far, current) => Some(Place::Held(in_fold(so_far, current, name)?)),
        _ => None,
    }
}

// One step from a place.
fn step_from<'s, 'a>(place: Place<'s, 'a>, name: &str) -> Option<Place<'s, 'a>>
    ensures { option_map place_view result ≡ step (place_view place.entry) name.now }
{
    match place {
        Place::Lent(tree) => Some(Place::Lent(step(tree, name)?)),
        Place::Given(part) => Some(Place::Given(step_in_part(part, name)?)),
        Place::Held(value) => step_in_value(value, name),
    }
}

// The first name of a path, and what follows its dot.
fn first_name(path: &str) -> (&str, Option<&str>)
    ensures names { slice_split is_dot path.now ≡ result.0.now ∷ names_after result.1 }
    ensures shorter { IfSome result.1 (λ rest. length rest.now < length path.now) }
{
    match path.split_once('.') {
        None => (path, None),
        Some((name, rest)) => (name, Some(rest)),
    }
}

// The steps of a path one after the other.
fn follow<'s, 'a>(place: Place<'s, 'a>, path: &str) -> Option<Place<'s, 'a>>
    ensures { option_map place_view result ≡ follow (place_view place.entry) (slice_split is_dot path.now) }
{
    match first_name(path) {
        (name, None) => step_from(place, name),
        (name, Some(rest)) => follow(step_from(place, name)?, rest),
    }
}

// The same in the context, which stays there.
fn follow_in_part<'a>(part: Part<'a>, path: &str) -> Option<Part<'a>>
    ensures { option_map (λ p. view p.tree.now) result ≡ follow (view part.entry.tree.now) (slice_split is_dot path.now) }
{
    match first_name(path) {
        (name, None) => step_in_part(part, name),
        (name, Some(rest)) => follow_in_part(step_in_part(part, name)?, rest),
    }
}

/// What a path finds in a part of the context, as `var` follows it: the part where it is empty, else its steps from there on, to an object's
/// member or a list's item by its index.
pub fn part_at<'a>(part: Part<'a>, path: &str) -> Option<Part<'a>>
    ensures { option_map (λ p. view p.tree.now) result ≡ find_text (view part.entry.tree.now) path.now }
{
    if path.is_empty() {
        Some(part)
    } else {
        follow_in_part(part, path)
    }
}

/// What a path that is not empty finds in the scope of a whole expression.
pub(crate) fn part_in<'a>(root: Root<'a>, path: &str) -> Option<Part<'a>>
    requires { is_empty_text path.now ≡ false }
    ensures { option_map (λ p. view p.tree.now) result ≡ find_text (root_view root.entry) path.now }
{
    match first_name(path) {
        (name, None) => at_root(root, name),
        (name, Some(rest)) => follow_in_part(at_root(root, name)?, rest),
    }
}

// The first step of a path, from the scope.
fn enter<'s, 'a>(scope: Scope<'s, 'a>, name: &str) -> Option<Place<'s, 'a>>
    ensures { option_map place_view result ≡ step (scope_view scope.entry) name.now }
{
    match scope {
        Scope::Root(root) => Some(Place::Given(at_root(root, name)?)),
        Scope::Item(value) => step_in_value(value, name),
        Scope::Fold(so_far, current) => Some(Place::Held(in_fold(so_far, current, name)?)),
    }
}

// A member of the context, with `$flagd` in its place.
fn at_root<'a>(root: Root<'a>, name: &str) -> Option<Part<'a>>
    ensures { option_map (λ p. view p.tree.now) result ≡ step (with_flagd (view root.entry.flagd.now) (object (members_view root.entry.members.now))) name.now }
{
    if name == "$flagd" {
        return Some(Part { tree: root.flagd });
    }
    let tree = member_by_halving(root.members, name)?;
    Some(Part { tree })
}

// The value so far or the item of a `reduce`.
fn in_fold<'s, 'a>(
    so_far: &'s Value<'a>,
    current: &'s Value<'a>,
    name: &str,
) -> Option<&'s Value<'a>>
    ensures { option_map (λ v. value_view v.now) result ≡ step (reduce_scope (value_view so_far.now) (value_view current.now)) name.now }
{
    if name == "accumulator" {
        Some(so_far)
    } else if name == "current" {
        Some(current)
    } else {
        None
    }
}

// What a text finds: the whole scope where it is empty, else its steps.
fn find_text<'s, 'a>(scope: Scope<'s, 'a>, path: &str) -> Option<Found<'s, 'a>>
    ensures { option_map (found_view (scope_view scope.entry)) result ≡ find_text (scope_view scope.entry) path.now }
{
    if path.is_empty() {
        return Some(Found::Whole);
    }
    match first_name(path) {
        (name, None) => Some(Found::Part(enter(scope, name)?)),
        (name, Some(rest)) => Some(Found::Part(follow(enter(scope, name)?, rest)?)),
    }
}

/// What a path finds: null is the whole scope, a whole number its decimal text.
pub(crate) fn find<'s, 'a>(
    alloc: Global,
    scope: Scope<'s, 'a>,
    path: Seen,
) -> Result<Option<Found<'s, 'a>>, AllocError>
    ensures { IfOk result (λ f. option_map (found_view (scope_view scope.entry)) f ≡ find (scope_view scope.entry) (seen_view path.entry)) }
{
    match path {
        Seen::Null => Ok(Some(Found::Whole)),
        Seen::Text(text) => Ok(find_text(scope, text)),
        Seen::Whole(n) => {
            let text = format!(in alloc; "{n}")?;
            Ok(find_text(scope, text.as_str()))
        }
        _ => Ok(None),
    }
}
