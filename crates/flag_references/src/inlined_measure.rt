//! Measuring a tree with a measure in the place of each reference.
ghost use Rattle.std.specs.Prelude.{◌≡◌, ℕ, List, Option, Some, IfSome, option_map};
ghost use Rattle.flag_text.specs.Shape.{whole, text, list, item, no_items};
ghost use Rattle.flag_text.specs.View.{view, items_view, members_view};
ghost use Rattle.flag_references.specs.Measure.{known, measure, measured, object_measured, parts_measured, members_measured, both, list_measure, literal_measure, no_parts, item_in_front, member_in_front, operation_reading, operation_measure, takes_count};
ghost use Rattle.flag_references.specs.Extent.{extent, parts_extent};

use crate::extent::{Extent, extent_of, object_of, scalar_extent, takes_count};
use crate::measure::{Measure, Parts, Reading, capped, member_in_front, plus};
use crate::references::{is_reference_name, reference_of};
use crate::table::Table;
use bucket_core::MAX_TOTAL;
use flag_text::{Tree, is_in_range, position_of};
use logic_ast::is_fractional;

/// What is known of the evaluator of this name.
pub(crate) fn known(table: &Table<'_>, name: &str) -> Option<Measure>
    ensures { result ≡ known (members_view table.now.members) table.now.measures name.now }
{
    match position_of(table.members, name) {
        Some(i) => table.measures[i],
        None => None,
    }
}

/// The measure of a tree, where that of each reference in it is known.
#[cycle(measured)]
pub(crate) fn measured(tree: &Tree, table: &Table<'_>) -> Option<Measure>
    ensures { result ≡ measured (known (members_view table.now.members) table.now.measures) (view tree.now) }
{
    match tree {
        Tree::Null | Tree::Bool(_) => Some(Measure::scalar(true, false, false, 0)),
        Tree::Whole(n) => Some(whole_measure(*n)),
        Tree::Other => Some(Measure::scalar(false, false, false, 0)),
        Tree::Text(text) => Some(text_measure(text.as_str())),
        Tree::List(items) => match bucket_measure(items.as_slice()) {
            Some(measure) => Some(measure),
            None => list_measured(items, table),
        },
        Tree::Object(members) => match reference_of(members.as_slice()) {
            Some(name) => known(table, name),
            None => object_measured(members, table),
        },
    }
}

/// The extent of a tree, by the same measures.
#[cycle(measured)]
fn extent_measured(tree: &Tree, table: &Table<'_>) -> Option<Extent>
    ensures { result ≡ option_map extent (measured (known (members_view table.now.members) table.now.measures) (view tree.now)) }
{
    match tree {
        Tree::Null | Tree::Bool(_) | Tree::Whole(_) | Tree::Other | Tree::Text(_) => {
            scalar_extent(tree)
        }
        Tree::List(items) => Some(items_extent(items, table)?.list()),
        Tree::Object(members) => match reference_of(members.as_slice()) {
            Some(name) => extent_of(known(table, name)),
            None => object_extent(members, table),
        },
    }
}

/// The same of an item, where a scalar costs no recursion.
#[cycle(measured)]
fn item_extent(item: &Tree, table: &Table<'_>) -> Option<Extent>
    ensures { result ≡ option_map extent (measured (known (members_view table.now.members) table.now.measures) (view item.now)) }
{
    match scalar_extent(item) {
        Some(extent) => Some(extent),
        None => extent_measured(item, table),
    }
}

/// The extent of the items of a list, together.
#[cycle(measured)]
fn items_extent(items: &Vec<Tree>, table: &Table<'_>) -> Option<Extent>
    ensures { result ≡ option_map parts_extent (parts_measured (known (members_view table.now.members) table.now.measures) (items_view items.now.items)) }
{
    let mut parts = Extent::NOTHING;
    for i in 0..items.len() {
        let item = item_extent(&items[i], table)?;
        parts = parts.beside(item);
    }
    Some(parts)
}

/// The extent of an object that is no reference.
#[cycle(measured)]
fn object_extent(members: &Vec<(String, Tree)>, table: &Table<'_>) -> Option<Extent>
    ensures { result ≡ option_map extent (object_measured (known (members_view table.now.members) table.now.measures) (members_view members.now.items)) }
{
    if members.len() == 1 {
        let (name, member) = &members[0];
        return operation_extent(name.as_str(), member, table);
    }
    extent_of(literal_measured(members, table))
}

/// The extent of an object of one member. Of the arguments of `fractional` more has to be known than of others.
#[cycle(measured)]
fn operation_extent(name: &str, member: &Tree, table: &Table<'_>) -> Option<Extent>
    ensures { result ≡ option_map extent (option_map (operation_measure name.now) (measured (known (members_view table.now.members) table.now.measures) (view member.now))) }
{
    if is_fractional(name) {
        return extent_of(operation_measure(name, measured(member, table)));
    }
    match member {
        Tree::List(items) => Some(items_extent(items, table)?.operation(name, items.len())),
        _ => extent_of(operation_measure(name, measured(member, table))),
    }
}

#[cycle(measured)]
fn list_measured(items: &Vec<Tree>, table: &Table<'_>) -> Option<Measure>
    ensures { result ≡ measured (known (members_view table.now.members) table.now.measures) (list (items_view items.now.items)) }
{
    let mut parts = Some(Parts::NONE);
    // From the back, as the definition adds them up: it folds from the right.
    for i in (0..items.len()).rev() {
        let item = measured(&items[i], table);
        parts = item_in_front(item, parts);
    }
    list_measure(items.len(), parts)
}

#[cycle(measured)]
fn object_measured(members: &Vec<(String, Tree)>, table: &Table<'_>) -> Option<Measure>
    ensures { result ≡ object_measured (known (members_view table.now.members) table.now.measures) (members_view members.now.items) }
{
    if members.len() == 1 {
        let (name, member) = &members[0];
        return object_of(operation_extent(name.as_str(), member, table));
    }
    literal_measured(members, table)
}

/// The measure of an object that is a literal.
#[cycle(measured)]
fn literal_measured(members: &Vec<(String, Tree)>, table: &Table<'_>) -> Option<Measure>
    ensures { result ≡ option_map literal_measure (members_measured (known (members_view table.now.members) table.now.measures) (members_view members.now.items)) }
{
    let mut all = Some((Reading::NOTHING, 0));
    // From the back, as above.
    for i in (0..members.len()).rev() {
        let (name, member) = &members[i];
        let measure = measured(member, table);
        all = front_member(name.as_str(), measure, all);
    }
    literal_measure(all)
}

fn list_measure(count: usize, parts: Option<Parts>) -> Option<Measure>
    ensures { result ≡ option_map (list_measure count) parts }
{
    match parts {
        Some(parts) => Some(Measure::list(count, parts)),
        None => None,
    }
}

fn literal_measure(all: Option<(Reading, u32)>) -> Option<Measure>
    ensures { result ≡ option_map literal_measure all }
{
    match all {
        Some(all) => Some(Measure::literal(all)),
        None => None,
    }
}

fn operation_measure(name: &str, measure: Option<Measure>) -> Option<Measure>
    ensures { result ≡ option_map (operation_measure name.now) measure }
{
    match measure {
        Some(measure) => Some(operation(name, measure)),
        None => None,
    }
}

fn item_in_front(item: Option<Measure>, parts: Option<Parts>) -> Option<Parts>
    ensures { result ≡ both item_in_front item parts }
{
    match (item, parts) {
        (Some(item), Some(parts)) => Some(parts.with_front(item)),
        _ => None,
    }
}

fn front_member(
    name: &str,
    measure: Option<Measure>,
    rest: Option<(Reading, u32)>,
) -> Option<(Reading, u32)>
    ensures { result ≡ both (member_in_front name.now) measure rest }
{
    match (measure, rest) {
        (Some(measure), Some(rest)) => Some(member_in_front(name, measure, rest)),
        _ => None,
    }
}

/// Of an object of one member.
fn operation(name: &str, measure: Measure) -> Measure
    ensures { result ≡ operation_measure name.now measure }
{
    let is_reference = is_reference_name(name) && measure.is_text;
    let full = measure.full.when(!is_reference).around();
    let expression = operation_reading(name, measure).around().around();
    let length = capped(name.len());
    Measure::object(full, expression, plus(length, measure.bytes))
}

fn operation_reading(name: &str, measure: Measure) -> Reading
    ensures { result ≡ operation_reading name.now measure }
{
    if is_fractional(name) {
        return measure.site;
    }
    let takes = takes_count(name, measure.argument_count);
    measure.arguments.when(takes)
}

fn whole_measure(n: i64) -> Measure
    ensures { result ≡ measure (whole n) }
{
    let is_weight = 0 <= n && n <= i64::from(MAX_TOTAL);
    Measure::scalar(is_in_range(n), false, is_weight, 0)
}

/// The measure of a list of a name and a weight, as buckets mostly are written.
fn bucket_measure(items: &[Tree]) -> Option<Measure>
    ensures { IfSome result (λ m. (refer : List ℕ → Option Measure) → measured refer (list (items_view items.now)) ≡ Some m) }
{
    match items {
        [name, weight] => pair_measure(name, weight),
        _ => None,
    }
}

fn pair_measure(name: &Tree, weight: &Tree) -> Option<Measure>
    ensures { IfSome result (λ m. (refer : List ℕ → Option Measure) → measured refer (list (item (view name.now) (item (view weight.now) no_items))) ≡ Some m) }
{
    match (name, weight) {
        (Tree::Text(name), Tree::Whole(weight)) => Some(weighted(name.as_str(), *weight)),
        _ => None,
    }
}

fn weighted(name: &str, weight: i64) -> Measure
    ensures { result ≡ list_measure 2 (item_in_front (measure (text name.now)) (item_in_front (measure (whole weight)) no_parts)) }
{
    let parts = Parts::NONE.with_front(whole_measure(weight));
    Measure::list(2, parts.with_front(text_measure(name)))
}

fn text_measure(content: &str) -> Measure
    ensures { result ≡ measure (text content.now) }
{
    Measure::scalar(true, true, false, plus(capped(content.len()), 1))
}
