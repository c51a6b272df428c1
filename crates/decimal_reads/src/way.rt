//! The first number in a value that is not whole, and the way to it.
ghost use Rattle.std.specs.Prelude.{◌≡◌, ◌++◌, IfOk, OnOk, option_map, string_bytes};
ghost use Rattle.decimal_reads.specs.Inside.{first_spelling, has_number, inside, inside_items, inside_members, separator_behind, spelling_in_items, spelling_in_members};
ghost use Rattle.decimal_reads.specs.Inside as spec;
ghost use Rattle.flag_text.specs.View.{items_view, members_view, view};

use flag_text::Tree;
use itoa::Buffer;
use logic_values::{seen_tree, spelling_of};
use std::alloc::{AllocError, Global};

/// The spelling of the first number in a tree that is not whole: of the tree itself, or of one that stands in it.
#[cycle(spelling)]
pub(crate) fn first_spelling<'a>(tree: &'a Tree) -> Option<&'a [u8]>
    ensures { option_map (λ s. s.now) result ≡ first_spelling (view tree.entry.now) }
{
    match tree {
        Tree::List(items) => spelling_in_items(items),
        Tree::Object(members) => match spelling_of(seen_tree(tree)) {
            Some(spelling) => Some(spelling),
            None => spelling_in_members(members),
        },
        _ => None,
    }
}

#[cycle(spelling)]
fn spelling_in_items<'a>(items: &'a Vec<Tree>) -> Option<&'a [u8]>
    ensures { option_map (λ s. s.now) result ≡ spelling_in_items (items_view items.entry.now.items) }
{
    for item in items {
        if let Some(spelling) = first_spelling(item) {
            return Some(spelling);
        }
    }
    None
}

#[cycle(spelling)]
fn spelling_in_members<'a>(members: &'a Vec<(String, Tree)>) -> Option<&'a [u8]>
    ensures { option_map (λ s. s.now) result ≡ spelling_in_members (members_view members.entry.now.items) }
{
    for (_, member) in members {
        if let Some(spelling) = first_spelling(member) {
            return Some(spelling);
        }
    }
    None
}

fn has_number(tree: &Tree) -> bool
    ensures { result ≡ has_number (view tree.now) }
{
    first_spelling(tree).is_some()
}

/// The way to the first number in a tree that is not whole, where the path leads to the tree.
pub(crate) fn way_of(alloc: Global, path: &str, tree: &Tree) -> Result<String, AllocError>
    ensures { IfOk result (λ way. string_bytes way ≡ spec.way_of path.now (view tree.now)) }
{
    let mut way = String::from_str(alloc, path)?;
    push_inside(&mut way, separator_behind(path), tree)?;
    Ok(way)
}

fn separator_behind(path: &str) -> &'static str
    ensures { result.now ≡ separator_behind path.now }
{
    if path.is_empty() { "" } else { "." }
}

/// Adds the names on the way to the first such number.
#[cycle(way)]
fn push_inside(way: &mut String, separator: &str, tree: &Tree) -> Result<(), AllocError>
    ensures { OnOk result (string_bytes way.new ≡ string_bytes way.old ++ inside separator.now (view tree.now)) }
{
    match tree {
        Tree::List(items) => push_inside_items(way, separator, items),
        Tree::Object(members) => push_inside_members(way, separator, members),
        _ => Ok(()),
    }
}

#[cycle(way)]
fn push_inside_items(way: &mut String, separator: &str, items: &Vec<Tree>) -> Result<(), AllocError>
    ensures { OnOk result (string_bytes way.new ≡ string_bytes way.old ++ inside_items separator.now (items_view items.now.items) 0) }
{
    for place in 0..items.len() {
        let item = &items[place];
        if has_number(item) {
            push_step(way, separator, Buffer::new().format(place))?;
            return push_inside(way, ".", item);
        }
    }
    Ok(())
}

#[cycle(way)]
fn push_inside_members(
    way: &mut String,
    separator: &str,
    members: &Vec<(String, Tree)>,
) -> Result<(), AllocError>
    ensures { OnOk result (string_bytes way.new ≡ string_bytes way.old ++ inside_members separator.now (members_view members.now.items)) }
{
    for (name, member) in members {
        if has_number(member) {
            push_step(way, separator, name.as_str())?;
            return push_inside(way, ".", member);
        }
    }
    Ok(())
}

fn push_step(way: &mut String, separator: &str, name: &str) -> Result<(), AllocError>
    ensures { OnOk result (string_bytes way.new ≡ string_bytes way.old ++ (separator.now ++ name.now)) }
{
    way.push_str(separator)?;
    way.push_str(name)
}
