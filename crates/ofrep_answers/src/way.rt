//! The way to what nests too deep in a context.
ghost use Rattle.std.specs.Prelude.{◌≡◌, ◌++◌, codes, IfOk, option_map, string_bytes};
ghost use Rattle.flag_text.specs.View.{view, items_view, members_view};
ghost use Rattle.ofrep_answers.specs.Way.{joined, way_in_items, way_in_members, way_to};

use flag_text::Tree;
use spelled_numbers::stands_for_number;
use std::alloc::{AllocError, Global};

/// The most bytes of a way.
const MAX_WAY: usize = 200;

/// What stands for the rest of a way that is too long.
const REST: &str = "..";

/// The way to the first list or object in the tree that stands within so many others, in at most 200 bytes: its first bytes and `..`
/// where it is longer. An object that stands for a number is none.
#[cycle(way)]
pub(crate) fn way_to(alloc: Global, levels: u32, tree: &Tree) -> Result<Option<String>, AllocError>
    ensures { IfOk result (λ way. option_map string_bytes way ≡ way_to levels (view tree.now)) }
{
    match tree {
        _ if stands_for_number(tree) => Ok(None),
        Tree::List(_) if levels == 0 => Ok(Some(String::new(alloc))),
        Tree::Object(_) if levels == 0 => Ok(Some(String::new(alloc))),
        Tree::List(items) => way_in_items(alloc, levels - 1, items),
        Tree::Object(members) => way_in_members(alloc, levels - 1, members),
        _ => Ok(None),
    }
}

#[cycle(way)]
fn way_in_items(alloc: Global, levels: u32, items: &Vec<Tree>) -> Result<Option<String>, AllocError>
    ensures { IfOk result (λ way. option_map string_bytes way ≡ way_in_items levels (items_view items.now.items) 0) }
{
    for place in 0..items.len() {
        if let Some(rest) = way_to(alloc, levels, &items[place])? {
            let step = format!(in alloc; "[{place}]")?;
            return Ok(Some(joined(step, rest)?));
        }
    }
    Ok(None)
}

#[cycle(way)]
fn way_in_members(
    alloc: Global,
    levels: u32,
    members: &Vec<(String, Tree)>,
) -> Result<Option<String>, AllocError>
    ensures { IfOk result (λ way. option_map string_bytes way ≡ way_in_members levels (members_view members.now.items)) }
{
    for (name, member) in members {
        if let Some(rest) = way_to(alloc, levels, member)? {
            let step = format!(in alloc; ".{name}")?;
            return Ok(Some(joined(step, rest)?));
        }
    }
    Ok(None)
}

/// A step and the way behind it.
fn joined(mut step: String, rest: String) -> Result<String, AllocError>
    ensures { IfOk result (λ way. string_bytes way ≡ joined (string_bytes step) (string_bytes rest)) }
{
    if step.len() + rest.len() <= MAX_WAY {
        step.push_str(rest.as_str())?;
        return Ok(step);
    }
    if step.len() + REST.len() > MAX_WAY {
        step.clear();
    }
    step.push_str(REST)?;
    Ok(step)
}
