//! From an object to what the second line of a tally says.
ghost use Rattle.std.specs.Prelude.{◌≡◌, ◌++◌, ◌∷◌, [], codes, option_map, option_and_then, ◌<◌, ◌^◌, IfOk, IfSome};
ghost use Rattle.flag_text.specs.View.{view};
ghost use Rattle.flag_text.specs.Readers.{member_of};
ghost use Rattle.book_core.specs.Reading.{site_of};
ghost use Rattle.note_tallies.specs.Reading.{IsBounded};
ghost use Rattle.note_tallies.specs.Members.{head_of_shape, number_of_shape, end_of_shape};

use crate::head::Head;
use book_core::{page_in, site_of};
use flag_text::{MAX_WHOLE, Tree};
use std::alloc::{AllocError, Global};

/// What an object says.
pub(crate) fn tree_head(alloc: Global, tree: &Tree) -> Result<Option<Head>, AllocError>
    ensures head { IfOk result (λ head. head ≡ head_of_shape (view tree.now)) }
    ensures bounded { IfOk result (λ head. IfSome head IsBounded) }
{
    let Some(page) = page_in(alloc, tree)? else {
        return Ok(None);
    };
    let Some(total) = total_in(tree) else {
        return Ok(None);
    };
    let Some(inputs) = inputs_in(tree) else {
        return Ok(None);
    };
    let Some(first) = end_in(alloc, tree, "first")? else {
        return Ok(None);
    };
    let Some(last) = end_in(alloc, tree, "last")? else {
        return Ok(None);
    };
    Ok(Some(Head {
        page,
        total,
        first,
        last,
        inputs,
    }))
}

fn total_in(tree: &Tree) -> Option<u32>
    ensures { result ≡ option_and_then site_of (member_of (codes "total") (view tree.now)) }
{
    site_of(tree.member("total")?)
}

fn inputs_in(tree: &Tree) -> Option<u64>
    ensures number { result ≡ option_and_then number_of_shape (member_of (codes "inputs") (view tree.now)) }
    ensures small { IfSome result (λ n. n < 2 ^ 53) }
{
    match tree.member("inputs")? {
        Tree::Whole(n) if 0 <= *n && *n <= MAX_WHOLE as i64 => Some(*n as u64),
        _ => None,
    }
}

/// The line at one end, where the member is a text, and none where it is null.
fn end_in(alloc: Global, tree: &Tree, name: &str) -> Result<Option<Option<Vec<u8>>>, AllocError>
    ensures { IfOk result (λ end. option_map (option_map (λ v. v.items)) end ≡ option_and_then end_of_shape (member_of name.now (view tree.now))) }
{
    let Some(end) = tree.member(name) else {
        return Ok(None);
    };
    match end {
        Tree::Null => Ok(Some(None)),
        Tree::Text(text) => Ok(Some(Some(ended(alloc, text.as_str())?))),
        _ => Ok(None),
    }
}

/// The bytes of a text and a line feed.
fn ended(alloc: Global, text: &str) -> Result<Vec<u8>, AllocError>
    ensures { IfOk result (λ line. line.items ≡ text.now ++ 10 ∷ []) }
{
    let mut line = Vec::with_capacity(alloc, text.len() + 1)?;
    line.extend_from_slice(text.as_bytes())?;
    line.push(b'\n')?;
    Ok(line)
}
