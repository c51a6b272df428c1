//! From a note to its line.
ghost use Rattle.std.specs.Prelude.{◌≡◌, ◌<◌, ◌≤◌, ◌^◌, length, true, IfOk, IfSome, OnOk};
ghost use Rattle.std.specs.Str.{IsUtf8};
ghost use Rattle.flag_text.specs.Shape.{is_whole};
ghost use Rattle.flag_text.specs.View.{view};
ghost use Rattle.book_core.specs.Printing.{by_shape, line_text};
ghost use Rattle.note_lines.specs.Note.{IsNote, most_noted, note_line, parts_shape};

use book_core::Page;
use flag_text::{Tree, print_tree};
use std::alloc::{AllocError, Global};

/// The line of a note: the compact JSON text `[FLAG,SITE,BY,INPUT]` and a line feed. Where the input has at most 1,024
/// bytes it reads as the note. Want of memory is its one fault.
#[tactic(auto, unfolding(book_core::specs::Note::note_line))]
pub fn note_line(alloc: Global, page: &Page, input: &str) -> Result<Vec<u8>, AllocError>
    ensures text { IfOk result (λ line. line.items ≡ note_line (record { page = page.now; input = input.now })) }
    ensures note { OnOk result (length input.now ≤ most_noted → IsNote (record { page = page.now; input = input.now })) }
{
    let last = Tree::Text(String::from_str(alloc, input)?);
    line_with(alloc, page, last)
}

/// The line `[FLAG,SITE,BY,LAST]` with this last part.
pub(crate) fn line_with(alloc: Global, page: &Page, last: Tree) -> Result<Vec<u8>, AllocError>
    requires { is_whole (view last) ≡ true }
    ensures text { IfOk result (λ line. line.items ≡ line_text (parts_shape page.now (view last))) }
    ensures flag { OnOk result (IsUtf8 page.now.flag) }
    ensures site { OnOk result (page.now.site < 2 ^ 32) }
    ensures by { OnOk result (IfSome page.now.by IsUtf8) }
{
    let tree = parts_tree(alloc, page, last)?;
    let mut line = print_tree(alloc, &tree)?.into_bytes();
    line.push(b'\n')?;
    Ok(line)
}

/// The list `[FLAG,SITE,BY,LAST]`.
fn parts_tree(alloc: Global, page: &Page, last: Tree) -> Result<Tree, AllocError>
    ensures tree { IfOk result (λ tree. view tree ≡ parts_shape page.now (view last)) }
    ensures flag { OnOk result (IsUtf8 page.now.flag) }
    ensures site { OnOk result (page.now.site < 2 ^ 32) }
    ensures by { OnOk result (IfSome page.now.by IsUtf8) }
{
    let site = Tree::Whole(i64::from(page.site));
    let flag = Tree::Text(String::from_str(alloc, page.flag.as_str())?);
    let by = by_tree(alloc, page)?;
    let parts = Vec::from_array(alloc, [flag, site, by, last])?;
    Ok(Tree::List(parts))
}

fn by_tree(alloc: Global, page: &Page) -> Result<Tree, AllocError>
    ensures tree { IfOk result (λ tree. view tree ≡ by_shape page.now.by) }
    ensures text { OnOk result (IfSome page.now.by IsUtf8) }
{
    match &page.by {
        None => Ok(Tree::Null),
        Some(text) => Ok(Tree::Text(String::from_str(alloc, text.as_str())?)),
    }
}
