//! The second line of a tally.
ghost use Rattle.std.specs.Prelude.{◌≡◌, ◌≢◌, ◌++◌, ◌∷◌, ◌<◌, ◌^◌, ◌↔◌, ℕ, List, pos, codes, true, length, string_bytes, option_map, IfOk, IfSome, IsTrue, MatchOption, Ok, OnOk};
ghost use Rattle.flag_text.specs.Printing.{text_of};
ghost use Rattle.flag_text.specs.Reading.{tree_of};
ghost use Rattle.flag_text.specs.Shape.{Shape, text, whole};
ghost use Rattle.flag_text.specs.View.{view};
ghost use Rattle.book_core.specs.Printing.{Reads, by_shape, line_text};
ghost use Rattle.note_tallies.specs.Ends.{IsTextLine};
ghost use Rattle.note_tallies.specs.File.{Head, head_shape, object_of};
ghost use Rattle.note_tallies.specs.Reading.{IsAllowed, IsBounded, IsHead};

use crate::MOST_POINTS;
use crate::cut::cut;
use crate::ends::{are_ends, end_tree};
use crate::members::tree_head;
use book_core::Page;
use flag_text::{TextFault, Tree, print_tree, read_tree};
use std::alloc::{AllocError, Global};
use std::marker::Model;

/// What the second line says.
#[derive(Drop)]
pub(crate) struct Head {
    pub(crate) page: Page,
    pub(crate) total: u32,
    pub(crate) first: Option<Vec<u8>>,
    pub(crate) last: Option<Vec<u8>>,
    pub(crate) inputs: u64,
}

impl Model for Head {
    ghost use Rattle.std.specs.Prelude.{option_map};
    ghost use Rattle.note_tallies.specs.File.{Head as Said};

    ghost Value = { Said };

    ghost view = { λ h. record { page = h.page; total = h.total; first = option_map (λ v. v.items) h.first; last = option_map (λ v. v.items) h.last; inputs = h.inputs } };
}

/// Takes the second line from the bytes that it stands first in.
pub(crate) fn take_head<'a>(
    alloc: Global,
    bytes: &'a [u8],
) -> Result<Option<(Head, &'a [u8])>, AllocError>
    ensures { IfOk result (λ r. MatchOption r
        ((h : Head) (more : List ℕ) → IsHead h → bytes.now ≢ line_text (head_shape h) ++ more)
        (λ r. IsHead r.0 × (bytes.now ≡ line_text (head_shape r.0) ++ r.1.now))) }
{
    let Some((line, rest)) = cut(bytes) else {
        return Ok(None);
    };
    match read_head(alloc, line)? {
        None => Ok(None),
        Some(head) => Ok(Some((head, rest))),
    }
}

/// What the second line says, without its line feed.
fn read_head(alloc: Global, line: &[u8]) -> Result<Option<Head>, AllocError>
    ensures { IfOk result (λ r. MatchOption r
        ((h : Head) → IsHead h → line.now ≢ text_of (head_shape h))
        (λ h. IsHead h × (line.now ≡ text_of (head_shape h)))) }
{
    let Some(tree) = tree_in(alloc, line)? else {
        return Ok(None);
    };
    let Some(head) = tree_head(alloc, &tree)? else {
        return Ok(None);
    };
    if !head.is_allowed(alloc)? {
        return Ok(None);
    }
    if head.has_text(alloc, line)? {
        Ok(Some(head))
    } else {
        Ok(None)
    }
}

/// The tree of a text, where it has one.
fn tree_in(alloc: Global, text: &[u8]) -> Result<Option<Tree>, AllocError>
    ensures { IfOk result (λ r. MatchOption r ((tree : Shape) → tree_of text.now (length text.now) ≢ Ok tree) (λ tree. tree_of text.now (length text.now) ≡ Ok (view tree))) }
{
    match read_tree(alloc, text, text.len()) {
        Ok(tree) => Ok(Some(tree)),
        Err(TextFault::WantOfMemory) => Err(AllocError),
        Err(_) => Ok(None),
    }
}

impl Head {
    /// Whether the total is one, and the lines are those of as many inputs of the page.
    fn is_allowed(&self, alloc: Global) -> Result<bool, AllocError>
        ensures { IfOk result (λ is. IsTrue is ↔ IsAllowed self.now) }
    {
        if self.total == 0 || self.total > MOST_POINTS {
            return Ok(false);
        }
        are_ends(alloc, &self.page, self.inputs, &self.first, &self.last)
    }

    /// Whether this is printed as these bytes.
    fn has_text(&self, alloc: Global, bytes: &[u8]) -> Result<bool, AllocError>
        requires bounded { IsBounded self.now }
        requires allowed { IsAllowed self.now }
        ensures text { IfOk result (λ same. IsTrue same ↔ (bytes.now ≡ text_of (head_shape self.now))) }
        ensures reads { OnOk result (Reads (head_shape self.now)) }
    {
        let text = head_text(
            alloc,
            &self.page,
            self.total,
            &self.first,
            &self.last,
            self.inputs,
        )?;
        Ok(text.as_bytes() == bytes)
    }
}

/// The text of the second line.
pub(crate) fn head_text(
    alloc: Global,
    page: &Page,
    total: u32,
    first: &Option<Vec<u8>>,
    last: &Option<Vec<u8>>,
    inputs: u64,
) -> Result<String, AllocError>
    requires first { IfSome first.now (λ v. IsTextLine v.items) }
    requires last { IfSome last.now (λ v. IsTextLine v.items) }
    requires inputs { inputs < 2 ^ 53 }
    ensures text { IfOk result (λ text. string_bytes text ≡ text_of (head_shape (record { page = page.now; total = total; first = option_map (λ v. v.items) first.now; last = option_map (λ v. v.items) last.now; inputs = inputs }))) }
    ensures reads { OnOk result (Reads (head_shape (record { page = page.now; total = total; first = option_map (λ v. v.items) first.now; last = option_map (λ v. v.items) last.now; inputs = inputs }))) }
    ensures site { OnOk result (page.now.site < 2 ^ 32) }
{
    let first = end_tree(alloc, first)?;
    let last = end_tree(alloc, last)?;
    let tree = head_tree(alloc, page, u64::from(total), first, last, inputs)?;
    print_tree(alloc, &tree)
}

/// The object of the second line, with these texts of the first and the last line.
fn head_tree(
    alloc: Global,
    page: &Page,
    total: u64,
    first: Tree,
    last: Tree,
    inputs: u64,
) -> Result<Tree, AllocError>
    requires total { total < 2 ^ 53 }
    requires inputs { inputs < 2 ^ 53 }
    ensures tree { IfOk result (λ tree. view tree ≡ object_of page.now (view first) (pos inputs) (view last) (pos total)) }
    ensures site { OnOk result (page.now.site < 2 ^ 32) }
{
    let members = [
        by_member(alloc, page)?,
        member(alloc, "first", first)?,
        flag_member(alloc, page)?,
        whole_member(alloc, "inputs", inputs)?,
        member(alloc, "last", last)?,
        site_member(alloc, page)?,
        whole_member(alloc, "total", total)?,
    ];
    Ok(Tree::Object(Vec::from_array(alloc, members)?))
}

fn by_member(alloc: Global, page: &Page) -> Result<(String, Tree), AllocError>
    ensures name { IfOk result (λ m. string_bytes m.0 ≡ codes "by") }
    ensures tree { IfOk result (λ m. view m.1 ≡ by_shape page.now.by) }
{
    let by = by_tree(alloc, page)?;
    member(alloc, "by", by)
}

fn flag_member(alloc: Global, page: &Page) -> Result<(String, Tree), AllocError>
    ensures name { IfOk result (λ m. string_bytes m.0 ≡ codes "flag") }
    ensures tree { IfOk result (λ m. view m.1 ≡ text page.now.flag) }
{
    let flag = Tree::Text(String::from_str(alloc, page.flag.as_str())?);
    member(alloc, "flag", flag)
}

fn site_member(alloc: Global, page: &Page) -> Result<(String, Tree), AllocError>
    ensures name { IfOk result (λ m. string_bytes m.0 ≡ codes "site") }
    ensures tree { IfOk result (λ m. view m.1 ≡ whole (pos page.now.site)) }
    ensures small { page.now.site < 2 ^ 32 }
{
    let site = Tree::Whole(i64::from(page.site));
    member(alloc, "site", site)
}

fn whole_member(alloc: Global, name: &str, n: u64) -> Result<(String, Tree), AllocError>
    requires { n < 2 ^ 53 }
    ensures name { IfOk result (λ m. string_bytes m.0 ≡ name.now) }
    ensures tree { IfOk result (λ m. view m.1 ≡ whole (pos n)) }
{
    member(alloc, name, Tree::Whole(n as i64))
}

/// A member of an object.
fn member(alloc: Global, name: &str, tree: Tree) -> Result<(String, Tree), AllocError>
    ensures name { IfOk result (λ m. string_bytes m.0 ≡ name.now) }
    ensures tree { IfOk result (λ m. view m.1 ≡ view tree) }
{
    Ok((String::from_str(alloc, name)?, tree))
}

fn by_tree(alloc: Global, page: &Page) -> Result<Tree, AllocError>
    ensures { IfOk result (λ tree. view tree ≡ by_shape page.now.by) }
{
    match &page.by {
        None => Ok(Tree::Null),
        Some(text) => Ok(Tree::Text(String::from_str(alloc, text.as_str())?)),
    }
}
