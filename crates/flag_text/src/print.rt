//! From a tree to its text.
ghost use Rattle.std.specs.Prelude.{◌≡◌, ◌≤◌, ◌++◌, ℕ, true, length, string_bytes, Ok, IfOk, OnOk};
ghost use Rattle.json.specs.Tree.{json_tokens, items_tokens, members_tokens};
ghost use Rattle.flag_text.specs.Grammar.{written, items_written, members_written};
ghost use Rattle.flag_text.specs.Printing.{text_of};
ghost use Rattle.flag_text.specs.Reading.{tree_of, max_levels};
ghost use Rattle.flag_text.specs.Shape.{is_whole, levels};
ghost use Rattle.flag_text.specs.View.{view, items_view, members_view};

use crate::tree::Tree;
use json::Writer;
use std::alloc::{AllocError, Global};

#[cycle(write)]
fn write(tree: &Tree, out: &mut Writer) -> Result<(), AllocError>
    ensures ok { OnOk result (out.new.tokens ≡ out.old.tokens ++ json_tokens (written (view tree.now))) }
    ensures before { out.new.before ≡ out.old.before }
{
    match tree {
        Tree::Null | Tree::Other => out.null(),
        Tree::Bool(b) => out.boolean(*b),
        Tree::Whole(n) => out.i64(*n),
        Tree::Text(text) => out.string(text.as_str()),
        Tree::List(items) => {
            out.begin_array()?;
            write_items(items, out)
        }
        Tree::Object(members) => {
            out.begin_object()?;
            write_members(members, out)
        }
    }
}

#[cycle(write)]
fn write_items(items: &Vec<Tree>, out: &mut Writer) -> Result<(), AllocError>
    ensures ok { OnOk result (out.new.tokens ≡ out.old.tokens ++ items_tokens (items_written (items_view items.now.items))) }
    ensures before { out.new.before ≡ out.old.before }
{
    for item in items {
        write(item, out)?;
    }
    out.end_array()
}

#[cycle(write)]
fn write_members(members: &Vec<(String, Tree)>, out: &mut Writer) -> Result<(), AllocError>
    ensures ok { OnOk result (out.new.tokens ≡ out.old.tokens ++ members_tokens (members_written (members_view members.now.items))) }
    ensures before { out.new.before ≡ out.old.before }
{
    for (name, member) in members {
        out.key(name.as_str())?;
        write(member, out)?;
    }
    out.end_object()
}

/// The compact text of a tree: no blanks, members in their order, and in texts the escapes of
/// `serde_json`. A tree of at most 120 levels reads back from it.
///
/// It fails only where memory runs out. The condition is [`Tree::is_whole`].
pub fn print_tree(alloc: Global, tree: &Tree) -> Result<String, AllocError>
    requires { is_whole (view tree.now) ≡ true }
    ensures text { IfOk result (λ s. string_bytes s ≡ text_of (view tree.now)) }
    ensures reads_back { IfOk result (λ s. (limit : ℕ) → levels (view tree.now) ≤ max_levels
        → length (string_bytes s) ≤ limit → tree_of (string_bytes s) limit ≡ Ok (view tree.now)) }
{
    let mut out = Writer::new(Vec::with_capacity(alloc, 128)?);
    write(tree, &mut out)?;
    Ok(String::from_utf8(out.into_inner()).unwrap())
}
