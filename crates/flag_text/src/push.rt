//! The texts of texts and of trees, written straight behind what stands before them.
ghost use Rattle.std.specs.Prelude.{◌≡◌, ◌≤◌, ◌++◌, ℕ, true, length, string_bytes, Ok, OnOk, OnErr};
ghost use Rattle.std.specs.List.{list_all};
ghost use Rattle.flag_text.specs.Plain.{is_plain};
ghost use Rattle.flag_text.specs.Printing.{text_of};
ghost use Rattle.flag_text.specs.Reading.{tree_of};
ghost use Rattle.flag_text.specs.Shape.{is_whole, text};
ghost use Rattle.flag_text.specs.View.{view};

use crate::plain::is_all_plain;
use crate::print::print_tree;
use crate::tree::Tree;
use json::Writer;
use std::alloc::{AllocError, Global};
use std::mem;

/// Adds a text as a JSON text to the bytes, as [`print_tree`] writes it, without a tree or a text in between. Where memory
/// runs out the bytes are as they were. Cost: linear in the text.
pub fn push_text(alloc: Global, out: &mut Vec<u8>, content: &str) -> Result<(), AllocError>
    ensures ok { OnOk result (out.new.items ≡ out.old.items ++ text_of (text content.now)) }
    ensures reads_back { OnOk result ((limit : ℕ) → length (text_of (text content.now)) ≤ limit → tree_of (text_of (text content.now)) limit ≡ Ok (text content.now)) }
    ensures err { OnErr result (out.new.items ≡ out.old.items) }
{
    if is_all_plain(content.as_bytes()) {
        push_plain(out, content)
    } else {
        push_escaped(alloc, out, content)
    }
}

/// The same of a text that stands for itself between two quotes. (A writer of tokens fills a room ahead of itself with zeros,
/// which grows with what stands before.)
fn push_plain(out: &mut Vec<u8>, content: &str) -> Result<(), AllocError>
    requires { list_all is_plain content.now ≡ true }
    ensures ok { OnOk result (out.new.items ≡ out.old.items ++ text_of (text content.now)) }
    ensures err { OnErr result (out.new.items ≡ out.old.items) }
{
    out.reserve(content.len() + 2)?;
    out.push(b'"')?;
    out.extend_from_slice(content.as_bytes())?;
    out.push(b'"')?;
    Ok(())
}

/// The same of any text.
fn push_escaped(alloc: Global, out: &mut Vec<u8>, content: &str) -> Result<(), AllocError>
    ensures ok { OnOk result (out.new.items ≡ out.old.items ++ text_of (text content.now)) }
    ensures err { OnErr result (out.new.items ≡ out.old.items) }
{
    let mut writer = Writer::new(mem::replace(out, Vec::new(alloc)));
    let written = writer.string(content);
    *out = writer.into_inner();
    written
}

/// Adds a text as a JSON text to another text, as [`print_tree`] writes it. Where memory runs out the other text is as it was.
/// Cost: linear in the text.
pub fn push_string(alloc: Global, out: &mut String, content: &str) -> Result<(), AllocError>
    ensures ok { OnOk result (string_bytes out.new ≡ string_bytes out.old ++ text_of (text content.now)) }
    ensures err { OnErr result (string_bytes out.new ≡ string_bytes out.old) }
{
    if is_all_plain(content.as_bytes()) {
        push_between_quotes(out, content)
    } else {
        let tree = Tree::Text(String::from_str(alloc, content)?);
        out.push_str(print_tree(alloc, &tree)?.as_str())
    }
}

/// The same of a text that stands for itself between two quotes.
fn push_between_quotes(out: &mut String, content: &str) -> Result<(), AllocError>
    requires { list_all is_plain content.now ≡ true }
    ensures ok { OnOk result (string_bytes out.new ≡ string_bytes out.old ++ text_of (text content.now)) }
    ensures err { OnErr result (string_bytes out.new ≡ string_bytes out.old) }
{
    out.reserve(content.len() + 2)?;
    out.push_str("\"")?;
    out.push_str(content)?;
    out.push_str("\"")?;
    Ok(())
}

/// Adds the compact text of a tree to another text, as [`print_tree`] gives it. Where memory runs out the other text is as it
/// was. The condition is [`Tree::is_whole`].
pub fn push_tree(alloc: Global, out: &mut String, tree: &Tree) -> Result<(), AllocError>
    requires { is_whole (view tree.now) ≡ true }
    ensures ok { OnOk result (string_bytes out.new ≡ string_bytes out.old ++ text_of (view tree.now)) }
    ensures err { OnErr result (string_bytes out.new ≡ string_bytes out.old) }
{
    match tree {
        Tree::Text(content) => push_string(alloc, out, content.as_str()),
        _ => out.push_str(print_tree(alloc, tree)?.as_str()),
    }
}
