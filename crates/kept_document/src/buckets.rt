//! The text of a rule's entries, as they stand in a list of buckets.
ghost use Rattle.std.specs.Prelude.{◌≡◌, ◌<◌, ◌^◌, ◌++◌, pos, false, string_bytes, OnOk, IfOk};
ghost use Rattle.bucket_core.specs.Rule.{total_weight};
ghost use Rattle.flag_text.specs.Shape.{text, whole};
ghost use Rattle.flag_text.specs.View.{view};
ghost use Rattle.logic_ast.specs.Writing.{pair};
ghost use Rattle.kept_document.specs.Kept.{entries_text, entry_text};

use bucket_core::Rule;
use flag_text::{Tree, print_tree};
use std::alloc::{AllocError, Global};

/// Adds the entries to the bytes, with the mark between each two of them.
pub(crate) fn push_entries(
    alloc: Global,
    out: &mut Vec<u8>,
    mark: &[u8],
    rule: &Rule,
) -> Result<(), AllocError>
    requires { total_weight rule.now < 2 ^ 31 }
    ensures { OnOk result (out.new.items ≡ out.old.items ++ entries_text mark.now false rule.now) }
{
    let mut is_first = true;
    for (name, weight) in rule.entries() {
        if !is_first {
            out.extend_from_slice(mark)?;
        }
        push_entry(alloc, out, name, weight)?;
        is_first = false;
    }
    Ok(())
}

/// Adds one entry to the bytes.
fn push_entry(alloc: Global, out: &mut Vec<u8>, name: &str, weight: u64) -> Result<(), AllocError>
    requires { weight < 2 ^ 53 }
    ensures { OnOk result (out.new.items ≡ out.old.items ++ entry_text (name.now, weight)) }
{
    let tree = entry_tree(alloc, name, weight)?;
    let text = print_tree(alloc, &tree)?;
    out.extend_from_slice(text.as_bytes())
}

/// The bucket that an entry is written as.
fn entry_tree(alloc: Global, name: &str, weight: u64) -> Result<Tree, AllocError>
    requires { weight < 2 ^ 53 }
    ensures { IfOk result (λ t. view t ≡ pair (text name.now) (whole (pos weight))) }
{
    let name = String::from_str(alloc, name)?;
    let parts = [Tree::Text(name), Tree::Whole(weight as i64)];
    Ok(Tree::List(Vec::from_array(alloc, parts)?))
}
