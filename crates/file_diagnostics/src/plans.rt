//! Diagnostics of plan files.
ghost use Rattle.std.specs.Prelude.{IfOk, string_bytes};
ghost use Rattle.file_diagnostics.specs.Named.{Names};

use crate::lines::{Lines, Opening};
use crate::looks::look_of_tree;
use crate::texts::of_text;
use flag_text::{Tree, read_tree};
use limits::FILE_BYTES;
use plan_text::{ItemFault, Misfit, PlanFileFault, PlanList};
use std::alloc::{AllocError, Global};

/// Explains why `bytes` are not a plan.
pub fn of_plan_file(
    alloc: Global,
    path: &str,
    bytes: &[u8],
    fault: PlanFileFault,
) -> Result<String, AllocError>
    ensures names { IfOk result (λ s. Names path.now (string_bytes s)) }
{
    let mut lines = Lines::new(alloc);
    write!(lines, " is not a plan: ");
    if fault == PlanFileFault::BadPlan {
        match read_tree(alloc, bytes, FILE_BYTES) {
            Ok(tree) => put_other(&mut lines, &tree),
            Err(fault) => return of_text(alloc, path, bytes, FILE_BYTES, fault),
        }
    } else {
        write!(lines, "{fault}");
    }
    write!(
        lines,
        "\n  give a file that \"flagops plan\" printed; it has at most 67,108,864 bytes\n",
    );
    lines.headed(Opening::Error, path)
}

/// What keeps a tree from being a plan, and what it looks like where it has nothing of one.
fn put_other(lines: &mut Lines, tree: &Tree) {
    put_misfit(lines, tree);
    if tree.member("rule").is_none() && tree.member("none").is_none() {
        if let Some(look) = look_of_tree(tree) {
            write!(lines, "\n  it looks like {look}");
        }
    }
}

/// What keeps a tree from being a plan.
fn put_misfit(lines: &mut Lines, tree: &Tree) {
    match Misfit::of(tree) {
        Some(Misfit::NoObject) => write!(lines, "it is {}", lines.value(tree)),
        Some(Misfit::Plan) => put_member(lines, tree, "plan"),
        Some(Misfit::NoList(list)) => put_member(lines, tree, list.name()),
        Some(Misfit::Cost) => put_member(lines, tree, "cost"),
        Some(Misfit::Item(ItemFault::Misshapen, list, place)) => put_item(lines, list, place),
        _ => write!(
            lines,
            "a list is out of order, or an item has the wrong form"
        ),
    }
}

/// A member that is missing or of another kind.
fn put_member(lines: &mut Lines, tree: &Tree, name: &str) {
    match tree.member(name) {
        Some(value) => write!(lines, "\"{name}\" is {}", lines.value(value)),
        None => write!(lines, "\"{name}\" is missing"),
    }
}

/// An item that is not of the form of its list.
fn put_item(lines: &mut Lines, list: PlanList, place: usize) {
    let name = list.name();
    let form = match list {
        PlanList::Names => "the name of a variant",
        PlanList::Alpha => "[VARIANT,USERS,n]",
        PlanList::Beta => "[VARIANT,n]",
        PlanList::Buckets => "a bucket [VARIANT,WEIGHT]",
    };
    write!(lines, "{name}[{place}] is not {form}");
}
