//! What a variable reads.
ghost use Rattle.std.specs.Prelude.{◌≡◌, IfOk, option_and_then, option_map, string_bytes};
ghost use Rattle.flag_text.specs.View.{view};
ghost use Rattle.logic_ast.specs.Sites.{preorder_in};
ghost use Rattle.logic_ast.specs.View.{nodes_view};
ghost use Rattle.logic_eval.specs.Parts.{AreInspected, inspected};
ghost use Rattle.logic_eval.specs.Scope.{root_scope};
ghost use Rattle.decimal_reads.specs.Reads.{path_in, read_at, read_by, read_view, unless_compared};

use crate::reading::DecimalRead;
use crate::way::{first_spelling, way_of};
use flag_text::Tree;
use logic_ast::Node;
use logic_eval::{EvalFault, Inspection};
use logic_values::{is_readable, seen_tree};
use std::alloc::{AllocError, Global};

/// What a variable of these arguments reads, each of which gives a value.
#[tactic(auto, using(logic_eval::proofs::Within::in_nodes))]
pub(crate) fn read_by(
    alloc: Global,
    inspection: &Inspection,
    arguments: &Vec<Node>,
    tested: bool,
) -> Result<Option<DecimalRead>, AllocError>
    requires known { AreInspected inspection.now (preorder_in (nodes_view arguments.now.items)) }
    ensures { IfOk result (λ r. option_map read_view r ≡ read_by tested (inspected inspection.now) (nodes_view arguments.now.items)) }
{
    if arguments.is_empty() {
        return read_at(alloc, inspection, "", tested);
    }
    match inspection.eval(alloc, &arguments[0], false) {
        Ok((value, _)) => read_by_value(alloc, inspection, value, tested),
        Err(EvalFault::WantOfMemory) => Err(AllocError),
        Err(_) => Ok(None),
    }
}

/// What a variable reads whose first argument gives this value.
fn read_by_value(
    alloc: Global,
    inspection: &Inspection,
    value: Tree,
    tested: bool,
) -> Result<Option<DecimalRead>, AllocError>
    ensures { IfOk result (λ r. option_map read_view r ≡ option_and_then (read_at tested (root_scope (inspected inspection.now))) (path_in (view value))) }
{
    match value {
        Tree::Null => read_at(alloc, inspection, "", tested),
        Tree::Text(path) => read_at(alloc, inspection, path.as_str(), tested),
        Tree::Whole(n) => {
            let path = format!(in alloc; "{n}")?;
            read_at(alloc, inspection, path.as_str(), tested)
        }
        _ => Ok(None),
    }
}

/// The first such number in what a path leads to.
fn read_at(
    alloc: Global,
    inspection: &Inspection,
    path: &str,
    tested: bool,
) -> Result<Option<DecimalRead>, AllocError>
    ensures { IfOk result (λ r. option_map read_view r ≡ read_at tested (root_scope (inspected inspection.now)) path.now) }
{
    if path.is_empty() {
        let whole = inspection.whole(alloc)?;
        return unless_compared(alloc, path, tested, &whole);
    }
    let flagd = inspection.flagd(alloc)?;
    match inspection.found(&flagd, path) {
        Some(value) => unless_compared(alloc, path, tested, value),
        None => Ok(None),
    }
}

/// The same in the value that the path leads to, unless this is such a number itself and may be compared or tested.
fn unless_compared(
    alloc: Global,
    path: &str,
    tested: bool,
    value: &Tree,
) -> Result<Option<DecimalRead>, AllocError>
    ensures { IfOk result (λ r. option_map read_view r ≡ unless_compared tested path.now (view value.now)) }
{
    if tested && is_readable(seen_tree(value)) {
        return Ok(None);
    }
    let Some(spelling) = first_spelling(value) else {
        return Ok(None);
    };
    Ok(Some(DecimalRead {
        way: way_of(alloc, path, value)?,
        spelling: Vec::from_slice(alloc, spelling)?,
    }))
}
