//! The note lines of what an evaluation reached.
ghost use Rattle.std.specs.Prelude.{◌≡◌, ◌∷◌, [], ◌++◌, map, option_map, IfOk, OnOk};
ghost use Rattle.flag_defs.specs.Flags.{flags_view};
ghost use Rattle.logic_ast.specs.Expr.{view};
ghost use Rattle.logic_eval.specs.Views.{reach_view};
ghost use Rattle.library_seat.specs.LinesView.{lines_view};
ghost use Rattle.library_seat.specs.Lines.{line_of, lines_in, lines_of, targeting_of};

use book_core::Page;
use flag_defs::Flags;
use limits::INPUT_BYTES;
use logic_ast::{Expr, LogicFault};
use logic_eval::Reached;
use note_lines::note_line;
use std::alloc::{AllocError, Global};

/// The note lines of what the evaluation of a flag reached, in its order.
pub(crate) fn lines_of(
    alloc: Global,
    flags: Option<&Flags>,
    key: &str,
    reached: &[Reached],
) -> Result<Vec<Vec<u8>>, AllocError>
    ensures { IfOk result (λ lines. lines_view lines.items ≡ lines_of (option_map (λ f. flags_view f.now) flags.entry) key.now (map reach_view reached.now)) }
{
    let mut lines = Vec::new(alloc);
    match targeting_of(flags, key) {
        Some(targeting) => {
            push_lines(alloc, key, targeting, reached, &mut lines)?;
            Ok(lines)
        }
        None => Ok(lines),
    }
}

/// The targeting of the flag of a key.
fn targeting_of<'a>(flags: Option<&'a Flags>, key: &str) -> Option<&'a Expr>
    ensures { option_map (λ e. view e.now) result ≡ targeting_of (option_map (λ f. flags_view f.now) flags.entry) key.now }
{
    flags?.get(key)?.targeting()
}

/// Adds the lines of what the evaluation of a targeting reached.
fn push_lines(
    alloc: Global,
    key: &str,
    targeting: &Expr,
    reached: &[Reached],
    lines: &mut Vec<Vec<u8>>,
) -> Result<(), AllocError>
    requires { lines_view lines.old.items ≡ [] }
    ensures { OnOk result (lines_view lines.new.items ≡ lines_in key.now (Some (view targeting.now)) (map reach_view reached.now)) }
{
    for reach in reached {
        push_line(alloc, key, targeting, reach, lines)?;
    }
    Ok(())
}

/// Adds the line of a reached operation, unless its input is too long for a note.
#[tactic(auto, using(crate::proofs::Loops::line_pushed))]
fn push_line(
    alloc: Global,
    key: &str,
    targeting: &Expr,
    reach: &Reached,
    lines: &mut Vec<Vec<u8>>,
) -> Result<(), AllocError>
    ensures { OnOk result (lines_view lines.new.items ≡ lines_view lines.old.items ++ line_of key.now (view targeting.now) (reach_view reach.now)) }
{
    let input = reach.input.as_str();
    if input.len() > INPUT_BYTES {
        return Ok(());
    }
    let page = match Page::of(alloc, key, targeting, reach.site) {
        Ok(page) => page,
        Err(LogicFault::WantOfMemory) => return Err(AllocError),
        Err(_) => return Ok(()),
    };
    lines.push(note_line(alloc, &page, input)?)?;
    Ok(())
}
