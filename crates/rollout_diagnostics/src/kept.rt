//! Diagnostics of a document that does not take the rule of a plan.
ghost use Rattle.std.specs.Prelude.{IfOk, string_bytes};
ghost use Rattle.file_diagnostics.specs.Named.{Names};

use crate::place::Place;
use file_diagnostics::{Lines, Opening, quoted_name, tree_or_none};
use flag_defs::Flags;
use flag_text::read_doc;
use kept_document::{KeepFault, SitePlace, place_of_site};
use limits::TEXT_BYTES;
use logic_ast::write_expr;
use std::alloc::{AllocError, Global};

/// Explains why the document at `path` can't keep its bytes where the rule of a site is replaced.
pub fn of_kept(
    alloc: Global,
    path: &str,
    bytes: &[u8],
    flags: &Flags,
    key: &str,
    number: u32,
    fault: KeepFault,
) -> Result<String, AllocError>
    ensures names { IfOk result (λ s. Names path.now (string_bytes s)) }
{
    let place = Place {
        alloc,
        flags,
        key,
        number,
    };
    let mut lines = Lines::new(alloc);
    match fault {
        KeepFault::Shared => {
            let evaluator = evaluator(place, bytes)?;
            write!(
                lines,
                ": {place} stands in the evaluator {evaluator}\n  other flags may refer to it: give the flag a \"fractional\" of its own, or edit \"$evaluators\"\n",
            );
        }
        KeepFault::TooLong => write!(
            lines,
            " would have more than 4,194,304 bytes with the rule of the plan\n  split it into documents\n",
        ),
        KeepFault::Differs => write!(
            lines,
            ": with the rule of the plan at {place} it does not mean what it should\n  \"flagops apply\" without --keep prints the flags with the rule\n",
        ),
        KeepFault::WantOfMemory => write!(lines, "{fault}\n"),
    }
    lines.headed(Opening::Error, path)
}

/// The name of the evaluator in which the site stands.
fn evaluator(place: Place<'_>, bytes: &[u8]) -> Result<String, AllocError> {
    let alloc = place.alloc;
    if let Some(targeting) = place.targeting() {
        if let Some(document) = tree_or_none(read_doc(alloc, bytes, TEXT_BYTES))? {
            let form = write_expr(alloc, targeting)?;
            let site = place_of_site(alloc, &document, place.key, &form, place.number as usize)?;
            if let SitePlace::Shared(name) = site {
                return quoted_name(alloc, name);
            }
        }
    }
    Ok(String::new(alloc))
}
