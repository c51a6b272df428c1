//! What is printed of a document.
ghost use Rattle.std.specs.Prelude.{◌≡◌, ◌++◌, map, OnOk};
ghost use Rattle.flagops_checks.specs.Judged.{judged_view};
ghost use Rattle.flagops_checks.specs.Printed.{document_line, document_text, flag_line, flag_lines, good_or_broken};

use crate::form::Form;
use crate::judging::Judged;
use crate::objects::push_object;
use flag_text::push_text;
use std::alloc::{AllocError, Global};

/// Adds what is printed of a document at a path that has these flags.
#[tactic(auto, unfolding(crate::specs::Printed::document_text))]
pub(crate) fn push_document(
    alloc: Global,
    out: &mut Vec<u8>,
    form: Form,
    path: &str,
    flags: &[Judged<'_>],
) -> Result<(), AllocError>
    ensures { OnOk result (out.new.items ≡ out.old.items ++ document_text form path.now (map judged_view flags.now)) }
{
    if form.is_json {
        return push_object(alloc, out, path, flags);
    }
    if !form.is_alone {
        push_path(alloc, out, path)?;
    }
    push_lines(alloc, out, flags)
}

/// Adds the line of a document.
fn push_path(alloc: Global, out: &mut Vec<u8>, path: &str) -> Result<(), AllocError>
    ensures { OnOk result (out.new.items ≡ out.old.items ++ document_line path.now) }
{
    out.extend_from_slice(b"document ")?;
    push_text(alloc, out, path)?;
    out.extend_from_slice(b"\n")
}

/// Adds the lines of flags.

fn push_lines(alloc: Global, out: &mut Vec<u8>, flags: &[Judged<'_>]) -> Result<(), AllocError>
    ensures { OnOk result (out.new.items ≡ out.old.items ++ flag_lines (map judged_view flags.now)) }
{
    for flag in flags {
        push_text(alloc, out, flag.key)?;
        out.extend_from_slice(good_or_broken(flag.is_broken))?;
    }
    Ok(())
}

/// The end of the line of a flag.
fn good_or_broken(is_broken: bool) -> &'static [u8]
    ensures { result.now ≡ good_or_broken is_broken }
{
    if is_broken { b" broken\n" } else { b" good\n" }
}
