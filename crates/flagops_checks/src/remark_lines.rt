//! What a person is told of documents, as it grows.
ghost use Rattle.std.specs.Prelude.{◌≡◌, ◌++◌, [], false, string_bytes};
ghost use Rattle.flagops_checks.specs.Judged.{checked_view};
ghost use Rattle.flagops_checks.specs.Step.{AddsLines};

use crate::checked::Checked;
use crate::form::Form;
use crate::telling::document_lines;
use std::alloc::{AllocError, Global};

/// The lines of a remark so far.
#[derive(Drop)]
pub(crate) struct RemarkLines {
    pub(crate) lines: String,
    /// Whether memory ran out for some.
    pub(crate) is_short: bool,
}

impl RemarkLines {
    pub(crate) fn new(alloc: Global) -> RemarkLines
        ensures lines { string_bytes result.lines ≡ [] }
        ensures whole { result.is_short ≡ false }
    {
        RemarkLines {
            lines: String::new(alloc),
            is_short: false,
        }
    }

    /// With the lines of a document.
    pub(crate) fn with(self, alloc: Global, form: Form, checked: &Checked<'_>) -> RemarkLines
        ensures { AddsLines form (checked_view checked.now) self result }
    {
        if self.is_short {
            return self;
        }
        match document_lines(alloc, form, checked) {
            Ok(lines) => joined(self.lines, lines.as_str()),
            Err(AllocError) => RemarkLines {
                lines: self.lines,
                is_short: true,
            },
        }
    }
}

/// Lines behind others.
fn joined(lines: String, more: &str) -> RemarkLines
    ensures { result.is_short ≡ false → string_bytes result.lines ≡ string_bytes lines ++ more.now }
{
    let mut lines = lines;
    let is_short = lines.push_str(more).is_err();
    RemarkLines { lines, is_short }
}
