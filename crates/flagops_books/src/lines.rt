//! What is printed and told of lines that are those of no note.
ghost use Rattle.std.specs.Prelude.{◌≡◌, ◌++◌, IfOk, string_bytes};
ghost use Rattle.flagops_books.specs.Stray.{stray_line};
ghost use Rattle.flagops_books.specs.Told.{NamesFile, passed_line, passed_text};

use file_diagnostics::Ends;
use flagops_files::quoted;
use std::alloc::{AllocError, Global};

/// The line of a refusal: line `n` of the file at a path is that of no note.
pub(crate) fn stray_line(alloc: Global, path: &str, n: u64) -> Result<String, AllocError>
    ensures { IfOk result (λ s. string_bytes s ≡ stray_line path.now n) }
{
    let name = quoted(alloc, path)?;
    format!(in alloc; "refused book 1 Line {name} {n}\n")
}

/// What a person is told of it, by what is seen of the file at its ends.
pub(crate) fn stray_remark(
    alloc: Global,
    path: &str,
    n: u64,
    ends: Ends,
) -> Result<String, AllocError>
    ensures { IfOk result (λ s. NamesFile path.now (string_bytes s)) }
{
    let name = quoted(alloc, path)?;
    match ends {
        Ends::Marked => format!(in alloc;
            "error: {name}: line {n} is not a note, as the file begins with a byte order mark\n  save it as UTF-8 without the mark\n"
        ),
        _ => format!(in alloc;
            "error: {name}: line {n} is not a note\n  a note line is [FLAG,SITE,BY,INPUT], spelled as record and ofrep write it; --torn skips other lines\n"
        ),
    }
}

/// What is told of files so far, with what was passed over in the file at a path.
pub(crate) fn with_passed(
    alloc: Global,
    told: String,
    path: &str,
    passed: u64,
    torn: bool,
) -> Result<String, AllocError>
    ensures { IfOk result (λ s. string_bytes s ≡ string_bytes told ++ passed_text path.now passed torn) }
{
    if passed == 0 && !torn {
        return Ok(told);
    }
    let line = passed_line(alloc, path, passed, torn)?;
    format!(in alloc; "{told}{line}")
}

/// The line on what was passed over in the file at a path.
#[tactic(auto, unfolding(crate::specs::Told::passed_line))]
fn passed_line(alloc: Global, path: &str, passed: u64, torn: bool) -> Result<String, AllocError>
    ensures { IfOk result (λ s. string_bytes s ≡ passed_line path.now passed torn) }
{
    let name = quoted(alloc, path)?;
    if !torn {
        format!(in alloc; "note: {name}: lines that are not notes, skipped: {passed}\n")
    } else if passed == 0 {
        format!(in alloc; "note: {name}: the last line has no line feed and is skipped\n")
    } else {
        format!(in alloc;
            "note: {name}: lines that are not notes, skipped: {passed}, and the last line, which has no line feed\n"
        )
    }
}
