//! What a person is told of pages that have no rules to compare, and of a flag without a page.
ghost use Rattle.std.specs.Prelude.{◌≡◌, ◌++◌, IfOk, OnOk, option_copied, string_bytes};
ghost use Rattle.flag_defs.specs.Flags.{flags_view};
ghost use Rattle.flagops_compare.specs.Report.{is_unmatched};
ghost use Rattle.flagops_compare.specs.Told.{known_line, no_page_lines, note_line, note_lines, note_on, path_of, told_lines, unmatched_lines};
ghost use Rattle.flagops_compare.specs.Words.{comparing_view};
ghost use Rattle.rule_switches.specs.Found.{page_view, pages_view};

use crate::asked::Comparing;
use crate::reasons::{reason_name, reason_words};
use book_core::Page;
use flag_defs::Flags;
use flagops_files::{known_keys, quoted};
use rule_switches::{Found, NoRule, PageFound, Side};
use std::alloc::{AllocError, Global};

/// Whether a flag is asked for that no page is of.
pub(crate) fn is_unmatched(asked: &Comparing<'_>, pages: &[PageFound]) -> bool
    ensures { result ≡ is_unmatched (option_copied asked.now.flag) (pages_view pages.now) }
{
    asked.flag.is_some() && pages.is_empty()
}

/// What is told of an edit of a document that has these flags before it.
pub(crate) fn told_lines(
    alloc: Global,
    asked: &Comparing<'_>,
    old: &Flags,
    pages: &[PageFound],
) -> Result<String, AllocError>
    ensures { IfOk result (λ s. string_bytes s ≡ told_lines (comparing_view asked.now) (flags_view old.now) (pages_view pages.now)) }
{
    let notes = note_lines(alloc, asked, pages)?;
    let unmatched = unmatched_lines(alloc, asked, old, pages)?;
    format!(in alloc; "{notes}{unmatched}")
}

/// A line for each page that was not compared.
fn note_lines(
    alloc: Global,
    asked: &Comparing<'_>,
    pages: &[PageFound],
) -> Result<String, AllocError>
    ensures { IfOk result (λ s. string_bytes s ≡ note_lines asked.now.old.now asked.now.new.now (pages_view pages.now)) }
{
    let mut out = String::new(alloc);
    for page in pages {
        push_note(alloc, &mut out, asked, page)?;
    }
    Ok(out)
}

/// Adds the line of a page, where it was not compared.
fn push_note(
    alloc: Global,
    out: &mut String,
    asked: &Comparing<'_>,
    page: &PageFound,
) -> Result<(), AllocError>
    ensures { OnOk result (string_bytes out.new ≡ string_bytes out.old ++ note_on asked.now.old.now asked.now.new.now (page_view page.now).page (page_view page.now).found) }
{
    match &page.found {
        Found::Counted(_, _, _) => Ok(()),
        Found::Left(side, reason) => {
            let line = note_line(alloc, path_of(asked, *side), &page.page, *reason)?;
            out.push_str(line.as_str())
        }
    }
}

/// The path of a document.
fn path_of<'a>(asked: &Comparing<'a>, side: Side) -> &'a str
    ensures { result.now ≡ path_of asked.now.old.now asked.now.new.now side }
{
    match side {
        Side::Old => asked.old,
        Side::New => asked.new,
    }
}

/// The line of a page that was not compared.
fn note_line(alloc: Global, path: &str, page: &Page, reason: NoRule) -> Result<String, AllocError>
    ensures { IfOk result (λ s. string_bytes s ≡ note_line path.now page.now reason) }
{
    let path = quoted(alloc, path)?;
    let flag = quoted(alloc, page.flag.as_str())?;
    let site = page.site;
    let words = reason_words(reason);
    let name = reason_name(reason);
    format!(in alloc; "note: {path}: flag {flag} site {site} is not compared: {words} ({name})\n")
}

/// The lines on a flag that is asked for, where no page is of it.
fn unmatched_lines(
    alloc: Global,
    asked: &Comparing<'_>,
    old: &Flags,
    pages: &[PageFound],
) -> Result<String, AllocError>
    ensures { IfOk result (λ s. string_bytes s ≡ unmatched_lines asked.now.book.now (flags_view old.now) (option_copied asked.now.flag) (pages_view pages.now)) }
{
    match asked.flag {
        Some(key) => {
            if pages.is_empty() {
                no_page_lines(alloc, asked.book, key, old)
            } else {
                Ok(String::new(alloc))
            }
        }
        None => Ok(String::new(alloc)),
    }
}

/// That the book at a path has no page of the flag of this key, and the keys that may be meant.
fn no_page_lines(alloc: Global, path: &str, key: &str, old: &Flags) -> Result<String, AllocError>
    ensures { IfOk result (λ s. string_bytes s ≡ no_page_lines path.now key.now (flags_view old.now)) }
{
    let path = quoted(alloc, path)?;
    let flag = quoted(alloc, key)?;
    let known = known_line(alloc, key, old)?;
    format!(in alloc;
        "note: {path}: flag {flag} is not compared: there is no page of it (NoPage)\n{known}"
    )
}

/// The keys that may be meant, where no flag has this one.
fn known_line(alloc: Global, key: &str, old: &Flags) -> Result<String, AllocError>
    ensures { IfOk result (λ s. string_bytes s ≡ known_line key.now (flags_view old.now)) }
{
    if old.get(key).is_some() {
        return Ok(String::new(alloc));
    }
    let known = known_keys(alloc, old, key)?;
    format!(in alloc; "  {known}\n")
}
