//! What an edit does on the pages of a book.
ghost use Rattle.std.specs.Prelude.{◌≡◌, ◌+◌, ◌≤◌, IfOk, length, option_copied};
ghost use Rattle.book_core.specs.Reading.{leading, lines_of, pages_in};
ghost use Rattle.flag_defs.specs.Flags.{flags_view};
ghost use Rattle.rule_switches.specs.Found.{Compares, IsFound, asked, found_view, inputs_in, is_asked, switches_in};
ghost use Rattle.rule_switches.specs.Rules.{rules_on};

use crate::comparison::{Comparison, Found};
use crate::page_counting::switched_first;
use crate::page_edit::Edit;
use crate::rules::{Rules, rules_on};
use book_core::{Page, cut_line};
use page_tally::{BookFile, next_page};
use std::alloc::{AllocError, Global};

/// What an edit does on each page of a book, or on those of one flag, in their order. Want of memory is its one fault. Cost: a
/// pass over the lines of the file, and each input of a page that is compared is hashed once.
#[tactic(auto, using(crate::proofs::PageGoing::book_compared, crate::proofs::PageGoing::unended_compared))]
pub fn compare_book(
    alloc: Global,
    edit: Edit<'_>,
    only: Option<&str>,
    book: &BookFile,
) -> Result<Comparison, AllocError>
    ensures { IfOk result (λ c. Compares (flags_view edit.entry.old.now) (flags_view edit.entry.new.now) (asked (option_copied only.entry) book.now) c) }
{
    let Some((_header, lines)) = cut_line(book.bytes()) else {
        // No book: it has a line at least.
        return Ok(Comparison::new(alloc));
    };
    compare_lines(alloc, edit, only, lines)
}

/// The same of the pages that begin on lines.
#[tactic(auto, using(crate::proofs::PageGoing::goes_none, crate::proofs::PageGoing::goes_past, crate::proofs::PageGoing::goes_over, crate::proofs::PageGoing::goes_all))]
fn compare_lines(
    alloc: Global,
    edit: Edit<'_>,
    only: Option<&str>,
    lines: &[u8],
) -> Result<Comparison, AllocError>
    ensures { IfOk result (λ c. Compares (flags_view edit.entry.old.now) (flags_view edit.entry.new.now) (asked (option_copied only.entry) (pages_in (lines_of lines.now))) c) }
{
    let mut compared = Comparison::new(alloc);
    let mut rest = lines;
    'pages: while let Some((page, behind)) = next_page(alloc, rest)? {
        rest = behind;
        if !is_asked(only, &page) {
            continue 'pages;
        }
        let (found, left) = found_on(alloc, edit, &page, rest)?;
        compared.add(page, found)?;
        rest = left;
    }
    Ok(compared)
}

/// What an edit does on a page whose inputs stand first among the bytes, and the bytes behind what was read.
#[tactic(auto, using(crate::proofs::Placing::found_both, crate::proofs::Placing::found_none))]
fn found_on<'a>(
    alloc: Global,
    edit: Edit<'_>,
    page: &Page,
    bytes: &'a [u8],
) -> Result<(Found, &'a [u8]), AllocError>
    ensures found { IfOk result (λ r. IsFound (rules_on (flags_view edit.entry.old.now) (flags_view edit.entry.new.now) page.now) (leading (lines_of bytes.now)) (found_view r.0)) }
    ensures pages { IfOk result (λ r. pages_in (lines_of r.1.now) ≡ pages_in (lines_of bytes.now)) }
    ensures few { IfOk result (λ r. switches_in (found_view r.0) ≤ inputs_in (found_view r.0)) }
    ensures room { IfOk result (λ r. inputs_in (found_view r.0) + length r.1.now ≤ length bytes.now) }
{
    match rules_on(alloc, edit, page)? {
        Rules::Both(before, after) => {
            let counted = switched_first(alloc, &before, &after, bytes)?;
            Ok((
                Found::Counted(counted.inputs, counted.users, counted.rows),
                counted.rest,
            ))
        }
        Rules::None(side, reason) => Ok((Found::Left(side, reason), bytes)),
    }
}

/// Whether a page is asked for.
pub(crate) fn is_asked(only: Option<&str>, page: &Page) -> bool
    ensures { result ≡ is_asked (option_copied only.entry) page.now }
{
    match only {
        Some(key) => page.flag.as_str() == key,
        None => true,
    }
}
