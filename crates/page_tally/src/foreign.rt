//! Whether the inputs of a page are those of its flag, with no text for each input.
ghost use Rattle.std.specs.Prelude.{◌≡◌, ◌+◌, ◌<◌, ◌≤◌, ◌||◌, List, [], ◌∷◌, length, false, is_none, Ok, IfOk, IfSome, MatchOption, if◌then◌else◌};
ghost use Rattle.std.specs.List.{list_any};
ghost use Rattle.book_core.specs.Book.{Contents, inputs_on};
ghost use Rattle.book_core.specs.Reading.{FileLine, book_of, leading, lines_of, pages_in};
ghost use Rattle.page_tally.specs.Foreign.{has_foreign, lacks};
ghost use Rattle.page_tally.specs.Lines.{line_view};

use crate::file::BookFile;
use crate::line::Line;
use crate::lines::Lines;
use crate::stretch::plain_stretch;
use book_core::{BookFileFault, Page, cut_line};
use std::alloc::{AllocError, Global};
use std::thread::Threads;

impl BookFile {
    /// Whether an input stands on a page that no evaluation of its flag reaches there: the page has no bucketing
    /// expression, and the input does not begin with the flag's key. Want of memory is its one fault, and a page with a
    /// bucketing expression takes none. Cost: a pass over the bytes up to the end of the page, whose plain lines are looked
    /// through by all processors.
    pub fn has_foreign<R: Threads>(
        &self,
        rt: &R,
        alloc: Global,
        page: &Page,
    ) -> Result<bool, AllocError>
        ensures exact { IfOk result (λ foreign. foreign ≡ has_foreign page.now (inputs_on self.now page.now)) }
        // Of a page with a bucketing expression it is answered without memory.
        ensures bucketed { is_none page.now.by ≡ false → result ≡ Ok false }
    {
        match page.by {
            Some(_) => Ok(false),
            None => lack_key(rt, alloc, self.bytes(), page),
        }
    }
}

/// Whether an input that a book has on a page does not begin with the flag's key.
#[tactic(auto, using(crate::proofs::Lacking::lack_unended, crate::proofs::Lacking::lack_nowhere, crate::proofs::Lacking::lack_there))]
fn lack_key<R: Threads>(
    rt: &R,
    alloc: Global,
    bytes: &[u8],
    page: &Page,
) -> Result<bool, AllocError>
    ensures { IfOk result (λ lack. (book : Contents) → book_of bytes.now ≡ Ok book → lack ≡ list_any (lacks page.now.flag) (inputs_on book page.now)) }
{
    let Some((_, lines)) = cut_line(bytes) else {
        return Ok(false);
    };
    match behind_page(rt, alloc, lines, page)? {
        Some(inputs) => any_lacks(rt, alloc, inputs, page.flag.as_bytes()),
        None => Ok(false),
    }
}

/// The bytes behind the line of a page, where it stands among the lines.
#[tactic(auto, using(crate::proofs::Lacking::page_nowhere, crate::proofs::Lacking::page_here, crate::proofs::Lacking::page_later))]
fn behind_page<'a, R: Threads>(
    rt: &R,
    alloc: Global,
    bytes: &'a [u8],
    page: &Page,
) -> Result<Option<&'a [u8]>, AllocError>
    ensures { IfOk result (λ r. MatchOption r (inputs_on (pages_in (lines_of bytes.now)) page.now ≡ [])
        (λ behind. inputs_on (pages_in (lines_of bytes.now)) page.now ≡ leading (lines_of behind.now))) }
{
    let mut rest = bytes;
    loop {
        rest = behind_plain(rt, rest);
        let Some((line, behind)) = first_line(alloc, rest)? else {
            return Ok(None);
        };
        rest = behind;
        if begins(line, page) {
            return Ok(Some(rest));
        }
    }
}

/// The bytes behind plain inputs that stand first.
fn behind_plain<'a, R: Threads>(rt: &R, bytes: &'a [u8]) -> &'a [u8]
    ensures pages { pages_in (lines_of bytes.now) ≡ pages_in (lines_of result.now) }
    ensures shorter { length result.now ≤ length bytes.now }
{
    plain_stretch(rt, bytes, &[]).rest
}

/// Whether a page begins on a line.
fn begins(line: Line<'_>, page: &Page) -> bool
    ensures { (after : List FileLine) → inputs_on (pages_in (line_view line.entry ∷ after)) page.now ≡ (if result then leading after else inputs_on (pages_in after) page.now) }
{
    match line {
        Line::Page(other) => *page == other,
        Line::Input(_) => false,
        Line::Other => false,
    }
}

/// Whether one of the inputs that stand first does not begin with a key.
#[tactic(auto, using(crate::proofs::Lacking::lack_here, crate::proofs::Lacking::lack_ended, crate::proofs::Lacking::lack_other, crate::proofs::Lacking::lack_input, crate::proofs::Lacking::lack_more))]
fn any_lacks<R: Threads>(
    rt: &R,
    alloc: Global,
    bytes: &[u8],
    key: &[u8],
) -> Result<bool, AllocError>
    ensures { IfOk result (λ lack. lack ≡ list_any (lacks key.now) (leading (lines_of bytes.now))) }
{
    let mut rest = bytes;
    loop {
        let plain = plain_stretch(rt, rest, key);
        if plain.lacks {
            return Ok(true);
        }
        let Some((line, behind)) = first_line(alloc, plain.rest)? else {
            return Ok(false);
        };
        let Some(lack) = lacks_on(line, key) else {
            return Ok(false);
        };
        if lack {
            return Ok(true);
        }
        rest = behind;
    }
}

/// Whether the input on a line does not begin with a key, where there is one.
fn lacks_on(line: Line<'_>, key: &[u8]) -> Option<bool>
    ensures { MatchOption result ((after : List FileLine) → leading (line_view line.entry ∷ after) ≡ [])
        (λ lack. (after : List FileLine) → list_any (lacks key.now) (leading (line_view line.entry ∷ after)) ≡ (lack || list_any (lacks key.now) (leading after))) }
{
    match line {
        Line::Input(input) => Some(!input.bytes().starts_with(key)),
        Line::Page(_) => None,
        Line::Other => None,
    }
}

/// The line that stands first, where there is one, with the bytes behind it.
fn first_line<'a>(
    alloc: Global,
    bytes: &'a [u8],
) -> Result<Option<(Line<'a>, &'a [u8])>, AllocError>
    ensures next { IfOk result (λ r. MatchOption r (lines_of bytes.now ≡ []) (λ p. lines_of bytes.now ≡ line_view p.0 ∷ lines_of p.1.now)) }
    ensures shorter { IfOk result (λ r. IfSome r (λ p. length p.1.now < length bytes.now)) }
{
    let mut lines = Lines {
        rest: bytes,
        taken: 0,
    };
    match lines.take(alloc) {
        Ok(Some(line)) => Ok(Some((line, lines.rest))),
        Ok(None) => Ok(None),
        Err(fault) => match fault {
            BookFileFault::WantOfMemory => Err(AllocError),
            // Taking a line has no other fault.
            _ => unreachable!(),
        },
    }
}
