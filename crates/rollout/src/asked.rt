//! A book file that is read for a request.
ghost use Rattle.std.specs.Prelude.{IfOk};
ghost use Rattle.flag_text.specs.Outcome.{GivesUnless};
ghost use Rattle.bucket_core.specs.Rule.{IsRuleTotal};
ghost use Rattle.book_core.specs.Reading.{book_of};
ghost use Rattle.rollout.specs.Lawful.{IsRefining};

use crate::fault::RolloutFault;
use crate::place::{Place, place_of};
use crate::problem::MAX_PLANNED;
use crate::refining::Refining;
use book_core::{BookFileFault, Page};
use bucket_core::total_weight;
use flag_defs::Flags;
use page_tally::BookFile;
use price_core::Request;
use std::alloc::Global;
use std::thread::Threads;

/// As [`read_book_asked`], for the bytes of a request.
pub fn read_book_for<R: Threads>(
    rt: &R,
    alloc: Global,
    refining: Refining,
    flags: &Flags,
    request: &[u8],
    bytes: Vec<u8>,
) -> Result<BookFile, BookFileFault>
    requires { IsRefining refining }
    ensures { GivesUnless BookFileFault.WantOfMemory (λ f. f) result (book_of bytes.items) }
{
    match Request::read(alloc, request) {
        Ok(request) => read_book_asked(rt, alloc, refining, flags, Some(&request), bytes),
        Err(_) => read_book_asked(rt, alloc, refining, flags, None, bytes),
    }
}

/// The book of a file, with its first line at fault as by `book_core::read_book`. It is read for a request, where that was
/// not refused: how many inputs of its page fall on each point is counted in the same pass, so that what is planned or
/// verified on the book reads the file no second time, as long as the rule is refined alike. The condition is a factor from 1.
pub fn read_book_asked<R: Threads>(
    rt: &R,
    alloc: Global,
    refining: Refining,
    flags: &Flags,
    request: Option<&Request>,
    bytes: Vec<u8>,
) -> Result<BookFile, BookFileFault>
    requires { IsRefining refining }
    ensures { GivesUnless BookFileFault.WantOfMemory (λ f. f) result (book_of bytes.items) }
{
    let Some(request) = request else {
        return BookFile::read(rt, alloc, bytes, no_page(alloc), 1);
    };
    match asked(alloc, refining, flags, request) {
        Ok((page, total)) => BookFile::read(rt, alloc, bytes, page, total),
        Err(_) => BookFile::read(rt, alloc, bytes, no_page(alloc), 1),
    }
}

/// The page of a request, and the total that is planned on.
fn asked(
    alloc: Global,
    refining: Refining,
    flags: &Flags,
    request: &Request,
) -> Result<(Page, u32), RolloutFault>
    requires { IsRefining refining }
    ensures { IfOk result (λ r. IsRuleTotal r.1) }
{
    let place = place_of(alloc, flags, request.flag(), request.site())?;
    let Place { entries, page, .. } = place;
    let total = total_weight(entries.as_slice());
    if total == 0 {
        return Err(RolloutFault::NoWeight);
    }
    let total = total.saturating_mul(u128::from(refining.factor(total)));
    if total > MAX_PLANNED {
        return Err(RolloutFault::TotalTooLarge);
    }
    Ok((page, total as u32))
}

/// A page that no site has.
fn no_page(alloc: Global) -> Page {
    Page {
        flag: String::new(alloc),
        site: 0,
        by: None,
    }
}
