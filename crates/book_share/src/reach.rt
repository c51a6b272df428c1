//! The inputs that an evaluation reached, noted on their pages.
ghost use Rattle.std.specs.Prelude.{◌<◌, ◌≤◌, ◌+◌, ◌-◌, ◌^◌, [], ◌∷◌, map, nat_lt, length, if◌then◌else◌, IfOk};
ghost use Rattle.flag_defs.specs.Flags.{flags_view};
ghost use Rattle.logic_eval.specs.Views.{reach_view};
ghost use Rattle.book_core.specs.Book.{most_bytes};
ghost use Rattle.book_lock.specs.Counts.{own};
ghost use Rattle.book_share.specs.Asked.{mention, mention_by, mentions_by};
ghost use Rattle.book_share.specs.Driven.{Notes};
ghost use Rattle.book_share.specs.Known.{AreSitePages};

use book_core::{BookFault, Page};
use book_lock::{BookName, Seat, SharedBook};
use flag_defs::Flags;
use limits::INPUT_BYTES;
use logic_eval::Reached;
use site_pages::{page_at, targeting_of};
use std::alloc::{AllocError, Global};
use std::sync::Wait;

/// The sites of a flag: its key, and the pages of those that are known.
#[derive(Clone, Copy, Drop)]
pub(crate) struct Sites<'a> {
    pub(crate) flags: &'a Flags,
    pub(crate) key: &'a str,
    pub(crate) pages: &'a [Page],
    pub(crate) ghost known: { AreSitePages (flags_view flags.now) key.now pages.now },
}

/// Notes each reached input on the page of its site, and counts those that full pages refused.
pub(crate) fn note_reached<L: BookName, R: Wait>(
    rt: &R,
    alloc: Global,
    book: &SharedBook<L>,
    seat: &mut Seat<L>,
    refused: &mut u64,
    sites: &Sites<'_>,
    reached: &[Reached],
) -> Result<(), AllocError>
    requires room { length (own seat.old) + refused.old + length reached.now < 2 ^ 64 - 1 }
    ensures noted { IfOk result (λ _. Notes (mentions_by (flags_view sites.now.flags.now) sites.now.key.now (map reach_view reached.now)) seat.old refused.old seat.new refused.new) }
    ensures grown { IfOk result (λ _. length (own seat.new) + refused.new ≤ length (own seat.old) + refused.old + length reached.now) }
{
    for reach in reached {
        note_at(rt, alloc, book, seat, refused, sites, reach)?;
    }
    Ok(())
}

/// Notes a reached input on the page of its site, which is made anew only where it is not known.
fn note_at<L: BookName, R: Wait>(
    rt: &R,
    alloc: Global,
    book: &SharedBook<L>,
    seat: &mut Seat<L>,
    refused: &mut u64,
    sites: &Sites<'_>,
    reach: &Reached,
) -> Result<(), AllocError>
    requires room { length (own seat.old) + refused.old < 2 ^ 64 - 1 }
    ensures noted { IfOk result (λ _. Notes (mention_by (flags_view sites.now.flags.now) sites.now.key.now (reach_view reach.now)) seat.old refused.old seat.new refused.new) }
    ensures grown { IfOk result (λ _. length (own seat.new) + refused.new ≤ length (own seat.old) + refused.old + 1) }
{
    match sites.pages.get(reach.site as usize) {
        Some(page) => note_one(rt, alloc, book, seat, refused, page, reach.input.as_str()),
        None => note_unknown(rt, alloc, book, seat, refused, sites, reach),
    }
}

/// The same where the page is not known.
fn note_unknown<L: BookName, R: Wait>(
    rt: &R,
    alloc: Global,
    book: &SharedBook<L>,
    seat: &mut Seat<L>,
    refused: &mut u64,
    sites: &Sites<'_>,
    reach: &Reached,
) -> Result<(), AllocError>
    requires room { length (own seat.old) + refused.old < 2 ^ 64 - 1 }
    ensures noted { IfOk result (λ _. Notes (mention_by (flags_view sites.now.flags.now) sites.now.key.now (reach_view reach.now)) seat.old refused.old seat.new refused.new) }
    ensures grown { IfOk result (λ _. length (own seat.new) + refused.new ≤ length (own seat.old) + refused.old + 1) }
{
    let targeting = targeting_of(sites.flags, sites.key);
    let page = page_at(alloc, sites.key, targeting, reach.site)?;
    note_one(rt, alloc, book, seat, refused, &page, reach.input.as_str())
}

/// Notes an input, and counts it where its page is full. One that is too long is passed over.
fn note_one<L: BookName, R: Wait>(
    rt: &R,
    alloc: Global,
    book: &SharedBook<L>,
    seat: &mut Seat<L>,
    refused: &mut u64,
    page: &Page,
    input: &str,
) -> Result<(), AllocError>
    requires room { length (own seat.old) + refused.old < 2 ^ 64 - 1 }
    ensures noted { IfOk result (λ _. Notes (if nat_lt most_bytes (length input.now) then [] else mention page.now input.now ∷ []) seat.old refused.old seat.new refused.new) }
    ensures grown { IfOk result (λ _. length (own seat.new) + refused.new ≤ length (own seat.old) + refused.old + 1) }
{
    if input.len() > INPUT_BYTES {
        return Ok(());
    }
    match book.note(rt, alloc, seat, page, input) {
        Ok(_) => Ok(()),
        Err(BookFault::PageFull) => {
            *refused += 1;
            Ok(())
        }
        Err(BookFault::WantOfMemory) => Err(AllocError),
        Err(BookFault::InputTooLong) => unreachable!(),
        Err(BookFault::LastCall) => unreachable!(),
        Err(BookFault::Stranger) => unreachable!(),
    }
}
