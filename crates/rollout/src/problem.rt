//! What a lawful request asks.
ghost use Rattle.std.specs.Prelude.{◌≡◌, ◌≤◌, ◌<◌, ◌*◌, ◌==◌, ◌&&◌, false, length, Ok, IfOk, IsErrOf};
ghost use Rattle.std.specs.Str.{is_utf8};
ghost use Rattle.flag_text.specs.Outcome.{GivesUnless};
ghost use Rattle.bucket_core.specs.Rule.{total_weight, refinement, entries_view};
ghost use Rattle.book_core.specs.Page.{page_eq};
ghost use Rattle.flag_defs.specs.Flag.{flag_view, is_broken};
ghost use Rattle.flag_defs.specs.Flags.{flags_view};
ghost use Rattle.price_core.specs.Request.{max_request};
ghost use Rattle.price_core.specs.declared.fault.PriceFault.TheVariants.{BadRequest};
ghost use Rattle.rollout.specs.Lawful.{IsRefining, PosesUnless, max_planned, problem_of, problem_asked, problem_at, sized, place_view};
ghost use Rattle.rollout.specs.CheckedTally.{tally_problem_of, tally_problem_asked, tally_problem_at, tally_view};
ghost use Rattle.note_tallies.specs.Tally.{IsPageTally};
ghost use Rattle.transport_core.specs.Tally.{IsTally};

use crate::fault::RolloutFault;
use crate::place::{Place, limits_for, place_of};
use crate::refining::Refining;
use crate::request_file::RequestFile;
use book_core::Page;
use bucket_core::{Rule, total_weight};
use flag_defs::Flags;
use note_tallies::PageTally;
use page_tally::Recorded;
use price_core::{Request, Totals};
use std::alloc::Global;
use std::thread::Threads;

/// The largest total that is planned on: no tally has more points.
pub(crate) const MAX_PLANNED: u128 = limits::PLANNED_TOTAL as u128;

/// What a lawful request asks: what is planned on, or an answer is checked against.
#[derive(Drop)]
pub struct Problem<'a> {
    /// The site's rule, refined.
    pub old: Rule,
    /// The limits on the totals of the flag's variants.
    pub totals: Totals,
    /// What is asked, with its prices.
    pub request: &'a Request,
    /// How many of the inputs that count fall on each of that rule's points.
    pub counts: Vec<u32>,
}

/// What the file of a request asks of the flags and of what was recorded, where it is lawful. The condition is a factor
/// from 1.
///
/// It refuses an unlawful request, in this order, with `Request`, `UnknownFlag`, `NoSite`, `Computed`, `NoWeight`,
/// `UnknownVariant`, `TotalsSum` and `TotalTooLarge`. A request above its limit or that is not UTF-8 is refused before memory
/// is taken.
pub fn problem_of<'a, R: Threads + Sync, B: Recorded>(
    rt: &R,
    alloc: Global,
    refining: Refining,
    flags: &Flags,
    request: &'a RequestFile,
    book: &B,
) -> Result<Problem<'a>, RolloutFault>
    requires { IsRefining refining }
    ensures exact { PosesUnless RolloutFault.WantOfMemory result (problem_of refining (flags_view flags.now) request.now (B.contents book.now)) }
    ensures large { max_request < length request.now → IsErrOf result (RolloutFault.Request BadRequest) }
    ensures no_text { length request.now ≤ max_request → is_utf8 request.now ≡ false → IsErrOf result (RolloutFault.Request BadRequest) }
{
    let request = request.asked()?;
    problem_asked(rt, alloc, refining, flags, request, book)
}

/// As [`problem_of`], of a request that was read. It never refuses with `Request`.
pub fn problem_asked<'a, R: Threads + Sync, B: Recorded>(
    rt: &R,
    alloc: Global,
    refining: Refining,
    flags: &Flags,
    request: &'a Request,
    book: &B,
) -> Result<Problem<'a>, RolloutFault>
    requires { IsRefining refining }
    ensures { PosesUnless RolloutFault.WantOfMemory result (problem_asked refining (flags_view flags.now) request.now (B.contents book.now)) }
{
    let place = place_of(alloc, flags, request.flag(), request.site())?;
    problem_at(rt, alloc, refining, book, request, place)
}

fn problem_at<'a, R: Threads + Sync, B: Recorded>(
    rt: &R,
    alloc: Global,
    refining: Refining,
    book: &B,
    request: &'a Request,
    place: Place<'_>,
) -> Result<Problem<'a>, RolloutFault>
    requires lawful { IsRefining refining }
    requires good { is_broken (flag_view place.flag.now) ≡ false }
    ensures { PosesUnless RolloutFault.WantOfMemory result (problem_at refining (B.contents book.now) request.now (place_view place.entry)) }
{
    let total = total_weight(place.entries.as_slice());
    if total == 0 {
        return Err(RolloutFault::NoWeight);
    }
    let totals = limits_for(alloc, &place, request)?;
    let factor = refining.factor(total);
    check_size(&totals, total, factor)?;
    let Place { entries, page, .. } = place;
    let old = refined(alloc, entries, factor)?;
    let counts = book.tally(rt, alloc, &page, old.total())?;
    Ok(Problem {
        old,
        totals,
        request,
        counts,
    })
}

/// What the file of a request asks of the flags and of a tally, where it is lawful. The condition is a factor from 1.
///
/// It refuses as [`problem_of`], and after `NoWeight` with `OtherTally` where the tally is of another page than the request's,
/// or of another total than the refined rule's.
pub fn problem_of_tally<'a>(
    alloc: Global,
    refining: Refining,
    flags: &Flags,
    request: &'a RequestFile,
    tally: &PageTally,
) -> Result<Problem<'a>, RolloutFault>
    requires { IsRefining refining }
    ensures exact { GivesUnless RolloutFault.WantOfMemory tally_view result (tally_problem_of refining (flags_view flags.now) request.now tally.now) }
    ensures tally { IfOk result (λ p. IsTally (total_weight p.old) p.counts.items) }
    ensures large { max_request < length request.now → IsErrOf result (RolloutFault.Request BadRequest) }
    ensures no_text { length request.now ≤ max_request → is_utf8 request.now ≡ false → IsErrOf result (RolloutFault.Request BadRequest) }
{
    let request = request.asked()?;
    tally_problem_asked(alloc, refining, flags, request, tally)
}

/// As [`problem_of_tally`], of a request that was read. It never refuses with `Request`.
pub fn tally_problem_asked<'a>(
    alloc: Global,
    refining: Refining,
    flags: &Flags,
    request: &'a Request,
    tally: &PageTally,
) -> Result<Problem<'a>, RolloutFault>
    requires { IsRefining refining }
    ensures exact { GivesUnless RolloutFault.WantOfMemory tally_view result (tally_problem_asked refining (flags_view flags.now) request.now tally.now) }
    ensures tally { IfOk result (λ p. IsTally (total_weight p.old) p.counts.items) }
{
    let place = place_of(alloc, flags, request.flag(), request.site())?;
    tally_problem_at(alloc, refining, tally, request, place)
}

fn tally_problem_at<'a>(
    alloc: Global,
    refining: Refining,
    tally: &PageTally,
    request: &'a Request,
    place: Place<'_>,
) -> Result<Problem<'a>, RolloutFault>
    requires lawful { IsRefining refining }
    requires good { is_broken (flag_view place.flag.now) ≡ false }
    ensures exact { GivesUnless RolloutFault.WantOfMemory tally_view result (tally_problem_at refining tally.now request.now (place_view place.entry)) }
    ensures tally { IfOk result (λ p. IsTally (total_weight p.old) p.counts.items) }
{
    let total = total_weight(place.entries.as_slice());
    if total == 0 {
        return Err(RolloutFault::NoWeight);
    }
    let factor = refining.factor(total);
    if !is_of(tally, &place.page, total, factor) {
        return Err(RolloutFault::OtherTally);
    }
    let totals = limits_for(alloc, &place, request)?;
    check_size(&totals, total, factor)?;
    let Place { entries, .. } = place;
    let old = refined(alloc, entries, factor)?;
    let counts = counts_in(tally).to_vec(alloc)?;
    Ok(Problem {
        old,
        totals,
        request,
        counts,
    })
}

/// The counts of a tally, by point.
fn counts_in(tally: &PageTally) -> &[u32]
    ensures value { result.now ≡ tally.now.counts }
    ensures lawful { IsPageTally tally.now }
{
    tally.counts.as_slice()
}

/// Whether a tally is of a page, and of this many times the total.
fn is_of(tally: &PageTally, page: &Page, total: u128, factor: u32) -> bool
    ensures { result ≡ (page_eq page.now tally.now.page && (total * factor == tally.now.total)) }
{
    // What saturates is above each total of a tally, as the product is.
    let total = total.saturating_mul(u128::from(factor));
    *page == tally.page && total == u128::from(tally.total)
}

/// Whether the limits can be met by this many times the total, which is not too large to plan on.
fn check_size(totals: &Totals, total: u128, factor: u32) -> Result<(), RolloutFault>
    ensures { result ≡ sized totals.now (total * factor) }
{
    // What saturates is above each sum of limits and above the largest total, as the product is.
    let total = total.saturating_mul(u128::from(factor));
    if total < totals.low_sum() || totals.high_sum() < total {
        return Err(RolloutFault::TotalsSum);
    }
    if total > MAX_PLANNED {
        return Err(RolloutFault::TotalTooLarge);
    }
    Ok(())
}

/// The rule of the entries, each weight times the factor.
fn refined(alloc: Global, entries: Vec<(String, u64)>, factor: u32) -> Result<Rule, RolloutFault>
    requires some { 0 < total_weight (entries_view entries.items) }
    requires positive { 0 < factor }
    requires small { total_weight (entries_view entries.items) * factor ≤ max_planned }
    ensures { GivesUnless RolloutFault.WantOfMemory (λ r. r) result (Ok (refinement factor (entries_view entries.items))) }
{
    let rule = Rule::make(alloc, entries)?;
    Ok(rule.refine(alloc, factor)?)
}
