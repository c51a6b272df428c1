//! Whether an answer is right, whoever made it.
ghost use Rattle.std.specs.Prelude.{◌≡◌, ◌<◌, ◌≤◌, false, length, IfSome, OnOk, IsErrOf, MatchResult};
ghost use Rattle.std.specs.Str.{is_utf8};
ghost use Rattle.book_core.specs.Book.{Inputs};
ghost use Rattle.bucket_core.specs.Rule.{total_weight};
ghost use Rattle.flag_defs.specs.Flags.{flags_view};
ghost use Rattle.price_core.specs.Request.{max_request};
ghost use Rattle.price_core.specs.declared.fault.PriceFault.TheVariants.{BadRequest};
ghost use Rattle.plan_text.specs.Answer.{planned_view};
ghost use Rattle.transport_core.specs.Tally.{IsTally};
ghost use Rattle.rollout.specs.Lawful.{IsCounted, IsLawful, IsRefining, problem_asked, problem_of, problem_view};
ghost use Rattle.rollout.specs.Refined.{refining_checked};
ghost use Rattle.rollout.specs.CheckedTally.{IsTallyOutcome, IsTallyShown, tally_problem_asked, tally_problem_of};
ghost use Rattle.rollout.specs.Verified.{IsOutcome, Proves, Shows, Denies, IsShown, refining_for};
ghost use Rattle.rollout.specs.declared.fault.RolloutFault.{RolloutFault};
ghost use Rattle.rollout.specs.declared.refining.Refining.TheVariants.{Times};

use crate::problem::{Problem, problem_asked, tally_problem_asked};
use crate::refining::Refining;
use crate::request_file::RequestFile;
use crate::verify_fault::VerifyFault;
use flag_defs::Flags;
use note_tallies::PageTally;
use page_tally::Recorded;
use plan_text::Planned;
use price_core::Request;
use std::alloc::Global;
use std::thread::Threads;
use transport_core::{CheckFault, check_cut, check_plan};

/// Checks that a request is lawful and that an answer is right for it. A rule is checked against the site's rule, refined
/// to the rule's total where that is a multiple of the site's; a set of names against the site's rule as it is.
///
/// It refuses with `Request` where the request is refused, and then with `Check` as [`check_plan`] or [`check_cut`] does. A
/// request above its limit or that is not UTF-8 is refused before memory is taken.
pub fn verify<R: Threads + Sync, B: Recorded>(
    rt: &R,
    alloc: Global,
    flags: &Flags,
    request: &[u8],
    book: &B,
    planned: &Planned,
) -> Result<(), VerifyFault>
    ensures exact { IsOutcome (problem_of (refining_for (planned_view planned.now)) (flags_view flags.now) request.now (B.contents book.now)) (planned_view planned.now) result }
    ensures shown { OnOk result (IsShown (problem_of (refining_for (planned_view planned.now)) (flags_view flags.now) request.now (B.contents book.now)) (planned_view planned.now)) }
    ensures large { max_request < length request.now → IsErrOf result (VerifyFault.Request (RolloutFault.Request BadRequest)) }
    ensures no_text { length request.now ≤ max_request → is_utf8 request.now ≡ false → IsErrOf result (VerifyFault.Request (RolloutFault.Request BadRequest)) }
{
    let refining = refining_for(planned);
    verify_by(rt, alloc, refining, flags, request, book, planned)
}

/// As [`verify`], with the site's rule refined by m for both kinds of answer. The condition is m from 1.
pub fn verify_refined<R: Threads + Sync, B: Recorded>(
    rt: &R,
    alloc: Global,
    flags: &Flags,
    request: &[u8],
    book: &B,
    planned: &Planned,
    m: u32,
) -> Result<(), VerifyFault>
    requires { 0 < m }
    ensures exact { IsOutcome (problem_of (Times m) (flags_view flags.now) request.now (B.contents book.now)) (planned_view planned.now) result }
    ensures shown { OnOk result (IsShown (problem_of (Times m) (flags_view flags.now) request.now (B.contents book.now)) (planned_view planned.now)) }
    ensures large { max_request < length request.now → IsErrOf result (VerifyFault.Request (RolloutFault.Request BadRequest)) }
    ensures no_text { length request.now ≤ max_request → is_utf8 request.now ≡ false → IsErrOf result (VerifyFault.Request (RolloutFault.Request BadRequest)) }
{
    verify_by(rt, alloc, Refining::Times(m), flags, request, book, planned)
}

/// As [`verify`], on a tally of the request's page: the answer is right for all inputs of which so many fall on each point.
pub fn verify_tally(
    alloc: Global,
    flags: &Flags,
    request: &[u8],
    tally: &PageTally,
    planned: &Planned,
) -> Result<(), VerifyFault>
    ensures exact { IsTallyOutcome (tally_problem_of (refining_for (planned_view planned.now)) (flags_view flags.now) request.now tally.now) (planned_view planned.now) result }
    ensures shown { OnOk result (IsTallyShown (tally_problem_of (refining_for (planned_view planned.now)) (flags_view flags.now) request.now tally.now) (planned_view planned.now)) }
    ensures large { max_request < length request.now → IsErrOf result (VerifyFault.Request (RolloutFault.Request BadRequest)) }
    ensures no_text { length request.now ≤ max_request → is_utf8 request.now ≡ false → IsErrOf result (VerifyFault.Request (RolloutFault.Request BadRequest)) }
{
    let refining = refining_for(planned);
    verify_tally_by(alloc, refining, flags, request, tally, planned)
}

/// As [`verify_tally`], with the site's rule refined by m for both kinds of answer. The condition is m from 1.
pub fn verify_tally_refined(
    alloc: Global,
    flags: &Flags,
    request: &[u8],
    tally: &PageTally,
    planned: &Planned,
    m: u32,
) -> Result<(), VerifyFault>
    requires { 0 < m }
    ensures exact { IsTallyOutcome (tally_problem_of (Times m) (flags_view flags.now) request.now tally.now) (planned_view planned.now) result }
    ensures shown { OnOk result (IsTallyShown (tally_problem_of (Times m) (flags_view flags.now) request.now tally.now) (planned_view planned.now)) }
    ensures large { max_request < length request.now → IsErrOf result (VerifyFault.Request (RolloutFault.Request BadRequest)) }
    ensures no_text { length request.now ≤ max_request → is_utf8 request.now ≡ false → IsErrOf result (VerifyFault.Request (RolloutFault.Request BadRequest)) }
{
    verify_tally_by(alloc, Refining::Times(m), flags, request, tally, planned)
}

/// As [`verify`], of the file of a request, and as [`verify_refined`] where m is given. The condition is m from 1.
pub fn verify_file<R: Threads + Sync, B: Recorded>(
    rt: &R,
    alloc: Global,
    flags: &Flags,
    request: &RequestFile,
    book: &B,
    planned: &Planned,
    m: Option<u32>,
) -> Result<(), VerifyFault>
    requires { IfSome m (λ m. 0 < m) }
    ensures exact { IsOutcome (problem_of (refining_checked m (planned_view planned.now)) (flags_view flags.now) request.now (B.contents book.now)) (planned_view planned.now) result }
    ensures shown { OnOk result (IsShown (problem_of (refining_checked m (planned_view planned.now)) (flags_view flags.now) request.now (B.contents book.now)) (planned_view planned.now)) }
    ensures large { max_request < length request.now → IsErrOf result (VerifyFault.Request (RolloutFault.Request BadRequest)) }
    ensures no_text { length request.now ≤ max_request → is_utf8 request.now ≡ false → IsErrOf result (VerifyFault.Request (RolloutFault.Request BadRequest)) }
{
    let refining = refining_checked(planned, m);
    let request = request.asked()?;
    verify_asked(rt, alloc, refining, flags, request, book, planned)
}

/// As [`verify_file`], on a tally of the request's page: the answer is right for all inputs of which so many fall on each
/// point.
pub fn verify_file_on_tally(
    alloc: Global,
    flags: &Flags,
    request: &RequestFile,
    tally: &PageTally,
    planned: &Planned,
    m: Option<u32>,
) -> Result<(), VerifyFault>
    requires { IfSome m (λ m. 0 < m) }
    ensures exact { IsTallyOutcome (tally_problem_of (refining_checked m (planned_view planned.now)) (flags_view flags.now) request.now tally.now) (planned_view planned.now) result }
    ensures shown { OnOk result (IsTallyShown (tally_problem_of (refining_checked m (planned_view planned.now)) (flags_view flags.now) request.now tally.now) (planned_view planned.now)) }
    ensures large { max_request < length request.now → IsErrOf result (VerifyFault.Request (RolloutFault.Request BadRequest)) }
    ensures no_text { length request.now ≤ max_request → is_utf8 request.now ≡ false → IsErrOf result (VerifyFault.Request (RolloutFault.Request BadRequest)) }
{
    let refining = refining_checked(planned, m);
    let request = request.asked()?;
    verify_tally_asked(alloc, refining, flags, request, tally, planned)
}

/// What an answer is checked against: the site's rule refined by m where that is given, or else as the answer tells.
fn refining_checked(planned: &Planned, m: Option<u32>) -> Refining
    requires { IfSome m (λ m. 0 < m) }
    ensures value { result ≡ refining_checked m (planned_view planned.now) }
    ensures lawful { IsRefining result }
{
    match m {
        Some(m) => Refining::Times(m),
        None => refining_for(planned),
    }
}

fn refining_for(planned: &Planned) -> Refining
    ensures value { result ≡ refining_for (planned_view planned.now) }
    ensures lawful { IsRefining result }
{
    match planned {
        Planned::Emit(rule, _) => Refining::ToTotal(rule.total()),
        Planned::NoneExists(_) => Refining::Times(1),
    }
}

fn verify_by<R: Threads + Sync, B: Recorded>(
    rt: &R,
    alloc: Global,
    refining: Refining,
    flags: &Flags,
    request: &[u8],
    book: &B,
    planned: &Planned,
) -> Result<(), VerifyFault>
    requires { IsRefining refining }
    ensures exact { IsOutcome (problem_of refining (flags_view flags.now) request.now (B.contents book.now)) (planned_view planned.now) result }
    ensures shown { OnOk result (IsShown (problem_of refining (flags_view flags.now) request.now (B.contents book.now)) (planned_view planned.now)) }
    ensures large { max_request < length request.now → IsErrOf result (VerifyFault.Request (RolloutFault.Request BadRequest)) }
    ensures no_text { length request.now ≤ max_request → is_utf8 request.now ≡ false → IsErrOf result (VerifyFault.Request (RolloutFault.Request BadRequest)) }
{
    let request = Request::read(alloc, request)?;
    verify_asked(rt, alloc, refining, flags, &request, book, planned)
}

fn verify_tally_by(
    alloc: Global,
    refining: Refining,
    flags: &Flags,
    request: &[u8],
    tally: &PageTally,
    planned: &Planned,
) -> Result<(), VerifyFault>
    requires { IsRefining refining }
    ensures exact { IsTallyOutcome (tally_problem_of refining (flags_view flags.now) request.now tally.now) (planned_view planned.now) result }
    ensures shown { OnOk result (IsTallyShown (tally_problem_of refining (flags_view flags.now) request.now tally.now) (planned_view planned.now)) }
    ensures large { max_request < length request.now → IsErrOf result (VerifyFault.Request (RolloutFault.Request BadRequest)) }
    ensures no_text { length request.now ≤ max_request → is_utf8 request.now ≡ false → IsErrOf result (VerifyFault.Request (RolloutFault.Request BadRequest)) }
{
    let request = Request::read(alloc, request)?;
    verify_tally_asked(alloc, refining, flags, &request, tally, planned)
}

/// The same of a request that was read.
fn verify_asked<R: Threads + Sync, B: Recorded>(
    rt: &R,
    alloc: Global,
    refining: Refining,
    flags: &Flags,
    request: &Request,
    book: &B,
    planned: &Planned,
) -> Result<(), VerifyFault>
    requires { IsRefining refining }
    ensures exact { IsOutcome (problem_asked refining (flags_view flags.now) request.now (B.contents book.now)) (planned_view planned.now) result }
    ensures shown { OnOk result (IsShown (problem_asked refining (flags_view flags.now) request.now (B.contents book.now)) (planned_view planned.now)) }
{
    let problem = problem_asked(rt, alloc, refining, flags, request, book)?;
    check(alloc, &problem, planned)?;
    Ok(())
}

/// The same on a tally.
fn verify_tally_asked(
    alloc: Global,
    refining: Refining,
    flags: &Flags,
    request: &Request,
    tally: &PageTally,
    planned: &Planned,
) -> Result<(), VerifyFault>
    requires { IsRefining refining }
    ensures exact { IsTallyOutcome (tally_problem_asked refining (flags_view flags.now) request.now tally.now) (planned_view planned.now) result }
    ensures shown { OnOk result (IsTallyShown (tally_problem_asked refining (flags_view flags.now) request.now tally.now) (planned_view planned.now)) }
{
    let problem = tally_problem_asked(alloc, refining, flags, request, tally)?;
    check(alloc, &problem, planned)?;
    Ok(())
}

fn check(alloc: Global, problem: &Problem<'_>, planned: &Planned) -> Result<(), CheckFault>
    requires { IsTally (total_weight problem.now.old) problem.now.counts.items }
    ensures exact { (inputs : Inputs) → IsCounted problem.now inputs → MatchResult result (λ _. Proves (problem_view problem.now inputs) (planned_view planned.now)) (Denies (problem_view problem.now inputs) (planned_view planned.now)) }
    ensures shown { OnOk result ((inputs : Inputs) → IsCounted problem.now inputs → Shows (problem_view problem.now inputs) (planned_view planned.now)) }
    ensures lawful { (inputs : Inputs) → IsLawful (problem_view problem.now inputs) }
{
    // Called for what their contracts say: a rule's total is from 1 to 2^31-1, and limits are lawful.
    let _weight = problem.old.total();
    let _limits = problem.totals.entries();
    let prices = problem.request.prices();
    match planned {
        Planned::Emit(rule, certificate) => check_plan(
            alloc,
            &problem.old,
            rule,
            &problem.totals,
            prices,
            problem.counts.as_slice(),
            certificate,
        ),
        Planned::NoneExists(cut) => { check_cut(alloc, &problem.old, &problem.totals, prices, cut) }
    }
}
