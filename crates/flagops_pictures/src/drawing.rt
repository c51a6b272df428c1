//! The pictures of answers that are right.
ghost use Rattle.std.specs.Prelude.{◌≡◌, ◌<◌, Ok, IfOk, IfSome, string_bytes};
ghost use Rattle.bucket_core.specs.Rule.{total_weight};
ghost use Rattle.flag_defs.specs.Flags.{flags_view};
ghost use Rattle.flag_text.specs.Outcome.{GivesUnless};
ghost use Rattle.flagops_pictures.specs.Asked.{asked_by, asked_on};
ghost use Rattle.flagops_pictures.specs.Pictured.{AddsChange, AddsTold, IsDrawn};
ghost use Rattle.flagops_ramps.specs.Ramp.{recorded};
ghost use Rattle.plan_text.specs.Answer.{planned_view};
ghost use Rattle.price_core.specs.Request.{asked_of};
ghost use Rattle.ramp.specs.Right.{IsStepShown};
ghost use Rattle.rollout.specs.Lawful.{IsRefining};
ghost use Rattle.rollout.specs.Refined.{refining_checked};
ghost use Rattle.rollout.specs.CheckedTally.{tally_view};
ghost use Rattle.transport_core.specs.Certificate.{certificate_view};
ghost use Rattle.transport_core.specs.Tally.{IsTally};

use bucket_core::Rule;
use flag_defs::Flags;
use flagops_files::Evidence;
use picture::{Change, Deficit, Title, draw_change, draw_none, page};
use plan_text::Planned;
use price_core::{PriceFault, Request};
use rollout::{Problem, Refining, RolloutFault, problem_asked, tally_problem_asked};
use rule_switches::{runs, switch_table};
use std::alloc::{AllocError, Global};
use std::thread::Threads;
use transport_core::Certificate;

/// What an answer is to: a request over flags and what was recorded, on the site's rule refined by the factor where one is given.
#[derive(Clone, Copy)]
pub(crate) struct Asked<'a> {
    pub flags: &'a Flags,
    pub request: &'a [u8],
    pub evidence: &'a Evidence,
    pub refine: Option<u32>,
}

/// The page that has the picture of an answer that is right.
pub(crate) fn drawn(
    rt: &(impl Threads + Sync),
    alloc: Global,
    asked: Asked<'_>,
    planned: &Planned,
) -> Result<String, AllocError>
    requires factor { IfSome asked.refine (λ m. 0 < m) }
    requires shown { IsStepShown (Ok (flags_view asked.flags.now)) asked.refine asked.request.now (recorded asked.evidence.now) (planned_view planned.now) }
    ensures { IfOk result (λ s. IsDrawn (asked_on (refining_checked asked.entry.refine (planned_view planned.now)) (flags_view asked.entry.flags.now) asked.entry.request.now (recorded asked.entry.evidence.now)) (planned_view planned.now) (string_bytes s)) }
{
    let mut pictures = String::new(alloc);
    let height = add_picture(rt, alloc, &mut pictures, 0, asked, planned)?;
    let text = page(alloc, Title::Rollout, height, pictures.as_str())?;
    Ok(text)
}

/// Adds the picture of an answer that is right to those of a page, so far below its top, and gives how far below it the picture
/// ends.
pub(crate) fn add_picture(
    rt: &(impl Threads + Sync),
    alloc: Global,
    pictures: &mut String,
    y: u64,
    asked: Asked<'_>,
    planned: &Planned,
) -> Result<u64, AllocError>
    requires factor { IfSome asked.refine (λ m. 0 < m) }
    requires shown { IsStepShown (Ok (flags_view asked.flags.now)) asked.refine asked.request.now (recorded asked.evidence.now) (planned_view planned.now) }
    ensures { IfOk result (λ end. AddsTold (asked_on (refining_checked asked.entry.refine (planned_view planned.now)) (flags_view asked.entry.flags.now) asked.entry.request.now (recorded asked.entry.evidence.now)) (planned_view planned.now) y end (string_bytes pictures.old) (string_bytes pictures.new)) }
{
    match Request::read(alloc, asked.request) {
        Ok(request) => add_asked(rt, alloc, pictures, y, asked, &request, planned),
        Err(PriceFault::WantOfMemory) => Err(AllocError),
        // The request was found lawful before.
        Err(_) => unreachable!(),
    }
}

/// The same, of the request that was read.
fn add_asked(
    rt: &(impl Threads + Sync),
    alloc: Global,
    pictures: &mut String,
    y: u64,
    asked: Asked<'_>,
    request: &Request,
    planned: &Planned,
) -> Result<u64, AllocError>
    requires factor { IfSome asked.refine (λ m. 0 < m) }
    requires request { asked_of asked.request.now ≡ Ok request.now }
    requires shown { IsStepShown (Ok (flags_view asked.flags.now)) asked.refine asked.request.now (recorded asked.evidence.now) (planned_view planned.now) }
    ensures { IfOk result (λ end. AddsTold (asked_on (refining_checked asked.entry.refine (planned_view planned.now)) (flags_view asked.entry.flags.now) asked.entry.request.now (recorded asked.entry.evidence.now)) (planned_view planned.now) y end (string_bytes pictures.old) (string_bytes pictures.new)) }
{
    let problem = posed(rt, alloc, asked, request, planned)?;
    let below = draw(alloc, pictures, y, &problem, planned)?;
    Ok(below)
}

/// What a request asks that was found lawful.
fn posed<'a>(
    rt: &(impl Threads + Sync),
    alloc: Global,
    asked: Asked<'_>,
    request: &'a Request,
    planned: &Planned,
) -> Result<Problem<'a>, AllocError>
    requires factor { IfSome asked.refine (λ m. 0 < m) }
    requires request { asked_of asked.request.now ≡ Ok request.now }
    requires shown { IsStepShown (Ok (flags_view asked.flags.now)) asked.refine asked.request.now (recorded asked.evidence.now) (planned_view planned.now) }
    ensures asked { IfOk result (λ p. asked_on (refining_checked asked.entry.refine (planned_view planned.now)) (flags_view asked.entry.flags.now) asked.entry.request.now (recorded asked.entry.evidence.now) ≡ Ok (tally_view p)) }
    ensures tally { IfOk result (λ p. IsTally (total_weight p.old) p.counts.items) }
{
    let refining = refining_for(planned, asked.refine);
    match counted(rt, alloc, refining, asked.flags, request, asked.evidence) {
        Ok(problem) => Ok(problem),
        Err(RolloutFault::WantOfMemory) => Err(AllocError),
        // The request was found lawful before.
        Err(_) => unreachable!(),
    }
}

/// What a request asks of what was recorded: how many inputs fall on each point of the rule that is planned on. The condition is
/// a factor from 1.
fn counted<'a>(
    rt: &(impl Threads + Sync),
    alloc: Global,
    refining: Refining,
    flags: &Flags,
    request: &'a Request,
    evidence: &Evidence,
) -> Result<Problem<'a>, RolloutFault>
    requires { IsRefining refining }
    ensures exact { GivesUnless RolloutFault.WantOfMemory tally_view result (asked_by refining (flags_view flags.now) request.now (recorded evidence.now)) }
    ensures tally { IfOk result (λ p. IsTally (total_weight p.old) p.counts.items) }
{
    match evidence {
        Evidence::Book(book) => problem_asked(rt, alloc, refining, flags, request, book),
        Evidence::Tally(tally) => tally_problem_asked(alloc, refining, flags, request, tally),
    }
}

/// How the site's rule is refined that an answer is checked against.
fn refining_for(planned: &Planned, refine: Option<u32>) -> Refining
    requires { IfSome refine (λ m. 0 < m) }
    ensures value { result ≡ refining_checked refine (planned_view planned.now) }
    ensures lawful { IsRefining result }
{
    match refine {
        Some(m) => Refining::Times(m),
        None => match planned {
            Planned::Emit(rule, _) => Refining::ToTotal(rule.total()),
            Planned::NoneExists(_) => Refining::Times(1),
        },
    }
}

/// Adds the picture of an answer to a problem.
fn draw(
    alloc: Global,
    pictures: &mut String,
    y: u64,
    problem: &Problem<'_>,
    planned: &Planned,
) -> Result<u64, AllocError>
    requires { IsTally (total_weight problem.now.old) problem.now.counts.items }
    ensures { IfOk result (λ end. AddsTold (Ok (tally_view problem.now)) (planned_view planned.now) y end (string_bytes pictures.old) (string_bytes pictures.new)) }
{
    match planned {
        Planned::Emit(rule, certificate) => {
            draw_rule(alloc, pictures, y, problem, rule, certificate)
        }
        Planned::NoneExists(cut) => draw_none(
            alloc,
            pictures,
            y,
            &Deficit {
                old: &problem.old,
                totals: &problem.totals,
                cut,
            },
        ),
    }
}

/// Adds the picture of a rule with its certificate.
fn draw_rule(
    alloc: Global,
    pictures: &mut String,
    y: u64,
    problem: &Problem<'_>,
    rule: &Rule,
    certificate: &Certificate,
) -> Result<u64, AllocError>
    requires { IsTally (total_weight problem.now.old) problem.now.counts.items }
    ensures { IfOk result (λ end. AddsChange (tally_view problem.now) rule.now (certificate_view certificate.now) y end (string_bytes pictures.old) (string_bytes pictures.new)) }
{
    let counts = problem.counts.as_slice();
    let runs = runs(alloc, &problem.old, rule, counts)?;
    let table = switch_table(alloc, &problem.totals, &problem.old, rule, counts)?;
    let change = Change {
        old: &problem.old,
        new: rule,
        totals: &problem.totals,
        prices: problem.request.prices(),
        runs: runs.as_slice(),
        table: &table,
        certificate,
    };
    let below = draw_change(alloc, pictures, y, &change)?;
    Ok(below)
}
