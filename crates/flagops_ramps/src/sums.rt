//! Totals of a step that do not sum to the points of the site's rule: what they sum to, and what to do.
use crate::remarks::advice_on;
use bucket_core::total_weight;
use flagops_files::Question;
use logic_ast::{LogicFault, site};
use price_core::{PriceFault, Request};
use ramp::{StepsFault, read_steps};
use rollout::RolloutFault;
use std::alloc::{AllocError, Global};

/// What the totals of a step sum to, at least and at most, and the points that the rule of its site has.
#[derive(Clone, Copy)]
struct Sums {
    low: u128,
    high: u128,
    points: u128,
}

/// The lines on a step whose totals do not sum to the points of the site's rule, with each weight multiplied by a factor: the sums, and
/// the factor between them where there is one.
pub(crate) fn of_sums(
    alloc: Global,
    question: &Question,
    step: u32,
    factor: u32,
) -> Result<String, AllocError> {
    match request_of(alloc, question, step)? {
        Some(request) => of_request(alloc, question, &request, factor),
        None => String::from_str(alloc, advice_on(RolloutFault::TotalsSum)),
    }
}

/// The request of a step, where it has one.
fn request_of(
    alloc: Global,
    question: &Question,
    step: u32,
) -> Result<Option<Request>, AllocError> {
    let steps = match read_steps(alloc, question.request.bytes()) {
        Ok(steps) => steps,
        Err(StepsFault::WantOfMemory) => return Err(AllocError),
        Err(_) => return Ok(None),
    };
    let place = step.saturating_sub(1) as usize;
    let Some(bytes) = steps.get(place) else {
        return Ok(None);
    };
    match Request::read(alloc, bytes.as_slice()) {
        Ok(request) => Ok(Some(request)),
        Err(PriceFault::WantOfMemory) => Err(AllocError),
        Err(_) => Ok(None),
    }
}

/// The lines on the request of a step.
fn of_request(
    alloc: Global,
    question: &Question,
    request: &Request,
    factor: u32,
) -> Result<String, AllocError> {
    match sums_of(alloc, question, request, factor)? {
        Some(sums) => {
            let advice = advice(alloc, sums, factor)?;
            let Sums { low, high, points } = sums;
            if low == high {
                format!(in alloc; "\n  they sum to {low}, and the rule has {points} points{advice}")
            } else {
                format!(in alloc;
                    "\n  they sum to {low} at least and {high} at most, and the rule has {points} points{advice}"
                )
            }
        }
        None => String::from_str(alloc, advice_on(RolloutFault::TotalsSum)),
    }
}

/// The sums of a request, and the points of the rule that it is for, where there is one.
fn sums_of(
    alloc: Global,
    question: &Question,
    request: &Request,
    factor: u32,
) -> Result<Option<Sums>, AllocError> {
    let Some(flag) = question.flags.get(request.flag()) else {
        return Ok(None);
    };
    if flag.is_broken() {
        return Ok(None);
    }
    let names = flag.names(alloc)?;
    let totals = match request.totals(alloc, names.as_slice()) {
        Ok(totals) => totals,
        Err(PriceFault::WantOfMemory) => return Err(AllocError),
        Err(_) => return Ok(None),
    };
    let points = points_of(alloc, question, request)?;
    Ok(Some(Sums {
        low: totals.low_sum(),
        high: totals.high_sum(),
        points: points.saturating_mul(u128::from(factor)),
    }))
}

/// The points of the rule that a request is for: none where there is no rule.
fn points_of(alloc: Global, question: &Question, request: &Request) -> Result<u128, AllocError> {
    let Some(flag) = question.flags.get(request.flag()) else {
        return Ok(0);
    };
    let Some(targeting) = flag.targeting() else {
        return Ok(0);
    };
    match site(alloc, targeting, request.site()) {
        Ok(site) => Ok(total_weight(site.entries.as_slice())),
        Err(LogicFault::WantOfMemory) => Err(AllocError),
        Err(_) => Ok(0),
    }
}

/// By how much to multiply the totals, or which factor to plan with, where one of the sums is a multiple of the other.
fn advice(alloc: Global, sums: Sums, factor: u32) -> Result<String, AllocError> {
    let Sums { low, high, points } = sums;
    if low != high {
        return Ok(String::new(alloc));
    }
    if let Some(times) = times_as_many(low, points) {
        return format!(in alloc;
            "\n  that is {times} times as many: multiply each total by {times}"
        );
    }
    match times_as_many(points, low) {
        Some(times) => {
            let refine = times.saturating_mul(u128::from(factor));
            format!(in alloc;
                "\n  the totals are of {times} times as many: give --refine {refine}, or divide each total by {times}"
            )
        }
        None => Ok(String::new(alloc)),
    }
}

/// How many times a number of points goes into a larger one, where nothing is left over.
fn times_as_many(points: u128, others: u128) -> Option<u128> {
    if points == 0 || others % points != 0 {
        return None;
    }
    let times = others / points;
    if times > 1 { Some(times) } else { None }
}
