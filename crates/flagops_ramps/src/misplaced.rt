//! Where a step is put in out of turn: what a person is told of the rule that the site has.
use crate::doubts::first_request;
use crate::keeping::is_left;
use flag_defs::Flags;
use flagops_rollouts::has_rule;
use plan_text::Planned;
use price_core::{PriceFault, Request};
use std::alloc::{AllocError, Global};

/// That the site of these steps has another rule than the answer before them left, and that of which answer it has, if of one; nothing
/// where it has that rule, or there is no answer before.
pub(crate) fn misplaced(
    alloc: Global,
    step: u32,
    flags: &Flags,
    steps: &[Vec<u8>],
    before: Option<&Planned>,
    answers: &[Planned],
) -> Result<String, AllocError> {
    match Request::read(alloc, first_request(steps)) {
        Ok(request) => if is_left(alloc, flags, &request, before)? {
            Ok(String::new(alloc))
        } else {
            let stands = step_of(alloc, flags, &request, answers)?;
            other_place(alloc, step.saturating_sub(1), stands)
        },
        Err(PriceFault::WantOfMemory) => Err(AllocError),
        Err(_) => Ok(String::new(alloc)),
    }
}

/// The number of the first step, from 1, whose rule stands at the site of a request; 0 where none of these does.
fn step_of(
    alloc: Global,
    flags: &Flags,
    request: &Request,
    answers: &[Planned],
) -> Result<u32, AllocError> {
    let mut number: u32 = 0;
    for planned in answers {
        number = number.saturating_add(1);
        if let Planned::Emit(rule, _) = planned {
            if has_rule(alloc, flags, request.flag(), request.site(), rule)? {
                return Ok(number);
            }
        }
    }
    Ok(0)
}

fn other_place(alloc: Global, before: u32, stands: u32) -> Result<String, AllocError> {
    if stands == 0 {
        format!(in alloc;
            "\n  the site has neither the rule that step {before} left nor that of another step; apply the steps one after the other"
        )
    } else {
        format!(in alloc;
            "\n  the site has the rule that step {stands} left, and not that of step {before}; apply the steps one after the other"
        )
    }
}
