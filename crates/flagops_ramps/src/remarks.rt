//! What a person is told of steps that are refused.
ghost use Rattle.std.specs.Prelude.{IfOk, string_bytes};
ghost use Rattle.flagops_ramps.specs.Diagnostics.{NamesPath, NamesStep};

use crate::sums::of_sums;
use file_diagnostics::of_text;
use flagops_files::{Question, TEXT_LIMIT, file_line, quoted};
use ramp::StepFault;
use rollout::RolloutFault;
use std::alloc::{AllocError, Global};

/// What a file that has no steps lacks.
const LOOK: &str =
    "it is not a request with \"steps\", a list of 1 to 100 totals, in the place of \"totals\"; docs/FORMATS.md has all of it";

/// Of the steps of a file, by its text, which are for a rule with each weight multiplied by a factor: what is wrong with one that is no
/// tree, what steps look like where there are none, and else the step that is refused.
#[tactic(auto, using(crate::proofs::Diagnosed::name_path, crate::proofs::Diagnosed::file_path, crate::proofs::Diagnosed::step_path))]
pub(crate) fn of_steps_in(
    alloc: Global,
    path: &str,
    question: &Question,
    factor: u32,
    fault: StepFault,
) -> Result<String, AllocError>
    ensures { IfOk result (λ s. NamesPath path.now (string_bytes s)) }
{
    let file = &question.request;
    match file.tree() {
        Ok(_) if fault.step == 0 => file_line(alloc, path, LOOK),
        Ok(_) => of_step(alloc, path, question, factor, fault),
        Err(fault) => of_text(alloc, path, file.bytes(), TEXT_LIMIT as usize, fault),
    }
}

/// Of a step that is refused.
fn of_step(
    alloc: Global,
    path: &str,
    question: &Question,
    factor: u32,
    fault: StepFault,
) -> Result<String, AllocError>
    ensures { IfOk result (λ s. NamesStep path.now fault.step (string_bytes s)) }
{
    let advice = advice_for(alloc, question, factor, fault)?;
    let what = fault.fault;
    let reason = format!(in alloc; "{what}{advice}")?;
    step_line(alloc, path, fault.step, reason.as_str())
}

/// What to do about it, as lines below it.
fn advice_for(
    alloc: Global,
    question: &Question,
    factor: u32,
    fault: StepFault,
) -> Result<String, AllocError> {
    if fault.fault == RolloutFault::TotalsSum {
        of_sums(alloc, question, fault.step, factor)
    } else {
        String::from_str(alloc, advice_on(fault.fault))
    }
}

/// What to do about a step that is refused, as a line below it.
pub(crate) fn advice_on(fault: RolloutFault) -> &'static str {
    match fault {
        RolloutFault::WantOfMemory => "",
        RolloutFault::Request(_) => "\n  docs/FORMATS.md says what the totals of a step look like",
        RolloutFault::UnknownFlag => "\n  'check' lists the keys of a document",
        RolloutFault::NoSite => "\n  sites are counted from 0, in the order of the text",
        RolloutFault::Computed => "\n  steps are planned on literal buckets alone",
        RolloutFault::UnknownVariant => {
            "\n  each name in its totals, and in the prices and changes, has to be a variant of the flag"
        }
        RolloutFault::TotalsSum => {
            "\n  its totals are points: have them sum to the sum of the site's weights (with --refine M, M times that)"
        }
        RolloutFault::TotalTooLarge => {
            "\n  divide the weights by a common factor, or take a smaller M"
        }
        RolloutFault::NoWeight => "\n  give one bucket of the site a weight above 0",
        RolloutFault::TooLarge => {
            "\n  split the document; a rule of many short runs is long: take a smaller M"
        }
        RolloutFault::OtherTally => {
            "\n  tally the page of the steps, at the weight of the site's rule (with --refine M, M times that)"
        }
    }
}

/// Of a step to which a file has no answer.
pub(crate) fn of_no_step(alloc: Global, path: &str, step: u32) -> Result<String, AllocError>
    ensures { IfOk result (λ s. NamesStep path.now step (string_bytes s)) }
{
    step_line(alloc, path, step, "the file has no answer to it")
}

/// A line that names a file, the number of a step and what is the matter with it.
pub fn step_line(alloc: Global, path: &str, step: u32, reason: &str) -> Result<String, AllocError>
    ensures { IfOk result (λ s. NamesStep path.now step (string_bytes s)) }
{
    let name = quoted(alloc, path)?;
    format!(in alloc; "error: {name}, step {step}: {reason}\n")
}
