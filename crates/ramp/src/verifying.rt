//! Whether the answers to a rollout in steps are right.
ghost use Rattle.std.specs.Prelude.{◌≡◌, ◌<◌, ◌-◌, ◌^◌, ◌==◌, if◌then◌else◌, length, map, Ok, Err, IfSome};
ghost use Rattle.flag_text.specs.Outcome.{GivesUnless};
ghost use Rattle.flag_defs.specs.Flags.{flags_view};
ghost use Rattle.plan_text.specs.Answer.{planned_view};
ghost use Rattle.ramp.specs.Ramp.{Standing, in_book, in_tally, requests_view};
ghost use Rattle.ramp.specs.Right.{IsOfAnswered, IsTold, TellsStep};

use crate::basis::{Basis, CountedBook};
use crate::fault::RampFault;
use crate::standing::{behind, first, goes_on};
use flag_defs::Flags;
use page_tally::Recorded;
use plan_text::Planned;
use rollout::{PageTally, RolloutFault, VerifyFault};
use std::alloc::Global;
use std::thread::Threads;

/// Checks the answers to the requests of steps: the first as `rollout::verify` does, or by a factor as
/// `rollout::verify_refined`, and each other on the flags with the rule of the one before, by the factor 1.
///
/// The first step whose answer is not right is told, and then whether there are fewer answers than steps, or more; a step for
/// which no rule fits is the last. No step is told that has no answer, and where there is none at all no memory is taken. The
/// conditions are a factor from 1, and fewer than 2^32 - 1 steps.
pub fn verify_steps<R: Threads + Sync, B: Recorded>(
    rt: &R,
    alloc: Global,
    flags: &Flags,
    steps: &[Vec<u8>],
    book: &B,
    refine: Option<u32>,
    answers: &[Planned],
) -> Result<(), RampFault>
    requires factor { IfSome refine (λ m. 0 < m) }
    requires few { length steps.now < 2 ^ 32 - 1 }
    ensures told { IsTold (Ok (flags_view flags.now)) refine (requests_view steps.now) (in_book (B.contents book.now)) (map planned_view answers.now) result }
    ensures answered { IsOfAnswered (length answers.now) result }
    ensures none { length answers.now ≡ 0 → 0 < length steps.now → result ≡ Err RampFault.Lines }
{
    verify_in_turn(
        alloc,
        flags,
        steps,
        &CountedBook { rt, book },
        refine,
        answers,
    )
}

/// As [`verify_steps`], on a tally of the page of the requests: each answer is right for all inputs of which so many fall on each
/// point. The conditions are a factor from 1, and fewer than 2^32 - 1 steps.
pub fn verify_steps_on_tally(
    alloc: Global,
    flags: &Flags,
    steps: &[Vec<u8>],
    tally: &PageTally,
    refine: Option<u32>,
    answers: &[Planned],
) -> Result<(), RampFault>
    requires factor { IfSome refine (λ m. 0 < m) }
    requires few { length steps.now < 2 ^ 32 - 1 }
    ensures told { IsTold (Ok (flags_view flags.now)) refine (requests_view steps.now) (in_tally tally.now) (map planned_view answers.now) result }
    ensures answered { IsOfAnswered (length answers.now) result }
    ensures none { length answers.now ≡ 0 → 0 < length steps.now → result ≡ Err RampFault.Lines }
{
    verify_in_turn(alloc, flags, steps, tally, refine, answers)
}

/// The same on what was recorded.
#[tactic(auto, using(crate::proofs::Told::none_told))]
fn verify_in_turn<E: Basis>(
    alloc: Global,
    flags: &Flags,
    steps: &[Vec<u8>],
    basis: &E,
    refine: Option<u32>,
    answers: &[Planned],
) -> Result<(), RampFault>
    requires needs { E.Needs }
    requires factor { IfSome refine (λ m. 0 < m) }
    requires few { length steps.now < 2 ^ 32 - 1 }
    ensures told { IsTold (Ok (flags_view flags.now)) refine (requests_view steps.now) (E.recorded basis.now) (map planned_view answers.now) result }
    ensures answered { IsOfAnswered (length answers.now) result }
    ensures none { length answers.now ≡ 0 → 0 < length steps.now → result ≡ Err RampFault.Lines }
{
    if answers.is_empty() && !steps.is_empty() {
        return Err(RampFault::Lines);
    }
    let mut standing = first(alloc, flags);
    let mut factor = refine;
    for i in 0..steps.len() {
        if i >= answers.len() {
            return Err(RampFault::Lines);
        }
        let planned = &answers[i];
        let request = steps[i].as_slice();
        match verdict(alloc, &standing, request, basis, factor, planned) {
            Ok(()) => {}
            Err(fault) => return Err(RampFault::Step(i as u32 + 1, fault)),
        }
        if !goes_on(planned) {
            return ended(answers, i + 1);
        }
        standing = behind(alloc, standing, request, planned, i + 1 < steps.len());
        factor = Some(1);
    }
    ended(answers, steps.len())
}

/// Whether there are so many answers.
fn ended(answers: &[Planned], steps: usize) -> Result<(), RampFault>
    ensures { result ≡ (if length answers.now == steps then Ok tt else Err RampFault.Lines) }
{
    if answers.len() == steps {
        Ok(())
    } else {
        Err(RampFault::Lines)
    }
}

/// Whether the answer to a step is right.
fn verdict<E: Basis>(
    alloc: Global,
    standing: &Result<Flags, RolloutFault>,
    request: &[u8],
    basis: &E,
    refine: Option<u32>,
    planned: &Planned,
) -> Result<(), VerifyFault>
    requires needs { E.Needs }
    requires factor { IfSome refine (λ m. 0 < m) }
    ensures { (s : Standing) → GivesUnless RolloutFault.WantOfMemory flags_view standing.now s → TellsStep s refine request.now (E.recorded basis.now) (planned_view planned.now) result }
{
    match standing {
        Ok(flags) => basis.verify(alloc, flags, request, refine, planned),
        Err(fault) => Err(VerifyFault::Request(*fault)),
    }
}
