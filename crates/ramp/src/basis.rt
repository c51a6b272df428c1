//! What steps are planned on and checked against.
ghost use denote.Param.Send.{IsSync};
ghost use Rattle.std.specs.Prelude.{◌<◌, IfOk, IfSome, ⊤};
ghost use Rattle.flag_defs.specs.Flags.{AreFlags, flags_view};
ghost use Rattle.plan_text.specs.Answer.{IsOrdered, planned_view};
ghost use Rattle.plan_text.specs.PlanFile.{IsWhole};
ghost use Rattle.ramp.specs.Ramp.{AnswersStep, Recorded, in_book, in_tally};
ghost use Rattle.ramp.specs.Right.{TellsStep};

use flag_defs::Flags;
use plan_text::Planned;
use rollout::{
    PageTally, RolloutFault, VerifyFault, plan_refined, plan_tally, verify, verify_refined,
    verify_tally, verify_tally_refined,
};
use std::alloc::Global;
use std::thread::Threads;

/// What was recorded of the users that a rollout has reached, with what it takes to count them.
pub(crate) trait Basis {
    // The inputs of a book, or how many of one page fall on each point.
    ghost recorded: { Self → Recorded };

    // What counting them needs.
    ghost Needs: { Type 0 };

    /// The answer to a request, on the site's rule refined by m. The condition is m from 1.
    fn plan(
        &self,
        alloc: Global,
        flags: &Flags,
        request: &[u8],
        m: u32,
    ) -> Result<Planned, RolloutFault>
        requires needs { Needs }
        requires factor { 0 < m }
        requires lawful { AreFlags (flags_view flags.now) }
        ensures exact { AnswersStep (Ok (flags_view flags.now)) m request.now (recorded self.now) result }
        ensures ordered { IfOk result (λ p. IsOrdered (planned_view p)) }
        ensures whole { IfOk result (λ p. IsWhole (planned_view p)) };

    /// Whether an answer to a request is right, on the site's rule refined by the factor that is given, or else as the answer
    /// tells. The condition is a factor from 1.
    fn verify(
        &self,
        alloc: Global,
        flags: &Flags,
        request: &[u8],
        refine: Option<u32>,
        planned: &Planned,
    ) -> Result<(), VerifyFault>
        requires needs { Needs }
        requires factor { IfSome refine (λ m. 0 < m) }
        ensures { TellsStep (Ok (flags_view flags.now)) refine request.now (recorded self.now) (planned_view planned.now) result };
}

/// A book, and the threads that count its inputs.
#[derive(Drop)]
pub(crate) struct CountedBook<'a, R, B> {
    pub(crate) rt: &'a R,
    pub(crate) book: &'a B,
}

impl<R: Threads + Sync, B: page_tally::Recorded> Basis for CountedBook<'_, R, B> {
    ghost recorded = { λ b. in_book (B.contents b.book.now) };

    ghost Needs = { IsSync R.row };

    fn plan(
        &self,
        alloc: Global,
        flags: &Flags,
        request: &[u8],
        m: u32,
    ) -> Result<Planned, RolloutFault> {
        plan_refined(self.rt, alloc, flags, request, self.book, m)
    }

    fn verify(
        &self,
        alloc: Global,
        flags: &Flags,
        request: &[u8],
        refine: Option<u32>,
        planned: &Planned,
    ) -> Result<(), VerifyFault> {
        match refine {
            None => verify(self.rt, alloc, flags, request, self.book, planned),
            Some(m) => verify_refined(self.rt, alloc, flags, request, self.book, planned, m),
        }
    }
}

impl Basis for PageTally {
    ghost recorded = { λ tally. in_tally tally };

    ghost Needs = { ⊤ };

    fn plan(
        &self,
        alloc: Global,
        flags: &Flags,
        request: &[u8],
        m: u32,
    ) -> Result<Planned, RolloutFault> {
        plan_tally(alloc, flags, request, self, m)
    }

    fn verify(
        &self,
        alloc: Global,
        flags: &Flags,
        request: &[u8],
        refine: Option<u32>,
        planned: &Planned,
    ) -> Result<(), VerifyFault> {
        match refine {
            None => verify_tally(alloc, flags, request, self, planned),
            Some(m) => verify_tally_refined(alloc, flags, request, self, planned, m),
        }
    }
}
