//! Answers, put into the order of their asks.
ghost use Rattle.std.specs.Prelude.{◌≡◌, ◌<◌, ◌-◌, length, map, IfOk};
ghost use Rattle.std.specs.VecDeque.{deque_items};
ghost use Rattle.flag_defs.specs.Flags.{flags_view};
ghost use Rattle.flag_resolve.specs.Views.{resolution_view};
ghost use Rattle.book_share.specs.Asked.{resolved};
ghost use Rattle.book_share.specs.Driven.{AreInTurn};

use crate::ask::Ask;
use flag_defs::Flags;
use flag_resolve::Resolution;
use std::alloc::{AllocError, Global};
use std::collections::VecDeque;

/// The answers in the order of the asks: the workers stand in a line, and the first gives its next answer and goes behind
/// the last.
pub(crate) fn in_order(
    alloc: Global,
    flags: &Flags,
    asks: &[Ask<'_>],
    answers: VecDeque<VecDeque<Resolution>>,
) -> Result<Vec<Resolution>, AllocError>
    requires some { 0 < length answers.items }
    requires turns { AreInTurn (flags_view flags.now) (length answers.items - 1) 0 (length answers.items) asks.now (map deque_items answers.items) }
    ensures { IfOk result (λ v. map resolution_view v.items ≡ map (resolved (flags_view flags.now)) asks.now) }
{
    // The contract alone names the flags.
    let _ = flags;
    let mut line = answers;
    let mut resolutions = Vec::with_capacity(alloc, asks.len())?;
    for _turn in 0..asks.len() {
        let mut worker = line.pop_front().unwrap();
        let answer = worker.pop_front().unwrap();
        resolutions.push(answer)?;
        line.push_back(worker)?;
    }
    Ok(resolutions)
}
