//! From an answer to the bytes of its plan file.
ghost use Rattle.std.specs.Prelude.{◌≡◌, ◌≤◌, length, IfOk, OnOk, Ok};
ghost use Rattle.flag_text.specs.Outcome.{GivesUnless};
ghost use Rattle.flag_text.specs.Printing.{text_of};
ghost use Rattle.flag_text.specs.Reading.{tree_of};
ghost use Rattle.plan_text.specs.Answer.{IsOrdered, FitsFile, planned_view};
ghost use Rattle.plan_text.specs.PlanFile.{planned_written, max_plan, IsWhole, plan_file, plan_line, answer_of};

use crate::fault::PlanFileFault;
use crate::planned::Planned;
use crate::writing::write_planned;
use json::Writer;
use limits::FILE_BYTES;
use std::alloc::{AllocError, Global};

/// The bytes of the plan file of an answer, which read as the answer where it is in order. It refuses more than 67108864
/// bytes with `TooLarge`. The condition is that its numbers are whole: alpha, beta and the cost within 2^53-1.
pub fn print_planned(alloc: Global, planned: &Planned) -> Result<Vec<u8>, PlanFileFault>
    requires whole { IsWhole (planned_view planned.now) }
    ensures exact { GivesUnless PlanFileFault.WantOfMemory (λ v. v.items) result (plan_file (planned_view planned.now)) }
    ensures reads_back { IfOk result (λ v. IsOrdered (planned_view planned.now) → answer_of v.items ≡ Ok (planned_view planned.now)) }
{
    let text = planned_text(alloc, planned)?;
    if text.len() > FILE_BYTES {
        return Err(PlanFileFault::TooLarge);
    }
    Ok(text)
}

/// The plan file of an answer as a line: the bytes of [`print_planned`] and a line end, which together read as the answer
/// where it is in order. It refuses more than 67108864 bytes, the line end among them, with `TooLarge`. The condition is that
/// of [`print_planned`].
pub fn print_planned_line(alloc: Global, planned: &Planned) -> Result<Vec<u8>, PlanFileFault>
    requires whole { IsWhole (planned_view planned.now) }
    ensures exact { GivesUnless PlanFileFault.WantOfMemory (λ v. v.items) result (plan_line (planned_view planned.now)) }
    ensures reads_back { IfOk result (λ v. IsOrdered (planned_view planned.now) → answer_of v.items ≡ Ok (planned_view planned.now)) }
{
    let mut line = print_planned(alloc, planned)?;
    if line.len() == FILE_BYTES {
        return Err(PlanFileFault::TooLarge);
    }
    line.push(b'\n')?;
    Ok(line)
}

/// The text of an answer, without a tree of it.
pub(crate) fn planned_text(alloc: Global, planned: &Planned) -> Result<Vec<u8>, AllocError>
    requires whole { IsWhole (planned_view planned.now) }
    ensures text { IfOk result (λ v. v.items ≡ text_of (planned_written (planned_view planned.now))) }
    ensures reads_back { IfOk result (λ v. length v.items ≤ max_plan → tree_of v.items max_plan ≡ Ok (planned_written (planned_view planned.now))) }
    ensures fits { OnOk result (FitsFile (planned_view planned.now)) }
{
    let mut out = Writer::new(Vec::with_capacity(alloc, 128)?);
    write_planned(&mut out, planned)?;
    Ok(out.into_inner())
}
