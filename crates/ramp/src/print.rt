//! From answers to the lines that they stand in.
ghost use Rattle.std.specs.Prelude.{◌≡◌, ◌≢◌, ◌<◌, length, map, IfOk, IfErr, Ok};
ghost use Rattle.std.specs.List.{All};
ghost use Rattle.flag_text.specs.Outcome.{GivesUnless};
ghost use Rattle.flag_text.specs.Printing.{text_of};
ghost use Rattle.plan_text.specs.Answer.{IsOrdered, planned_view};
ghost use Rattle.plan_text.specs.PlanFile.{IsWhole, max_plan, planned_written};
ghost use Rattle.ramp.specs.Lines.{ReadsAgain, ramp_file, ramp_of, step_line};
ghost use Rattle.plan_text.specs.declared.fault.PlanFileFault.TheVariants.{TooLarge, WantOfMemory};

use limits::FILE_BYTES;
use plan_text::{PlanFileFault, Planned, print_planned};
use std::alloc::Global;

/// The file of the answers to steps: a line `{"plan":PLAN,"step":N}` for each, N from 1, which reads as the answers where each
/// is in order. It refuses more than 67108864 bytes with `TooLarge`. The condition is that the numbers of each answer are whole.
pub fn print_ramp(alloc: Global, answers: &[Planned]) -> Result<Vec<u8>, PlanFileFault>
    requires whole { All (λ p. IsWhole (planned_view p)) answers.now }
    ensures exact { GivesUnless PlanFileFault.WantOfMemory (λ v. v.items) result (ramp_file (map planned_view answers.now)) }
    ensures reads_back { IfOk result (λ v. All (λ p. IsOrdered (planned_view p)) answers.now → ramp_of v.items ≡ Ok (map planned_view answers.now)) }
{
    let mut text = Vec::new(alloc);
    for i in 0..answers.len() {
        let line = step_line(alloc, i as u64 + 1, &answers[i])?;
        if line.len() > FILE_BYTES - text.len() {
            return Err(PlanFileFault::TooLarge);
        }
        text.extend_from_slice(line.as_slice())?;
    }
    Ok(text)
}

/// The line of one step.
fn step_line(alloc: Global, step: u64, planned: &Planned) -> Result<Vec<u8>, PlanFileFault>
    requires { IsWhole (planned_view planned.now) }
    ensures line { IfOk result (λ v. v.items ≡ step_line step (planned_view planned.now)) }
    ensures reads_back { IfOk result (λ _. IsOrdered (planned_view planned.now) → ReadsAgain (planned_view planned.now)) }
    ensures large { IfErr result (λ e. e ≢ WantOfMemory → (e ≡ TooLarge) × (max_plan < length (text_of (planned_written (planned_view planned.now))))) }
{
    let plan = print_planned(alloc, planned)?;
    let end = format!(in alloc; ",\"step\":{step}}}\n")?;
    let mut line = Vec::new(alloc);
    line.extend_from_slice(b"{\"plan\":")?;
    line.extend_from_slice(plan.as_slice())?;
    line.extend_from_slice(end.as_bytes())?;
    Ok(line)
}
