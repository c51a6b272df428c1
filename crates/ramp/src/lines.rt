//! From the lines of a file to the answers that stand in them.
ghost use Rattle.std.specs.Prelude.{◌≡◌, ◌+◌, ◌<◌, [], ◌∷◌, codes, length, map, true, option_map, IfOk, MatchOption, IfSome, IsErrOf};
ghost use Rattle.std.specs.List.{position, slice_split};
ghost use Rattle.std.specs.Result.{result_ok};
ghost use Rattle.flag_text.specs.Outcome.{GivesUnless};
ghost use Rattle.flag_text.specs.Printing.{text_of};
ghost use Rattle.flag_text.specs.Readers.{member_of};
ghost use Rattle.flag_text.specs.Shape.{is_whole};
ghost use Rattle.flag_text.specs.View.{view};
ghost use Rattle.book_core.specs.Reading.{is_feed};
ghost use Rattle.plan_text.specs.Answer.{planned_view};
ghost use Rattle.plan_text.specs.PlanFile.{answer_of, max_plan};
ghost use Rattle.ramp.specs.Lines.{is_step, ramp_of, step_in, step_of};

use crate::file_fault::RampFileFault;
use flag_text::{TextFault, Tree, print_tree, read_tree};
use limits::FILE_BYTES;
use plan_text::{PlanFileFault, Planned, read_planned};
use std::alloc::{AllocError, Global};

/// The answers of a file: a line `{"plan":PLAN,"step":N}` for each step, N from 1, each with its line feed.
///
/// It refuses more than 67108864 bytes with `TooLarge`, before memory is taken, and then with `Line` the first line that is no
/// answer to the step of its number. Time is linear in the bytes.
pub fn read_ramp(alloc: Global, bytes: &[u8]) -> Result<Vec<Planned>, RampFileFault>
    ensures exact { GivesUnless RampFileFault.WantOfMemory (λ v. map planned_view v.items) result (ramp_of bytes.now) }
    ensures large { max_plan < length bytes.now → IsErrOf result RampFileFault.TooLarge }
{
    if bytes.len() > FILE_BYTES {
        return Err(RampFileFault::TooLarge);
    }
    let mut answers = Vec::new(alloc);
    let mut rest = bytes;
    let mut step = 1;
    'lines: while let Some((line, after)) = cut(rest) {
        match read_step(alloc, step, line)? {
            Some(planned) => answers.push(planned)?,
            None => return Err(RampFileFault::Line(step)),
        }
        step += 1;
        rest = after;
    }
    if rest.is_empty() {
        Ok(answers)
    } else {
        Err(RampFileFault::Line(step))
    }
}

/// The bytes before the first line feed, and those after it.
fn cut(bytes: &[u8]) -> Option<(&[u8], &[u8])>
    ensures parts { MatchOption result (slice_split is_feed bytes.now ≡ bytes.now ∷ [])
        (λ r. slice_split is_feed bytes.now ≡ r.0.now ∷ slice_split is_feed r.1.now) }
    ensures lengths { IfSome result (λ r. length r.0.now + length r.1.now + 1 ≡ length bytes.now) }
{
    match feed_at(bytes) {
        None => None,
        Some(at) => Some((&bytes[..at], &bytes[at + 1..])),
    }
}

fn feed_at(bytes: &[u8]) -> Option<usize>
    ensures { result ≡ position is_feed bytes.now }
{
    bytes.iter().position(|b| *b == b'\n')
}

/// The answer of a line, where it is one to the step of this number.
fn read_step(alloc: Global, step: u64, line: &[u8]) -> Result<Option<Planned>, AllocError>
    ensures { IfOk result (λ o. option_map planned_view o ≡ step_of step line.now) }
{
    match read_tree(alloc, line, FILE_BYTES) {
        Ok(tree) => step_in(alloc, step, &tree),
        Err(TextFault::WantOfMemory) => Err(AllocError),
        Err(_) => Ok(None),
    }
}

fn step_in(alloc: Global, step: u64, tree: &Tree) -> Result<Option<Planned>, AllocError>
    requires { is_whole (view tree.now) ≡ true }
    ensures { IfOk result (λ o. option_map planned_view o ≡ step_in step (view tree.now)) }
{
    if !is_step(step, tree) {
        return Ok(None);
    }
    match tree.member("plan") {
        None => Ok(None),
        Some(plan) => plan_in(alloc, plan),
    }
}

/// Whether the number of the step is told.
fn is_step(step: u64, tree: &Tree) -> bool
    ensures { result ≡ is_step step (member_of (codes "step") (view tree.now)) }
{
    match tree.member("step") {
        Some(Tree::Whole(n)) => 0 <= *n && *n as u64 == step,
        _ => false,
    }
}

/// The answer of a plan file, as a tree.
fn plan_in(alloc: Global, plan: &Tree) -> Result<Option<Planned>, AllocError>
    requires { is_whole (view plan.now) ≡ true }
    ensures { IfOk result (λ o. option_map planned_view o ≡ result_ok (answer_of (text_of (view plan.now)))) }
{
    let text = print_tree(alloc, plan)?;
    match read_planned(alloc, text.as_bytes()) {
        Ok(planned) => Ok(Some(planned)),
        Err(PlanFileFault::WantOfMemory) => Err(AllocError),
        Err(_) => Ok(None),
    }
}
