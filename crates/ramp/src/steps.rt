//! From the bytes of steps to their requests.
ghost use Rattle.std.specs.Prelude.{◌≡◌, ◌<◌, ◌≤◌, [], ◌∷◌, true, false, length, option_map, IfOk, IfSome, IsErrOf};
ghost use Rattle.std.specs.List.{AllByRecursion};
ghost use Rattle.std.specs.Str.{is_utf8};
ghost use Rattle.flag_text.specs.Outcome.{GivesUnless};
ghost use Rattle.flag_text.specs.Reading.{max_levels};
ghost use Rattle.flag_text.specs.Shape.{is_whole, items_are_whole, items_levels, levels};
ghost use Rattle.flag_text.specs.View.{view, items_view};
ghost use Rattle.price_core.specs.Request.{max_request};
ghost use Rattle.ramp.specs.Steps.{AskAlike, AsksAsTree, if_steps, judged, most_steps, requests_view, requests_with, some_steps, steps_in, steps_of};

use crate::file_fault::StepsFault;
use crate::request::request_with;
use flag_text::{Tree, print_tree, read_tree};
use limits::{RAMP_STEPS, TEXT_BYTES};
use price_core::{PriceFault, Request};
use std::alloc::{AllocError, Global};

/// The requests of the steps that a JSON text of at most 4,194,304 bytes stands for: 1 to 100, each the text with the totals of
/// the step as its `"totals"`, in the place of `"steps"`. Members whose names come after `steps` are passed over. All ask for a
/// rule of one site of one flag, by the same prices and prohibitions.
///
/// It refuses with `Shape` what is no such text, before memory is taken where it is longer or not UTF-8, and then with `Step`
/// the first step that is no request. Beside the requests one tree is held.
pub fn read_steps(alloc: Global, bytes: &[u8]) -> Result<Vec<Vec<u8>>, StepsFault>
    ensures exact { GivesUnless StepsFault.WantOfMemory (λ v. requests_view v.items) result (steps_of bytes.now) }
    ensures few { IfOk result (λ v. length v.items ≤ most_steps) }
    ensures alike { IfOk result (λ v. AskAlike (requests_view v.items)) }
    ensures large { max_request < length bytes.now → IsErrOf result StepsFault.Shape }
    ensures no_text { length bytes.now ≤ max_request → is_utf8 bytes.now ≡ false → IsErrOf result StepsFault.Shape }
{
    let tree = read_tree(alloc, bytes, TEXT_BYTES)?;
    requests_of(alloc, &tree)
}

/// The requests of the steps of a tree, each of which is lawful by itself.
fn requests_of(alloc: Global, tree: &Tree) -> Result<Vec<Vec<u8>>, StepsFault>
    requires whole { is_whole (view tree.now) ≡ true }
    requires shallow { levels (view tree.now) ≤ max_levels }
    ensures exact { GivesUnless StepsFault.WantOfMemory (λ v. requests_view v.items) result (if_steps (view tree.now) (steps_in (view tree.now))) }
    ensures few { IfOk result (λ v. length v.items ≤ most_steps) }
    ensures alike { IfOk result (λ v. AskAlike (requests_view v.items)) }
{
    let Some(steps) = steps_in(tree) else {
        return Err(StepsFault::Shape);
    };
    let requests = requests_with(alloc, tree, steps)?;
    judge(alloc, requests.as_slice())?;
    Ok(requests)
}

/// The lists of totals, where they are 1 to 100 and nothing else says what the totals are.
fn steps_in(tree: &Tree) -> Option<&[Tree]>
    requires whole { is_whole (view tree.now) ≡ true }
    requires shallow { levels (view tree.now) ≤ max_levels }
    ensures items { option_map (λ ts. items_view ts.now) result ≡ steps_in (view tree.now) }
    ensures flat { IfSome result (λ ts. items_levels (items_view ts.now) < max_levels) }
    ensures whole { IfSome result (λ ts. items_are_whole (items_view ts.now) ≡ true) }
    ensures few { IfSome result (λ ts. length ts.now ≤ most_steps) }
{
    if tree.member("totals").is_some() {
        return None;
    }
    some_steps(tree.member("steps")?.as_list()?)
}

fn some_steps(steps: &[Tree]) -> Option<&[Tree]>
    ensures items { option_map (λ ts. items_view ts.now) result ≡ some_steps (items_view steps.now) }
    ensures same { IfSome result (λ ts. ts.now ≡ steps.now) }
    ensures few { IfSome result (λ ts. length ts.now ≤ most_steps) }
{
    if 1 <= steps.len() && steps.len() <= RAMP_STEPS {
        Some(steps)
    } else {
        None
    }
}

/// The request of each step.
fn requests_with(alloc: Global, tree: &Tree, steps: &[Tree]) -> Result<Vec<Vec<u8>>, AllocError>
    requires whole { is_whole (view tree.now) ≡ true }
    requires totals { items_are_whole (items_view steps.now) ≡ true }
    requires shallow { levels (view tree.now) ≤ max_levels }
    requires flat { items_levels (items_view steps.now) < max_levels }
    ensures texts { IfOk result (λ v. requests_view v.items ≡ requests_with (view tree.now) (items_view steps.now)) }
    ensures asks { IfOk result (λ v. AllByRecursion (AsksAsTree (view tree.now)) (requests_view v.items)) }
    ensures count { IfOk result (λ v. length v.items ≡ length steps.now) }
{
    let mut requests = Vec::with_capacity(alloc, steps.len())?;
    for totals in steps {
        let request = request_with(alloc, tree, totals)?;
        let text = print_tree(alloc, &request)?;
        requests.push(text.into_bytes())?;
    }
    Ok(requests)
}

/// Refuses the first that is no request.
fn judge(alloc: Global, requests: &[Vec<u8>]) -> Result<(), StepsFault>
    requires { length requests.now ≤ most_steps }
    ensures { GivesUnless StepsFault.WantOfMemory (λ u. u) result (judged 1 (requests_view requests.now)) }
{
    for i in 0..requests.len() {
        judge_step(alloc, i as u32 + 1, requests[i].as_slice())?;
    }
    Ok(())
}

fn judge_step(alloc: Global, step: u32, request: &[u8]) -> Result<(), StepsFault>
    ensures { GivesUnless StepsFault.WantOfMemory (λ u. u) result (judged step (request.now ∷ [])) }
{
    match Request::read(alloc, request) {
        Ok(_) => Ok(()),
        Err(PriceFault::WantOfMemory) => Err(StepsFault::WantOfMemory),
        Err(fault) => Err(StepsFault::Step(step, fault)),
    }
}
