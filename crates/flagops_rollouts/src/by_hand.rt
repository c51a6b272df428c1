//! What a plan switches beside the edit that comes to mind first.
ghost use Rattle.std.specs.Prelude.{◌≡◌, ◌≤◌, ◌<◌, if◌then◌else◌, length, nat_le, sum, sum_by, true, IfOk, None, Some, string_bytes};
ghost use Rattle.std.specs.Map.{lookup};
ghost use Rattle.std.specs.Str.{bytes_eq};
ghost use Rattle.bucket_core.specs.Reading.{rule_of_entries};
ghost use Rattle.bucket_core.specs.Rule.{entries_view, total_weight};
ghost use Rattle.flag_defs.specs.Flags.{flags_view};
ghost use Rattle.flag_text.specs.Outcome.{GivesUnless};
ghost use Rattle.flagops_files.specs.Question.{question_view};
ghost use Rattle.flagops_rollouts.specs.ByHand.{IsEditLine, IsEditOf, IsEditOn, IsSwitched, are_comparable, edit_line, if_rule, old_rule};
ghost use Rattle.flagops_rollouts.specs.Standing.{entries_in};
ghost use Rattle.limits.specs.Limits.{tally_inputs};
ghost use Rattle.plan_text.specs.Answer.{planned_view};
ghost use Rattle.rule_switches.specs.Switches.{rows_view};

use crate::recorded::page_asked;
use crate::standing::entries_in;
use book_core::Page;
use bucket_core::{Rule, RuleFault};
use flag_defs::Flags;
use flagops_files::{Evidence, Question};
use limits::TALLY_INPUTS;
use page_tally::Recorded;
use plan_text::Planned;
use price_core::Request;
use rule_switches::{Switch, obvious_switches, tally_switches};
use std::alloc::{AllocError, Global};
use std::thread::Threads;

/// What the edit by hand and a plan would switch of the recorded inputs, as a line; nothing where no rule fits. The condition is a
/// factor from 1, by which the old rule is refined.
pub(crate) fn edit_of(
    rt: &(impl Threads + Sync),
    alloc: Global,
    question: &Question,
    factor: u32,
    planned: &Planned,
) -> Result<String, AllocError>
    requires { 0 < factor }
    ensures { IfOk result (λ s. IsEditOf (question_view question.now) factor (planned_view planned.now) (string_bytes s)) }
{
    let Planned::Emit(rule, _) = planned else {
        return Ok(String::new(alloc));
    };
    let Ok(request) = question.request.asked() else {
        return Ok(String::new(alloc));
    };
    let flags = &question.flags;
    let Some(page) = page_asked(alloc, flags, request)? else {
        return Ok(String::new(alloc));
    };
    match old_rule(alloc, flags, request, factor)? {
        Some(before) => edit_on(rt, alloc, &question.evidence, &page, &before, rule),
        None => Ok(String::new(alloc)),
    }
}

/// The rule at the site of a request, refined by a factor.
fn old_rule(
    alloc: Global,
    flags: &Flags,
    request: &Request,
    factor: u32,
) -> Result<Option<Rule>, AllocError>
    requires { 0 < factor }
    ensures { IfOk result (λ o. o ≡ old_rule factor (entries_in request.now.site (lookup (bytes_eq request.now.flag) (flags_view flags.now)))) }
{
    let flag = flags.get(request.flag());
    let Some(entries) = entries_in(alloc, request.site(), flag)? else {
        return Ok(None);
    };
    match refined(alloc, entries, factor) {
        Ok(rule) => Ok(Some(rule)),
        Err(RuleFault::WantOfMemory) => Err(AllocError),
        Err(_) => Ok(None),
    }
}

/// The rule of entries, refined by a factor.
fn refined(alloc: Global, entries: Vec<(String, u64)>, factor: u32) -> Result<Rule, RuleFault>
    requires { 0 < factor }
    ensures { GivesUnless RuleFault.WantOfMemory (λ r. r) result (if_rule factor (rule_of_entries (entries_view entries.items))) }
{
    let rule = Rule::make(alloc, entries)?;
    rule.refine(alloc, factor)
}

/// The line over what was recorded on a page.
fn edit_on(
    rt: &(impl Threads + Sync),
    alloc: Global,
    evidence: &Evidence,
    page: &Page,
    before: &Rule,
    after: &Rule,
) -> Result<String, AllocError>
    ensures { IfOk result (λ s. IsEditOn evidence.now page.now before.now after.now (string_bytes s)) }
{
    match evidence {
        Evidence::Book(book) => {
            let counts = book.tally(rt, alloc, page, before.total())?;
            edit_line(alloc, before, after, counts.as_slice())
        }
        Evidence::Tally(tally) => edit_line(alloc, before, after, tally.counts.as_slice()),
    }
}

/// The line by how many inputs fall on each point.
fn edit_line(
    alloc: Global,
    before: &Rule,
    after: &Rule,
    counts: &[u32],
) -> Result<String, AllocError>
    ensures { IfOk result (λ s. IsEditLine (are_comparable before.now after.now counts.now) before.now after.now counts.now (string_bytes s)) }
{
    if after.total() != before.total() || counts.len() != before.total() as usize {
        return Ok(String::new(alloc));
    }
    match sum_within(counts) {
        Some(all) => compared(alloc, before, after, counts, all),
        None => Ok(String::new(alloc)),
    }
}

/// The sum of the numbers, where a tally may have so many inputs.
fn sum_within(counts: &[u32]) -> Option<u64>
    ensures { result ≡ (if nat_le (sum counts.now) tally_inputs then Some (sum counts.now) else None) }
{
    let mut all: u64 = 0;
    for count in counts {
        all += u64::from(*count);
        if all > TALLY_INPUTS {
            return None;
        }
    }
    Some(all)
}

/// The line of comparable rules, of so many inputs.
fn compared(
    alloc: Global,
    before: &Rule,
    after: &Rule,
    counts: &[u32],
    all: u64,
) -> Result<String, AllocError>
    requires total { total_weight after.now ≡ total_weight before.now }
    requires points { length counts.now ≡ total_weight before.now }
    requires all { all ≡ sum counts.now }
    requires few { sum counts.now ≤ tally_inputs }
    ensures { IfOk result (λ s. IsEditLine true before.now after.now counts.now (string_bytes s)) }
{
    let by_hand = obvious_switches(alloc, before, after, counts)?;
    let by_plan = switches(alloc, before, after, counts)?;
    edit_words(alloc, by_hand, all, by_plan)
}

#[tactic(auto, unfolding(crate::specs::ByHand::edit_line))]
fn edit_words(alloc: Global, by_hand: u64, all: u64, by_plan: u64) -> Result<String, AllocError>
    ensures { IfOk result (λ s. string_bytes s ≡ edit_line by_hand all by_plan) }
{
    format!(in alloc;
        "  your edit by hand, each variant in one block, would switch {by_hand} of {all}; this plan switches {by_plan}\n"
    )
}

/// How many inputs the rules give different names.
fn switches(alloc: Global, before: &Rule, after: &Rule, counts: &[u32]) -> Result<u64, AllocError>
    requires total { total_weight after.now ≡ total_weight before.now }
    requires points { length counts.now ≡ total_weight before.now }
    requires few { sum counts.now ≤ tally_inputs }
    ensures { IfOk result (IsSwitched before.now after.now counts.now) }
{
    let switches = tally_switches(alloc, before, after, before.total(), counts)?;
    Ok(users_in(switches.as_slice()))
}

/// How many inputs switch in all.
fn users_in(switches: &[Switch]) -> u64
    requires { sum_by (λ r. r.1) (rows_view switches.now) ≤ tally_inputs }
    ensures { result ≡ sum_by (λ r. r.1) (rows_view switches.now) }
{
    switches.iter().map(|switch| switch.users).sum()
}
