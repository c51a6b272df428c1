//! What a person is told of a rule that has finer points than its site.
ghost use Rattle.std.specs.Prelude.{◌≡◌, ◌<◌, ◌||◌, List, ℕ, Some, is_some, nat_lt, IfOk, IfSome, string_bytes};
ghost use Rattle.std.specs.Result.{result_ok};
ghost use Rattle.bucket_core.specs.Reading.{rule_of_entries};
ghost use Rattle.bucket_core.specs.Rule.{entries_view};
ghost use Rattle.flag_defs.specs.Flags.{flags_view};
ghost use Rattle.flagops_rollouts.specs.Beside.{AreBehind};
ghost use Rattle.flagops_rollouts.specs.Doubts.{NamesDoubted};
ghost use Rattle.flagops_rollouts.specs.Finer.{IsFinerLine, IsMore, TellsFiner, finer_part, finer_parts, finer_line, is_finer, times, times_asked, times_at, times_of};
ghost use Rattle.flagops_shell.specs.Diagnostic.{Says};
ghost use Rattle.plan_text.specs.Answer.{planned_view};
ghost use Rattle.price_core.specs.Request.{asked_of};

use crate::beside::behind;
use crate::standing::entries_in;
use bucket_core::{Rule, RuleFault};
use file_diagnostics::quoted_name;
use flag_defs::Flags;
use flagops_shell::Remark;
use plan_text::Planned;
use price_core::{PriceFault, Request};
use std::alloc::{AllocError, Global};

/// What a person is told beside an answer, which has so many times the points of its site: what was noted, and behind that, where
/// the answer is a rule in finer points, how many it has, as a note on the file at a path.
pub fn with_points(
    alloc: Global,
    path: &str,
    factor: u32,
    planned: &Planned,
    noted: Option<Remark>,
) -> Option<Remark>
    ensures told { is_some result ≡ (is_some noted || is_finer factor (planned_view planned.now)) }
    ensures beside { AreBehind (finer_parts path.now factor (planned_view planned.now)) noted result }
    ensures notes { (book : List ℕ) → IfSome noted (Says (NamesDoubted path.now book)) → IfSome result (Says (NamesDoubted path.now book)) }
    ensures more { IsMore noted result }
    ensures finer { IfSome result (Says (TellsFiner path.now factor (planned_view planned.now))) }
{
    match planned {
        Planned::Emit(rule, _) => with_total(alloc, path, factor, rule.total(), noted),
        Planned::NoneExists(_) => noted,
    }
}

/// The same of a rule of this total.
pub fn with_total(
    alloc: Global,
    path: &str,
    factor: u32,
    total: u32,
    noted: Option<Remark>,
) -> Option<Remark>
    ensures told { is_some result ≡ (is_some noted || nat_lt 1 factor) }
    ensures beside { AreBehind (finer_part path.now factor total) noted result }
{
    if 1 < factor {
        let line = Remark::of(finer_line(alloc, path, factor, total));
        behind(noted, Some(line))
    } else {
        noted
    }
}

#[tactic(auto, unfolding(crate::specs::Finer::finer_line, crate::specs::Finer::finer_text))]
fn finer_line(alloc: Global, path: &str, factor: u32, total: u32) -> Result<String, AllocError>
    requires { 0 < factor }
    ensures { IfOk result (λ s. IsFinerLine path.now factor total (string_bytes s)) }
{
    let name = quoted_name(alloc, path)?;
    let before = total / factor;
    format!(in alloc;
        "note: {name}: with --refine {factor} the rule has {total} points where it had {before}:\n  later requests ask totals that sum to {total}\n"
    )
}

/// How many times the points of the rule at the site of a request the rule of an answer has: 1 where there is none, or it has no
/// multiple of them.
pub fn times_asked(
    alloc: Global,
    flags: &Flags,
    request: &[u8],
    planned: &Planned,
) -> Result<u32, AllocError>
    ensures { IfOk result (λ m. m ≡ times_asked (flags_view flags.now) (result_ok (asked_of request.now)) (planned_view planned.now)) }
{
    match Request::read(alloc, request) {
        Ok(request) => times_answered(alloc, flags, &request, planned),
        Err(PriceFault::WantOfMemory) => Err(AllocError),
        Err(_) => Ok(1),
    }
}

/// The same of a request that was read.
fn times_answered(
    alloc: Global,
    flags: &Flags,
    request: &Request,
    planned: &Planned,
) -> Result<u32, AllocError>
    ensures { IfOk result (λ m. m ≡ times_asked (flags_view flags.now) (Some request.now) (planned_view planned.now)) }
{
    match planned {
        Planned::Emit(rule, _) => {
            times_at(alloc, flags, request.flag(), request.site(), rule.total())
        }
        Planned::NoneExists(_) => Ok(1),
    }
}

/// How many times the points of the rule at a site a rule of this total has.
pub(crate) fn times_at(
    alloc: Global,
    flags: &Flags,
    key: &str,
    site: u32,
    total: u32,
) -> Result<u32, AllocError>
    ensures { IfOk result (λ m. m ≡ times_at (flags_view flags.now) key.now site total) }
{
    match entries_in(alloc, site, flags.get(key))? {
        Some(entries) => times_of(alloc, entries, total),
        None => Ok(1),
    }
}

/// How many times the points of a rule of these entries.
fn times_of(alloc: Global, entries: Vec<(String, u64)>, total: u32) -> Result<u32, AllocError>
    ensures { IfOk result (λ m. m ≡ times_of (rule_of_entries (entries_view entries.items)) total) }
{
    match Rule::make(alloc, entries) {
        Ok(before) => Ok(times(before.total(), total)),
        Err(RuleFault::WantOfMemory) => Err(AllocError),
        Err(_) => Ok(1),
    }
}

/// How many times so many points others are.
fn times(before: u32, after: u32) -> u32
    requires { 0 < before }
    ensures { result ≡ times before after }
{
    if after % before == 0 {
        after / before
    } else {
        1
    }
}
