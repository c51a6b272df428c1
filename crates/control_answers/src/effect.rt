//! What a planned rule does to the inputs that are recorded.
ghost use Rattle.std.specs.Prelude.{◌≡◌, ◌≤◌, true, IfOk, IsOk, sum_by};
ghost use Rattle.bucket_core.specs.Rule.{total_weight};
ghost use Rattle.limits.specs.Limits.{tally_inputs};
ghost use Rattle.plan_text.specs.Answer.{planned_view};
ghost use Rattle.rollout.specs.CheckedTally.{tally_view};
ghost use Rattle.rule_switches.specs.Switches.{rows_view};
ghost use Rattle.transport_core.specs.Tally.{IsTally};
ghost use Rattle.control_answers.specs.Effect.{IsEffect, IsEffectIfKept, IsEffectOf, effect_view, has_no_rule, nothing};

use bucket_core::Rule;
use plan_text::Planned;
use rollout::Problem;
use rule_switches::{Switch, obvious_switches, tally_switches};
use std::alloc::{AllocError, Global};

/// What an answer does to recorded inputs.
#[derive(Drop)]
pub struct Effect {
    /// The changes of name with their inputs, none where no rule fits.
    pub switches: Vec<Switch>,
    /// How many inputs the edit that comes to mind first would switch; nothing where no rule fits.
    pub by_hand: Option<u64>,
}

/// What an answer to a problem does; of a rule that does not keep the total, which no planned one is, nothing is told. Where no rule
/// fits this takes no memory. The condition is that the problem has a tally.
pub fn effect_of(
    alloc: Global,
    problem: &Problem<'_>,
    planned: &Planned,
) -> Result<Effect, AllocError>
    requires { IsTally (total_weight problem.now.old) problem.now.counts.items }
    ensures effect { IfOk result (λ e. IsEffect (tally_view problem.now) (planned_view planned.now) (effect_view e)) }
    ensures few { IfOk result (λ e. sum_by (λ r. r.1) (rows_view e.switches.items) ≤ tally_inputs) }
    ensures none { has_no_rule (planned_view planned.now) ≡ true → IsOk result }
{
    match planned {
        Planned::Emit(rule, _) => effect_if_kept(alloc, problem, rule),
        Planned::NoneExists(_) => Ok(no_effect(alloc)),
    }
}

/// What a rule does that keeps the total.
fn effect_if_kept(alloc: Global, problem: &Problem<'_>, rule: &Rule) -> Result<Effect, AllocError>
    requires { IsTally (total_weight problem.now.old) problem.now.counts.items }
    ensures effect { IfOk result (λ e. IsEffectIfKept (tally_view problem.now) rule.now (effect_view e)) }
    ensures few { IfOk result (λ e. sum_by (λ r. r.1) (rows_view e.switches.items) ≤ tally_inputs) }
{
    let points = rule.total();
    let old_points = problem.old.total();
    if points == old_points {
        effect_on(alloc, problem, rule)
    } else {
        Ok(no_effect(alloc))
    }
}

/// Nothing.
fn no_effect(alloc: Global) -> Effect
    ensures { effect_view result ≡ nothing }
{
    Effect {
        switches: Vec::new(alloc),
        by_hand: None,
    }
}

/// What a rule does.
fn effect_on(alloc: Global, problem: &Problem<'_>, rule: &Rule) -> Result<Effect, AllocError>
    requires total { total_weight rule.now ≡ total_weight problem.now.old }
    requires tally { IsTally (total_weight problem.now.old) problem.now.counts.items }
    ensures effect { IfOk result (λ e. IsEffectOf (tally_view problem.now) rule.now (effect_view e)) }
    ensures few { IfOk result (λ e. sum_by (λ r. r.1) (rows_view e.switches.items) ≤ tally_inputs) }
{
    let old = &problem.old;
    let counts = problem.counts.as_slice();
    let switches = tally_switches(alloc, old, rule, old.total(), counts)?;
    let edit = obvious_switches(alloc, old, rule, counts)?;
    Ok(Effect {
        switches,
        by_hand: Some(edit),
    })
}
