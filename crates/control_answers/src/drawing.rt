//! The picture of an answer.
ghost use Rattle.std.specs.Prelude.{◌≡◌, Ok, IfOk, string_bytes};
ghost use Rattle.bucket_core.specs.Rule.{total_weight};
ghost use Rattle.plan_text.specs.Answer.{planned_view};
ghost use Rattle.rollout.specs.CheckedTally.{tally_view};
ghost use Rattle.transport_core.specs.Certificate.{certificate_view};
ghost use Rattle.transport_core.specs.Tally.{IsTally};
ghost use Rattle.control_answers.specs.Picture.{AddsAnswer, AddsChange, IsPictured};

use bucket_core::Rule;
use picture::{Change, Deficit, Title, draw_change, draw_none, page};
use plan_text::Planned;
use rollout::Problem;
use rule_switches::{runs, switch_table};
use std::alloc::{AllocError, Global};
use transport_core::Certificate;

/// The picture of an answer to a problem, as SVG: what a rule moves and what it costs, or the set of names which shows that no rule
/// fits. The condition is that the problem has a tally.
pub fn picture_of(
    alloc: Global,
    problem: &Problem<'_>,
    planned: &Planned,
) -> Result<String, AllocError>
    requires { IsTally (total_weight problem.now.old) problem.now.counts.items }
    ensures { IfOk result (λ s. IsPictured (tally_view problem.now) (planned_view planned.now) (string_bytes s)) }
{
    let mut pictures = String::new(alloc);
    let height = add_answer(alloc, &mut pictures, problem, planned)?;
    let text = page(alloc, Title::Rollout, height, pictures.as_str())?;
    Ok(text)
}

/// Adds it at the top of a page, and gives how far below the top it ends.
fn add_answer(
    alloc: Global,
    pictures: &mut String,
    problem: &Problem<'_>,
    planned: &Planned,
) -> Result<u64, AllocError>
    requires { IsTally (total_weight problem.now.old) problem.now.counts.items }
    ensures { IfOk result (λ end. AddsAnswer (tally_view problem.now) (planned_view planned.now) end (string_bytes pictures.old) (string_bytes pictures.new)) }
{
    match planned {
        Planned::Emit(rule, certificate) => {
            add_change(alloc, pictures, problem, rule, certificate)
        }
        Planned::NoneExists(cut) => draw_none(
            alloc,
            pictures,
            0,
            &Deficit {
                old: &problem.old,
                totals: &problem.totals,
                cut,
            },
        ),
    }
}

/// Adds the picture of a rule with its certificate.
fn add_change(
    alloc: Global,
    pictures: &mut String,
    problem: &Problem<'_>,
    rule: &Rule,
    certificate: &Certificate,
) -> Result<u64, AllocError>
    requires { IsTally (total_weight problem.now.old) problem.now.counts.items }
    ensures { IfOk result (λ end. AddsChange (tally_view problem.now) rule.now (certificate_view certificate.now) end (string_bytes pictures.old) (string_bytes pictures.new)) }
{
    let counts = problem.counts.as_slice();
    let runs = runs(alloc, &problem.old, rule, counts)?;
    let table = switch_table(alloc, &problem.totals, &problem.old, rule, counts)?;
    let change = Change {
        old: &problem.old,
        new: rule,
        totals: &problem.totals,
        prices: problem.request.prices(),
        runs: runs.as_slice(),
        table: &table,
        certificate,
    };
    let below = draw_change(alloc, pictures, 0, &change)?;
    Ok(below)
}
