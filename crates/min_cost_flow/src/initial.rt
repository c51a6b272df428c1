//! The flow in which each point keeps its variant.
ghost use Rattle.std.specs.Prelude.{◌≡◌, ◌<◌, ◌≤◌, ℕ, pos, length, slice_index};
ghost use Rattle.min_cost_flow.specs.Flow.{AreFlowTables, cell_at, flows_at};
ghost use Rattle.min_cost_flow.specs.Optimal.{IsOptimal};
ghost use Rattle.min_cost_flow.specs.Problem.{IsFlowProblem, group_at, names_of, sum_to};
ghost use Rattle.min_cost_flow.specs.Residual.{AreRebuilt, HasNoArcs, MayStand};
ghost use Rattle.min_cost_flow.specs.Spans.{AreSpans, HasNoSpans, IsIn, span_at};
ghost use Rattle.min_cost_flow.specs.Initial.{AreBlank, HasNoPoints, at_home};

use crate::Arc;
use crate::problem::{FlowProblem, Group};
use crate::residual::{rebuild_from, rebuild_root_arcs};
use crate::span::{Span, widen};

/// The flow in which each point keeps its old variant.
pub(crate) fn begin(
    placed: &mut [u32],
    totals: &mut [u32],
    arcs: &mut [Option<Arc>],
    spans: &mut [Span],
    problem: &FlowProblem,
)
    requires problem { IsFlowProblem problem.now }
    requires blank { AreBlank problem.now placed.old totals.old arcs.old spans.old }
    ensures flow { AreFlowTables problem.now placed.new totals.new arcs.new spans.new }
    ensures optimal { IsOptimal (flows_at problem.now placed.new totals.new) (λ _. pos 0) }
{
    stay(placed, totals, &problem.groups);
    begin_spans(spans, &problem.groups, problem.high.len());
    begin_arcs(arcs, spans, problem, placed, totals);
}

/// The points of each group stand at its old variant.
fn stay(placed: &mut [u32], totals: &mut [u32], groups: &[Group])
    requires blank { HasNoPoints (length groups.now) (length totals.old) placed.old totals.old }
    requires variants { (g : ℕ) → g < length groups.now → (group_at groups.now g).variant < length totals.old }
    requires weight { sum_to (length groups.now) (λ g. (group_at groups.now g).points) ≤ 1000000 }
    ensures placed { (g v : ℕ) → g < length groups.now → v < length totals.old → cell_at placed.new (length totals.old) g v ≡ at_home groups.now g v }
    ensures totals { (v : ℕ) → v < length totals.old → slice_index totals.new v ≡ sum_to (length groups.now) (λ g. at_home groups.now g v) }
{
    for g in 0..groups.len() {
        let Group {
            variant,
            points,
            ..
        } = groups[g];
        placed[g * totals.len() + variant] = points;
        totals[variant] += points;
    }
}

/// Each group joins the span of its old variant there.
fn begin_spans(spans: &mut [Span], groups: &[Group], names: usize)
    requires blank { HasNoSpans names spans.old }
    requires variants { (g : ℕ) → g < length groups.now → (group_at groups.now g).variant < names }
    ensures end { (v a : ℕ) → v < names → a < names → (span_at spans.new names v a).end ≤ length groups.now }
    ensures home { (g : ℕ) → g < length groups.now → IsIn (span_at spans.new names (group_at groups.now g).variant (group_at groups.now g).variant) g }
{
    for g in 0..groups.len() {
        widen(spans, groups, names, g, groups[g].variant);
    }
}

/// The arcs of a flow, where none are known.
fn begin_arcs(
    arcs: &mut [Option<Arc>],
    spans: &mut [Span],
    problem: &FlowProblem,
    placed: &[u32],
    totals: &[u32],
)
    requires problem { IsFlowProblem problem.now }
    requires arcs { HasNoArcs (names_of problem.now) arcs.old }
    requires points { MayStand problem.now placed.now totals.now }
    requires spans { AreSpans problem.now.groups.items (names_of problem.now) placed.now spans.old }
    ensures arcs { AreRebuilt problem.now placed.now totals.now arcs.new }
    ensures spans { AreSpans problem.now.groups.items (names_of problem.now) placed.now spans.new }
{
    for name in 0..problem.high.len() {
        rebuild_from(arcs, spans, problem, placed, name);
        rebuild_root_arcs(arcs, problem, totals, name);
    }
}
