//! Augmentation along a path that was found.
ghost use Rattle.std.specs.List.{All};
ghost use Rattle.std.specs.Prelude.{◌≡◌, ◌<◌, ◌≤◌, ◌+◌, ◌-◌, ℕ, OnOk, length, min, slice_index, ◌≢◌, ◌*◌, ◌⊎◌, Some, IfOk, MatchOption, ◌==◌, ℤ, if◌then◌else◌};
ghost use Rattle.min_cost_flow.specs.Flow.{IsFlow, flows_of, total_at};
ghost use Rattle.min_cost_flow.specs.Optimal.{AreLeast};
ghost use Rattle.min_cost_flow.specs.Paths.{AreTraced, IsAugmented, MayAugment, MayMoveAlong, IsTraced, IsBottleneck, HasZeroReducedCost, IsStep, Leads};
ghost use Rattle.min_cost_flow.specs.Problem.{IsFlowProblem, names_of};
ghost use Rattle.min_cost_flow.specs.Found.{HasSize, predecessor_of, potential_of, rank_of};
ghost use Rattle.min_cost_flow.specs.Network.{arc_at};
ghost use Rattle.min_cost_flow.specs.Searched.{predecessor_in};

use crate::flow::Flow;
use crate::problem::FlowProblem;
use crate::{Arc, NodeState, Search};
use std::alloc::{AllocError, Global};

/// A step of a path: points of a group move from one name to another.
#[derive(Clone, Copy)]
pub(crate) struct Step {
    pub group: usize,
    pub from: usize,
    pub to: usize,
}

/// A path of the residual network: its first name, and its steps, the last one first.
#[derive(Drop)]
pub(crate) struct Path {
    pub first: usize,
    pub steps: Vec<Step>,
}

/// Moves points along the path that was found to a name: as many as its bottleneck, and no more than its first name has over its
/// limit and the last one lacks to its own. Where memory runs out, the flow is as it was.
pub(crate) fn augment(
    alloc: Global,
    problem: &FlowProblem,
    flow: &mut Flow,
    search: &Search,
    limits: &[u32],
    source: usize,
    last: usize,
) -> Result<(), AllocError>
    requires problem { IsFlowProblem problem.now }
    requires flow { IsFlow problem.now flow.old }
    requires path { MayAugment problem.now flow.old search.now limits.now source last }
    ensures flow { OnOk result (IsFlow problem.now flow.new) }
    ensures least { OnOk result (AreLeast (flows_of problem.now flow.new) (potential_of search.now)) }
    ensures augmented { OnOk result (IsAugmented problem.now flow.old flow.new (potential_of search.now) (rank_of search.now) limits.now source last) }
{
    let path = trace(alloc, problem, flow, search, source, last)?;
    let most = room_between(flow.totals.as_slice(), limits, path.first, last);
    let steps = path.steps.as_slice();
    let points = bottleneck(problem, flow, steps, most);
    push_along(problem, flow, steps, points);
    Ok(())
}

/// What the first name has over its limit, or the last one lacks to its own, the less of both.
fn room_between(totals: &[u32], limits: &[u32], first: usize, last: usize) -> u32
    requires size { length limits.now ≡ length totals.now }
    requires first { first < length totals.now }
    requires last { last < length totals.now }
    requires above { slice_index limits.now first < slice_index totals.now first }
    requires below { slice_index totals.now last < slice_index limits.now last }
    ensures { result ≡ min (slice_index totals.now first - slice_index limits.now first) (slice_index limits.now last - slice_index totals.now last) }
{
    (totals[first] - limits[first]).min(limits[last] - totals[last])
}

/// The path to a name, traced back over the predecessors: up to the source, or to the name whose predecessor is the root.
pub(crate) fn trace(
    alloc: Global,
    problem: &FlowProblem,
    flow: &Flow,
    search: &Search,
    source: usize,
    last: usize,
) -> Result<Path, AllocError>
    requires problem { IsFlowProblem problem.now }
    requires flow { IsFlow problem.now flow.now }
    requires size { HasSize (names_of problem.now + 1) search.now }
    requires last { last < names_of problem.now }
    requires traced { AreTraced (names_of problem.now) (arc_at flow.now.arcs.items (names_of problem.now + 1)) (potential_of search.now) (predecessor_of search.now) (rank_of search.now) source last }
    ensures { IfOk result (IsTraced problem.now flow.now (potential_of search.now) (rank_of search.now) source last) }
{
    let names = problem.high.len();
    let mut steps = Vec::new(alloc);
    let mut to = last;
    while let Some(from) = name_before(search.nodes.as_slice(), names, source, to) {
        let group = group_between(flow.arcs.as_slice(), names, from, to);
        steps.push(Step { group, from, to })?;
        to = from;
    }
    Ok(Path { first: to, steps })
}

/// The predecessor of a name on the path to it; none of the first name.
fn name_before(nodes: &[NodeState], names: usize, source: usize, name: usize) -> Option<usize>
    requires { name < length nodes.now }
    ensures { MatchOption result
        ((name ≡ source) ⊎ (predecessor_in nodes.now name ≡ names))
        (λ before. (before ≡ predecessor_in nodes.now name) × (name ≢ source) × (before ≢ names)) }
{
    if name == source || nodes[name].predecessor == names {
        None
    } else {
        Some(nodes[name].predecessor)
    }
}

/// The group whose points move along the arc from one name to another.
fn group_between(arcs: &[Option<Arc>], names: usize, from: usize, to: usize) -> usize
    requires few { names ≤ 64 }
    requires arcs { length arcs.now ≡ (names + 1) * (names + 1) }
    requires from { from < names }
    requires to { to < names }
    ensures { (a : Arc) → arc_at arcs.now (names + 1) from to ≡ Some a → result ≡ a.group }
{
    match arcs[from * (names + 1) + to] {
        Some(arc) => arc.group,
        None => 0,
    }
}

/// The bottleneck of a path: the most points, up to so many, that each step takes.
pub(crate) fn bottleneck(problem: &FlowProblem, flow: &Flow, steps: &[Step], most: u32) -> u32
    requires problem { IsFlowProblem problem.now }
    requires flow { IsFlow problem.now flow.now }
    requires steps { All (IsStep problem.now flow.now) steps.now }
    ensures bottleneck { IsBottleneck problem.now flow.now steps.now most result }
    ensures some { 0 < most → 0 < result }
{
    let names = problem.high.len();
    let mut points = most;
    for step in steps {
        let there = placed(flow.placed.as_slice(), names, step.group, step.from);
        points = points.min(there);
    }
    points
}

/// The points of a group at a name.
fn placed(cells: &[u32], names: usize, group: usize, name: usize) -> u32
    requires { group * names + name < length cells.now }
    ensures { result ≡ slice_index cells.now (group * names + name) }
{
    cells[group * names + name]
}

/// Moves so many points along each step of a path.
pub(crate) fn push_along(problem: &FlowProblem, flow: &mut Flow, steps: &[Step], points: u32)
    requires problem { IsFlowProblem problem.now }
    requires flow { IsFlow problem.now flow.old }
    requires steps { MayMoveAlong problem.now flow.old steps.now points }
    ensures flow { IsFlow problem.now flow.new }
    ensures least { (potential : ℕ → ℤ) → All (HasZeroReducedCost problem.now potential) steps.now → AreLeast (flows_of problem.now flow.old) potential → AreLeast (flows_of problem.now flow.new) potential }
    ensures totals { (first last : ℕ) → Leads first last steps.now → (v : ℕ)
        → total_at flow.new v + (if v == first then points else 0) ≡ total_at flow.old v + (if v == last then points else 0) }
{
    for step in steps {
        flow.push(problem, step.group, step.from, step.to, points);
    }
}
