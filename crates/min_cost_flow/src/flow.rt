//! A flow, and its residual arcs as points move.
ghost use Rattle.std.specs.Prelude.{◌≢◌, ◌<◌, ◌≤◌, IfOk, pos, ◌+◌, ◌^◌, length, slice_index};
ghost use Rattle.min_cost_flow.specs.Flow.{AreFlowTables, IsFlow, IsMove, IsMoveAt, IsMoved, IsPushed, IsPushedAt, flows_of};
ghost use Rattle.min_cost_flow.specs.Optimal.{IsOptimal};
ghost use Rattle.min_cost_flow.specs.Problem.{IsFlowProblem};

use crate::Arc;
use crate::initial::begin;
use crate::problem::FlowProblem;
use crate::residual::{arrive, leave, rebuild_root_arcs};
use crate::span::{Span, widen};
use std::alloc::{AllocError, Global};

/// How many points of each group are at each name, and the residual arcs along which they may move. Names are numbered from 0,
/// and the root is the node after them.
#[derive(Drop)]
pub struct Flow {
    /// The points of each group at each name, by rows of the groups.
    pub placed: Vec<u32>,
    /// The points at each name.
    pub totals: Vec<u32>,
    /// The cheapest arc from each node to each other one, by rows of the nodes that they leave; none where no point can move so.
    /// An arc of cost 0 leads to the root from each name with room, and from the root to each name with points to spare.
    pub arcs: Vec<Option<Arc>>,
    /// The groups of each old variant among which are all that have points at a name, by rows of the names.
    pub spans: Vec<Span>,
}

impl Flow {
    /// The flow in which each point keeps its old variant, at no cost.
    pub fn initial(alloc: Global, problem: &FlowProblem) -> Result<Flow, AllocError>
        requires problem { IsFlowProblem problem.now }
        ensures flow { IfOk result (IsFlow problem.now) }
        ensures optimal { IfOk result (λ f. IsOptimal (flows_of problem.now f) (λ _. pos 0)) }
    {
        let names = problem.high.len();
        let mut placed = vec![in alloc; 0; problem.groups.len() * names]?;
        let mut totals = vec![in alloc; 0; names]?;
        let mut arcs = vec![in alloc; None; (names + 1) * (names + 1)]?;
        let none = Span {
            first: problem.groups.len(),
            end: 0,
        };
        let mut spans = vec![in alloc; none; names * names]?;
        begin(&mut placed, &mut totals, &mut arcs, &mut spans, problem);
        Ok(Flow {
            placed,
            totals,
            arcs,
            spans,
        })
    }

    /// Moves so many points of a group from one name to another, and brings the arcs up to date. It takes `O(k)` steps at k names
    /// where the group has points left at the name, and where it has none `O(k^2)` and as many as spans get narrower.
    pub fn push(&mut self, problem: &FlowProblem, group: usize, from: usize, to: usize, points: u32)
        requires problem { IsFlowProblem problem.now }
        requires flow { IsFlow problem.now self.old }
        requires points { IsMove problem.now self.old group from to points }
        ensures flow { IsFlow problem.now self.new }
        ensures pushed { IsPushed problem.now self.old self.new group from to points }
    {
        push_points(
            &mut self.placed,
            &mut self.totals,
            &mut self.arcs,
            &mut self.spans,
            problem,
            group,
            from,
            to,
            points,
        );
    }
}

/// Moves so many points of a group from one name to another, and brings the arcs up to date.
pub(crate) fn push_points(
    placed: &mut [u32],
    totals: &mut [u32],
    arcs: &mut [Option<Arc>],
    spans: &mut [Span],
    problem: &FlowProblem,
    group: usize,
    from: usize,
    to: usize,
    points: u32,
)
    requires problem { IsFlowProblem problem.now }
    requires flow { AreFlowTables problem.now placed.old totals.old arcs.old spans.old }
    requires points { IsMoveAt problem.now placed.old group from to points }
    ensures flow { AreFlowTables problem.now placed.new totals.new arcs.new spans.new }
    ensures pushed { IsPushedAt problem.now placed.old totals.old placed.new totals.new group from to points }
{
    let names = problem.high.len();
    let left = group * names + from;
    let entered = group * names + to;
    let before = placed[entered];
    move_points(placed, left, entered, points);
    move_points(totals, from, to, points);
    widen(spans, &problem.groups, names, group, to);
    leave(arcs, spans, problem, placed, group, from);
    arrive(arcs, problem, group, to, before);
    rebuild_root_arcs(arcs, problem, totals, from);
    rebuild_root_arcs(arcs, problem, totals, to);
}

/// So many points move from one cell to another.
fn move_points(cells: &mut [u32], from: usize, to: usize, points: u32)
    requires from { from < length cells.old }
    requires to { to < length cells.old }
    requires apart { from ≢ to }
    requires points { points ≤ slice_index cells.old from }
    requires small { slice_index cells.old to + points < 2 ^ 32 }
    ensures { IsMoved cells.old cells.new from to points }
{
    cells[from] -= points;
    cells[to] += points;
}
