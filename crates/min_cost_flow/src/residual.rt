//! The residual arcs from a name, and between it and the root, by the points that are at the name.
ghost use Rattle.std.specs.Prelude.{◌≡◌, ◌<◌, ◌≤◌, ◌-◌, ◌+◌, ℕ, true, None, length, slice_index, slice_index_or, ◌≤ℤ◌, ℤ, pos, negsuc, ◌*ℤ◌, MatchBool, Some};
ghost use Rattle.min_cost_flow.specs.Flow.{cell_at, groups_of};
ghost use Rattle.min_cost_flow.specs.Offered.{IsSwitchCost, Offers, max_switch_cost};
ghost use Rattle.min_cost_flow.specs.Problem.{AreSupplies, may_take, IsFlowProblem, cost_in, may_take_in, names_of};
ghost use Rattle.min_cost_flow.specs.Residual.{TakesMovesOfBothIn, IsRowOf, TakesMovesIn, TakesMoves, ChangesGroup, ChangesRootArcs, ChangesRow, HasArcsOf, HasRootArcs, HasRow, IsRootArc, KeepsRow, ArePlacedIn};
ghost use Rattle.min_cost_flow.specs.Spans.{ArePlaced, AreSpans, HasEnds};
ghost use Rattle.min_cost_flow.specs.Network.{arc_at};

use crate::Arc;
use crate::problem::{FlowProblem, Group};
use crate::span::{Span, narrowed};

/// The arcs from a name, by the points that are there. A move costs `count * (cost(to) - cost(name))`, where `cost` is that of the
/// switch from the old variant, so of the groups of an old variant the first or the last with points there has the cheapest. These
/// two are looked for in the span of the variant, which is narrowed to them: `O(k^2)` at k names, and as many steps as spans get
/// narrower.
pub(crate) fn rebuild(
    row: &mut [Option<Arc>],
    spans: &mut [Span],
    groups: &[Group],
    costs: &[Option<i64>],
    placed: &[u32],
    name: usize,
)
    requires name { name < length row.old }
    requires supplies { AreSupplies (length row.old) costs.now groups.now }
    requires placed { ArePlaced groups.now costs.now (length row.old) placed.now spans.old name }
    ensures row { IsRowOf groups.now costs.now placed.now (length row.old) name row.new }
    ensures spans { AreSpans groups.now (length row.old) placed.now spans.new }
{
    clear(row);
    take_moves_of_groups(row, spans, groups, costs, placed, name);
}

/// Takes all arcs away.
fn clear(row: &mut [Option<Arc>])
    ensures { (w : ℕ) → slice_index_or row.new w None ≡ None }
{
    for w in 0..row.len() {
        row[w] = None;
    }
}

/// The arcs from a name take the moves of the first and the last group of each old variant with points there, and spans are
/// narrowed to these.
fn take_moves_of_groups(
    row: &mut [Option<Arc>],
    spans: &mut [Span],
    groups: &[Group],
    costs: &[Option<i64>],
    placed: &[u32],
    name: usize,
)
    requires name { name < length row.old }
    requires supplies { AreSupplies (length row.old) costs.now groups.now }
    requires placed { ArePlaced groups.now costs.now (length row.old) placed.now spans.old name }
    requires none { (w : ℕ) → slice_index_or row.old w None ≡ None }
    ensures row { IsRowOf groups.now costs.now placed.now (length row.old) name row.new }
    ensures spans { AreSpans groups.now (length row.old) placed.now spans.new }
{
    for variant in 0..row.len() {
        let at = name * row.len() + variant;
        let span = narrowed(groups, placed, row.len(), name, variant, spans[at]);
        spans[at] = span;
        take_moves_of_ends(row, groups, costs, span, name);
    }
}

/// The arcs from a name take the moves of the first and the last group of a span, if it has any.
fn take_moves_of_ends(
    row: &mut [Option<Arc>],
    groups: &[Group],
    costs: &[Option<i64>],
    span: Span,
    name: usize,
)
    requires name { name < length row.old }
    requires supplies { AreSupplies (length row.old) costs.now groups.now }
    requires span { HasEnds groups.now costs.now (length row.old) name span }
    ensures some { span.first < span.end → TakesMovesOfBothIn groups.now costs.now (length row.old) span.first (span.end - 1) name row.old row.new }
    ensures none { span.end ≤ span.first → row.new ≡ row.old }
{
    if span.first < span.end {
        take_moves(row, groups, costs, span.first, name);
        take_moves(row, groups, costs, span.end - 1, name);
    }
}

/// The arcs from a name take the moves of a group that has points there, where these are cheaper. `O(k)` at k names.
pub(crate) fn take_moves(
    row: &mut [Option<Arc>],
    groups: &[Group],
    costs: &[Option<i64>],
    group: usize,
    name: usize,
)
    requires name { name < length row.old }
    requires group { group < length groups.now }
    requires supplies { AreSupplies (length row.old) costs.now groups.now }
    requires free { may_take groups.now costs.now (length row.old) group name ≡ true }
    ensures { TakesMovesIn groups.now costs.now (length row.old) group name row.old row.new }
{
    let Group { variant, count, .. } = groups[group];
    let names = row.len();
    let first = variant * names;
    if let Some(here) = costs[first + name] {
        offer(row, &costs[first..first + names], here, group, count);
    }
}

/// Takes the moves of a point of a group away from its name, where they are cheaper than the arcs that are there. `here` is the
/// cost of the switch to its name, and `costs` has those of the switches to all names that it may take.
pub(crate) fn offer(
    row: &mut [Option<Arc>],
    costs: &[Option<i64>],
    here: i64,
    group: usize,
    count: u32,
)
    requires size { length row.old ≡ length costs.now }
    requires here { IsSwitchCost here }
    requires costs { (w : ℕ) (switch_cost : ℤ) → w < length costs.now → slice_index_or costs.now w None ≡ Some switch_cost → IsSwitchCost switch_cost }
    ensures size { length row.new ≡ length costs.now }
    ensures each { (w : ℕ) → w < length costs.now → Offers here group count (slice_index_or costs.now w None) (slice_index_or row.old w None) (slice_index_or row.new w None) }
{
    for w in 0..costs.len() {
        if let Some(switch_cost) = costs[w] {
            let cost = times(count, switch_cost - here);
            if is_cheaper(cost, row[w]) {
                row[w] = Some(Arc { cost, group });
            }
        }
    }
}

/// The cost of a move for so many inputs, by what it costs one.
fn times(count: u32, rise: i64) -> i64
    requires low { negsuc max_switch_cost ≤ℤ rise }
    requires high { rise ≤ℤ pos max_switch_cost }
    ensures { result ≡ pos count *ℤ rise }
{
    i64::from(count) * rise
}

/// Whether a cost is less than that of the arc, if there is one.
fn is_cheaper(cost: i64, known: Option<Arc>) -> bool
    ensures { MatchBool result ((a : Arc) → known ≡ Some a → cost ≤ℤ a.cost) ((a : Arc) × (known ≡ Some a) × (a.cost ≤ℤ cost)) }
{
    match known {
        Some(arc) => cost < arc.cost,
        None => true,
    }
}

/// Makes the arcs from a name to the others anew, by the points that are there.
pub(crate) fn rebuild_from(
    arcs: &mut [Option<Arc>],
    spans: &mut [Span],
    problem: &FlowProblem,
    placed: &[u32],
    name: usize,
)
    requires problem { IsFlowProblem problem.now }
    requires arcs { HasArcsOf problem.now name arcs.old }
    requires placed { ArePlacedIn problem.now placed.now spans.old name }
    ensures row { HasRow problem.now (λ g. cell_at placed.now (names_of problem.now) g name) name arcs.new }
    ensures others { ChangesRow (names_of problem.now) name arcs.old arcs.new }
    ensures spans { AreSpans problem.now.groups.items (names_of problem.now) placed.now spans.new }
{
    let names = problem.high.len();
    let first = name * (names + 1);
    rebuild(
        &mut arcs[first..first + names],
        spans,
        &problem.groups,
        &problem.costs,
        placed,
        name,
    );
}

/// The same of the arcs of a whole flow.
fn take_moves_from(arcs: &mut [Option<Arc>], problem: &FlowProblem, group: usize, name: usize)
    requires problem { IsFlowProblem problem.now }
    requires arcs { HasArcsOf problem.now name arcs.old }
    requires group { group < groups_of problem.now }
    requires free { may_take_in problem.now group name ≡ true }
    ensures row { TakesMoves (names_of problem.now) (may_take_in problem.now) (cost_in problem.now) group name
        (arc_at arcs.old (names_of problem.now + 1) name) (arc_at arcs.new (names_of problem.now + 1) name) }
    ensures others { ChangesRow (names_of problem.now) name arcs.old arcs.new }
{
    let names = problem.high.len();
    let first = name * (names + 1);
    take_moves(
        &mut arcs[first..first + names],
        &problem.groups,
        &problem.costs,
        group,
        name,
    );
}

/// Points of a group have left a name: where they were its last, the arcs from there are made anew.
pub(crate) fn leave(
    arcs: &mut [Option<Arc>],
    spans: &mut [Span],
    problem: &FlowProblem,
    placed: &[u32],
    group: usize,
    name: usize,
)
    requires problem { IsFlowProblem problem.now }
    requires arcs { HasArcsOf problem.now name arcs.old }
    requires group { group < groups_of problem.now }
    requires placed { ArePlacedIn problem.now placed.now spans.old name }
    ensures arcs { KeepsRow problem.now placed.now group name arcs.old arcs.new }
    ensures spans { AreSpans problem.now.groups.items (names_of problem.now) placed.now spans.new }
{
    let names = problem.high.len();
    if placed[group * names + name] == 0 {
        rebuild_from(arcs, spans, problem, placed, name);
    }
}

/// Points of a group have come to a name where it had so many before: if they are its first, the arcs from there take its moves.
pub(crate) fn arrive(
    arcs: &mut [Option<Arc>],
    problem: &FlowProblem,
    group: usize,
    name: usize,
    before: u32,
)
    requires problem { IsFlowProblem problem.now }
    requires arcs { HasArcsOf problem.now name arcs.old }
    requires group { group < groups_of problem.now }
    requires free { may_take_in problem.now group name ≡ true }
    ensures row { (old now : ℕ → ℕ) → old group ≡ before → 0 < now group → ChangesGroup group old now → HasRow problem.now old name arcs.old → HasRow problem.now now name arcs.new }
    ensures others { ChangesRow (names_of problem.now) name arcs.old arcs.new }
{
    if before == 0 {
        take_moves_from(arcs, problem, group, name);
    }
}

/// Makes the arcs between a name and the root anew: one to the root where the name has room, and one from the root where it has
/// points to spare.
pub(crate) fn rebuild_root_arcs(
    arcs: &mut [Option<Arc>],
    problem: &FlowProblem,
    totals: &[u32],
    name: usize,
)
    requires problem { IsFlowProblem problem.now }
    requires arcs { HasArcsOf problem.now name arcs.old }
    requires totals { length totals.now ≡ names_of problem.now }
    ensures root { HasRootArcs problem.now (slice_index totals.now name) name arcs.new }
    ensures others { ChangesRootArcs (names_of problem.now) name arcs.old arcs.new }
{
    let names = problem.high.len();
    let total = totals[name];
    arcs[name * (names + 1) + names] = root_arc(total, problem.high[name]);
    arcs[names * (names + 1) + name] = root_arc(problem.low[name], total);
}

/// An arc of cost 0 where one number is below another.
fn root_arc(less: u32, more: u32) -> Option<Arc>
    ensures { IsRootArc less more result }
{
    if less < more {
        Some(Arc { cost: 0, group: 0 })
    } else {
        None
    }
}
