//! Which groups of an old variant may have points at a name.
ghost use Rattle.std.specs.Prelude.{◌≡◌, ◌<◌, ◌≤◌, ◌-◌, ◌*◌, ◌+◌, ℕ, MatchBool, length};
ghost use Rattle.min_cost_flow.specs.Problem.{group_at};
ghost use Rattle.min_cost_flow.specs.Spans.{IsIn, IsThere, Joins, Narrows};

use crate::problem::Group;

/// The groups from the first on and before the end; none where the end is not after the first.
#[derive(Clone, Copy)]
pub struct Span {
    pub first: usize,
    pub end: usize,
}

/// A group joins the span of its old variant at a name. The spans stand by name and then by old variant. `O(1)`.
pub(crate) fn widen(spans: &mut [Span], groups: &[Group], names: usize, group: usize, name: usize)
    requires size { length spans.old ≡ names * names }
    requires name { name < names }
    requires group { group < length groups.now }
    requires variant { (group_at groups.now group).variant < names }
    ensures { Joins groups.now names group name spans.old spans.new }
{
    let at = name * names + groups[group].variant;
    let Span { first, end } = spans[at];
    spans[at] = Span {
        first: first.min(group),
        end: end.max(group + 1),
    };
}

/// The span from the first to the last group of an old variant with points at a name, of those that a span has.
pub(crate) fn narrowed(
    groups: &[Group],
    placed: &[u32],
    names: usize,
    name: usize,
    variant: usize,
    span: Span,
) -> Span
    requires name { name < names }
    requires placed { length placed.now ≡ length groups.now * names }
    requires end { span.end ≤ length groups.now }
    ensures { Narrows groups.now placed.now names name variant span result }
{
    let first = first_there(groups, placed, names, name, variant, span);
    let rest = Span {
        first,
        end: span.end,
    };
    let end = end_there(groups, placed, names, name, variant, rest);
    Span { first, end }
}

/// The first group of an old variant with points at a name in a span; if there is none, as many as all groups.
fn first_there(
    groups: &[Group],
    placed: &[u32],
    names: usize,
    name: usize,
    variant: usize,
    span: Span,
) -> usize
    requires name { name < names }
    requires placed { length placed.now ≡ length groups.now * names }
    requires end { span.end ≤ length groups.now }
    ensures there { result < length groups.now → IsThere groups.now placed.now names name variant result }
    ensures first { (g : ℕ) → IsIn span g → IsThere groups.now placed.now names name variant g → result ≤ g }
{
    for group in span.first..span.end {
        if is_there(groups, placed, names, name, variant, group) {
            return group;
        }
    }
    groups.len()
}

/// The end of the groups of an old variant with points at a name in a span; 0 if there is none.
fn end_there(
    groups: &[Group],
    placed: &[u32],
    names: usize,
    name: usize,
    variant: usize,
    span: Span,
) -> usize
    requires name { name < names }
    requires placed { length placed.now ≡ length groups.now * names }
    requires end { span.end ≤ length groups.now }
    ensures few { result ≤ length groups.now }
    ensures there { 0 < result → IsThere groups.now placed.now names name variant (result - 1) }
    ensures last { (g : ℕ) → IsIn span g → IsThere groups.now placed.now names name variant g → g < result }
{
    for group in (span.first..span.end).rev() {
        if is_there(groups, placed, names, name, variant, group) {
            return group + 1;
        }
    }
    0
}

/// Whether a group is of an old variant and has points at a name.
fn is_there(
    groups: &[Group],
    placed: &[u32],
    names: usize,
    name: usize,
    variant: usize,
    group: usize,
) -> bool
    requires name { name < names }
    requires placed { length placed.now ≡ length groups.now * names }
    requires group { group < length groups.now }
    ensures { MatchBool result (IsThere groups.now placed.now names name variant group) (IsThere groups.now placed.now names name variant group → ⊥) }
{
    placed[group * names + name] > 0 && groups[group].variant == variant
}
