//! Two tallies as one.
ghost use Rattle.std.specs.Prelude.{◌≡◌, ◌≤◌, ◌+◌, ℕ, length, get_or, option_map};
ghost use Rattle.std.specs.Bool.{OnTrue, OnFalse};
ghost use Rattle.note_tallies.specs.Join.{are_alike, are_of_one_kind, follows, IsSum, IsCrowded, Joins};
ghost use Rattle.note_tallies.specs.Tally.{most_at_point};

use crate::joined::{MOST_AT_POINT, MOST_IN_ALL, PageTally};
use book_core::has_hash;
use thiserror::Error;

/// Why two tallies are not joined.
#[derive(Clone, Copy, Debug, PartialEq, Eq, Error)]
pub enum JoinFault {
    /// They are of different pages or totals, or have lines of different kinds.
    #[error("the tallies are of different pages, totals or kinds of lines")]
    Page,
    /// The lines of the second do not follow those of the first.
    #[error("the lines of the second tally do not follow those of the first")]
    Order,
    /// There would be more than 67,108,864 inputs on a point, or 8,589,934,592 in all.
    #[error("too many inputs")]
    TooMany,
}

/// The tally of the lines of both, where those of the second follow those of the first, and all have inputs or all have hashes. It
/// takes no memory.
///
/// Refusals, in this order: `Page`, `Order`, `TooMany`.
pub fn join(one: PageTally, other: PageTally) -> Result<PageTally, JoinFault>
    ensures { Joins one other result }
{
    if !are_alike(&one, &other) {
        return Err(JoinFault::Page);
    }
    if !follows(&one.last, &other.first) {
        return Err(JoinFault::Order);
    }
    let inputs = one.inputs + other.inputs;
    if inputs > MOST_IN_ALL {
        return Err(JoinFault::TooMany);
    }
    let mut counts = one.counts;
    if !add_counts(&mut counts, other.counts.as_slice()) {
        return Err(JoinFault::TooMany);
    }
    let both = PageTally {
        page: one.page,
        total: one.total,
        first: one.first.or(other.first),
        last: other.last.or(one.last),
        inputs,
        counts,
    };
    Ok(both)
}

fn are_alike(one: &PageTally, other: &PageTally) -> bool
    ensures { result ≡ are_alike one.now other.now }
{
    one.page == other.page && one.total == other.total && are_of_one_kind(&one.last, &other.first)
}

/// Whether both lines have inputs, or both have hashes, where both are there.
fn are_of_one_kind(last: &Option<Vec<u8>>, first: &Option<Vec<u8>>) -> bool
    ensures { result ≡ are_of_one_kind (option_map (λ v. v.items) last.now) (option_map (λ v. v.items) first.now) }
{
    match (last, first) {
        (Some(last), Some(first)) => has_hash(last.as_slice()) == has_hash(first.as_slice()),
        _ => true,
    }
}

fn follows(last: &Option<Vec<u8>>, first: &Option<Vec<u8>>) -> bool
    ensures { result ≡ follows (option_map (λ v. v.items) last.now) (option_map (λ v. v.items) first.now) }
{
    match (last, first) {
        (Some(last), Some(first)) => last.as_slice().cmp(first.as_slice()).is_lt(),
        _ => true,
    }
}

/// Adds to the count of each point, unless one gets too large.
fn add_counts(counts: &mut Vec<u32>, more: &[u32]) -> bool
    requires { length more.now ≡ length counts.old.items }
    ensures sum { OnTrue result (IsSum counts.old.items more.now counts.new.items) }
    ensures small { OnTrue result ((p : ℕ) → get_or counts.old.items p 0 + get_or more.now p 0 ≤ most_at_point) }
    ensures crowded { OnFalse result (IsCrowded counts.old.items more.now) }
{
    for at in 0..more.len() {
        let sum = u64::from(counts[at]) + u64::from(more[at]);
        if sum > u64::from(MOST_AT_POINT) {
            return false;
        }
        counts[at] = sum as u32;
    }
    true
}
