//! The checks of a certificate's numbers: that they are those of the groups and names, and that they sum to the cost.
ghost use Rattle.std.specs.Prelude.{◌≡◌, ◌≤◌, ◌<◌, ◌^◌, ◌↔◌, pos, neg_ℤ, ◌*◌, ◌+ℤ◌, ◌*ℤ◌, ◌≤ℤ◌, IsTrue, length, sum_by};
ghost use Rattle.std.specs.Cmp.Lexicographic.{pointwise};
ghost use Rattle.std.specs.Map.{keys_of};
ghost use Rattle.std.specs.Str.{bytes_eq};
ghost use Rattle.price_core.specs.Limits.{limits_view};
ghost use Rattle.transport_core.specs.Certificate.{alpha_view, beta_view, group_sum, gains, listed_sum, losses};
ghost use Rattle.transport_core.specs.Groups.{is_same_group, rows_view};
ghost use Rattle.transport_core.specs.Rows.{whole_amount};

use crate::rows::Row;
use price_core::Limit;

/// Whether the numbers are those of exactly these groups, in their order.
pub fn are_groups(alpha: &[(String, u32, i64)], groups: &[Row]) -> bool
    ensures { result ≡ pointwise is_same_group (keys_of (alpha_view alpha.now)) (keys_of (rows_view groups.now)) }
{
    if alpha.len() != groups.len() {
        return false;
    }
    for (i, (name, count, _)) in alpha.iter().enumerate() {
        let ((other, number), _) = groups[i];
        if name.as_str() != other || *count != number {
            return false;
        }
    }
    true
}

/// Whether the numbers are those of exactly these names, in their order.
pub fn are_names(beta: &[(String, i64)], limits: &[Limit]) -> bool
    ensures { result ≡ pointwise bytes_eq (keys_of (beta_view beta.now)) (keys_of (limits_view limits.now)) }
{
    if beta.len() != limits.len() {
        return false;
    }
    for (i, (name, _)) in beta.iter().enumerate() {
        if name.as_str() != limits[i].name.as_str() {
            return false;
        }
    }
    true
}

/// Whether the numbers of all points, and of the names at their limits, sum to the cost. It is exact for all numbers.
pub fn sums_to(
    groups: &[Row],
    alpha: &[(String, u32, i64)],
    limits: &[Limit],
    beta: &[(String, i64)],
    cost: u64,
) -> bool
    requires groups { length alpha.now ≡ length groups.now }
    requires names { length beta.now ≡ length limits.now }
    requires points { whole_amount groups.now < 2 ^ 32 }
    requires lows { sum_by (λ l. l.low) limits.now < 2 ^ 32 }
    ensures { IsTrue result ↔ (listed_sum (rows_view groups.now) (limits_view limits.now) (alpha_view alpha.now) (beta_view beta.now) ≡ pos cost) }
{
    let sum = sum_of_points(groups, alpha) + sum_of_gains(limits, beta);
    falls_to(sum, limits, beta, cost)
}

/// The sum of the numbers over all points.
fn sum_of_points(groups: &[Row], alpha: &[(String, u32, i64)]) -> i128
    requires same { length alpha.now ≡ length groups.now }
    requires points { whole_amount groups.now < 2 ^ 32 }
    ensures value { result ≡ group_sum (rows_view groups.now) (alpha_view alpha.now) }
    ensures low { neg_ℤ (pos (2 ^ 95)) ≤ℤ result }
    ensures high { result ≤ℤ pos (2 ^ 95) }
{
    let mut sum = 0i128;
    for (i, (_, points)) in groups.iter().enumerate() {
        sum += times(*points, alpha[i].2);
    }
    sum
}

/// What the names whose numbers are above 0 make at their low limits.
fn sum_of_gains(limits: &[Limit], beta: &[(String, i64)]) -> i128
    requires same { length beta.now ≡ length limits.now }
    requires lows { sum_by (λ l. l.low) limits.now < 2 ^ 32 }
    ensures value { result ≡ gains (limits_view limits.now) (beta_view beta.now) }
    ensures low { pos 0 ≤ℤ result }
    ensures high { result ≤ℤ pos (2 ^ 95) }
{
    let mut sum = 0i128;
    for (i, limit) in limits.iter().enumerate() {
        sum += times(limit.low, beta[i].1.max(0));
    }
    sum
}

/// Whether a sum falls to the cost by what the names whose numbers are below 0 make at their high limits. It stops once the
/// sum is below 0, since it never rises.
fn falls_to(sum: i128, limits: &[Limit], beta: &[(String, i64)], cost: u64) -> bool
    requires same { length beta.now ≡ length limits.now }
    requires high { sum ≤ℤ pos (2 ^ 96) }
    ensures { IsTrue result ↔ ((sum +ℤ losses (limits_view limits.now) (beta_view beta.now)) ≡ pos cost) }
{
    let mut sum = sum;
    for (i, limit) in limits.iter().enumerate() {
        if sum < 0 {
            return false;
        }
        sum += times(limit.high, beta[i].1.min(0));
    }
    sum == i128::from(cost)
}

fn times(weight: u32, value: i64) -> i128
    ensures value { result ≡ pos weight *ℤ value }
    ensures low { neg_ℤ (pos (weight * 2 ^ 63)) ≤ℤ result }
    ensures high { result ≤ℤ pos (weight * 2 ^ 63) }
    ensures positive { pos 0 ≤ℤ value → pos 0 ≤ℤ result }
    ensures negative { value ≤ℤ pos 0 → result ≤ℤ pos 0 }
{
    i128::from(weight) * i128::from(value)
}
