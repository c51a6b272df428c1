//! Reduced costs: what a change costs, less the numbers of its group and of its name. None that is allowed may be negative.
ghost use Rattle.std.specs.Prelude.{◌≡◌, ◌≤◌, ◌*◌, ◌+ℤ◌, ◌&&◌, pos, not, int_lt, find, option_map};
ghost use Rattle.std.specs.List.{list_all};
ghost use Rattle.price_core.specs.Pricing.{max_price};
ghost use Rattle.transport_core.specs.Assignment.{has_slack};
ghost use Rattle.transport_core.specs.Certificate.{alpha_row, alpha_view, beta_row, beta_view};
ghost use Rattle.transport_core.specs.Refusals.{is_broken, pairs_of, IsArcCost};

use price_core::Prices;

/// The first group and name, by group and then by name, that an allowed change of negative reduced cost joins.
pub fn first_broken<'a>(
    alpha: &'a [(String, u32, i64)],
    beta: &'a [(String, i64)],
    prices: &Prices,
) -> Option<(&'a (String, u32, i64), &'a (String, i64))>
    ensures { option_map (λ pair. (alpha_row pair.0.now, beta_row pair.1.now)) result ≡ find (is_broken prices.now) (pairs_of (alpha_view alpha.now) (beta_view beta.now)) }
{
    if has_slack(alpha, beta, prices) {
        return None;
    }
    for group in alpha {
        if let Some(name) = broken_by(group, beta, prices) {
            return Some((group, name));
        }
    }
    None
}

/// The first name that breaks the slack of a group.
fn broken_by<'a>(
    group: &(String, u32, i64),
    beta: &'a [(String, i64)],
    prices: &Prices,
) -> Option<&'a (String, i64)>
    ensures { option_map (λ b. beta_row b.now) result ≡ find (λ b. is_broken prices.now (alpha_row group.now, b)) (beta_view beta.now) }
{
    for name in beta {
        if is_broken(group, name, prices) {
            return Some(name);
        }
    }
    None
}

/// Whether the change is not forbidden, and its reduced cost is negative.
fn is_broken(group: &(String, u32, i64), name: &(String, i64), prices: &Prices) -> bool
    ensures { result ≡ is_broken prices.now (alpha_row group.now, beta_row name.now) }
{
    let cost = arc_cost(group.0.as_str(), name.0.as_str(), prices);
    is_negative(&cost, group, name)
}

/// Whether no allowed change has a negative reduced cost. Groups of one variant stand beside each other, so that a price is
/// looked up once for each variant and name.
fn has_slack(alpha: &[(String, u32, i64)], beta: &[(String, i64)], prices: &Prices) -> bool
    ensures { result ≡ has_slack prices.now (alpha_view alpha.now) (beta_view beta.now) }
{
    for name in beta {
        if !has_slack_at(name, alpha, prices) {
            return false;
        }
    }
    true
}

/// The same, for one name.
fn has_slack_at(name: &(String, i64), alpha: &[(String, u32, i64)], prices: &Prices) -> bool
    ensures { result ≡ list_all (λ a. not (is_broken prices.now (a, beta_row name.now))) (alpha_view alpha.now) }
{
    let mut known = arc_cost("", name.0.as_str(), prices);
    for group in alpha {
        known = arc_cost_from(known, group.0.as_str(), name.0.as_str(), prices);
        if is_negative(&known, group, name) {
            return false;
        }
    }
    true
}

/// What an input pays on the arcs from a variant to the name at hand.
#[derive(Clone, Copy)]
struct ArcCost<'a> {
    from: &'a str,
    forbidden: bool,
    price: u64,
}

fn arc_cost<'a>(from: &'a str, to: &str, prices: &Prices) -> ArcCost<'a>
    ensures from { result.from.now ≡ from.now }
    ensures cost { IsArcCost prices.now to.now result.from.now result.forbidden result.price }
{
    ArcCost {
        from,
        forbidden: prices.forbidden(from, to),
        price: prices.price(from, to),
    }
}

/// The cost from a variant, which is known where it is that of the variant before.
fn arc_cost_from<'a>(known: ArcCost<'a>, from: &'a str, to: &str, prices: &Prices) -> ArcCost<'a>
    requires { IsArcCost prices.now to.now known.from.now known.forbidden known.price }
    ensures from { result.from.now ≡ from.now }
    ensures cost { IsArcCost prices.now to.now result.from.now result.forbidden result.price }
{
    if known.from == from {
        known
    } else {
        arc_cost(from, to, prices)
    }
}

/// Whether the change is not forbidden, and its reduced cost is negative.
fn is_negative(cost: &ArcCost, group: &(String, u32, i64), name: &(String, i64)) -> bool
    requires { cost.now.price ≤ max_price }
    ensures { result ≡ (not cost.now.forbidden && int_lt (pos ((alpha_row group.now).0.1 * cost.now.price)) ((alpha_row group.now).1 +ℤ (beta_row name.now).1)) }
{
    !cost.forbidden && exceed(group.1, cost.price, group.2, name.1)
}

/// Whether the numbers sum to more than so many inputs pay, so that the reduced cost is negative.
fn exceed(count: u32, price: u64, alpha: i64, beta: i64) -> bool
    requires { price ≤ max_price }
    ensures { result ≡ int_lt (pos (count * price)) (alpha +ℤ beta) }
{
    i128::from(u64::from(count) * price) < i128::from(alpha) + i128::from(beta)
}
