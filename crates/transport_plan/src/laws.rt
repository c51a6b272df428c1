//! What the dual prices of a flow prove, and what a failed search shows.
ghost use Rattle.transport_plan.specs.Laws.{DualPricesProve, StuckIsOver, UnmetIsUnder, LeastOffers, OptimalFlowIsProved, OptimalFlows};

/// Complementary slackness: where no point has a cheaper place at the dual prices of the names, and these are on the side of their
/// limits, the dual prices of the names and of the groups prove what the flow costs (Ahuja, Magnanti, Orlin, Network Flows,
/// section 9.4). A law: it computes nothing.
pub fn dual_prices_of_an_optimal_flow_prove_its_cost()
    ensures { DualPricesProve }
{}

/// A search that reaches no name which it wants leaves a deficient set: over the high limits where no point can leave the names
/// that it reached (`over`), and under the low ones where no point can enter those that it did not (`under`). A law: it computes
/// nothing.
pub fn a_failed_search_leaves_a_cut()
    ensures over { StuckIsOver }
    ensures under { UnmetIsUnder }
{}

/// A flow within its limits that is optimal by potentials is optimal for the planning problem, where the dual price of each name is
/// its potential over that of the root.
pub fn an_optimal_flow_is_optimal()
    ensures { OptimalFlows }
{}

/// The dual prices of groups, found by number, are the least that a switch of one of their points costs, less the dual price of the
/// new name.
pub fn the_dual_prices_of_groups_are_least_offers()
    ensures { LeastOffers }
{}

/// A flow within its limits that is optimal by potentials is proved to cost the least: by these dual prices, by those of the groups,
/// and by its cost.
pub fn an_optimal_flow_is_proved()
    ensures { OptimalFlowIsProved }
{}
