//! Laws of flows of points to names, of numbers alone and apart from any structure that holds them.
ghost use Rattle.std.specs.Prelude.{ℕ, ℤ, Option, ◌+◌};
ghost use Rattle.min_cost_flow.specs.Optimal.{Flows, IsOptimal, AreResidual, PushesKeepLeast};
ghost use Rattle.min_cost_flow.specs.Network.{HasNonNegativeReducedCosts};

use crate::Arc;

/// A flow is optimal for its totals by potentials just where no residual arc has a negative reduced cost by them.
pub fn optimality()
    ensures reduced { (f : Flows) (arc : ℕ → ℕ → Option Arc) (potential : ℕ → ℤ) → AreResidual f arc → IsOptimal f potential → HasNonNegativeReducedCosts (f.names + 1) arc potential }
    ensures optimal { (f : Flows) (arc : ℕ → ℕ → Option Arc) (potential : ℕ → ℤ) → AreResidual f arc → HasNonNegativeReducedCosts (f.names + 1) arc potential → IsOptimal f potential }
{}

/// Where points move between names of equal cost less potential, points are still at names of the least.
pub fn pushing()
    ensures { PushesKeepLeast }
{}
