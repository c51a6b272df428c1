ghost use Rattle.std.specs.Prelude.{IfOk, MatchBool, MatchOption, ◌≡◌, ◌≤◌, ◌<◌, ◌+◌, ◌*◌, ℕ, ℤ, pos, Some, None, ◌≤ℤ◌, ◌+ℤ◌, ◌-ℤ◌, length, slice_index_or};
ghost use Rattle.min_cost_flow.specs.Found.{HasSize, Finds, settled_nodes, potential_of, predecessor_of, rank_of};
ghost use Rattle.min_cost_flow.specs.Network.{IsNetwork, IsShort, potential_in};
ghost use Rattle.min_cost_flow.specs.Searched.{AreBegun, AreShort, BeginsSearch, EndsSearch, RelaxesAll, IsNearestOf, AreExhausted, Lowers, distance_in, settle_order_in};
ghost use Rattle.min_cost_flow.specs.Spent.{HasSettled, HasSettledAtMost};

use crate::arc::Arc;
use crate::effort::Effort;
use crate::node::NodeState;
use std::alloc::{AllocError, Global};
use std::sync::ledger::Ledger;

/// The potentials of the nodes of a residual network, and what the last search knows of each node.
#[derive(Drop)]
pub struct Search {
    pub potentials: Vec<i64>,
    pub nodes: Vec<NodeState>,
}

impl Search {
    /// All potentials are 0.
    pub fn new(alloc: Global, nodes: usize) -> Result<Search, AllocError>
        ensures size { IfOk result (λ s. HasSize nodes s) }
        ensures zero { IfOk result (λ s. (v : ℕ) → v < nodes → slice_index_or s.potentials.items v (pos 0) ≡ pos 0) }
    {
        Ok(Search {
            potentials: vec![in alloc; 0; nodes]?,
            nodes: vec![in alloc; unreached(nodes); nodes]?,
        })
    }

    /// The wanted node that is nearest to the source by reduced costs. Where there is one, the potentials of the settled nodes
    /// fall; where none can be reached, all stay. Each node that it settles is counted, the wanted one among them. `O(n^2)` at
    /// n nodes.
    pub fn find<L: Ledger>(
        &mut self,
        arcs: &[Option<Arc>],
        wanted: &[bool],
        source: usize,
        effort: &mut Effort<L>,
    ) -> Option<usize>
        requires network { IsNetwork (length wanted.now) arcs.now self.old.potentials.items }
        requires size { HasSize (length wanted.now) self.old }
        requires source { source < length wanted.now }
        ensures size { HasSize (length wanted.now) self.new }
        ensures found { Finds (length wanted.now) arcs.now wanted.now source
            (potential_of self.old) (potential_of self.new) (predecessor_of self.new) (rank_of self.new) result }
        ensures settled { HasSettled (settled_nodes (length wanted.now) self.new.nodes.items result) effort.old effort.new }
        ensures effort { HasSettledAtMost (length wanted.now) effort.old effort.new }
    {
        let potentials = self.potentials.as_mut_slice();
        let nodes = self.nodes.as_mut_slice();
        begin(nodes, source);
        match settle(nodes, arcs, potentials, wanted, source, effort) {
            Some((node, node_distance)) => {
                lower(potentials, nodes, node, node_distance);
                Some(node)
            }
            None => None,
        }
    }
}

/// A node that was not reached, of so many.
fn unreached(nodes: usize) -> NodeState
    ensures distance { result.distance ≡ None }
    ensures settle_order { result.settle_order ≡ nodes }
{
    NodeState {
        distance: None,
        predecessor: 0,
        settle_order: nodes,
    }
}

/// Settles nodes in the order of their distance by reduced costs, up to the first that is wanted. Answers that one with its
/// distance.
fn settle<L: Ledger>(
    nodes: &mut [NodeState],
    arcs: &[Option<Arc>],
    potentials: &[i64],
    wanted: &[bool],
    source: usize,
    effort: &mut Effort<L>,
) -> Option<(usize, i64)>
    requires network { IsNetwork (length nodes.old) arcs.now potentials.now }
    requires wanted { length wanted.now ≡ length nodes.old }
    requires begun { BeginsSearch (length nodes.old) arcs.now potentials.now source nodes.old }
    ensures search { EndsSearch (length nodes.old) arcs.now potentials.now wanted.now source nodes.new result }
    ensures settled { HasSettled (settled_nodes (length nodes.old) nodes.new result) effort.old effort.new }
    ensures effort { HasSettledAtMost (length nodes.old) effort.old effort.new }
{
    let count = nodes.len();
    let mut settled = 0;
    while let Some((node, node_distance)) = nearest(nodes, potentials) {
        effort.count_settling();
        if wanted[node] {
            return Some((node, node_distance));
        }
        nodes[node].settle_order = settled;
        let first = node * count;
        relax(nodes, &arcs[first..first + count], node, node_distance);
        settled += 1;
    }
    None
}

/// The source has the distance 0, and no other node is reached; none is settled.
fn begin(nodes: &mut [NodeState], source: usize)
    requires { source < length nodes.old }
    ensures { AreBegun (length nodes.old) source nodes.new }
{
    for v in 0..nodes.len() {
        nodes[v] = unreached(nodes.len());
    }
    nodes[source].distance = Some(0);
}

/// The potential of each settled node falls by as much as the node is nearer by reduced costs than the wanted one, which was
/// found at this distance.
fn lower(potentials: &mut [i64], nodes: &[NodeState], node: usize, node_distance: i64)
    requires short { AreShort potentials.old nodes.now }
    requires node { node < length nodes.now }
    requires unsettled { length nodes.now ≤ settle_order_in nodes.now node }
    requires node_distance { IsShort node_distance }
    ensures { Lowers (length nodes.now) (potential_in potentials.old) (potential_in potentials.new) (distance_in nodes.now) (settle_order_in nodes.now) node node_distance }
{
    let node_potential = potentials[node];
    for v in 0..nodes.len() {
        if nodes[v].settle_order < nodes.len() {
            if let Some(distance) = nodes[v].distance {
                potentials[v] = lowered(node_potential, distance, node_distance);
            }
        }
    }
}

/// The new potential of a settled node at this distance: that of the wanted node, and the distance of the settled node less
/// that of the wanted one.
#[tactic(auto, using(crate::proofs::Lowering::sum_fits, crate::proofs::Lowering::rest_fits, crate::proofs::Lowering::rest_is))]
fn lowered(node_potential: i64, distance: i64, node_distance: i64) -> i64
    requires node_potential { IsShort node_potential }
    requires distance { IsShort distance }
    requires node_distance { IsShort node_distance }
    ensures { result ≡ (node_potential +ℤ distance) -ℤ node_distance }
{
    node_potential + distance - node_distance
}

/// The nearest by reduced costs of the unsettled nodes that were reached, with its distance.
fn nearest(nodes: &[NodeState], potentials: &[i64]) -> Option<(usize, i64)>
    requires { AreShort potentials.now nodes.now }
    ensures { MatchOption result (AreExhausted nodes.now (length nodes.now)) (λ r. IsNearestOf potentials.now nodes.now (length nodes.now) r) }
{
    let mut least = None;
    let mut node = 0;
    let mut node_distance = 0;
    for v in 0..nodes.len() {
        if nodes[v].settle_order >= nodes.len() {
            if let Some(distance) = nodes[v].distance {
                let reduced = distance - potentials[v];
                if is_nearer(reduced, least) {
                    least = Some(reduced);
                    node = v;
                    node_distance = distance;
                }
            }
        }
    }
    match least {
        Some(_) => Some((node, node_distance)),
        None => None,
    }
}

/// Relaxes the arcs that leave a settled node: each unsettled node that is nearer over it gets this distance and this
/// predecessor.
fn relax(nodes: &mut [NodeState], arcs: &[Option<Arc>], node: usize, node_distance: i64)
    requires nodes { length nodes.old ≡ length arcs.now }
    requires costs { (v : ℕ) (a : Arc) → v < length arcs.now → slice_index_or arcs.now v None ≡ Some a → IsShort a.cost }
    requires node_distance { IsShort node_distance }
    ensures { RelaxesAll arcs.now node node_distance nodes.old nodes.new }
{
    for v in 0..arcs.len() {
        if nodes[v].settle_order >= arcs.len() {
            if let Some(arc) = arcs[v] {
                let distance = node_distance + arc.cost;
                if is_nearer(distance, nodes[v].distance) {
                    nodes[v] = NodeState {
                        distance: Some(distance),
                        predecessor: node,
                        ..nodes[v]
                    };
                }
            }
        }
    }
}

/// Whether a distance is below the one that is known, if any is.
fn is_nearer(distance: i64, known: Option<i64>) -> bool
    ensures { MatchBool result ((other : ℤ) → known ≡ Some other → distance ≤ℤ other) ((other : ℤ) × (known ≡ Some other) × (other ≤ℤ distance)) }
{
    match known {
        Some(other) => distance < other,
        None => true,
    }
}
