/// What a search knows of a node.
#[derive(Clone, Copy, Debug, PartialEq, Eq)]
pub struct NodeState {
    /// Its distance from the source, by the costs of the arcs on the shortest path that was found to it; none where it was not
    /// reached.
    pub distance: Option<i64>,
    /// Where it was reached, its predecessor on that path.
    pub predecessor: usize,
    /// How many nodes were settled before it; the number of all nodes where it is not settled.
    pub settle_order: usize,
}
