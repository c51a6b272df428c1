//! The transportation problem: groups of points to be spread over names within their limits, at the least cost.

/// The points of one old variant at which equally many inputs were recorded: one supply of the network.
#[derive(Clone, Copy)]
pub struct Group {
    /// The old variant, one of the names.
    pub variant: usize,
    /// The inputs recorded at each of its points.
    pub count: u32,
    /// Its points.
    pub points: u32,
}

/// Groups of points to be spread over names, which are numbered, within the limits of each name. A point of a group costs its
/// count times the cost of the switch from its old variant to the name.
#[derive(Drop)]
pub struct FlowProblem {
    /// By old variant and then by count.
    pub groups: Vec<Group>,
    /// The cost of each switch for one input, by rows of the old names; none where the switch is forbidden.
    pub costs: Vec<Option<i64>>,
    /// The least total of each name.
    pub low: Vec<u32>,
    /// The greatest total of each name.
    pub high: Vec<u32>,
}
