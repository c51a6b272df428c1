/// Dual prices that prove that no rule which fits costs less: a number for each group of points, by variant and then by
/// number of inputs, a number for each name, by name, and the cost that they prove.
#[derive(Debug, Drop)]
pub struct Certificate {
    pub alpha: Vec<(String, u32, i64)>,
    pub beta: Vec<(String, i64)>,
    pub cost: u64,
}

/// Which limits a set of names is deficient over.
#[derive(Clone, Copy, Debug, PartialEq, Eq)]
pub enum CutKind {
    /// The points of these names outnumber the high limits of all that they may keep or change to.
    Over,
    /// The low limits of these names sum above the points that have or may take one of them.
    Under,
}

/// A set of names that shows that no rule fits.
#[derive(Debug, Drop)]
pub struct Cut {
    pub kind: CutKind,
    pub names: Vec<String>,
}
