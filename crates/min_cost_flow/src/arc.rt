/// An arc of a residual network: the cost of one point that moves along it, and the group of that point.
#[derive(Clone, Copy, Debug, PartialEq, Eq)]
pub struct Arc {
    pub cost: i64,
    pub group: usize,
}
