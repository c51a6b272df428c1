//! Stretches: points in a row of one group, and how many entries a change of their name takes from a rule or adds to it.
ghost use Rattle.std.specs.List.{All, prefix_len};
ghost use Rattle.std.specs.Prelude.{◌≡◌, ◌==◌, ◌≤◌, ◌<◌, ℕ, IfSome, length, sum, slice_index};

/// A stretch, and the names around it, as indices.
#[derive(Clone, Copy)]
pub(crate) struct Stretch {
    pub(crate) group: usize,
    pub(crate) points: usize,
    /// What its points are given that do not change.
    pub(crate) base: usize,
    /// The name in front of it, and the one behind it; its own at an end of the rule.
    pub(crate) before: usize,
    pub(crate) after: usize,
}

/// Ranks are below this number.
pub(crate) const RANKS: usize = 5 * LENGTHS;

/// Classes of lengths, of which there are two for each doubling.
const LENGTHS: usize = 40;

impl Stretch {
    /// The stretch that the points begin with, behind this name, where each group has a name that its points are expected to
    /// be given.
    pub(crate) fn first(points: &[u32], bases: &[usize], before: usize) -> Stretch
        requires some { 0 < length points.now }
        requires groups { All (λ g. g < length bases.now) points.now }
        ensures some { 0 < result.points }
        ensures within { result.points ≤ length points.now }
        ensures group { result.group < length bases.now }
        ensures same { (q : ℕ) → q < result.points → slice_index points.now q ≡ result.group }
        ensures named { (width : ℕ) → All (λ w. w < width) bases.now → result.base < width }
        ensures before { result.before ≡ before }
        ensures after { (width : ℕ) → All (λ w. w < width) bases.now → result.after < width }
    {
        let group = points[0];
        let many = run_len(points, group);
        let base = bases[group as usize];
        Stretch {
            group: group as usize,
            points: many,
            base,
            before,
            after: if many < points.len() {
                bases[points[many] as usize]
            } else {
                base
            },
        }
    }

    /// The name that points which change are best given: that of a neighbour if the group gives it, else the first that it
    /// gives.
    pub(crate) fn wish(&self, row: &[u32]) -> usize
        requires base { self.now.base < length row.now }
        requires before { self.now.before < length row.now }
        requires after { self.now.after < length row.now }
        ensures within { result < length row.now }
    {
        match self.neighbour(row) {
            Some(name) => name,
            None => other(row, self.base),
        }
    }

    /// The name of a neighbour, if it is another than the base and the group gives it.
    fn neighbour(&self, row: &[u32]) -> Option<usize>
        requires before { self.now.before < length row.now }
        requires after { self.now.after < length row.now }
        ensures within { IfSome result (λ name. name < length row.now) }
    {
        if self.before != self.base && row[self.before] > 0 {
            return Some(self.before);
        }
        if self.after != self.base && row[self.after] > 0 {
            return Some(self.after);
        }
        None
    }

    /// Its rank among those of the group, the first of which are to change first: by how many entries a change adds, and
    /// then the shortest first where it takes entries away, the longest first where it adds any. The other name is the first
    /// that the group gives.
    pub(crate) fn rank(&self, row: &[u32], other: usize) -> usize
        requires before { self.now.before < length row.now }
        requires after { self.now.after < length row.now }
        ensures below { result < RANKS }
    {
        let length = length_class(self.points);
        let name = self.neighbour(row).unwrap_or(other);
        let added = 2 + self.ends(name) - self.ends(self.base);
        if added < 2 {
            added * LENGTHS + length
        } else if added > 2 {
            added * LENGTHS + (LENGTHS - 1 - length)
        } else {
            added * LENGTHS
        }
    }

    /// At how many of its ends the name changes where it is given this one.
    fn ends(&self, name: usize) -> usize
        ensures { result ≤ 2 }
    {
        usize::from(self.before != name) + usize::from(self.after != name)
    }
}

/// The first name but this one that has anything left, else this one.
pub(crate) fn other(row: &[u32], base: usize) -> usize
    requires base { base < length row.now }
    ensures within { result < length row.now }
    ensures there { 0 < sum row.now → 0 < slice_index row.now result }
{
    for (name, many) in row.iter().enumerate() {
        if name != base && *many > 0 {
            return name;
        }
    }
    base
}

/// How many points from the front on are of the group.
fn run_len(points: &[u32], group: u32) -> usize
    ensures value { result ≡ prefix_len (λ p. p == group) points.now }
    ensures bound { result ≤ length points.now }
{
    points.iter().take_while(|p| **p == group).count()
}

/// The class of a length, two for each doubling: 1, 2, 3, 4 to 5, 6 to 7, 8 to 11, ..
fn length_class(points: usize) -> usize
    ensures { result < LENGTHS }
{
    let mut rest = points;
    let mut class = 0;
    while rest >= 4 && class < LENGTHS - 5 {
        rest /= 2;
        class += 2;
    }
    class + rest.min(3)
}
