//! How the rule of a site is refined before it is planned on.
ghost use Rattle.std.specs.Prelude.{◌≡◌, ◌<◌};
ghost use Rattle.rollout.specs.Lawful.{IsRefining, factor};

/// What each weight of the site's rule is multiplied by.
#[derive(Clone, Copy, Debug)]
pub enum Refining {
    /// This number.
    Times(u32),
    /// The number that makes this total of the site's, and 1 where there is none.
    ToTotal(u32),
}

impl Refining {
    /// The number, for a site of this total.
    pub(crate) fn factor(&self, total: u128) -> u32
        requires lawful { IsRefining self.now }
        requires some { 0 < total }
        ensures value { result ≡ factor self.now total }
        ensures positive { 0 < result }
    {
        match self {
            Refining::Times(m) => *m,
            Refining::ToTotal(n) => {
                let n = u128::from(*n);
                if n % total == 0 {
                    (n / total) as u32
                } else {
                    1
                }
            }
        }
    }
}
