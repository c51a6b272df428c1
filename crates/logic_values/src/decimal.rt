//! A decimal number.
ghost use Rattle.logic_values.specs.Decimal.{IsNormal};

use arrayvec::ArrayVec;

/// A decimal number of at most 40 significant digits, the last of which has an exponent of 10 from -400 to 400.
#[derive(Drop)]
pub struct Decimal {
    pub(crate) negative: bool,
    /// The significant digits: neither the first nor the last is a zero.
    pub(crate) digits: ArrayVec<u8, 40>,
    /// The digits and so many zeros spell how often 10^-400 the number is.
    pub(crate) zeros: u32,
    pub ghost normal: { IsNormal negative digits.items zeros },
}
