//! The parts of a `fractional` operation, evaluated.
use logic_values::Value;

/// The input of a site.
#[derive(Drop)]
pub(crate) enum Input<'a> {
    /// The value of the bucketing expression.
    Given(Value<'a>),
    /// The flag's key and the targeting key.
    Default,
}

/// A name and its weight.
#[derive(Drop)]
pub(crate) enum WeightedVariant<'a> {
    /// Both stand in the expression.
    Literal(&'a str, u64),
    /// Both are values that may be no name and no weight.
    Computed(Value<'a>, Value<'a>),
}
