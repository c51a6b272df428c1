//! What is known of a flag's targeting before its references are replaced.
ghost use Rattle.std.specs.Prelude.{◌≡◌, true, option_map};
ghost use Rattle.flag_text.specs.Shape.{is_tidy};
ghost use Rattle.flag_text.specs.View.{view, members_view};
ghost use Rattle.flag_defs.specs.Definition.{or_null};
ghost use Rattle.flag_defs.specs.Foreseen.{forecast_bytes};
ghost use Rattle.flag_defs.specs.Targeting.{IsForecast, end_forecast, is_nothing};

use flag_references::{Evaluators, Measure};
use flag_text::Tree;

/// A targeting, before its references are replaced.
#[derive(Clone, Copy)]
pub(crate) enum Forecast {
    /// It breaks the flag.
    Broken,
    /// There is none.
    Without,
    /// It is an expression that is printed in so many bytes at least.
    With(u32),
}

impl Forecast {
    /// In how many bytes the targeting is printed at least.
    pub(crate) fn bytes(self) -> u32
        ensures { result ≡ forecast_bytes self }
    {
        match self {
            Forecast::With(bytes) => bytes,
            Forecast::Broken => 0,
            Forecast::Without => 0,
        }
    }
}

/// What is known of the targeting that a flag's definition has, where it has one. Nothing is expanded, and it takes time
/// about linear in the targeting as it stands.
pub(crate) fn targeting_forecast(targeting: Option<&Tree>, evaluators: &Evaluators<'_>) -> Forecast
    requires { is_tidy (or_null (option_map (λ t. view t.now) targeting)) ≡ true }
    ensures { IsForecast (members_view evaluators.now) (or_null (option_map (λ t. view t.now) targeting.entry)) result }
{
    match targeting {
        Some(tree) => tree_forecast(tree, evaluators),
        None => Forecast::Without,
    }
}

pub(crate) fn tree_forecast(tree: &Tree, evaluators: &Evaluators<'_>) -> Forecast
    requires { is_tidy (view tree.now) ≡ true }
    ensures { IsForecast (members_view evaluators.now) (view tree.now) result }
{
    match evaluators.measure_of(tree) {
        Some(measure) => end_forecast(evaluators.end_of(tree), measure),
        None => Forecast::Broken,
    }
}

/// What is known of a targeting that is no reference, by the measure of its form.
fn end_forecast(tree: &Tree, measure: Measure) -> Forecast
    ensures { result ≡ end_forecast (view tree.now) measure }
{
    if is_nothing(tree) {
        return Forecast::Without;
    }
    if tree.as_object().is_some() && measure.is_readable() {
        Forecast::With(measure.bytes)
    } else {
        Forecast::Broken
    }
}

/// Whether it is null or `{}`.
pub(crate) fn is_nothing(tree: &Tree) -> bool
    ensures { result ≡ is_nothing (view tree.now) }
{
    match tree {
        Tree::Null => true,
        Tree::Object(members) => members.is_empty(),
        _ => false,
    }
}
