//! The gate of the command's workers.
use book_share::{Attempt, Gate};
use progress::Meter;

/// The gate that lets each ask start at once. Each that is answered moves a meter on, where there is one.
#[derive(Drop)]
pub(crate) struct CountingGate<'a> {
    meter: Option<&'a Meter>,
}

impl<'a> CountingGate<'a> {
    /// The gate of so many asks.
    pub(crate) fn new(meter: Option<&'a Meter>, asks: usize) -> CountingGate<'a> {
        if let Some(meter) = meter {
            meter.begin(asks as u64);
        }
        CountingGate { meter }
    }
}

impl Gate for CountingGate<'_> {
    ghost refused = { λ _ _ _. ⊥ };

    fn may_start<A: Attempt>(&self, _ask: usize) -> bool {
        true
    }

    fn answered(&self, _ask: usize) {
        if let Some(meter) = self.meter {
            meter.advance(1);
        }
    }
}
