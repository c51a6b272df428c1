//! How evaluations ended.
use crate::answer::is_noted;
use flag_resolve::{Reason, Resolution};
use logic_eval::Reached;

/// How many evaluations ended with each reason (OpenFeature: resolution reason), and how many of the hash inputs that they reached are too
/// long for a note.
#[derive(Clone, Copy, Debug, PartialEq, Eq)]
pub struct Reasons {
    /// `ERROR`.
    pub error: u64,
    /// `DISABLED`.
    pub disabled: u64,
    /// `STATIC`.
    pub fixed: u64,
    /// `DEFAULT`.
    pub default: u64,
    /// `TARGETING_MATCH`.
    pub targeting_match: u64,
    /// Hash inputs that are too long for a note.
    pub inputs_too_long: u64,
}

impl Reasons {
    /// No evaluation yet.
    pub(crate) fn none() -> Reasons {
        Reasons {
            error: 0,
            disabled: 0,
            fixed: 0,
            default: 0,
            targeting_match: 0,
            inputs_too_long: 0,
        }
    }

    /// One evaluation, which ended with this reason.
    pub(crate) fn of(reason: Reason) -> Reasons {
        let mut reasons = Reasons::none();
        reasons.count_reason(reason);
        reasons
    }

    /// One more evaluation, which came to this resolution.
    pub(crate) fn count(&mut self, resolution: &Resolution) {
        self.count_reason(resolution.reason);
        self.count_long(resolution.reached.as_slice());
    }

    /// Counts the inputs that are too long for a note.
    fn count_long(&mut self, reached: &[Reached]) {
        for site in reached {
            if !is_noted(site) {
                self.inputs_too_long = self.inputs_too_long.saturating_add(1);
            }
        }
    }

    /// One more evaluation ended with this reason.
    fn count_reason(&mut self, reason: Reason) {
        match reason {
            Reason::Error => self.error = self.error.saturating_add(1),
            Reason::Disabled => self.disabled = self.disabled.saturating_add(1),
            Reason::Static => self.fixed = self.fixed.saturating_add(1),
            Reason::Default => self.default = self.default.saturating_add(1),
            Reason::TargetingMatch => {
                self.targeting_match = self.targeting_match.saturating_add(1);
            }
        }
    }
}
