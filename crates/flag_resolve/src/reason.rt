ghost use Rattle.std.specs.Prelude.{◌≡◌, Some};
ghost use Rattle.std.specs.Fmt.{padded};
ghost use Rattle.flag_resolve.specs.Words.{reason_word};

use std::fmt;

/// Why a resolution gives its value (OpenFeature: resolution reason).
#[derive(Clone, Copy, Debug, PartialEq, Eq)]
pub enum Reason {
    /// Something went wrong; the code says what.
    Error,
    /// The flag is disabled.
    Disabled,
    /// The flag has no targeting.
    Static,
    /// The targeting chose no variant, or there is no default variant.
    Default,
    /// The targeting chose the variant.
    TargetingMatch,
}

impl Reason {
    /// OpenFeature's word for the reason.
    pub fn as_str(&self) -> &'static str
        ensures { result.now ≡ reason_word self.now }
    {
        match self {
            Reason::Error => "ERROR",
            Reason::Disabled => "DISABLED",
            Reason::Static => "STATIC",
            Reason::Default => "DEFAULT",
            Reason::TargetingMatch => "TARGETING_MATCH",
        }
    }
}

impl fmt::Display for Reason {
    ghost output = { λ reason. Some (reason_word reason) };

    ghost styled_output = { λ reason spec. Some (padded spec (reason_word reason)) };

    fn fmt<W: fmt::Write>(&self, f: &mut fmt::Formatter<W>) -> fmt::Result {
        f.pad(self.as_str())
    }
}
