//! The words and the names for why a page has no rules to compare.
ghost use Rattle.std.specs.Prelude.{◌≡◌};
ghost use Rattle.flagops_compare.specs.Reasons.{reason_name, reason_words, side_name};

use rule_switches::{NoRule, Side};

/// The name of a document.
pub(crate) fn side_name(side: Side) -> &'static str
    ensures { result.now ≡ side_name side }
{
    match side {
        Side::Old => "old",
        Side::New => "new",
    }
}

/// The name of a reason: the variant's.
pub(crate) fn reason_name(reason: NoRule) -> &'static str
    ensures { result.now ≡ reason_name reason }
{
    match reason {
        NoRule::WantOfMemory => "WantOfMemory",
        NoRule::NoFlag => "NoFlag",
        NoRule::NoSite => "NoSite",
        NoRule::OtherExpression => "OtherExpression",
        NoRule::Computed => "Computed",
        NoRule::NoWeight => "NoWeight",
        NoRule::TooHeavy => "TooHeavy",
    }
}

/// What the document has there, in words.
pub(crate) fn reason_words(reason: NoRule) -> &'static str
    ensures { result.now ≡ reason_words reason }
{
    match reason {
        NoRule::WantOfMemory => "out of memory",
        NoRule::NoFlag => "it has no such flag",
        NoRule::NoSite => "it has no such fractional operation",
        NoRule::OtherExpression => "it has another bucketing expression there",
        NoRule::Computed => "it has a computed bucket there",
        NoRule::NoWeight => "its weights there sum to 0",
        NoRule::TooHeavy => "its weights there sum to more than 2147483647",
    }
}
