//! What came of contexts.
ghost use Rattle.std.specs.Prelude.{◌≡◌, ◌+◌, ◌<◌, ◌^◌, ◌||◌, nat_lt};
ghost use Rattle.flag_resolve.specs.Views.{resolution_view};
ghost use Rattle.flag_text.specs.View.{view};
ghost use Rattle.note_streams.specs.Outcomes.{both, contexts, has_key, is_disabled, is_parse_error, no_outcomes, one_of, unnoted};
ghost use Rattle.note_streams.specs.View.{outcomes_view};

use flag_resolve::{Code, Reason, Resolution};
use flag_text::Tree;

/// What came of a context: a note line, or why there is none.
#[derive(Clone, Copy, Debug, PartialEq, Eq)]
pub enum Outcome {
    /// A line was noted of it.
    Noted,
    /// The inputs that it reached have more than 1,024 bytes.
    TooLong,
    /// The flag is disabled.
    Disabled,
    /// The targeting can't be evaluated in it.
    ParseError,
    /// It has a targeting key, and its evaluation reached no `fractional`.
    Unreached,
    /// It has no targeting key that is a text, and its evaluation reached no `fractional`.
    Keyless,
}

/// How many contexts there are of each outcome, and the inputs that were not noted.
#[derive(Clone, Copy, Debug)]
pub struct Outcomes {
    /// The number of inputs that were not noted, as they have more than 1,024 bytes.
    pub long: u64,
    /// The contexts of which a line was noted.
    pub noted: u64,
    /// Those whose inputs all have more than 1,024 bytes.
    pub too_long: u64,
    /// Those in which the flag is disabled.
    pub disabled: u64,
    /// Those in which the targeting can't be evaluated.
    pub parse_error: u64,
    /// Those that reach no `fractional` by their targeting key.
    pub unreached: u64,
    /// Those that reach none and have no targeting key.
    pub keyless: u64,
}

impl Outcomes {
    /// Of no context.
    pub fn none() -> Outcomes
        ensures { outcomes_view result ≡ no_outcomes }
    {
        Outcomes {
            long: 0,
            noted: 0,
            too_long: 0,
            disabled: 0,
            parse_error: 0,
            unreached: 0,
            keyless: 0,
        }
    }

    /// Of one context of this outcome, with so many inputs that were not noted.
    pub(crate) fn of(long: u64, outcome: Outcome) -> Outcomes
        ensures exact { outcomes_view result ≡ one_of (nat_lt 0 long) outcome }
        ensures one { contexts (outcomes_view result) ≡ 1 }
    {
        let mut one = Outcomes::none();
        one.long = long;
        match outcome {
            Outcome::Noted => one.noted = 1,
            Outcome::TooLong => one.too_long = 1,
            Outcome::Disabled => one.disabled = 1,
            Outcome::ParseError => one.parse_error = 1,
            Outcome::Unreached => one.unreached = 1,
            Outcome::Keyless => one.keyless = 1,
        }
        one
    }

    /// Of these contexts and those.
    pub fn both(self, other: Outcomes) -> Outcomes
        requires { contexts (outcomes_view self) + contexts (outcomes_view other) < 2 ^ 64 }
        ensures { outcomes_view result ≡ both (outcomes_view self) (outcomes_view other) }
    {
        Outcomes {
            long: counted_both(self.long, other.long),
            noted: self.noted + other.noted,
            too_long: self.too_long + other.too_long,
            disabled: self.disabled + other.disabled,
            parse_error: self.parse_error + other.parse_error,
            unreached: self.unreached + other.unreached,
            keyless: self.keyless + other.keyless,
        }
    }

    /// The number of contexts.
    pub fn contexts(&self) -> u128
        ensures { result ≡ contexts (outcomes_view self.now) }
    {
        self.noted as u128
            + self.too_long as u128
            + self.disabled as u128
            + self.parse_error as u128
            + self.unreached as u128
            + self.keyless as u128
    }
}

/// Why no line was noted of a context, which reached inputs that are too long or none that is.
pub(crate) fn unnoted(context: &Tree, resolution: &Resolution, is_long: bool) -> Outcome
    ensures { result ≡ unnoted is_long (view context.now) (resolution_view resolution.now) }
{
    if is_disabled(resolution.reason) {
        Outcome::Disabled
    } else if is_parse_error(resolution.code) {
        Outcome::ParseError
    } else if is_long {
        Outcome::TooLong
    } else if has_key(context) {
        Outcome::Unreached
    } else {
        Outcome::Keyless
    }
}

/// Whether the reason is DISABLED.
fn is_disabled(reason: Reason) -> bool
    ensures { result ≡ is_disabled reason }
{
    matches!(reason, Reason::Disabled)
}

/// Whether the error code is PARSE_ERROR.
fn is_parse_error(code: Option<Code>) -> bool
    ensures { result ≡ is_parse_error code }
{
    matches!(code, Some(Code::ParseError))
}

/// Whether a context has a targeting key, which is a text.
fn has_key(context: &Tree) -> bool
    ensures { result ≡ has_key (view context.now) }
{
    matches!(context.member("targetingKey"), Some(Tree::Text(_)))
}

/// The sum of two counts, or the greatest count.
pub(crate) fn counted_both(one: u64, other: u64) -> u64
    ensures { nat_lt 0 result ≡ (nat_lt 0 one || nat_lt 0 other) }
{
    one.saturating_add(other)
}
