//! Which variants have numbers that are not whole.
ghost use Rattle.std.specs.Prelude.{◌≡◌};
ghost use Rattle.json.specs.Value.{members_view, value_view};
ghost use Rattle.spelled_numbers.specs.Floats.{all_counting, are_floats, are_within, has_floats, has_name};
ghost use Rattle.spelled_numbers.specs.View.{test_of};

use crate::depth::members_fit;
use crate::numbers::has_whole_numbers;
use json::Value;
use limits::{EXPRESSION_LEVELS, VARIANTS};

/// What the values of variants are tested for.
#[derive(Clone, Copy)]
pub(crate) enum Trait {
    /// It is a number.
    Number,
    /// It is an object.
    Object,
    /// Each number in it is whole.
    Whole,
}

impl Trait {
    fn holds(self, value: &Value<'_>) -> bool
        ensures { result ≡ test_of self (value_view value.now) }
    {
        match self {
            Trait::Number => matches!(value, Value::Number(_)),
            Trait::Object => matches!(value, Value::Object(_)),
            Trait::Whole => has_whole_numbers(value),
        }
    }
}

/// Whether the value is variants with numbers that are not whole: an object within the limits of a flag's variants, of numbers
/// alone or of objects alone, in which some number is not whole.
pub(crate) fn has_floats(value: &Value<'_>) -> bool
    ensures { result ≡ has_floats (value_view value.now) }
{
    match value {
        Value::Object(members) => are_floats(members),
        _ => false,
    }
}

fn are_floats(members: &Vec<(&str, Value<'_>)>) -> bool
    ensures { result ≡ are_floats (members_view members.now.items) }
{
    if !are_within(members) {
        return false;
    }
    (all_counting(Trait::Number, members) || all_counting(Trait::Object, members))
        && !all_counting(Trait::Whole, members)
}

/// Whether a flag may have so many variants, which nest so deep.
#[tactic(auto, using(crate::proofs::Counted::counted))]
fn are_within(members: &Vec<(&str, Value<'_>)>) -> bool
    ensures { result ≡ are_within (members_view members.now.items) }
{
    members.len() <= VARIANTS && members_fit(members, EXPRESSION_LEVELS as usize - 1)
}

/// Whether this holds of each value that counts: of members of one name the last.
fn all_counting(wanted: Trait, members: &Vec<(&str, Value<'_>)>) -> bool
    ensures { result ≡ all_counting (test_of wanted) (members_view members.now.items) }
{
    for i in 0..members.len() {
        let (name, value) = &members[i];
        if !has_member(name, &members[i + 1..]) && !wanted.holds(value) {
            return false;
        }
    }
    true
}

/// Whether a member has this name.
fn has_member(name: &str, members: &[(&str, Value<'_>)]) -> bool
    ensures { result ≡ has_name name.now (members_view members.now) }
{
    for (other, _) in members {
        if *other == name {
            return true;
        }
    }
    false
}
