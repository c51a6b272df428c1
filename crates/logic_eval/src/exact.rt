//! The operators that compare or test values among which is a decimal: a number of the context that is not whole.
ghost use Rattle.std.specs.Prelude.{◌≡◌, map};
ghost use Rattle.logic_eval.specs.Operators.{exact_test, exact_test_of, has_decimal};
ghost use Rattle.logic_values.specs.Decimals.{at_most, chain, less};
ghost use Rattle.logic_values.specs.Views.{seen_view, value_view};

use crate::apply::argument;
use logic_ast::Operator;
use logic_values::truth::is_true;
use logic_values::{EvalFault, Seen, Value, at_most, equal, is_decimal, less, same};

/// Whether one of the values is a decimal.
pub(crate) fn has_decimal(values: &[Value]) -> bool
    ensures { result ≡ has_decimal (map value_view values.now) }
{
    for value in values {
        if is_decimal(value.seen()) {
            return true;
        }
    }
    false
}

/// What an operator that compares or tests gives of the values, by their exact values where one of two is a decimal.
pub(crate) fn exact_test(operator: Operator, values: &[Value]) -> Result<bool, EvalFault>
    ensures { result ≡ exact_test operator (map value_view values.now) }
{
    match operator {
        Operator::Less => rises(values),
        Operator::LessOrEqual => never_falls(values),
        _ => exact_test_of(operator, argument(values, 0), argument(values, 1)),
    }
}

// `<`: each value is less than the next.
fn rises(values: &[Value]) -> Result<bool, EvalFault>
    ensures { result ≡ chain less (map value_view values.now) }
{
    match values {
        [a, b, ..] => {
            if less(a.seen(), b.seen())? {
                rises(&values[1..])
            } else {
                Ok(false)
            }
        }
        _ => Ok(true),
    }
}

// `<=`: each value is at most the next.
fn never_falls(values: &[Value]) -> Result<bool, EvalFault>
    ensures { result ≡ chain at_most (map value_view values.now) }
{
    match values {
        [a, b, ..] => {
            if at_most(a.seen(), b.seen())? {
                never_falls(&values[1..])
            } else {
                Ok(false)
            }
        }
        _ => Ok(true),
    }
}

// The operators that only compare or test their first two arguments. No other has a decimal among its values.
fn exact_test_of(operator: Operator, a: Seen, b: Seen) -> Result<bool, EvalFault>
    ensures { result ≡ exact_test_of operator (seen_view a.entry) (seen_view b.entry) }
{
    match operator {
        Operator::Equal => equal(a, b),
        Operator::StrictEqual => same(a, b),
        Operator::NotEqual => Ok(!equal(a, b)?),
        Operator::StrictNotEqual => Ok(!same(a, b)?),
        Operator::Greater => less(b, a),
        Operator::GreaterOrEqual => at_most(b, a),
        Operator::Not => Ok(!is_true(a)),
        Operator::Truth => Ok(is_true(a)),
        _ => Err(EvalFault::Arithmetic),
    }
}
