//! The operators that take the values of all their arguments.
ghost use Rattle.std.specs.Prelude.{◌≡◌, ◌≢◌, ◌<◌, map};
ghost use Rattle.logic_ast.specs.declared.operator.Operator.TheVariants.{Merge};
ghost use Rattle.flag_text.specs.Outcome.{GivesUnless};
ghost use Rattle.logic_values.specs.declared.fault.EvalFault.TheVariants.{WantOfMemory};
ghost use Rattle.logic_values.specs.Arithmetic.{if_number};
ghost use Rattle.logic_values.specs.Comparison.{is_less, is_at_most, is_chain};
ghost use Rattle.logic_eval.specs.Operators.{applied, applied_exactly, argument, test_of};
ghost use Rattle.logic_values.specs.Views.{seen_view, value_view};
ghost use Rattle.logic_eval.specs.Views.{scope_view};

use crate::exact::{exact_test, has_decimal};
use crate::missing::{missing, missing_some};
use crate::scope::Scope;
use logic_ast::Operator;
use logic_values::arithmetic::{difference, maximum, minimum, product, remainder, sum};
use logic_values::comparison::{is_at_most, is_equal, is_less, is_same};
use logic_values::lists::{is_in, merged};
use logic_values::text::{ends_with, joined, part, starts_with};
use logic_values::truth::is_true;
use logic_values::version::version_matches;
use logic_values::{EvalFault, Seen, Value};
use smallvec::SmallVec;
use std::alloc::Global;

/// What the operator gives of the values.
pub(crate) fn apply<'a>(
    alloc: Global,
    operator: Operator,
    scope: Scope,
    values: SmallVec<Value<'a>, 3>,
) -> Result<Value<'a>, EvalFault>
    ensures exact { GivesUnless WantOfMemory value_view result (applied_exactly operator (scope_view scope.entry) (map value_view values.entry.items)) }
{
    if has_decimal(values.as_slice()) {
        return Ok(Value::Bool(exact_test(operator, values.as_slice())?));
    }
    match operator {
        Operator::Merge => Ok(Value::Items(merged(alloc, values)?)),
        _ => applied(alloc, operator, scope, values.as_slice()),
    }
}

// What any other operator than `merge` gives of them.
fn applied<'a>(
    alloc: Global,
    operator: Operator,
    scope: Scope,
    values: &[Value<'a>],
) -> Result<Value<'a>, EvalFault>
    requires { operator ≢ Merge }
    ensures exact { GivesUnless WantOfMemory value_view result (applied operator (scope_view scope.entry) (map value_view values.now)) }
{
    let first = argument(values, 0);
    let second = argument(values, 1);
    match operator {
        Operator::Missing => Ok(Value::Items(missing(alloc, scope, values)?)),
        Operator::MissingSome => Ok(Value::Items(missing_some(alloc, scope, first, second)?)),
        Operator::Less => Ok(Value::Bool(rises(values))),
        Operator::LessOrEqual => Ok(Value::Bool(never_falls(values))),
        Operator::Add => number(sum(values)),
        Operator::Subtract => number(difference(values)),
        Operator::Multiply => number(product(values)),
        Operator::Remainder => number(remainder(first, second)),
        Operator::Max => number(maximum(values)),
        Operator::Min => number(minimum(values)),
        Operator::Cat => Ok(Value::Text(joined(alloc, values)?)),
        Operator::Substr => Ok(Value::Text(part(alloc, values)?)),
        Operator::SemVer => {
            let third = argument(values, 2);
            Ok(Value::Bool(version_matches(alloc, first, second, third)?))
        }
        _ => Ok(Value::Bool(test(operator, first, second))),
    }
}

// The argument at a place, null where there is none.
pub(crate) fn argument<'s, 'a>(values: &'s [Value<'a>], place: usize) -> Seen<'s, 'a>
    ensures { seen_view result ≡ argument place (map value_view values.now) }
{
    match values.get(place) {
        Some(value) => value.seen(),
        None => Seen::Null,
    }
}

fn number<'a>(value: Option<i64>) -> Result<Value<'a>, EvalFault>
    ensures exact { GivesUnless WantOfMemory value_view result (if_number value) }
{
    match value {
        Some(n) => Ok(Value::Whole(n)),
        None => Err(EvalFault::Arithmetic),
    }
}

// `<`: each value is less than the next.
fn rises(values: &[Value]) -> bool
    ensures { result ≡ is_chain is_less (map value_view values.now) }
{
    match values {
        [a, b, ..] => is_less(a.seen(), b.seen()) && rises(&values[1..]),
        _ => true,
    }
}

// `<=`: each value is at most the next.
fn never_falls(values: &[Value]) -> bool
    ensures { result ≡ is_chain is_at_most (map value_view values.now) }
{
    match values {
        [a, b, ..] => is_at_most(a.seen(), b.seen()) && never_falls(&values[1..]),
        _ => true,
    }
}

// The operators that only test their first two arguments.
fn test(operator: Operator, a: Seen, b: Seen) -> bool
    ensures { result ≡ test_of operator (seen_view a.entry) (seen_view b.entry) }
{
    match operator {
        Operator::Not => !is_true(a),
        Operator::Truth => is_true(a),
        Operator::Equal => is_equal(a, b),
        Operator::StrictEqual => is_same(a, b),
        Operator::NotEqual => !is_equal(a, b),
        Operator::StrictNotEqual => !is_same(a, b),
        Operator::Greater => is_less(b, a),
        Operator::GreaterOrEqual => is_at_most(b, a),
        Operator::In => is_in(a, b),
        Operator::StartsWith => starts_with(a, b),
        Operator::EndsWith => ends_with(a, b),
        _ => false,
    }
}
