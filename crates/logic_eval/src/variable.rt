//! `var`, and the whole scope as a value.
ghost use Rattle.std.specs.Prelude.{◌≡◌, IfOk, map};
ghost use Rattle.logic_eval.specs.Budget.{Follows};
ghost use Rattle.logic_eval.specs.Operators.{found, found_decimal, found_whole, is_unreadable};
ghost use Rattle.logic_eval.specs.Scope.{variable};
ghost use Rattle.logic_eval.specs.Views.{progress, scope_view, source_view};
ghost use Rattle.logic_values.specs.Views.{value_view};

use crate::find::{Found, Place, find};
use crate::meter::{Meter, pay_for_place, pay_for_scope, pay_for_value};
use crate::other::has_other;
use crate::scope::Scope;
use logic_values::{EvalFault, Value, copy, fold, is_readable};
use smallvec::SmallVec;
use std::alloc::{AllocError, Global};

/// What `var` gives, before it is paid for.
#[derive(Drop)]
pub(crate) enum Source<'s, 'a> {
    /// The whole scope.
    Whole,
    /// What its path finds.
    Part(Place<'s, 'a>),
    /// Its second argument, or null.
    Default(Value<'a>),
}

// The whole scope as a value.
fn whole<'a>(alloc: Global, scope: Scope<'_, 'a>) -> Result<Value<'a>, AllocError>
    ensures { IfOk result (λ v. value_view v ≡ scope_view scope.entry) }
{
    match scope {
        Scope::Root(root) => Ok(Value::Context(root)),
        Scope::Item(value) => copy(alloc, value),
        Scope::Fold(so_far, current) => {
            let so_far = copy(alloc, so_far)?;
            let current = copy(alloc, current)?;
            fold(alloc, so_far, current)
        }
    }
}

// What `var` gives: what its path finds, else its second argument, or null.
fn source_of<'s, 'a>(
    alloc: Global,
    scope: Scope<'s, 'a>,
    values: SmallVec<Value<'a>, 3>,
) -> Result<Source<'s, 'a>, AllocError>
    ensures { IfOk result (λ l. source_view (scope_view scope.entry) l ≡ variable (scope_view scope.entry) (map value_view values.entry.items)) }
{
    let mut values = values;
    if values.is_empty() {
        return Ok(Source::Whole);
    }
    match find(alloc, scope, values[0].seen())? {
        Some(Found::Whole) => Ok(Source::Whole),
        Some(Found::Part(place)) => Ok(Source::Part(place)),
        None => {
            if values.len() > 1 {
                Ok(Source::Default(values.remove(1)))
            } else {
                Ok(Source::Default(Value::Null))
            }
        }
    }
}

/// `var`: no path is the whole scope; where nothing is found, the second argument, or null. A number that is not whole, which the
/// context may have, can't be read: `Arithmetic` where one stands in what is given.
pub(crate) fn variable<'a>(
    meter: &mut Meter,
    scope: Scope<'_, 'a>,
    values: SmallVec<Value<'a>, 3>,
) -> Result<Value<'a>, EvalFault>
    ensures exact { Follows value_view (progress meter.old) (progress meter.new) result (found_whole (variable (scope_view scope.entry) (map value_view values.entry.items))) }
{
    let value = found(meter, scope, values)?;
    if has_other(&value) {
        return Err(EvalFault::Arithmetic);
    }
    Ok(value)
}

/// `var` where what it gives is compared or tested: there it may be a decimal itself, within the limits of exact numbers.
pub(crate) fn variable_or_decimal<'a>(
    meter: &mut Meter,
    scope: Scope<'_, 'a>,
    values: SmallVec<Value<'a>, 3>,
) -> Result<Value<'a>, EvalFault>
    ensures exact { Follows value_view (progress meter.old) (progress meter.new) result (found_decimal (variable (scope_view scope.entry) (map value_view values.entry.items))) }
{
    let value = found(meter, scope, values)?;
    if is_unreadable(&value) {
        return Err(EvalFault::Arithmetic);
    }
    Ok(value)
}

fn is_unreadable(value: &Value) -> bool
    ensures exact { result ≡ is_unreadable (value_view value.now) }
{
    has_other(value) && !is_readable(value.seen())
}

// What `var` gives, paid for before it is copied.
fn found<'a>(
    meter: &mut Meter,
    scope: Scope<'_, 'a>,
    values: SmallVec<Value<'a>, 3>,
) -> Result<Value<'a>, EvalFault>
    ensures exact { Follows value_view (progress meter.old) (progress meter.new) result (found (variable (scope_view scope.entry) (map value_view values.entry.items))) }
{
    let source = source_of(meter.alloc, scope, values)?;
    match source {
        Source::Whole => {
            pay_for_scope(meter, scope)?;
            Ok(whole(meter.alloc, scope)?)
        }
        Source::Part(place) => {
            pay_for_place(meter, place)?;
            Ok(place.value(meter.alloc)?)
        }
        Source::Default(value) => {
            pay_for_value(meter, &value)?;
            Ok(value)
        }
    }
}
