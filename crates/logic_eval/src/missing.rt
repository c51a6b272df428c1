//! `missing` and `missing_some`.
ghost use Rattle.std.specs.Prelude.{◌≡◌, IfOk, map};
ghost use Rattle.flag_text.specs.Outcome.{GivesUnless};
ghost use Rattle.flag_text.specs.Shape.{list};
ghost use Rattle.flag_text.specs.View.{view, items_of};
ghost use Rattle.logic_values.specs.declared.fault.EvalFault.TheVariants.{WantOfMemory};
ghost use Rattle.logic_eval.specs.Scope.{is_blank, is_missing, missing, missing_some, missing_unless, found_count};
ghost use Rattle.logic_values.specs.Views.{seen_view, value_view};
ghost use Rattle.logic_eval.specs.Views.{scope_view};
ghost use Rattle.std.specs.Prelude.{filter, Some, int_lt, pos};

use crate::find::{Found, find};
use crate::scope::Scope;
use flag_text::Tree;
use logic_values::number::number_of;
use logic_values::{EvalFault, Seen, Value, copy, seen_tree};
use std::alloc::{AllocError, Global};

// Null and the empty text count as missing.
fn is_blank(value: Seen) -> bool
    ensures { result ≡ is_blank (Some (seen_view value.entry)) }
{
    match value {
        Seen::Null => true,
        Seen::Text(text) => text.is_empty(),
        _ => false,
    }
}

// Whether nothing is found under the name, or null or the empty text.
fn is_missing(alloc: Global, scope: Scope, name: Seen) -> Result<bool, AllocError>
    ensures { IfOk result (λ b. b ≡ is_missing (scope_view scope.entry) (seen_view name.entry)) }
{
    match find(alloc, scope, name)? {
        None => Ok(true),
        Some(Found::Part(place)) => Ok(is_blank(place.seen())),
        Some(Found::Whole) => match scope {
            Scope::Item(value) => Ok(is_blank(value.seen())),
            _ => Ok(false),
        },
    }
}

/// `missing`: the names under which nothing is found.
pub(crate) fn missing<'a>(
    alloc: Global,
    scope: Scope,
    values: &[Value<'a>],
) -> Result<Vec<Value<'a>>, AllocError>
    ensures { IfOk result (λ v. map value_view v.items ≡ missing (scope_view scope.entry) (map value_view values.now)) }
{
    match values {
        [] => Ok(Vec::new(alloc)),
        [first, ..] => match first.seen() {
            Seen::Trees(names) => missing_trees(alloc, scope, names),
            Seen::Values(names) => missing_values(alloc, scope, names),
            _ => missing_values(alloc, scope, values),
        },
    }
}

fn missing_trees<'a>(
    alloc: Global,
    scope: Scope,
    names: &'a [Tree],
) -> Result<Vec<Value<'a>>, AllocError>
    ensures { IfOk result (λ v. map value_view v.items ≡ filter (is_missing (scope_view scope.entry)) (map view names.now)) }
{
    let mut found = Vec::new(alloc);
    for name in names {
        if is_missing(alloc, scope, seen_tree(name))? {
            found.push(Value::Lent(name))?;
        }
    }
    Ok(found)
}

fn missing_values<'a>(
    alloc: Global,
    scope: Scope,
    names: &[Value<'a>],
) -> Result<Vec<Value<'a>>, AllocError>
    ensures { IfOk result (λ v. map value_view v.items ≡ filter (is_missing (scope_view scope.entry)) (map value_view names.now)) }
{
    let mut found = Vec::new(alloc);
    for name in names {
        if is_missing(alloc, scope, name.seen())? {
            found.push(copy(alloc, name)?)?;
        }
    }
    Ok(found)
}

// How many of the names find something.
fn count_in_trees(alloc: Global, scope: Scope, names: &[Tree]) -> Result<usize, AllocError>
    ensures { IfOk result (λ n. n ≡ found_count (scope_view scope.entry) (map view names.now)) }
{
    let mut found = 0;
    for name in names {
        if !is_missing(alloc, scope, seen_tree(name))? {
            found += 1;
        }
    }
    Ok(found)
}

fn count_in_values(alloc: Global, scope: Scope, names: &[Value]) -> Result<usize, AllocError>
    ensures { IfOk result (λ n. n ≡ found_count (scope_view scope.entry) (map value_view names.now)) }
{
    let mut found = 0;
    for name in names {
        if !is_missing(alloc, scope, name.seen())? {
            found += 1;
        }
    }
    Ok(found)
}

fn is_fewer(found: usize, least: i64) -> bool
    ensures { result ≡ int_lt (pos found) least }
{
    least > 0 && found < least as usize
}

/// `missing_some`: the missing names where fewer than so many are found, else none.
pub(crate) fn missing_some<'a>(
    alloc: Global,
    scope: Scope,
    least: Seen,
    names: Seen<'_, 'a>,
) -> Result<Vec<Value<'a>>, EvalFault>
    ensures exact { GivesUnless WantOfMemory (λ v. list (items_of (map value_view v.items))) result (missing_some (scope_view scope.entry) (seen_view least.entry) (seen_view names.entry)) }
{
    let Some(least) = number_of(least) else {
        return Err(EvalFault::Arithmetic);
    };
    match names {
        Seen::Trees(names) => missing_some_trees(alloc, scope, least, names),
        Seen::Values(names) => missing_some_values(alloc, scope, least, names),
        _ => missing_some_values(alloc, scope, least, &[]),
    }
}

fn missing_some_trees<'a>(
    alloc: Global,
    scope: Scope,
    least: i64,
    names: &'a [Tree],
) -> Result<Vec<Value<'a>>, EvalFault>
    ensures exact { GivesUnless WantOfMemory (λ v. list (items_of (map value_view v.items))) result (missing_unless (scope_view scope.entry) (Some least) (map view names.now)) }
{
    let found = count_in_trees(alloc, scope, names)?;
    if is_fewer(found, least) {
        Ok(missing_trees(alloc, scope, names)?)
    } else {
        Ok(Vec::new(alloc))
    }
}

fn missing_some_values<'a>(
    alloc: Global,
    scope: Scope,
    least: i64,
    names: &[Value<'a>],
) -> Result<Vec<Value<'a>>, EvalFault>
    ensures exact { GivesUnless WantOfMemory (λ v. list (items_of (map value_view v.items))) result (missing_unless (scope_view scope.entry) (Some least) (map value_view names.now)) }
{
    let found = count_in_values(alloc, scope, names)?;
    if is_fewer(found, least) {
        Ok(missing_values(alloc, scope, names)?)
    } else {
        Ok(Vec::new(alloc))
    }
}
