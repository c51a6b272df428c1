//! The rows of a plan file, read one by one.
ghost use Rattle.std.specs.Prelude.{◌≡◌, ◌<◌, ◌^◌, IfSome, option_map};
ghost use Rattle.flag_text.specs.Outcome.{GivesUnless};
ghost use Rattle.flag_text.specs.Readers.{as_text};
ghost use Rattle.flag_text.specs.View.{view, items_view};
ghost use Rattle.bucket_core.specs.Rule.{entries_view, names_view};
ghost use Rattle.price_core.specs.Request.{number_below};
ghost use Rattle.transport_core.specs.Certificate.{alpha_view, beta_view};
ghost use Rattle.plan_text.specs.Misfit.{lent, lent_alpha};
ghost use Rattle.plan_text.specs.PlanFile.{each, alpha_of, alpha_parts, beta_of, beta_parts, entry_of, entry_parts, if_plan};

use crate::fault::PlanFileFault;
use bucket_core::weight_of;
use flag_text::Tree;
use std::alloc::Global;

const COUNTS: i64 = 1 << 32;

/// The number of each group, `[name, count, n]`.
pub(crate) fn read_alpha(
    alloc: Global,
    items: &[Tree],
) -> Result<Vec<(String, u32, i64)>, PlanFileFault>
    ensures { GivesUnless PlanFileFault.WantOfMemory (λ v. alpha_view v.items) result (if_plan (each alpha_of (items_view items.now))) }
{
    let mut alpha = Vec::with_capacity(alloc, items.len())?;
    for item in items {
        let Some((name, count, n)) = alpha_of(item) else {
            return Err(PlanFileFault::BadPlan);
        };
        alpha.push((String::from_str(alloc, name)?, count, n))?;
    }
    Ok(alpha)
}

/// The parts of `[name, count, n]`, the count of 32 bits.
pub(crate) fn alpha_of(item: &Tree) -> Option<(&str, u32, i64)>
    ensures { option_map lent_alpha result ≡ alpha_of (view item.now) }
{
    match item {
        Tree::List(parts) => alpha_parts(parts.as_slice()),
        _ => None,
    }
}

fn alpha_parts(parts: &[Tree]) -> Option<(&str, u32, i64)>
    ensures { option_map lent_alpha result ≡ alpha_parts (items_view parts.now) }
{
    match parts {
        [] => None,
        [_] => None,
        [_, _] => None,
        [name, count, n] => Some((name.as_text()?, count_of(count)?, n.as_whole()?)),
        [_, _, _, _, ..] => None,
    }
}

fn count_of(tree: &Tree) -> Option<u32>
    ensures { result ≡ number_below (2 ^ 32) (view tree.now) }
{
    match tree {
        Tree::Whole(count) if 0 <= *count && *count < COUNTS => Some(*count as u32),
        _ => None,
    }
}

/// The number of each name, `[name, n]`.
pub(crate) fn read_beta(alloc: Global, items: &[Tree]) -> Result<Vec<(String, i64)>, PlanFileFault>
    ensures { GivesUnless PlanFileFault.WantOfMemory (λ v. beta_view v.items) result (if_plan (each beta_of (items_view items.now))) }
{
    let mut beta = Vec::with_capacity(alloc, items.len())?;
    for item in items {
        let Some((name, n)) = beta_of(item) else {
            return Err(PlanFileFault::BadPlan);
        };
        beta.push((String::from_str(alloc, name)?, n))?;
    }
    Ok(beta)
}

/// The parts of `[name, n]`.
pub(crate) fn beta_of(item: &Tree) -> Option<(&str, i64)>
    ensures { option_map lent result ≡ beta_of (view item.now) }
{
    match item {
        Tree::List(parts) => beta_parts(parts.as_slice()),
        _ => None,
    }
}

fn beta_parts(parts: &[Tree]) -> Option<(&str, i64)>
    ensures { option_map lent result ≡ beta_parts (items_view parts.now) }
{
    match parts {
        [] => None,
        [_] => None,
        [name, n] => Some((name.as_text()?, n.as_whole()?)),
        [_, _, _, ..] => None,
    }
}

/// The entries of a rule, `[name, weight]`.
pub(crate) fn read_entries(
    alloc: Global,
    items: &[Tree],
) -> Result<Vec<(String, u64)>, PlanFileFault>
    ensures { GivesUnless PlanFileFault.WantOfMemory (λ v. entries_view v.items) result (if_plan (each entry_of (items_view items.now))) }
{
    let mut entries = Vec::with_capacity(alloc, items.len())?;
    for item in items {
        let Some((name, weight)) = entry_of(item) else {
            return Err(PlanFileFault::BadPlan);
        };
        entries.push((String::from_str(alloc, name)?, weight))?;
    }
    Ok(entries)
}

/// The parts of `[name, weight]`.
pub(crate) fn entry_of(item: &Tree) -> Option<(&str, u64)>
    ensures value { option_map lent result ≡ entry_of (view item.now) }
    ensures small { IfSome result (λ e. e.1 < 2 ^ 31) }
{
    match item {
        Tree::List(parts) => entry_parts(parts.as_slice()),
        _ => None,
    }
}

fn entry_parts(parts: &[Tree]) -> Option<(&str, u64)>
    ensures value { option_map lent result ≡ entry_parts (items_view parts.now) }
    ensures small { IfSome result (λ e. e.1 < 2 ^ 31) }
{
    match parts {
        [] => None,
        [_] => None,
        [name, weight] => Some((name.as_text()?, weight_of(weight)?)),
        [_, _, _, ..] => None,
    }
}

/// The names of a set.
pub(crate) fn read_names(alloc: Global, items: &[Tree]) -> Result<Vec<String>, PlanFileFault>
    ensures { GivesUnless PlanFileFault.WantOfMemory (λ v. names_view v.items) result (if_plan (each as_text (items_view items.now))) }
{
    let mut names = Vec::with_capacity(alloc, items.len())?;
    for item in items {
        let Some(name) = item.as_text() else {
            return Err(PlanFileFault::BadPlan);
        };
        names.push(String::from_str(alloc, name)?)?;
    }
    Ok(names)
}
