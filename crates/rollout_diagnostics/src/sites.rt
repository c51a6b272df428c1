//! Diagnostics of a rollout that is refused: the flag, the site, the names or the sums.
ghost use Rattle.std.specs.Prelude.{IfOk, string_bytes};
ghost use Rattle.file_diagnostics.specs.Named.{Names};

use crate::computed::put_computed;
use crate::place::Place;
use crate::requests::{of_request_file, pairs, totals};
use bucket_core::Rule;
use file_diagnostics::{Lines, Opening};
use flag_defs::Flags;
use flag_text::Tree;
use logic_ast::sites;
use price_core::{PriceFault, Request};
use rollout::{RequestFile, RolloutFault};
use std::alloc::{AllocError, Global};

/// Explains why a request is refused over the flags of a document, where the rule of its site is refined by a factor.
pub fn of_rollout(
    alloc: Global,
    path: &str,
    flags: &Flags,
    request: &RequestFile,
    factor: u32,
    fault: RolloutFault,
) -> Result<String, AllocError>
    ensures names { IfOk result (λ s. Names path.now (string_bytes s)) }
{
    if let RolloutFault::Request(fault) = fault {
        return of_request_file(alloc, path, request, fault);
    }
    let mut lines = Lines::new(alloc);
    write!(lines, ": ");
    match request.asked() {
        Ok(asked) => {
            let place = Place::of(alloc, flags, asked);
            match fault {
                RolloutFault::UnknownVariant => put_unknown_asked(&mut lines, place, request)?,
                RolloutFault::TotalsSum => put_sums(&mut lines, place, asked, factor)?,
                _ => put_place(&mut lines, place, fault),
            }
        }
        Err(_) => write!(lines, "{fault}"),
    }
    write!(lines, "\n");
    lines.headed(Opening::Request, path)
}

/// Explains why a rule can't be put at a site.
pub fn of_applied(
    alloc: Global,
    path: &str,
    flags: &Flags,
    key: &str,
    number: u32,
    rule: &Rule,
    fault: RolloutFault,
) -> Result<String, AllocError>
    ensures names { IfOk result (λ s. Names path.now (string_bytes s)) }
{
    let place = Place {
        alloc,
        flags,
        key,
        number,
    };
    let mut lines = Lines::new(alloc);
    write!(lines, ": ");
    if fault == RolloutFault::UnknownVariant && flags.get(key).is_some() {
        put_unknown_in(&mut lines, place, rule)?;
        write!(lines, "\n  it may be a plan for another flag");
    } else {
        put_place(&mut lines, place, fault);
    }
    write!(lines, "\n");
    lines.headed(Opening::Plan, path)
}

/// What is wrong with a flag or its site.
fn put_place(lines: &mut Lines, place: Place<'_>, fault: RolloutFault) {
    match fault {
        RolloutFault::UnknownFlag => write!(
            lines,
            "the document has no flag {}\n  known flags: {}",
            lines.name(place.key),
            lines.listed(place.flags),
        ),
        RolloutFault::NoSite => put_no_site(lines, place),
        RolloutFault::Computed => put_computed(lines, place),
        RolloutFault::TotalTooLarge => write!(
            lines,
            "{place}: {fault}\n  divide the weights by a common factor, or take a smaller --refine; at most 1,000,000 points",
        ),
        RolloutFault::NoWeight => {
            write!(
                lines,
                "{place}: {fault}\n  give one bucket a weight above 0"
            );
        }
        _ => write!(lines, "{fault}"),
    }
}

/// Why a flag has no site of a number.
fn put_no_site(lines: &mut Lines, place: Place<'_>) {
    let key = lines.name(place.key);
    let number = place.number;
    let Some(flag) = place.flags.get(place.key) else {
        return write!(lines, "the document has no flag {key}");
    };
    if flag.is_broken() {
        return write!(
            lines,
            "the flag {key} is broken\n  \"flagops check\" says why"
        );
    }
    let count = match flag.targeting() {
        Some(targeting) => sites(targeting),
        None => 0,
    };
    write!(
        lines,
        "the flag {key} has no site {number}\n  its targeting has {count} \"fractional\", counted from 0 in the order in which they stand",
    );
}

/// The first name of a request that is no variant, or that the rule of the site names another.
fn put_unknown_asked(
    lines: &mut Lines,
    place: Place<'_>,
    request: &RequestFile,
) -> Result<(), AllocError> {
    if place.flags.get(place.key).is_none() {
        write!(lines, "the document has no such flag");
        return Ok(());
    }
    match request.tree() {
        Ok(tree) => put_unknown(lines, place, tree, place.entries()?.as_slice())?,
        Err(_) => write!(lines, "a name is not one of the variants"),
    }
    Ok(())
}

/// The first name in the tree of a request, or of the entries, that is none of the flag's variants.
fn put_unknown(
    lines: &mut Lines,
    place: Place<'_>,
    tree: &Tree,
    entries: &[(String, u64)],
) -> Result<(), AllocError> {
    let variants = place.variants()?;
    let name = unknown_name(variants.as_slice(), tree, entries);
    put_no_variant(lines, place.key, variants.as_slice(), name);
    Ok(())
}

/// The first name of a rule that is none of the flag's variants.
fn put_unknown_in(lines: &mut Lines, place: Place<'_>, rule: &Rule) -> Result<(), AllocError> {
    let variants = place.variants()?;
    let mut unknown = None;
    for (name, _) in rule.entries() {
        if !is_among(variants.as_slice(), name) {
            unknown = Some(name);
            break;
        }
    }
    put_no_variant(lines, place.key, variants.as_slice(), unknown);
    Ok(())
}

/// That a name is none of the variants of the flag of a key, which are listed.
fn put_no_variant(lines: &mut Lines, key: &str, variants: &[String], name: Option<&str>) {
    match name {
        Some(name) => write!(lines, "{}", lines.name(name)),
        None => write!(lines, "a name"),
    }
    write!(
        lines,
        " is not a variant of {}\n  known variants: {}",
        lines.name(key),
        lines.listed(variants),
    );
}

fn unknown_name<'a>(
    variants: &[String],
    tree: &'a Tree,
    entries: &'a [(String, u64)],
) -> Option<&'a str> {
    if let Some(name) = unknown_key(variants, totals(tree)) {
        return Some(name);
    }
    for list in ["prices", "forbid"] {
        for item in pairs(tree, list) {
            if let Some(name) = unknown_text(variants, item) {
                return Some(name);
            }
        }
    }
    unknown_key(variants, entries)
}

/// The first of the names of things that is no variant.
fn unknown_key<'a, T>(variants: &[String], named: &'a [(String, T)]) -> Option<&'a str> {
    for (name, _) in named {
        if !is_among(variants, name.as_str()) {
            return Some(name.as_str());
        }
    }
    None
}

/// The first text of a list that is no variant.
fn unknown_text<'a>(variants: &[String], list: &'a Tree) -> Option<&'a str> {
    for part in list.as_list()? {
        if let Tree::Text(name) = part {
            if !is_among(variants, name.as_str()) {
                return Some(name.as_str());
            }
        }
    }
    None
}

pub(crate) fn is_among(variants: &[String], name: &str) -> bool {
    variants.iter().any(|variant| variant.as_str() == name)
}

/// Both sums of the totals, and that of the rule's weights.
fn put_sums(
    lines: &mut Lines,
    place: Place<'_>,
    asked: &Request,
    factor: u32,
) -> Result<(), AllocError> {
    let (low, high) = match asked.totals(lines.alloc, place.variants()?.as_slice()) {
        Ok(totals) => (totals.low_sum(), totals.high_sum()),
        Err(PriceFault::WantOfMemory) => return Err(AllocError),
        Err(_) => (0, 0),
    };
    write!(lines, "the totals sum to {low}");
    if low != high {
        write!(lines, " at least and {high} at most");
    }
    let total = place.total()?.saturating_mul(u128::from(factor));
    // `verify` without a factor takes the one of the plan's rule
    if low <= total && total <= high {
        write!(
            lines,
            ",\n  and the rule of the plan has a multiple of the {total} points at {place}\n  it was planned with --refine, for a request with totals as many times as large",
        );
    } else {
        write!(
            lines,
            ",\n  and the rule at {place} has {total} points (a variant that is not named gets none)",
        );
        put_times(lines, low, high, total, u128::from(factor.max(1)));
    }
    Ok(())
}

/// By how much to multiply the totals, or which factor to plan with, where one of the sums is a multiple of the other.
fn put_times(lines: &mut Lines, low: u128, high: u128, total: u128, factor: u128) {
    if low != high {
        return;
    }
    if let Some(times) = times_as_many(low, total) {
        write!(
            lines,
            "\n  that is {times} times as many: multiply each total by {times}",
        );
    } else if let Some(times) = times_as_many(total, low) {
        write!(
            lines,
            "\n  the totals are of {times} times as many: give --refine {}, or divide each total by {times}",
            times.saturating_mul(factor),
        );
    }
}

/// How many times a number of points goes into a larger one, where nothing is left over.
fn times_as_many(points: u128, others: u128) -> Option<u128> {
    if points == 0 || others % points != 0 {
        return None;
    }
    let times = others / points;
    if times > 1 { Some(times) } else { None }
}
