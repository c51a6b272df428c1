//! Diagnostics of a plan that is not a right answer to a request.
ghost use Rattle.std.specs.Prelude.{IfOk, string_bytes};
ghost use Rattle.file_diagnostics.specs.Named.{Names};

use crate::place::Place;
use bucket_core::{Rule, total_weight};
use file_diagnostics::{Lines, Opening};
use flag_defs::Flags;
use plan_text::Planned;
use price_core::{Limit, PriceFault, Request};
use rollout::RequestFile;
use std::alloc::{AllocError, Global};
use transport_core::{Certificate, CheckFault};

/// Explains why the plan in a file is not a right answer to the request.
pub fn of_check(
    alloc: Global,
    path: &str,
    flags: &Flags,
    request: &RequestFile,
    planned: &Planned,
    fault: &CheckFault,
) -> Result<String, AllocError>
    ensures names { IfOk result (λ s. Names path.now (string_bytes s)) }
{
    let mut lines = Lines::new(alloc);
    write!(lines, " does not answer this request:\n  ");
    match planned {
        Planned::Emit(rule, certificate) => match request.asked() {
            Ok(asked) => {
                let place = Place::of(alloc, flags, asked);
                put_rule_fault(&mut lines, place, asked, rule, certificate, fault)?;
            }
            Err(_) => put_numbers_fault(&mut lines, certificate.cost, fault),
        },
        Planned::NoneExists(cut) => write!(
            lines,
            "its set of variants ({}) does not show that no rule fits\n  the rule of the site or the request is not the one that it was planned on",
            lines.listed(cut.names.as_slice()),
        ),
    }
    write!(
        lines,
        "\n  plan again with this document, request and book\n",
    );
    lines.headed(Opening::Plan, path)
}

/// What is wrong with a rule, or with the numbers beside it; and whether the rule of the site shows that it is not the one that
/// was planned on. What is of the rule alone, whatever the numbers beside it, `plan` prints never.
fn put_rule_fault(
    lines: &mut Lines,
    place: Place<'_>,
    asked: &Request,
    rule: &Rule,
    certificate: &Certificate,
    fault: &CheckFault,
) -> Result<(), AllocError> {
    let variants = place.variants()?;
    let entries = place.entries()?;
    match fault {
        CheckFault::Weight => write!(
            lines,
            "its rule has {} points and the rule of the site {} (with --refine M: M times as many)",
            rule.total(),
            total_weight(entries.as_slice()),
        ),
        CheckFault::Totals => put_totals(lines, asked, variants.as_slice(), rule)?,
        CheckFault::Forbidden(point) => put_forbidden(lines, entries.as_slice(), rule, *point),
        _ => put_numbers_fault(lines, certificate.cost, fault),
    }
    let groups = certificate.alpha.as_slice();
    if has_entries(rule, entries.as_slice()) {
        write!(
            lines,
            "\n  the site has the rule of this plan already: the document may have moved on",
        );
    } else if let Some(name) = moved(variants.as_slice(), entries.as_slice(), groups) {
        write!(
            lines,
            "\n  the document has moved on: {} has points in the rule of the site or in the one that was planned on, and not in both",
            lines.name(name),
        );
    } else if matches!(
        fault,
        CheckFault::Weight | CheckFault::Totals | CheckFault::Forbidden(_)
    ) {
        write!(
            lines,
            "\n  what 'plan' prints fits its request: the document or the request has moved on since",
        );
    }
    Ok(())
}

/// Whether a rule has just these entries.
fn has_entries(rule: &Rule, entries: &[(String, u64)]) -> bool {
    for ((name, weight), (other, points)) in rule.entries().zip(entries) {
        if name != other.as_str() || weight != *points {
            return false;
        }
    }
    rule.entries().len() == entries.len()
}

/// The first variant that has points in the entries and is of no group, or the other way round: so it is where the rule of the
/// site has other variants than the groups of the plan.
fn moved<'a>(
    variants: &'a [String],
    entries: &[(String, u64)],
    groups: &[(String, u32, i64)],
) -> Option<&'a str> {
    for variant in variants {
        let name = variant.as_str();
        let has_points = entries
            .iter()
            .any(|(entry, weight)| *weight > 0 && entry.as_str() == name);
        if has_points != groups.iter().any(|(group, _, _)| group.as_str() == name) {
            return Some(name);
        }
    }
    None
}

/// The first variant with fewer or more points than its limits.
fn put_totals(
    lines: &mut Lines,
    asked: &Request,
    variants: &[String],
    rule: &Rule,
) -> Result<(), AllocError> {
    match asked.totals(lines.alloc, variants) {
        Ok(totals) => put_passed_limit(lines, totals.entries(), rule),
        Err(PriceFault::WantOfMemory) => return Err(AllocError),
        Err(_) => write!(lines, "the request names what is not a variant"),
    }
    Ok(())
}

fn put_passed_limit(lines: &mut Lines, limits: &[Limit], rule: &Rule) {
    for limit in limits {
        let (name, low, high) = (limit.name.as_str(), limit.low, limit.high);
        let points = rule.total_of(name);
        if points < u64::from(low) || points > u64::from(high) {
            write!(
                lines,
                "{} has {points} points in its rule, and the request takes {low}",
                lines.name(name),
            );
            if low != high {
                write!(lines, " to {high}");
            }
            return;
        }
    }
    write!(lines, "its rule names what is not a variant of the flag");
}

/// The change at a point.
fn put_forbidden(lines: &mut Lines, entries: &[(String, u64)], rule: &Rule, point: u32) {
    let total = total_weight(entries);
    let factor = if total == 0 {
        1
    } else {
        u128::from(rule.total()) / total
    };
    write!(
        lines,
        "point {point} changes from {} to {}, which the request forbids",
        lines.name(name_at(entries, factor, point)),
        lines.name(variant_at(rule, point)),
    );
}

/// The name at a point of a rule.
fn variant_at(rule: &Rule, point: u32) -> &str {
    if point < rule.total() {
        rule.variant_at(point)
    } else {
        ""
    }
}

/// The name at a point of entries whose weights are taken so many times.
fn name_at(entries: &[(String, u64)], factor: u128, point: u32) -> &str {
    let mut end: u128 = 0;
    for (name, weight) in entries {
        end = end.saturating_add(u128::from(*weight).saturating_mul(factor));
        if u128::from(point) < end {
            return name.as_str();
        }
    }
    ""
}

/// What is wrong with the numbers of a certificate.
fn put_numbers_fault(lines: &mut Lines, cost: u64, fault: &CheckFault) {
    match fault {
        CheckFault::Slack(name, count, variant) => write!(
            lines,
            "its numbers for points of {} with {count} users and for {} sum above that change's cost",
            lines.name(name.as_str()),
            lines.name(variant.as_str()),
        ),
        CheckFault::Sum => write!(lines, "its numbers do not sum to its cost, {cost}"),
        CheckFault::Cost => write!(
            lines,
            "its rule does not cost the recorded users {cost}, as it says",
        ),
        CheckFault::Groups => write!(
            lines,
            "its numbers are for another book or rule: other groups of points, or other variants\n  the document or the book has moved on since it was planned",
        ),
        _ => write!(lines, "{fault}"),
    }
}
