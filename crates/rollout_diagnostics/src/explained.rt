//! The answer to a request in words: what its rule changes, or what stands in the way of any.
ghost use Rattle.std.specs.Prelude.{IfOk, string_bytes};
ghost use Rattle.file_diagnostics.specs.Named.{Names};

use crate::place::Place;
use crate::sites::is_among;
use bucket_core::{Rule, RuleFault};
use file_diagnostics::{Lines, Opening};
use flag_defs::Flags;
use plan_text::Planned;
use price_core::{Limit, PriceFault, Prices, Request};
use rollout::RequestFile;
use std::alloc::{AllocError, Global};
use transport_core::{Cut, CutKind};

/// The most variants whose points are shown.
const MOST_VARIANTS: usize = 10;

/// Of the answer to a request over a document, on the site's rule refined by a factor, and of the number of recorded inputs
/// at each point of that rule.
pub fn of_planned(
    alloc: Global,
    path: &str,
    flags: &Flags,
    request: &RequestFile,
    factor: u32,
    counts: &[u32],
    planned: &Planned,
) -> Result<String, AllocError>
    ensures names { IfOk result (λ s. Names path.now (string_bytes s)) }
{
    let mut lines = Lines::new(alloc);
    write!(lines, ": ");
    match request.asked() {
        Ok(asked) => {
            let place = Place::of(alloc, flags, asked);
            match place.rule(factor) {
                Ok(old) => put_planned(&mut lines, place, asked, &old, counts, planned)?,
                Err(RuleFault::WantOfMemory) => return Err(AllocError),
                Err(fault) => write!(lines, "{fault}"),
            }
        }
        Err(fault) => write!(lines, "{fault}"),
    }
    write!(lines, "\n");
    lines.headed(Opening::Note, path)
}

fn put_planned(
    lines: &mut Lines,
    place: Place<'_>,
    asked: &Request,
    old: &Rule,
    counts: &[u32],
    planned: &Planned,
) -> Result<(), AllocError> {
    match planned {
        Planned::Emit(new, _) => {
            write!(
                lines,
                "switches {} of {} recorded users; no rule that fits costs less",
                switched(old, new, counts),
                sum(counts),
            );
            put_variants(lines, place.variants()?.as_slice(), old, new);
            Ok(())
        }
        Planned::NoneExists(cut) => put_blocked(lines, place, asked, old, cut),
    }
}

/// The points before and after of the first variants that get or lose some.
fn put_variants(lines: &mut Lines, variants: &[String], old: &Rule, new: &Rule) {
    let total = new.total();
    let mut shown = 0usize;
    for variant in variants {
        let name = variant.as_str();
        let (before, after) = (old.total_of(name), new.total_of(name));
        if before != after {
            if shown >= MOST_VARIANTS {
                return write!(lines, "\n  and more variants");
            }
            shown = shown.saturating_add(1);
            write!(
                lines,
                "\n  {} goes from {before} to {after} of {total} points",
                lines.name(name),
            );
        }
    }
}

fn sum(counts: &[u32]) -> u128 {
    let mut all: u128 = 0;
    for count in counts {
        all = all.saturating_add(u128::from(*count));
    }
    all
}

/// How many of the inputs at the points get another variant by the new rule than by the old one.
fn switched(old: &Rule, new: &Rule, counts: &[u32]) -> u128 {
    let mut users: u128 = 0;
    for point in 0..old.total().min(new.total()) {
        if old.variant_at(point) != new.variant_at(point) {
            let count = counts.get(point as usize).copied().unwrap_or(0);
            users = users.saturating_add(u128::from(count));
        }
    }
    users
}

/// The set of variants that shows that no rule fits, where the site has this rule.
fn put_blocked(
    lines: &mut Lines,
    place: Place<'_>,
    asked: &Request,
    old: &Rule,
    cut: &Cut,
) -> Result<(), AllocError> {
    write!(lines, "no rule fits\n  ");
    let variants = place.variants()?;
    let variants = variants.as_slice();
    match asked.totals(lines.alloc, variants) {
        Ok(totals) => {
            let open = side(lines.alloc, variants, asked.prices(), cut, true)?;
            let closed = side(lines.alloc, variants, asked.prices(), cut, false)?;
            let limits = totals.entries();
            put_cut(lines, old, limits, cut, open.as_slice(), closed.as_slice());
        }
        Err(PriceFault::WantOfMemory) => return Err(AllocError),
        Err(fault) => write!(lines, "{fault}"),
    }
    Ok(())
}

/// More points have the variants of the set than may be kept or moved (Over), or fewer have or may take them than are asked for
/// (Under); and what would have to be asked for, or the changes that would have to be allowed in place of it.
fn put_cut(
    lines: &mut Lines,
    old: &Rule,
    limits: &[Limit],
    cut: &Cut,
    open: &[String],
    closed: &[String],
) {
    let set = cut.names.as_slice();
    let (names, others) = (lines.listed(set), lines.listed(open));
    let (points, way) = match cut.kind {
        CutKind::Over => {
            let points = points_of(old, set);
            let (_, most) = limits_of(limits, open);
            let excess = points.saturating_sub(most);
            write!(
                lines,
                "{points} points have {names}; they may only become {others}, of which at most {most} are asked for\n  ask for {excess} more of those",
            );
            (excess, "to")
        }
        CutKind::Under => {
            let points = points_of(old, open);
            let (least, _) = limits_of(limits, set);
            let lack = least.saturating_sub(points);
            write!(
                lines,
                "at least {least} points are asked for of {names}; only {others} may become that, which have {points}\n  ask for {lack} less of those",
            );
            (lack, "from")
        }
    };
    if !closed.is_empty() {
        write!(
            lines,
            ", or let {points} points change {way} {}, which \"forbid\" keeps them from",
            lines.listed(closed),
        );
    }
}

/// The variants that some of the set may be changed to (Over), or that may be changed to some of the set (Under), with those
/// of the set; or the others.
fn side(
    alloc: Global,
    variants: &[String],
    prices: &Prices,
    cut: &Cut,
    is_open: bool,
) -> Result<Vec<String>, AllocError> {
    let mut side = Vec::new(alloc);
    for variant in variants {
        let allows = cut.names.iter().any(|name| match cut.kind {
            CutKind::Over => !prices.forbidden(name.as_str(), variant.as_str()),
            CutKind::Under => !prices.forbidden(variant.as_str(), name.as_str()),
        });
        if allows == is_open {
            side.push(variant.clone()?)?;
        }
    }
    Ok(side)
}

/// The points of the names in a rule.
fn points_of(rule: &Rule, names: &[String]) -> u128 {
    let mut points: u128 = 0;
    for name in names {
        points = points.saturating_add(u128::from(rule.total_of(name.as_str())));
    }
    points
}

/// The sums of the low and of the high limits of the names.
fn limits_of(limits: &[Limit], names: &[String]) -> (u128, u128) {
    let (mut low, mut high) = (0u128, 0u128);
    for limit in limits {
        if is_among(names, limit.name.as_str()) {
            low = low.saturating_add(u128::from(limit.low));
            high = high.saturating_add(u128::from(limit.high));
        }
    }
    (low, high)
}
