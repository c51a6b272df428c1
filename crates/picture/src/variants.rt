//! The list of the variants.
ghost use Rattle.std.specs.Prelude.{◌≡◌, ◌++◌, [], IfOk, OnOk};
ghost use Rattle.std.specs.Map.{lookup};
ghost use Rattle.std.specs.Str.{bytes_eq};
ghost use Rattle.bucket_core.specs.Rule.{total_of};
ghost use Rattle.price_core.specs.Limits.{limit_view, limits_view};
ghost use Rattle.transport_core.specs.Certificate.{beta_view};
ghost use Rattle.picture.specs.Changes.{dual_told, totals_told, variant_end, variant_told, variants_end, variants_told};
ghost use Rattle.picture.specs.Told.{foot, rows_told, told};

use crate::change::Change;
use crate::element::{Content, Element, Place, add};
use crate::rows::{NAMES, ROW, add_headings, number_at, size_for, swatch};
use crate::words::{Style, Word};
use price_core::Limit;
use std::alloc::AllocError;

const HEADINGS: &[(Style, u64, Word)] = &[
    (Style::Heading, NAMES, Word::Variant),
    (Style::Value, 600, Word::Before),
    (Style::Value, 720, Word::After),
    (Style::Value, 860, Word::AtLeast),
    (Style::Value, 990, Word::AtMost),
    (Style::Value, 1160, Word::DualPrice),
];

/// Adds the head of the list and a row for each variant, from a height on, and gives the height below.
pub(crate) fn add_variants<'a>(
    elements: &mut Vec<Element<'a>>,
    change: &Change<'a>,
    limits: &'a [Limit],
    y: u64,
) -> Result<u64, AllocError>
    ensures told { OnOk result (told elements.new.items ≡ told elements.old.items
        ++ variants_told change.now.old.now change.now.new.now (limits_view limits.entry.now) (beta_view change.now.certificate.now.beta.items) y) }
    ensures below { IfOk result (λ end. end ≡ variants_end (limits_view limits.entry.now) y) }
{
    add_headings(elements, HEADINGS, y)?;
    let below = add_rows(elements, change, limits, y.saturating_add(ROW))?;
    Ok(below.saturating_add(ROW))
}

/// Adds a row for each variant, from a height on, and gives the height below.
fn add_rows<'a>(
    elements: &mut Vec<Element<'a>>,
    change: &Change<'a>,
    limits: &'a [Limit],
    y: u64,
) -> Result<u64, AllocError>
    ensures told { OnOk result (told elements.new.items ≡ told elements.old.items
        ++ rows_told (variant_told (limits_view limits.entry.now) change.now.old.now change.now.new.now (beta_view change.now.certificate.now.beta.items)) variant_end y (limits_view limits.entry.now)) }
    ensures below { IfOk result (λ end. end ≡ foot variant_end y (limits_view limits.entry.now)) }
{
    let mut row = y;
    for limit in limits {
        row = add_variant(elements, change, limits, limit, row)?;
    }
    Ok(row)
}

/// Adds the row of a variant at a height, and gives the height below. A long name has a line of its own.
fn add_variant<'a>(
    elements: &mut Vec<Element<'a>>,
    change: &Change<'a>,
    limits: &[Limit],
    limit: &'a Limit,
    y: u64,
) -> Result<u64, AllocError>
    ensures told { OnOk result (told elements.new.items ≡ told elements.old.items
        ++ variant_told (limits_view limits.entry.now) change.now.old.now change.now.new.now (beta_view change.now.certificate.now.beta.items) y (limit_view limit.entry.now)) }
    ensures below { IfOk result (λ end. end ≡ variant_end y (limit_view limit.entry.now)) }
{
    let name = limit.name.as_str();
    let below = if name.len() > 26 {
        y.saturating_add(ROW)
    } else {
        y
    };
    add_totals(elements, change, limits, limit, y, below)?;
    let dual = dual_of(change.certificate.beta.as_slice(), name);
    add_dual(elements, dual, below)?;
    Ok(below.saturating_add(ROW))
}

/// Adds the name of a variant at a height, and its points and limits at another.
fn add_totals<'a>(
    elements: &mut Vec<Element<'a>>,
    change: &Change<'a>,
    limits: &[Limit],
    limit: &'a Limit,
    y: u64,
    below: u64,
) -> Result<(), AllocError>
    ensures { OnOk result (told elements.new.items ≡ told elements.old.items ++ totals_told (limits_view limits.entry.now) change.now.old.now change.now.new.now y below (limit_view limit.entry.now)) }
{
    let name = limit.name.as_str();
    let width = if y < below { 1060 } else { 440 };
    add(
        elements,
        &[
            Element::Piece(swatch(limits, name, y)),
            Element::Name(Place { x: NAMES, y }, size_for(name, width), name),
            number_at(600, below, change.old.total_of(name)),
            number_at(720, below, change.new.total_of(name)),
            number_at(860, below, u64::from(limit.low)),
            number_at(990, below, u64::from(limit.high)),
        ],
    )
}

/// Adds a dual price at a height, if there is one.
fn add_dual(elements: &mut Vec<Element<'_>>, dual: Option<i64>, y: u64) -> Result<(), AllocError>
    ensures { OnOk result (told elements.new.items ≡ told elements.old.items ++ dual_told y dual) }
{
    match dual {
        Some(dual) => add(
            elements,
            &[Element::Text(Style::Value, Place { x: 1160, y }, Content::Signed(dual))],
        ),
        None => add(elements, &[]),
    }
}

/// The dual price of a name, if it has one.
fn dual_of(duals: &[(String, i64)], name: &str) -> Option<i64>
    ensures { result ≡ lookup (bytes_eq name.now) (beta_view duals.now) }
{
    for (known, dual) in duals {
        if name == known.as_str() {
            return Some(*dual);
        }
    }
    None
}
