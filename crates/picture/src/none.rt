//! The picture of a set of variants which shows that no rule fits.
ghost use Rattle.std.specs.Prelude.{◌≡◌, ◌++◌, [], IfOk, OnErr, OnOk, string_bytes};
ghost use Rattle.bucket_core.specs.Rule.{names_view, total_weight};
ghost use Rattle.price_core.specs.Limits.{limit_view, limits_view};
ghost use Rattle.picture.specs.Deficits.{bar_end, limit_end, limit_told, limits_end, limits_told, none_head_told, none_height, none_told, set_end, set_told};
ghost use Rattle.picture.specs.Spelling.{Adds};
ghost use Rattle.picture.specs.Told.{bar_told, down, foot, named_told, rows_told, told};

use crate::bars::{BAR, LEFT, add_bar};
use crate::element::{Content, Element, Place, add};
use crate::print::place;
use crate::rows::{NAMES, ROW, add_headings, number_at, size_for, swatch};
use crate::words::{Style, Word};
use bucket_core::Rule;
use price_core::{Limit, Totals};
use std::alloc::{AllocError, Global};
use transport_core::{Cut, CutKind};

/// What is drawn where no rule fits.
#[derive(Clone, Copy)]
pub struct Deficit<'a> {
    /// The rule of the site.
    pub old: &'a Rule,
    /// The limits on the totals of the variants.
    pub totals: &'a Totals,
    /// The set that shows it.
    pub cut: &'a Cut,
}

/// Adds the picture of a set which shows that no rule fits to those of a page, so far below its top, and gives how far below it
/// the picture ends. Where memory runs out the pictures are as they were.
#[tactic(auto, unfolding(crate::specs::Spelling::Adds, crate::specs::Deficits::none_told, crate::specs::Deficits::none_height))]
pub fn draw_none(
    alloc: Global,
    pictures: &mut String,
    y: u64,
    deficit: &Deficit<'_>,
) -> Result<u64, AllocError>
    ensures adds { OnOk result (Adds y (none_told deficit.now.old.now deficit.now.totals.now deficit.now.cut.now.kind (names_view deficit.now.cut.now.names.items)) (string_bytes pictures.old) (string_bytes pictures.new)) }
    ensures below { IfOk result (λ end. end ≡ down y (none_height deficit.now.totals.now (names_view deficit.now.cut.now.names.items))) }
    ensures kept { OnErr result (string_bytes pictures.new ≡ string_bytes pictures.old) }
{
    let limits = deficit.totals.entries();
    let mut elements = Vec::new(alloc);
    add_head(&mut elements, deficit)?;
    let behind_set = add_set(&mut elements, deficit.cut.names.as_slice(), limits, 170)?;
    let behind_bar = add_rule(&mut elements, deficit.old, limits, behind_set)?;
    let height = add_limits(&mut elements, deficit.old, limits, behind_bar)?;
    place(alloc, pictures, y, elements.as_slice())?;
    Ok(y.saturating_add(height))
}

/// That no rule fits, and of which kind the set is.
fn add_head(elements: &mut Vec<Element<'_>>, deficit: &Deficit<'_>) -> Result<(), AllocError>
    ensures { OnOk result (told elements.new.items ≡ told elements.old.items ++ none_head_told deficit.now.cut.now.kind (total_weight deficit.now.old.now)) }
{
    let points = Content::Counted(Word::Points, u64::from(deficit.old.total()));
    let kind = match deficit.cut.kind {
        CutKind::Over => Word::Over,
        CutKind::Under => Word::Under,
    };
    add(
        elements,
        &[
            Element::Text(
                Style::Title,
                Place { x: LEFT, y: 66 },
                Content::Word(Word::NoRule),
            ),
            Element::Text(Style::Value, Place { x: 1160, y: 66 }, points),
            Element::Text(Style::Row, Place { x: LEFT, y: 114 }, Content::Word(kind)),
        ],
    )
}

/// Adds the names of the set, from a height on, and gives the height below.
fn add_set<'a>(
    elements: &mut Vec<Element<'a>>,
    names: &'a [String],
    limits: &[Limit],
    y: u64,
) -> Result<u64, AllocError>
    ensures told { OnOk result (told elements.new.items ≡ told elements.old.items ++ set_told (limits_view limits.entry.now) y (names_view names.entry.now)) }
    ensures below { IfOk result (λ end. end ≡ set_end y (names_view names.entry.now)) }
{
    let mut row = y;
    for name in names {
        add_named(elements, name.as_str(), limits, row)?;
        row = row.saturating_add(ROW);
    }
    Ok(row)
}

/// Adds a name with the look of its variant.
pub(crate) fn add_named<'a>(
    elements: &mut Vec<Element<'a>>,
    variant: &'a str,
    limits: &[Limit],
    y: u64,
) -> Result<(), AllocError>
    ensures { OnOk result (told elements.new.items ≡ told elements.old.items ++ named_told (limits_view limits.entry.now) y variant.now) }
{
    add(
        elements,
        &[
            Element::Piece(swatch(limits, variant, y)),
            Element::Name(Place { x: NAMES, y }, size_for(variant, 1060), variant),
        ],
    )
}

/// Adds the bar of the rule, from a height on, and gives the height below.
fn add_rule<'a>(
    elements: &mut Vec<Element<'a>>,
    rule: &'a Rule,
    limits: &[Limit],
    y: u64,
) -> Result<u64, AllocError>
    ensures told { OnOk result (told elements.new.items ≡ told elements.old.items ++ bar_told (limits_view limits.entry.now) y rule.now) }
    ensures below { IfOk result (λ end. end ≡ bar_end y) }
{
    add_bar(elements, rule, limits, y)?;
    Ok(y.saturating_add(BAR).saturating_add(ROW))
}

const HEADINGS: &[(Style, u64, Word)] = &[
    (Style::Heading, NAMES, Word::Variant),
    (Style::Value, 820, Word::Points),
    (Style::Value, 990, Word::AtLeast),
    (Style::Value, 1160, Word::AtMost),
];

/// Adds a row for each variant with its points and its limits, and gives the height below.
fn add_limits<'a>(
    elements: &mut Vec<Element<'a>>,
    old: &Rule,
    limits: &'a [Limit],
    y: u64,
) -> Result<u64, AllocError>
    ensures told { OnOk result (told elements.new.items ≡ told elements.old.items ++ limits_told old.now (limits_view limits.entry.now) y) }
    ensures below { IfOk result (λ end. end ≡ limits_end (limits_view limits.entry.now) y) }
{
    add_headings(elements, HEADINGS, y)?;
    add_rows(elements, old, limits, y.saturating_add(ROW))
}

fn add_rows<'a>(
    elements: &mut Vec<Element<'a>>,
    old: &Rule,
    limits: &'a [Limit],
    y: u64,
) -> Result<u64, AllocError>
    ensures told { OnOk result (told elements.new.items ≡ told elements.old.items ++ rows_told (limit_told (limits_view limits.entry.now) old.now) limit_end y (limits_view limits.entry.now)) }
    ensures below { IfOk result (λ end. end ≡ foot limit_end y (limits_view limits.entry.now)) }
{
    let mut row = y;
    for limit in limits {
        row = add_limit(elements, old, limits, limit, row)?;
    }
    Ok(row)
}

fn add_limit<'a>(
    elements: &mut Vec<Element<'a>>,
    old: &Rule,
    limits: &[Limit],
    limit: &'a Limit,
    y: u64,
) -> Result<u64, AllocError>
    ensures told { OnOk result (told elements.new.items ≡ told elements.old.items ++ limit_told (limits_view limits.entry.now) old.now y (limit_view limit.entry.now)) }
    ensures below { IfOk result (λ end. end ≡ limit_end y (limit_view limit.entry.now)) }
{
    let name = limit.name.as_str();
    let below = if name.len() > 34 {
        y.saturating_add(ROW)
    } else {
        y
    };
    add_named(elements, name, limits, y)?;
    add(
        elements,
        &[
            number_at(820, below, old.total_of(name)),
            number_at(990, below, u64::from(limit.low)),
            number_at(1160, below, u64::from(limit.high)),
        ],
    )?;
    Ok(below.saturating_add(ROW))
}
