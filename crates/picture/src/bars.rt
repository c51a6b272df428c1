//! Rules as bars over the points.
ghost use Rattle.std.specs.Prelude.{◌≡◌, ◌≤◌, ◌++◌, OnOk, position, string_bytes};
ghost use Rattle.std.specs.Str.{bytes_eq};
ghost use Rattle.bucket_core.specs.Rule.{IsRuleTotal};
ghost use Rattle.price_core.specs.Limits.{limits_view};
ghost use Rattle.picture.specs.Told.{bar_told, edge, extent_of, look_of, place_of, told};

use crate::element::{Element, Extent, Look, Piece, Place};
use bucket_core::Rule;
use price_core::Limit;
use std::alloc::AllocError;

/// The left edge of the bars, and their width.
pub(crate) const LEFT: u64 = 40;

const WIDTH: u64 = 1120;

/// The height of a bar.
pub(crate) const BAR: u64 = 80;

/// About how wide a letter on a bar is.
const LETTER: u64 = 18;

/// Up to so many points are drawn one by one.
const FEW_POINTS: u64 = 100;

/// Where a point begins, of so many.
pub(crate) fn edge(point: u64, total: u64) -> u64
    requires total { IsRuleTotal total }
    requires inside { point ≤ total }
    ensures { result ≡ edge total point }
{
    LEFT + point * WIDTH / total
}

/// How large the rectangle of the points is that begin at a point and end at another.
pub(crate) fn extent(begin: u64, end: u64, total: u64) -> Extent
    requires total { IsRuleTotal total }
    requires begin { begin ≤ total }
    requires end { end ≤ total }
    ensures { result ≡ extent_of total begin end }
{
    Extent {
        width: edge(end, total).saturating_sub(edge(begin, total)),
        height: BAR,
    }
}

/// The look of the variant of a name: no two of 64 have one colour and one pattern.
pub(crate) fn look_of(limits: &[Limit], name: &str) -> Look
    ensures { result ≡ look_of (limits_view limits.now) name.now }
{
    let place = place_among(limits, name).unwrap_or(0) as u64;
    Look {
        colour: place % 8,
        pattern: (place + place / 8) % 8,
    }
}

/// Which of the limits are those of a name.
fn place_among(limits: &[Limit], name: &str) -> Option<usize>
    ensures { result ≡ position (λ l. bytes_eq (string_bytes l.name) name.now) limits.now }
{
    limits.iter().position(|limit| limit.name.as_str() == name)
}

/// Adds the bar of a rule, at a height.
pub(crate) fn add_bar<'a>(
    elements: &mut Vec<Element<'a>>,
    rule: &'a Rule,
    limits: &[Limit],
    y: u64,
) -> Result<(), AllocError>
    ensures { OnOk result (told elements.new.items ≡ told elements.old.items ++ bar_told (limits_view limits.entry.now) y rule.now) }
{
    let total = u64::from(rule.total());
    let mut begin = 0u64;
    for (name, weight) in rule.entries() {
        let end = begin + weight;
        elements.push(Element::Piece(piece(name, limits, y, begin, end, total)))?;
        begin = end;
    }
    add_points(elements, total, y)
}

/// The points of a variant from one to another, of so many, at a height.
fn piece<'a>(name: &'a str, limits: &[Limit], y: u64, begin: u64, end: u64, total: u64) -> Piece<'a>
    requires total { IsRuleTotal total }
    requires begin { begin ≤ total }
    requires end { end ≤ total }
    ensures name { result.name.now ≡ name.now }
    ensures look { result.look ≡ look_of (limits_view limits.now) name.now }
    ensures place { result.place ≡ place_of y total begin }
    ensures extent { result.extent ≡ extent_of total begin end }
{
    let extent = extent(begin, end, total);
    Piece {
        name,
        look: look_of(limits, name),
        place: Place {
            x: edge(begin, total),
            y,
        },
        extent,
        label: letters(extent.width),
    }
}

/// How many letters find room on a rectangle.
fn letters(width: u64) -> u32 {
    let letters = width.saturating_sub(16) / LETTER;
    if letters < 2 {
        0
    } else {
        letters.min(100) as u32
    }
}

/// Adds a line between each two points, where they are few.
fn add_points(elements: &mut Vec<Element<'_>>, total: u64, y: u64) -> Result<(), AllocError>
    requires { IsRuleTotal total }
    ensures { OnOk result (told elements.new.items ≡ told elements.old.items) }
{
    if total > FEW_POINTS {
        return Ok(());
    }
    for point in 1..total {
        let place = Place {
            x: edge(point, total),
            y,
        };
        elements.push(Element::Line(
            place,
            Extent {
                width: 1,
                height: BAR,
            },
        ))?;
    }
    Ok(())
}
