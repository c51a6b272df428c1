//! What the lists and the tables of a picture share: their headings, and rows with names and numbers.
ghost use Rattle.std.specs.Prelude.{◌≡◌, ◌++◌, ◌-◌, OnOk};
ghost use Rattle.price_core.specs.Limits.{limits_view};
ghost use Rattle.picture.specs.Told.{headings_told, look_of, number_element, spot, told};

use crate::bars::{LEFT, look_of};
use crate::element::{Content, Element, Extent, Piece, Place};
use crate::words::{Style, Word};
use price_core::Limit;
use std::alloc::AllocError;

/// The height of a row.
pub(crate) const ROW: u64 = 46;

/// Where names stand.
pub(crate) const NAMES: u64 = 100;

/// The size of letters.
const SIZE: u64 = 28;

/// The size at which a name finds room in so many units: a letter is as wide as three fifths of its size.
pub(crate) fn size_for(name: &str, width: u64) -> u64 {
    let letters = (name.len() as u64).max(1);
    (width.saturating_mul(5) / letters.saturating_mul(3).max(1)).clamp(1, SIZE)
}

/// Adds headings at a height: each begins at its place over names, and ends there over numbers.
pub(crate) fn add_headings(
    elements: &mut Vec<Element<'_>>,
    headings: &[(Style, u64, Word)],
    y: u64,
) -> Result<(), AllocError>
    ensures { OnOk result (told elements.new.items ≡ told elements.old.items ++ headings_told y headings.now) }
{
    for (style, x, word) in headings {
        elements.push(Element::Text(*style, Place { x: *x, y }, Content::Word(*word)))?;
    }
    Ok(())
}

/// The look of a variant, to the left of its name in the row at a height.
pub(crate) fn swatch<'a>(limits: &[Limit], name: &'a str, y: u64) -> Piece<'a>
    ensures name { result.name.now ≡ name.now }
    ensures look { result.look ≡ look_of (limits_view limits.now) name.now }
    ensures place { result.place ≡ spot 40 (y - 26) }
    ensures extent { result.extent ≡ record { width = 44; height = 32 } }
{
    Piece {
        name,
        look: look_of(limits, name),
        place: Place {
            x: LEFT,
            y: y.saturating_sub(26),
        },
        extent: Extent {
            width: 44,
            height: 32,
        },
        label: 0,
    }
}

/// A number that ends at a place.
pub(crate) fn number_at<'a>(x: u64, y: u64, number: u64) -> Element<'a>
    ensures { result ≡ number_element x y number }
{
    Element::Text(Style::Value, Place { x, y }, Content::Number(number))
}
