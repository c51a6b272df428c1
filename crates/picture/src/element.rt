//! The elements of a picture.
ghost use Rattle.std.specs.Prelude.{◌≡◌, ◌++◌, OnOk};
ghost use Rattle.picture.specs.Told.{told};

use crate::words::{Style, Word};
use std::alloc::AllocError;

/// A place of a picture, from its upper left corner.
#[derive(Clone, Copy, Debug)]
pub struct Place {
    pub x: u64,
    pub y: u64,
}

/// The width and the height of a rectangle.
#[derive(Clone, Copy, Debug)]
pub struct Extent {
    pub width: u64,
    pub height: u64,
}

/// A colour and a pattern, each one of eight by its number.
#[derive(Clone, Copy, Debug)]
pub struct Look {
    pub colour: u64,
    pub pattern: u64,
}

/// What a text says.
#[derive(Clone, Copy, Debug)]
pub enum Content {
    Word(Word),
    Number(u64),
    Counted(Word, u64),
    Signed(i64),
    /// The price of a change, if it is allowed.
    Price(Option<u64>),
}

/// A rectangle in the look of a variant, with so many of its name's characters on it.
#[derive(Clone, Copy, Debug)]
pub struct Piece<'a> {
    pub name: &'a str,
    pub look: Look,
    pub place: Place,
    pub extent: Extent,
    pub label: u32,
}

/// Points that move from one variant to another, drawn as a rectangle, with the number of their users on it or beside it, where
/// there is room.
#[derive(Clone, Copy, Debug)]
pub struct Band<'a> {
    pub from: &'a str,
    pub to: &'a str,
    pub points: u64,
    pub users: u64,
    pub look: Look,
    pub place: Place,
    pub extent: Extent,
    pub label: Option<Place>,
}

/// An element of a picture.
#[derive(Clone, Copy, Debug)]
pub enum Element<'a> {
    Text(Style, Place, Content),
    /// A name, at a size of its letters.
    Name(Place, u64, &'a str),
    Piece(Piece<'a>),
    Band(Band<'a>),
    /// A thin line, as between points.
    Line(Place, Extent),
}

/// Adds elements.
pub(crate) fn add<'a>(
    elements: &mut Vec<Element<'a>>,
    more: &[Element<'a>],
) -> Result<(), AllocError>
    ensures { OnOk result (told elements.new.items ≡ told elements.old.items ++ told more.now) }
{
    elements.extend_from_slice(more)
}
