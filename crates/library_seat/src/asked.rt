//! What is asked of a seat.
ghost use Rattle.std.specs.Prelude.{◌≡◌, ◌<◌, ◌^◌, true};
ghost use Rattle.flag_text.specs.Shape.{is_tidy, is_whole};
ghost use Rattle.flag_text.specs.View.{view};

use flag_resolve::Kind;
use flag_text::Tree;

/// What is asked of a seat: the value of a flag, for somebody who wants it to be of a kind.
#[derive(Clone, Copy)]
pub struct Asked<'a> {
    /// The bytes of the flag's key.
    pub key: &'a [u8],
    /// The number of the kind of value: 0 to 3 for a boolean, a text, a whole number and an object.
    pub kind: u32,
    /// The bytes of a JSON text: the value for where the flag gives none.
    pub default: &'a [u8],
    /// The moment, in seconds since 1970.
    pub moment: u64,
}

/// The same, read.
#[derive(Drop)]
pub(crate) struct Question<'a> {
    pub(crate) key: &'a str,
    pub(crate) kind: Kind,
    pub(crate) default: Tree,
    pub(crate) moment: u64,
    pub ghost whole: { is_whole (view default) ≡ true },
    pub ghost small: { moment < 2 ^ 53 },
}

/// A context that was read.
#[derive(Drop)]
pub(crate) struct ReadContext {
    pub(crate) tree: Tree,
    pub ghost tidy: { is_tidy (view tree) ≡ true },
}
