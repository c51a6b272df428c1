ghost use Rattle.std.specs.Prelude.{◌≡◌, ◌≤◌, ◌<◌, ◌^◌, true, is_some};
ghost use Rattle.flag_text.specs.Readers.{as_object};
ghost use Rattle.flag_text.specs.Shape.{is_whole, levels};
ghost use Rattle.flag_text.specs.View.{view};

use flag_resolve::Kind;
use flag_text::Tree;

/// An ask whose members are the five that are read, each once. Its key lies in its text, or in what its escapes were replaced
/// in.
#[derive(Drop)]
pub struct PlainAsk<'a> {
    pub(crate) key: &'a str,
    pub(crate) want: Kind,
    pub(crate) default: Tree,
    pub(crate) context: Tree,
    pub(crate) moment: u64,
    pub(crate) ghost whole_default: { is_whole (view default) ≡ true },
    pub(crate) ghost shallow_default: { levels (view default) ≤ 118 },
    pub(crate) ghost whole_context: { is_whole (view context) ≡ true },
    pub(crate) ghost shallow_context: { levels (view context) ≤ 118 },
    pub(crate) ghost object_context: { is_some (as_object (view context)) ≡ true },
    pub(crate) ghost countable: { moment < 2 ^ 53 },
}
