ghost use Rattle.std.specs.Prelude.{◌≡◌, ◌<◌, ◌^◌, true};
ghost use Rattle.flag_text.specs.Shape.{is_whole};
ghost use Rattle.flag_text.specs.View.{view};

use flag_resolve::Kind;
use flag_text::Tree;

/// What a caller asks of a flag: the flag's key, the kind of value that is wanted, the default where the flag gives none,
/// the evaluation context, and the moment in seconds since 1970. Its numbers are whole, and the moment is at most 2^53-1.
#[derive(Clone, Copy)]
pub struct Ask<'a> {
    pub key: &'a str,
    pub want: Kind,
    pub default: &'a Tree,
    pub context: &'a Tree,
    pub moment: u64,
    pub ghost whole_default: { is_whole (view default.now) ≡ true },
    pub ghost whole_context: { is_whole (view context.now) ≡ true },
    pub ghost countable: { moment < 2 ^ 53 },
}
