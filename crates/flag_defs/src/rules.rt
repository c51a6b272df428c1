//! The rules of a good flag.
ghost use Rattle.std.specs.Prelude.{◌≡◌, true, IfOk};
ghost use Rattle.flag_text.specs.View.{members_view};
ghost use Rattle.flag_defs.specs.Rules.{are_rules, rules_of};
ghost use Rattle.flag_defs.specs.Spellings.{keep_spelling};

use flag_text::Tree;
use logic_ast::Expr;

/// How a good flag is resolved. They can be printed, and read again from what is printed.
#[derive(Drop)]
pub(crate) struct Rules {
    pub(crate) enabled: bool,
    pub(crate) variants: Vec<(String, Tree)>,
    pub(crate) default_variant: Option<String>,
    pub(crate) targeting: Option<Expr>,
    /// Whether the values of the variants stand as texts, which are their spelling, since a number among them is not whole.
    pub(crate) has_floats: bool,
    pub ghost lawful: { are_rules (rules_of enabled variants.items default_variant targeting) ≡ true },
    pub ghost spelled: { keep_spelling has_floats (members_view variants.items) ≡ true },
}
