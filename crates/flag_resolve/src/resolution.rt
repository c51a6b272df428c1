ghost use Rattle.std.specs.Prelude.{◌≡◌, true};
ghost use Rattle.flag_text.specs.Shape.{is_whole};
ghost use Rattle.flag_text.specs.View.{view};

use crate::code::Code;
use crate::reason::Reason;
use flag_text::Tree;
use logic_eval::Reached;

/// What a flag resolves to (OpenFeature: resolution details). Its value may be printed.
#[derive(Drop)]
pub struct Resolution {
    /// The variant's value, or the caller's default.
    pub value: Tree,
    /// The name of the variant whose value it is.
    pub variant: Option<String>,
    /// Why it is this value.
    pub reason: Reason,
    /// What went wrong, with the reason [`Reason::Error`] alone.
    pub code: Option<Code>,
    /// The sites that the evaluation reached, in their order.
    pub reached: Vec<Reached>,
    // so that it may be printed
    pub ghost whole: { is_whole (view value) ≡ true },
}
