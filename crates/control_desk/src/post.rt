//! What the desks of a service share.
ghost use Rattle.std.specs.Prelude.{◌≡◌};

use crate::rules::DeskRules;
use crate::turn::Turn;

/// What the desks of a service share: what they go by, and whose turn it is.
#[derive(Drop)]
pub struct DeskPost {
    pub(crate) rules: DeskRules,
    pub(crate) turn: Turn,
}

impl DeskPost {
    /// A post where nobody has the turn.
    pub fn new(rules: DeskRules) -> DeskPost
        ensures { result.rules ≡ rules }
    {
        DeskPost {
            rules,
            turn: Turn::new(),
        }
    }
}
