//! The first flag that a later version of a document harms.
ghost use Rattle.std.specs.Prelude.{◌≡◌, IfOk, option_map};
ghost use Rattle.flag_defs.specs.Flags.{flags_view};
ghost use Rattle.flag_doubts.specs.Regression.{names_in, regression_of, regression_view};

use crate::broken::first_broken;
use crate::lost::first_lost;
use flag_defs::Flags;
use std::alloc::{AllocError, Global};

/// What a later version of a document does to a flag, by its key.
#[derive(Debug, Drop)]
pub enum Regression {
    /// The flag is good now, and broken later.
    Broken(String),
    /// The flag is there now and not later, though the later text has its key.
    Lost(String),
}

/// The first flag that a later version of a document harms, where it harms one: one that it breaks, in the order of the keys, and
/// else one that it loses, in the order of the text. `current` are the flags of the version that counts, `later` those of the text.
///
/// Cost: each flag is looked up once among those of the later version, and each name in the text once or twice.
pub fn regression_in(
    alloc: Global,
    current: &Flags,
    later: &Flags,
    text: &[u8],
) -> Result<Option<Regression>, AllocError>
    ensures { IfOk result (λ o. option_map regression_view o ≡ regression_of (flags_view current.now) (flags_view later.now) (names_in text.now)) }
{
    if let Some(key) = first_broken(current, later) {
        return Ok(Some(Regression::Broken(String::from_str(alloc, key)?)));
    }
    match first_lost(alloc, current, later, text)? {
        Some(key) => Ok(Some(Regression::Lost(key))),
        None => Ok(None),
    }
}
