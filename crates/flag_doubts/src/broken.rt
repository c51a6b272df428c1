//! Flags that a later version breaks.
ghost use Rattle.std.specs.Prelude.{◌≡◌, option_copied};
ghost use Rattle.flag_defs.specs.Flag.{flag_view};
ghost use Rattle.flag_defs.specs.Flags.{flags_view};
ghost use Rattle.flag_doubts.specs.Regression.{breaks, first_broken};

use flag_defs::{Flag, Flags};

/// The key of the first flag, in the order of the keys, that is good now and broken later.
pub(crate) fn first_broken<'a>(current: &'a Flags, later: &Flags) -> Option<&'a str>
    ensures { option_copied result ≡ first_broken (flags_view later.now) (flags_view current.entry.now) }
{
    for i in 0..current.len() {
        let (key, flag) = current.at(i);
        if breaks(later, key, flag) {
            return Some(key);
        }
    }
    None
}

/// Whether the flag, which has this key now, is good and broken later.
fn breaks(later: &Flags, key: &str, flag: &Flag) -> bool
    ensures { result ≡ breaks (flags_view later.now) (key.now, flag_view flag.now) }
{
    match later.get(key) {
        Some(other) => !flag.is_broken() && other.is_broken(),
        None => false,
    }
}
