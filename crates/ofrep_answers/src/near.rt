//! A key that may be meant by one that no flag has.
ghost use Rattle.std.specs.Prelude.{◌≡◌, option_copied};
ghost use Rattle.flag_defs.specs.Flags.{flags_view};
ghost use Rattle.ofrep_answers.specs.Near.{first_near, near_if, near_key};

use flag_defs::Flags;
use flag_resolve::Code;
use near_names::is_near;

/// The most flags among which a near key is looked for, so that a key that no flag has costs little.
const MOST_FLAGS: usize = 1_000;

/// The most bytes of a key for which one is looked for.
const LONGEST: usize = 64;

/// A key near that of an evaluation, where this code says that no flag has it.
pub(crate) fn near_if<'f>(code: Option<Code>, flags: &'f Flags, key: &str) -> Option<&'f str>
    ensures { option_copied result ≡ near_if code (flags_view flags.entry.now) key.now }
{
    match code {
        Some(Code::FlagNotFound) => near_key(flags, key),
        _ => None,
    }
}

/// The first key of flags that is near this one. Long keys are near none, nor is one of so many flags.
fn near_key<'f>(flags: &'f Flags, key: &str) -> Option<&'f str>
    ensures { option_copied result ≡ near_key (flags_view flags.entry.now) key.now }
{
    if key.len() <= LONGEST && flags.len() <= MOST_FLAGS {
        first_near(flags, key)
    } else {
        None
    }
}

fn first_near<'f>(flags: &'f Flags, key: &str) -> Option<&'f str>
    ensures { option_copied result ≡ first_near key.now (flags_view flags.entry.now) }
{
    for i in 0..flags.len() {
        let (known, _) = flags.at(i);
        if is_near(key, known) {
            return Some(known);
        }
    }
    None
}
