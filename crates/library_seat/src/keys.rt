//! The keys of flags.
ghost use Rattle.std.specs.Prelude.{◌≡◌, ◌++◌, [], IfOk, IfSome, IsOk, OnOk, option_map, string_bytes};
ghost use Rattle.std.specs.List.{flat_map};
ghost use Rattle.flag_defs.specs.Flag.{flag_view};
ghost use Rattle.flag_defs.specs.Flags.{flags_view};
ghost use Rattle.library_seat.specs.Keys.{key_line, keys_text};

use flag_defs::{Flag, Flags};
use flag_text::push_string;
use std::alloc::{AllocError, Global};

/// A line for each flag, in the order of the keys' bytes.
pub(crate) fn keys_text(alloc: Global, flags: Option<&Flags>) -> Result<String, AllocError>
    ensures text { IfOk result (λ text. string_bytes text ≡ keys_text (option_map (λ f. flags_view f.now) flags.entry)) }
    // this needs no memory
    ensures no_keys { IfSome (option_map (λ f. flags_view f.now) flags.entry) (λ flags. flags ≡ []) → IsOk result }
{
    let mut text = String::new(alloc);
    match flags {
        Some(flags) => {
            push_keys(alloc, &mut text, flags)?;
            Ok(text)
        }
        None => Ok(text),
    }
}

/// Adds the lines of flags.
fn push_keys(alloc: Global, text: &mut String, flags: &Flags) -> Result<(), AllocError>
    requires { string_bytes text.old ≡ [] }
    ensures lines { OnOk result (string_bytes text.new ≡ flat_map key_line (flags_view flags.now)) }
    ensures no_keys { flags_view flags.now ≡ [] → IsOk result }
{
    for i in 0..flags.len() {
        let (key, flag) = flags.at(i);
        push_key(alloc, text, key, flag)?;
    }
    Ok(())
}

/// Adds the line of a flag.
fn push_key(alloc: Global, text: &mut String, key: &str, flag: &Flag) -> Result<(), AllocError>
    ensures { OnOk result (string_bytes text.new ≡ string_bytes text.old ++ key_line (key.now, flag_view flag.now)) }
{
    push_string(alloc, text, key)?;
    text.push_str(if flag.is_broken() {
        " broken\n"
    } else {
        " good\n"
    })
}
