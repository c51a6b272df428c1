//! From a resolution to its text.
ghost use Rattle.std.specs.Prelude.{◌≡◌, ◌++◌, map, option_copied, option_map, string_bytes, IfOk, OnOk};
ghost use Rattle.flag_text.specs.Printing.{text_of};
ghost use Rattle.flag_resolve.specs.Printing.{list_text, others_text, resolution_spelled, resolution_text, text_or_null};
ghost use Rattle.flag_resolve.specs.Views.{reached_shape, resolution_view};
ghost use Rattle.flag_resolve.specs.Words.{code_word};

use crate::code::Code;
use crate::resolution::Resolution;
use flag_defs::push_spelled;
use flag_text::push_string;
use logic_eval::Reached;
use std::alloc::{AllocError, Global};

/// The room that most texts need no more than.
const ROOM: usize = 192;

/// The resolution as a JSON object without blanks: its code, the sites that were reached, its reason, its value and its
/// variant. It fails only where memory runs out.
pub fn print_resolution(alloc: Global, resolution: &Resolution) -> Result<String, AllocError>
    ensures { IfOk result (λ s. string_bytes s ≡ resolution_text (resolution_view resolution.now)) }
{
    let mut text = String::with_capacity(alloc, ROOM)?;
    push_resolution(alloc, &mut text, resolution)?;
    Ok(text)
}

/// Adds the text of [`print_resolution`] to another text. All but values that are lists or objects is written straight into
/// it.
pub fn push_resolution(
    alloc: Global,
    out: &mut String,
    resolution: &Resolution,
) -> Result<(), AllocError>
    ensures { OnOk result (string_bytes out.new ≡ string_bytes out.old ++ resolution_text (resolution_view resolution.now)) }
{
    push_resolution_spelled(alloc, out, resolution, false)
}

/// The same where the value may stand as a text that is its spelling, as the values of a flag with floats do: that text stands for
/// the value as it is.
pub fn push_resolution_spelled(
    alloc: Global,
    out: &mut String,
    resolution: &Resolution,
    spelled: bool,
) -> Result<(), AllocError>
    ensures { OnOk result (string_bytes out.new ≡ string_bytes out.old ++ resolution_spelled spelled (resolution_view resolution.now)) }
{
    out.push_str("{\"code\":")?;
    push_word(alloc, out, word_of(resolution.code))?;
    out.push_str(",\"reached\":")?;
    push_reached(alloc, out, resolution.reached.as_slice())?;
    out.push_str(",\"reason\":")?;
    push_string(alloc, out, resolution.reason.as_str())?;
    out.push_str(",\"value\":")?;
    push_spelled(alloc, out, &resolution.value, spelled)?;
    out.push_str(",\"variant\":")?;
    push_word(alloc, out, name_of(&resolution.variant))?;
    out.push_str("}")?;
    Ok(())
}

fn word_of(code: Option<Code>) -> Option<&'static str>
    ensures { option_copied result ≡ option_map code_word code }
{
    match code {
        Some(code) => Some(code.as_str()),
        None => None,
    }
}

fn name_of(variant: &Option<String>) -> Option<&str>
    ensures { option_copied result ≡ option_map string_bytes variant.now }
{
    match variant {
        Some(name) => Some(name.as_str()),
        None => None,
    }
}

/// Adds a text, or null where there is none.
#[tactic(auto, unfolding(flag_text::specs::Printing::text_of))]
fn push_word(alloc: Global, out: &mut String, word: Option<&str>) -> Result<(), AllocError>
    ensures { OnOk result (string_bytes out.new ≡ string_bytes out.old ++ text_of (text_or_null (option_copied word.entry))) }
{
    match word {
        Some(word) => push_string(alloc, out, word),
        None => out.push_str("null"),
    }
}

/// Adds the list of the sites that were reached.
fn push_reached(alloc: Global, out: &mut String, reached: &[Reached]) -> Result<(), AllocError>
    ensures { OnOk result (string_bytes out.new ≡ string_bytes out.old ++ list_text (map reached_shape reached.now)) }
{
    match reached {
        [] => out.push_str("[]"),
        [first, ..] => {
            out.push_str("[")?;
            push_reach(alloc, out, first)?;
            push_others(alloc, out, &reached[1..])
        }
    }
}

fn push_others(alloc: Global, out: &mut String, reached: &[Reached]) -> Result<(), AllocError>
    ensures { OnOk result (string_bytes out.new ≡ string_bytes out.old ++ others_text (map reached_shape reached.now)) }
{
    for reach in reached {
        out.push_str(",")?;
        push_reach(alloc, out, reach)?;
    }
    out.push_str("]")
}

/// Adds a site, the hash input that reached it and the total weight of its rule.
#[tactic(auto, unfolding(flag_text::specs::Printing::text_of))]
fn push_reach(alloc: Global, out: &mut String, reach: &Reached) -> Result<(), AllocError>
    ensures { OnOk result (string_bytes out.new ≡ string_bytes out.old ++ text_of (reached_shape reach.now)) }
{
    write!(out, "[{},", reach.site)?;
    push_string(alloc, out, reach.input.as_str())?;
    write!(out, ",{}]", reach.total)?;
    Ok(())
}
