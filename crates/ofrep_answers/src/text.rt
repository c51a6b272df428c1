//! The texts of evaluations, written straight from their parts.
ghost use Rattle.std.specs.Prelude.{◌≡◌, ◌++◌, true, map, option_copied, string_bytes, IfOk, OnOk};
ghost use Rattle.flag_metadata.specs.Merged.{flag_metadata};
ghost use Rattle.flag_metadata.specs.View.{metadata_view};
ghost use Rattle.flag_resolve.specs.Views.{resolution_view};
ghost use Rattle.flag_text.specs.Shape.{is_whole};
ghost use Rattle.flag_text.specs.View.{view};
ghost use Rattle.ofrep_answers.specs.Bodies.{end_text, flags_text, others_text, success_text};
ghost use Rattle.ofrep_answers.specs.EvaluationBody.{body_text};

use crate::failure::{code_of, details_of, failure_body};
use flag_defs::push_spelled;
use flag_metadata::Metadata;
use flag_resolve::{Reason, Resolution};
use flag_text::{Tree, print_tree, push_string};
use std::alloc::{AllocError, Global};

/// The room that most texts need no more than.
const ROOM: usize = 128;

/// The text of the body of the evaluation of the flag of a key: the variant that the resolution tells with the metadata of the flag, or
/// what failed. The value of a flag with floats stands as a text that is its spelling, and is printed as it is.
pub fn evaluation_text(
    alloc: Global,
    metadata: &Metadata,
    key: &str,
    resolution: &Resolution,
    spelled: bool,
) -> Result<String, AllocError>
    ensures exact { IfOk result (λ text. string_bytes text ≡ body_text spelled (flag_metadata (metadata_view metadata.now) key.now) key.now (resolution_view resolution.now)) }
{
    let reason = resolution.reason;
    let code = resolution.code;
    match &resolution.variant {
        Some(variant) => success_text(
            alloc,
            metadata,
            key,
            reason,
            &resolution.value,
            spelled,
            variant.as_str(),
        ),
        None => {
            let body = failure_body(alloc, Some(key), code_of(code), details_of(code, reason))?;
            print_tree(alloc, &body)
        }
    }
}

/// The text of a variant of a flag with its metadata and its value, and why the evaluation chose it.
#[tactic(auto, using(crate::proofs::BodyTexts::success_parts))]
fn success_text(
    alloc: Global,
    metadata: &Metadata,
    key: &str,
    reason: Reason,
    value: &Tree,
    spelled: bool,
    variant: &str,
) -> Result<String, AllocError>
    requires { is_whole (view value.now) ≡ true }
    ensures { IfOk result (λ text. string_bytes text ≡ success_text spelled (flag_metadata (metadata_view metadata.now) key.now) key.now reason (view value.now) variant.now) }
{
    let mut text = String::with_capacity(alloc, ROOM)?;
    text.push_str("{\"key\":")?;
    push_string(alloc, &mut text, key)?;
    text.push_str(",\"metadata\":")?;
    metadata.push_flag(alloc, &mut text, key)?;
    text.push_str(",\"reason\":")?;
    push_string(alloc, &mut text, reason.as_str())?;
    text.push_str(",\"value\":")?;
    push_spelled(alloc, &mut text, value, spelled)?;
    text.push_str(",\"variant\":")?;
    push_string(alloc, &mut text, variant)?;
    text.push_str("}")?;
    Ok(text)
}

/// The text of the bodies of flags that were evaluated, together, from the texts of each, and perhaps that of metadata.
pub fn flags_text(
    alloc: Global,
    bodies: &[String],
    metadata: Option<&str>,
) -> Result<String, AllocError>
    ensures exact { IfOk result (λ text. string_bytes text ≡ flags_text (option_copied metadata.entry) (map string_bytes bodies.now)) }
{
    let mut text = String::from_str(alloc, "{\"flags\":[")?;
    match bodies {
        [] => push_end(&mut text, metadata)?,
        [first, ..] => {
            text.push_str(first.as_str())?;
            push_others(&mut text, &bodies[1..], metadata)?;
        }
    }
    Ok(text)
}

fn push_others(
    text: &mut String,
    bodies: &[String],
    metadata: Option<&str>,
) -> Result<(), AllocError>
    ensures { OnOk result (string_bytes text.new ≡ string_bytes text.old ++ others_text (option_copied metadata.entry) (map string_bytes bodies.now)) }
{
    for body in bodies {
        text.push_str(",")?;
        text.push_str(body.as_str())?;
    }
    push_end(text, metadata)
}

fn push_end(text: &mut String, metadata: Option<&str>) -> Result<(), AllocError>
    ensures { OnOk result (string_bytes text.new ≡ string_bytes text.old ++ end_text (option_copied metadata.entry)) }
{
    let Some(metadata) = metadata else {
        return text.push_str("]}");
    };
    text.push_str("],\"metadata\":")?;
    text.push_str(metadata)?;
    text.push_str("}")
}
