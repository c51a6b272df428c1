//! Numbers that are not whole, where a targeting that reads one can't be evaluated.
ghost use Rattle.std.specs.Prelude.{◌≡◌, ◌<◌, ◌^◌, true, IfOk, option_and_then, option_map, string_bytes};
ghost use Rattle.decimal_reads.specs.Reads.{read_view};
ghost use Rattle.flag_defs.specs.Flag.{flag_view, targeting_in};
ghost use Rattle.flag_defs.specs.Flags.{flags_view};
ghost use Rattle.flag_metadata.specs.Merged.{flag_metadata};
ghost use Rattle.flag_metadata.specs.View.{metadata_view};
ghost use Rattle.flag_resolve.specs.Views.{resolution_view};
ghost use Rattle.flag_text.specs.Printing.{text_of};
ghost use Rattle.flag_text.specs.Shape.{is_tidy};
ghost use Rattle.flag_text.specs.View.{view};
ghost use Rattle.ofrep_answers.specs.Evaluation.{ended_in, read_by_flag, read_details, read_failure, text_told};

use crate::one::text_or;
use crate::{evaluation_text, failure_body};
use decimal_reads::{DecimalRead, ended_at};
use flag_defs::{Flag, Flags};
use flag_metadata::Metadata;
use flag_resolve::{Code, Resolution};
use flag_text::{Tree, print_tree};
use logic_eval::Context;
use std::alloc::{AllocError, Global};

/// The number that is not whole at which the evaluation of the flag of a key ended, where it ended at one.
pub(crate) fn read_by_flag(
    alloc: Global,
    flags: &Flags,
    key: &str,
    context: &Tree,
    moment: u64,
    resolution: &Resolution,
) -> Result<Option<DecimalRead>, AllocError>
    requires context { is_tidy (view context.now) ≡ true }
    requires moment { moment < 2 ^ 53 }
    ensures { IfOk result (λ r. option_map read_view r ≡ read_by_flag (flags_view flags.now) key.now (view context.now) moment (resolution_view resolution.now)) }
{
    match (&resolution.variant, resolution.code) {
        (None, Some(Code::ParseError)) => match flags.get(key) {
            Some(flag) => ended_by(alloc, flag, key, context, moment),
            None => Ok(None),
        },
        _ => Ok(None),
    }
}

/// The same of a flag.
fn ended_by(
    alloc: Global,
    flag: &Flag,
    key: &str,
    context: &Tree,
    moment: u64,
) -> Result<Option<DecimalRead>, AllocError>
    requires context { is_tidy (view context.now) ≡ true }
    requires moment { moment < 2 ^ 53 }
    ensures { IfOk result (λ r. option_map read_view r ≡ option_and_then (ended_in key.now (view context.now) moment) (targeting_in (flag_view flag.now))) }
{
    match flag.targeting() {
        Some(targeting) if context.as_object().is_some() => {
            ended_at(alloc, targeting, &Context::make(context, key, moment))
        }
        _ => Ok(None),
    }
}

/// The text of the body that tells the evaluation of the flag of a key, or which number that is not whole its targeting reads.
pub(crate) fn told_text(
    alloc: Global,
    metadata: &Metadata,
    key: &str,
    read: Option<DecimalRead>,
    resolution: &Resolution,
    spelled: bool,
) -> Result<String, AllocError>
    ensures { IfOk result (λ s. string_bytes s ≡ text_told (option_map read_view read) spelled (flag_metadata (metadata_view metadata.now) key.now) key.now (resolution_view resolution.now)) }
{
    match read {
        Some(read) => read_text(alloc, key, &read),
        None => evaluation_text(alloc, metadata, key, resolution, spelled),
    }
}

fn read_text(alloc: Global, key: &str, read: &DecimalRead) -> Result<String, AllocError>
    ensures { IfOk result (λ s. string_bytes s ≡ text_of (read_failure key.now (read_view read.now))) }
{
    let details = read_details(alloc, read)?;
    let body = failure_body(alloc, Some(key), Code::ParseError, details.as_str())?;
    print_tree(alloc, &body)
}

/// What is said of such a number.
#[tactic(auto, unfolding(crate::specs::Evaluation::read_details))]
fn read_details(alloc: Global, read: &DecimalRead) -> Result<String, AllocError>
    ensures { IfOk result (λ s. string_bytes s ≡ read_details (read_view read.now)) }
{
    let way = read.way.as_str();
    let spelling = text_or(read.spelling.as_slice(), "");
    format!(in alloc;
        "the targeting reads `{way}`, which is {spelling}: a number that is not whole can be compared and tested, and not used otherwise"
    )
}
