//! The answer to a request for one flag.
ghost use Rattle.std.specs.Prelude.{◌≡◌, ◌<◌, ◌≢◌, ◌^◌, true, Some, IfOk, IsOk, option_copied, option_map, string_bytes, unwrap_or};
ghost use Rattle.decimal_reads.specs.Reads.{read_view};
ghost use Rattle.flag_defs.specs.Flags.{flags_view};
ghost use Rattle.flag_defs.specs.Floats.{floats_view};
ghost use Rattle.flag_metadata.specs.Merged.{flag_metadata};
ghost use Rattle.flag_metadata.specs.View.{metadata_view};
ghost use Rattle.flag_text.specs.Shape.{is_tidy};
ghost use Rattle.flag_text.specs.View.{view};
ghost use Rattle.ofrep_answers.specs.Answer.{answer_view, failed, fault_code, one_resolved, one_told, segment_of};
ghost use Rattle.ofrep_answers.specs.Answer as spec;
ghost use Rattle.flag_resolve.specs.Views.{resolution_view};
ghost use Rattle.flag_resolve.specs.declared.code.Code.TheVariants.{FlagNotFound};
ghost use Rattle.ofrep_answers.specs.Evaluation.{evaluation};
ghost use Rattle.ofrep_answers.specs.Metadata.{metadata_of};
ghost use Rattle.ofrep_answers.specs.Near.{near_details};
ghost use Rattle.ofrep_answers.specs.Context.{context_of};
ghost use Rattle.ofrep_requests.specs.Request as request;
ghost use Rattle.ofrep_requests.specs.Request.{text_if};

use crate::answer::{Answer, Content, push_reached};
use crate::evaluation::{evaluate, is_spelled};
use crate::near::near_if;
use crate::reads::{read_by_flag, told_text};
use crate::reasons::Reasons;
use crate::{ContextFault, code_status, details_in, failure_body, read_context_with, status_of};
use decimal_reads::DecimalRead;
use flag_defs::Flags;
use flag_metadata::Metadata;
use flag_resolve::{Code, Reason, Resolution};
use flag_text::{Tree, print_tree};
use json::Scratch;
use ofrep_requests::key_in;
use std::alloc::{AllocError, Global};
use std::str;

/// What stands before the key in the path of one flag's evaluation.
const ONE_FLAG_ROUTE: &[u8] = b"/ofrep/v1/evaluate/flags/";

/// What is wrong with a path in which no key can be read.
const NO_KEY: &str = "the path has no key that can be decoded";

/// The answer to the request for one flag that this path and this body make.
pub(crate) fn one_flag(
    alloc: Global,
    flags: &Flags,
    metadata: &Metadata,
    moment: u64,
    path: &str,
    body: &[u8],
    scratch: &mut Scratch,
) -> Result<Answer, AllocError>
    requires moment { moment < 2 ^ 53 }
    ensures { IfOk result (λ a. answer_view a ≡ spec.one_flag (metadata_of (metadata_view metadata.now)) (flags_view flags.now, floats_view flags.now) moment path.now (request.key_in path.now) body.now) }
{
    match key_in(alloc, path)? {
        Some(key) => one_in(alloc, flags, metadata, moment, key.as_str(), body, scratch),
        None => failed(alloc, Some(segment_in(path)), Code::FlagNotFound, NO_KEY),
    }
}

/// What stands in a path in the place of the key, as it was sent; the path, where it is of no flag.
fn segment_in(path: &str) -> &str
    ensures { result.now ≡ segment_of path.now }
{
    match path.as_bytes().strip_prefix(ONE_FLAG_ROUTE) {
        Some(segment) => text_or(segment, path),
        None => path,
    }
}

/// The bytes as a text, or another text where they are none.
#[tactic(auto, using(ofrep_requests::proofs::Texts::text_if_utf8, ofrep_requests::proofs::Texts::text_if_not))]
pub(crate) fn text_or<'a>(bytes: &'a [u8], other: &'a str) -> &'a str
    ensures { result.now ≡ unwrap_or (text_if bytes.now) other.now }
{
    match str::from_utf8(bytes) {
        Ok(text) => text,
        Err(_) => other,
    }
}

/// The answer to the request for the flag of this key.
fn one_in(
    alloc: Global,
    flags: &Flags,
    metadata: &Metadata,
    moment: u64,
    key: &str,
    body: &[u8],
    scratch: &mut Scratch,
) -> Result<Answer, AllocError>
    requires moment { moment < 2 ^ 53 }
    ensures { IfOk result (λ a. answer_view a ≡ spec.one_in (metadata_of (metadata_view metadata.now)) (flags_view flags.now, floats_view flags.now) moment key.now body.now (context_of body.now)) }
{
    match read_context_with(alloc, body, scratch) {
        Ok(context) => one_in_context(alloc, flags, metadata, moment, key, &context),
        Err(ContextFault::WantOfMemory) => Err(AllocError),
        Err(fault) => without_context(alloc, Some(key), body, fault),
    }
}

/// The answer that the flag of this key has in this context. Where no flag has the key, it says which key is near.
fn one_in_context(
    alloc: Global,
    flags: &Flags,
    metadata: &Metadata,
    moment: u64,
    key: &str,
    context: &Tree,
) -> Result<Answer, AllocError>
    requires moment { moment < 2 ^ 53 }
    requires context { is_tidy (view context.now) ≡ true }
    ensures { IfOk result (λ a. answer_view a ≡ one_resolved (metadata_of (metadata_view metadata.now)) (flags_view flags.now, floats_view flags.now) key.now (view context.now) moment (evaluation (flags_view flags.now) key.now (view context.now) moment)) }
{
    let resolution = evaluate(alloc, flags, key, context, moment)?;
    one_resolved(alloc, flags, metadata, moment, key, context, resolution)
}

/// The answer with a resolution of the flag of this key in this context.
fn one_resolved(
    alloc: Global,
    flags: &Flags,
    metadata: &Metadata,
    moment: u64,
    key: &str,
    context: &Tree,
    resolution: Resolution,
) -> Result<Answer, AllocError>
    requires moment { moment < 2 ^ 53 }
    requires context { is_tidy (view context.now) ≡ true }
    ensures { IfOk result (λ a. answer_view a ≡ one_resolved (metadata_of (metadata_view metadata.now)) (flags_view flags.now, floats_view flags.now) key.now (view context.now) moment (resolution_view resolution)) }
{
    match near_if(resolution.code, flags, key) {
        Some(near) => not_found(alloc, key, near, resolution.reason),
        None => {
            let read = read_by_flag(alloc, flags, key, context, moment, &resolution)?;
            one_told(
                alloc,
                metadata,
                key,
                read,
                resolution,
                is_spelled(flags, key),
            )
        }
    }
}

/// The answer with a resolution, whose value may stand as its spelling, or with what the targeting reads.
fn one_told(
    alloc: Global,
    metadata: &Metadata,
    key: &str,
    read: Option<DecimalRead>,
    resolution: Resolution,
    spelled: bool,
) -> Result<Answer, AllocError>
    ensures { IfOk result (λ a. answer_view a ≡ one_told (option_map read_view read) spelled (flag_metadata (metadata_view metadata.now) key.now) key.now (resolution_view resolution)) }
{
    let status = status_of(&resolution);
    let mut reasons = Reasons::none();
    reasons.count(&resolution);
    let text = told_text(alloc, metadata, key, read, &resolution, spelled)?.into_bytes();
    let mut reached = Vec::new(alloc);
    push_reached(alloc, &mut reached, key, resolution.reached)?;
    Ok(Answer {
        status,
        allow: None,
        tag: None,
        content: Content::Json(text),
        reached,
        reasons,
    })
}

/// The answer to a key that no flag has, where one has a key that is near.
fn not_found(alloc: Global, key: &str, near: &str, reason: Reason) -> Result<Answer, AllocError>
    ensures { IfOk result (λ a. answer_view a ≡ failed (Some key.now) (Some FlagNotFound) (near_details near.now)) }
{
    let details = near_details(alloc, near)?;
    let mut answer = failed(alloc, Some(key), Code::FlagNotFound, details.as_str())?;
    answer.reasons = Reasons::of(reason);
    Ok(answer)
}

/// What is said of such a key.
#[tactic(auto, unfolding(crate::specs::Near::near_details))]
fn near_details(alloc: Global, near: &str) -> Result<String, AllocError>
    ensures { IfOk result (λ s. string_bytes s ≡ near_details near.now) }
{
    format!(in alloc; "no flag has this key; perhaps \"{near}\" is meant")
}

/// The answer to this body without a context: that of its fault, for one flag or for every flag.
pub(crate) fn without_context(
    alloc: Global,
    key: Option<&str>,
    body: &[u8],
    fault: ContextFault,
) -> Result<Answer, AllocError>
    ensures exact { IfOk result (λ a. answer_view a ≡ spec.without_context (option_copied key.entry) body.now fault) }
    ensures large { fault ≡ ContextFault.TooLarge → IsOk result }
{
    match fault_code(fault) {
        Some(code) => failed(alloc, key, code, details_in(alloc, body, fault)?.as_str()),
        None => Ok(Answer::too_large(alloc)),
    }
}

/// The answer of a failure.
fn failed(alloc: Global, key: Option<&str>, code: Code, details: &str) -> Result<Answer, AllocError>
    ensures { IfOk result (λ a. answer_view a ≡ failed (option_copied key.entry) (Some code) details.now) }
{
    let body = failure_body(alloc, key, code, details)?;
    let text = print_tree(alloc, &body)?.into_bytes();
    Ok(Answer::bare(alloc, code_status(code), Content::Json(text)))
}

/// The error code of a body without a context: none where it is too large.
fn fault_code(fault: ContextFault) -> Option<Code>
    ensures { result ≡ fault_code fault }
{
    match fault {
        ContextFault::WantOfMemory | ContextFault::TooLarge => None,
        ContextFault::NotJson => Some(Code::ParseError),
        ContextFault::BodyTooDeep => Some(Code::InvalidContext),
        ContextFault::BodyNotObject => Some(Code::InvalidContext),
        ContextFault::NotObject => Some(Code::InvalidContext),
        ContextFault::TooDeep => Some(Code::InvalidContext),
    }
}
