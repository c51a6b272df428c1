//! The answer to a request for every flag.
ghost use Rattle.std.specs.Prelude.{◌≡◌, ◌<◌, ◌≤◌, ◌++◌, ◌^◌, true, length, map, option_copied, option_map, string_bytes, if◌then◌else◌, IfOk, OnOk, IsOk};
ghost use Rattle.decimal_reads.specs.Reads.{read_view};
ghost use Rattle.flag_defs.specs.Flags.{flags_view};
ghost use Rattle.flag_defs.specs.Floats.{floats_view};
ghost use Rattle.flag_metadata.specs.Merged.{flag_metadata, merged_metadata};
ghost use Rattle.flag_metadata.specs.View.{metadata_view};
ghost use Rattle.flag_resolve.specs.Views.{resolution_view};
ghost use Rattle.flag_text.specs.Shape.{is_tidy};
ghost use Rattle.flag_text.specs.View.{view};
ghost use Rattle.ofrep_answers.specs.Answer.{answer_view, body_view, json, nothing, reached_view, tagged};
ghost use Rattle.ofrep_answers.specs.Answer as spec;
ghost use Rattle.ofrep_answers.specs.Evaluation.{bodies, body_if_told, reached_at, reached_in};
ghost use Rattle.ofrep_answers.specs.Metadata.{metadata_of};
ghost use Rattle.ofrep_answers.specs.Bodies.{flags_text};
ghost use Rattle.ofrep_answers.specs.Context.{context_of, max_body};

use crate::answer::{Answer, Content, FlagReached, push_reached};
use crate::evaluation::{evaluate, is_spelled};
use crate::one::without_context;
use crate::reads::{read_by_flag, told_text};
use crate::reasons::Reasons;
use crate::{ContextFault, flags_text, read_context_with, status_of};
use decimal_reads::DecimalRead;
use flag_defs::Flags;
use flag_metadata::Metadata;
use flag_resolve::Resolution;
use flag_text::Tree;
use http::StatusCode;
use json::Scratch;
use ofrep_requests::{entity_tag, is_listed, opaque_tag};
use std::alloc::{AllocError, Global};

/// The texts of the bodies of the flags that there are for the caller, and what the evaluations of all flags reached and how they ended.
#[derive(Drop)]
struct Evaluations {
    bodies: Vec<String>,
    reached: Vec<FlagReached>,
    reasons: Reasons,
}

/// The answer to the request for every flag that this body makes, with these fields `If-None-Match`.
pub(crate) fn every_flag(
    alloc: Global,
    flags: &Flags,
    metadata: &Metadata,
    moment: u64,
    if_none_match: &[&[u8]],
    body: &[u8],
    scratch: &mut Scratch,
) -> Result<Answer, AllocError>
    requires moment { moment < 2 ^ 53 }
    ensures exact { IfOk result (λ a. answer_view a ≡ spec.every_in (metadata_of (metadata_view metadata.now)) (flags_view flags.now, floats_view flags.now) moment (map (λ field. field.now) if_none_match.now) body.now (context_of body.now)) }
    ensures large { max_body < length body.now → IsOk result }
{
    match read_context_with(alloc, body, scratch) {
        Ok(context) => {
            let told = told_flags(alloc, flags, metadata, moment, &context)?;
            let merged = metadata.merged(alloc)?;
            tagged(alloc, if_none_match, told, merged)
        }
        Err(ContextFault::WantOfMemory) => Err(AllocError),
        Err(fault) => without_context(alloc, None, body, fault),
    }
}

/// The evaluations of every flag in a context, in the order of the keys.
fn told_flags(
    alloc: Global,
    flags: &Flags,
    metadata: &Metadata,
    moment: u64,
    context: &Tree,
) -> Result<Evaluations, AllocError>
    requires moment { moment < 2 ^ 53 }
    requires context { is_tidy (view context.now) ≡ true }
    ensures bodies { IfOk result (λ t. map string_bytes t.bodies.items ≡ bodies (flag_metadata (metadata_view metadata.now)) (flags_view flags.now, floats_view flags.now) (view context.now) moment (flags_view flags.now)) }
    ensures reached { IfOk result (λ t. map reached_view t.reached.items ≡ reached_in (flags_view flags.now) (view context.now) moment (flags_view flags.now)) }
{
    let mut told = Evaluations {
        bodies: Vec::new(alloc),
        reached: Vec::new(alloc),
        reasons: Reasons::none(),
    };
    for i in 0..flags.len() {
        let (key, _) = flags.at(i);
        let resolution = evaluate(alloc, flags, key, context, moment)?;
        let spelled = is_spelled(flags, key);
        let read = read_by_flag(alloc, flags, key, context, moment, &resolution)?;
        told.count(&resolution);
        told.add(alloc, metadata, key, read, resolution, spelled)?;
    }
    Ok(told)
}

impl Evaluations {
    /// Counts an evaluation that came to this resolution.
    fn count(&mut self, resolution: &Resolution)
        ensures bodies { map string_bytes self.new.bodies.items ≡ map string_bytes self.old.bodies.items }
        ensures reached { map reached_view self.new.reached.items ≡ map reached_view self.old.reached.items }
    {
        self.reasons.count(resolution);
    }

    /// Adds the evaluation of the flag of a key, or what its targeting reads.
    fn add(
        &mut self,
        alloc: Global,
        metadata: &Metadata,
        key: &str,
        read: Option<DecimalRead>,
        resolution: Resolution,
        spelled: bool,
    ) -> Result<(), AllocError>
        ensures bodies { OnOk result (map string_bytes self.new.bodies.items ≡ map string_bytes self.old.bodies.items ++ body_if_told (option_map read_view read) spelled (flag_metadata (metadata_view metadata.now) key.now) key.now (resolution_view resolution)) }
        ensures reached { OnOk result (map reached_view self.new.reached.items ≡ map reached_view self.old.reached.items ++ reached_at key.now (resolution_view resolution).reached) }
    {
        if status_of(&resolution) == StatusCode::NOT_FOUND {
            return push_reached(alloc, &mut self.reached, key, resolution.reached);
        }
        let text = told_text(alloc, metadata, key, read, &resolution, spelled)?;
        self.bodies.push(text)?;
        push_reached(alloc, &mut self.reached, key, resolution.reached)
    }
}

/// The answer with these evaluations and metadata under the tag of its body, or without a body for a caller who has it.
fn tagged(
    alloc: Global,
    if_none_match: &[&[u8]],
    told: Evaluations,
    metadata: Option<String>,
) -> Result<Answer, AllocError>
    ensures { IfOk result (λ a. answer_view a ≡ tagged (map (λ field. field.now) if_none_match.now) (flags_text (option_map string_bytes metadata) (map string_bytes told.bodies.items)) (map reached_view told.reached.items)) }
{
    let text = flags_text(alloc, told.bodies.as_slice(), text_in(&metadata))?.into_bytes();
    let opaque = opaque_tag(alloc, text.as_slice())?;
    let tag = entity_tag(alloc, opaque.as_str())?;
    let named = is_named(opaque.as_str(), if_none_match);
    Ok(Answer {
        status: status_if(named),
        allow: None,
        tag: Some(tag),
        content: content_unless(named, text),
        reached: told.reached,
        reasons: told.reasons,
    })
}

fn text_in(text: &Option<String>) -> Option<&str>
    ensures { option_copied result ≡ option_map string_bytes text.now }
{
    match text {
        Some(text) => Some(text.as_str()),
        None => None,
    }
}

fn status_if(named: bool) -> StatusCode
    ensures { result ≡ (if named then 304 else 200) }
{
    if named {
        StatusCode::NOT_MODIFIED
    } else {
        StatusCode::OK
    }
}

fn content_unless(named: bool, text: Vec<u8>) -> Content
    ensures { body_view result ≡ (if named then nothing else json text.items) }
{
    if named {
        Content::Nothing
    } else {
        Content::Json(text)
    }
}

/// Whether one of the fields names the opaque tag.
fn is_named(opaque: &str, fields: &[&[u8]]) -> bool
    ensures { result ≡ spec.is_named opaque.now (map (λ field. field.now) fields.now) }
{
    for field in fields {
        if is_listed(opaque, field) {
            return true;
        }
    }
    false
}
