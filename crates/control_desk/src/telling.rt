//! What is told of a snapshot, and of what is recorded.
ghost use Rattle.std.specs.Prelude.{◌≡◌, [], false, Ok, Some, IfOk, MatchOption, OnOk, map, option_map, string_bytes};
ghost use Rattle.http_server.specs.Response.{IsBlank};
ghost use Rattle.note_streams.specs.LogLines.{files_view};
ghost use Rattle.control_answers.specs.Token.{HasNoMember, IsMember};
ghost use Rattle.control_flags.specs.Calls.{asked_view, record_of};
ghost use Rattle.control_desk.specs.Held.{held_view, numbered_of};
ghost use Rattle.control_desk.specs.Rules.{rules_view};
ghost use Rattle.control_desk.specs.Bodies.{IsNoPair, IsPair, TellsCheck, TellsDocument, TellsFlags, TellsFlagsOn, TellsHistory, TellsObject, TellsPlan, TellsRecord, names_text, with_passed_over};

use crate::giving::{Media, add_number, add_tag, finish, respond};
use crate::held::HeldSnapshot;
use crate::refusing::tell_refusal;
use crate::reply::Reply;
use crate::rules::DeskRules;
use book_core::Page;
use control_answers::{
    ControlRefusal, check_answer, document_tag, history_answer, plan_answer, record_answer,
    site_counts,
};
use control_flags::{FlagsAsked, RecordAsked, flags_answer, record_asked};
use flag_text::push_string;
use http::StatusCode;
use http_server::Response;
use note_streams::LogFile;
use simdutf8::basic;
use std::alloc::{AllocError, Global};
use std::collections::BTreeMap;
use text_spans::{Step, find};

/// Fills a response with the flags of a snapshot, and with how many notes log files hold of each of their sites.
pub(crate) fn tell_flags_on(
    alloc: Global,
    rules: &DeskRules,
    held: &HeldSnapshot,
    files: &[LogFile<'_>],
    response: &mut Response,
) -> Result<(), AllocError>
    requires { IsBlank response.old }
    ensures { OnOk result (TellsFlagsOn (rules_view rules.now) (numbered_of held.now) (files_view files.now) response.new) }
{
    let recorded = site_counts(alloc, held.shared.flags(), files)?;
    tell_flags(alloc, rules, held, &recorded, response)
}

/// Fills a response with the flags of a snapshot, and with how many inputs are recorded on pages.
#[tactic(auto, using(crate::proofs::Seen::seen_alike))]
pub(crate) fn tell_flags(
    alloc: Global,
    rules: &DeskRules,
    held: &HeldSnapshot,
    recorded: &BTreeMap<Page, u64>,
    response: &mut Response,
) -> Result<(), AllocError>
    requires { IsBlank response.old }
    ensures { OnOk result (TellsFlags (rules_view rules.now) (numbered_of held.now) recorded.now.entries response.new) }
{
    let sources = borrowed(alloc, rules.documents.as_slice())?;
    let asked = FlagsAsked {
        number: held.shared.number(),
        flags: held.shared.flags(),
        remarks: held.remarks.as_str(),
        sources: sources.as_slice(),
        recorded,
        may_apply: rules.applied_to.is_some(),
    };
    let body = flags_answer(alloc, &asked)?;
    finish(StatusCode::OK, Media::Json, body.as_slice(), response)
}

/// Texts, by where they lie.
#[tactic(auto, using(crate::proofs::Items::one_more))]
fn borrowed<'a>(alloc: Global, texts: &'a [String]) -> Result<Vec<&'a str>, AllocError>
    ensures { IfOk result (λ v. map (λ t. t.now) v.items ≡ map string_bytes texts.now) }
{
    let mut borrowed = Vec::with_capacity(alloc, texts.len())?;
    for text in texts {
        borrowed.push(text.as_str())?;
    }
    Ok(borrowed)
}

/// Fills a response with the document of a snapshot, or with nothing where whoever asks has it, by this value of `If-None-Match`.
pub(crate) fn tell_document(
    alloc: Global,
    held: &HeldSnapshot,
    field: Option<&[u8]>,
    response: &mut Response,
) -> Result<(), AllocError>
    requires { IsBlank response.old }
    ensures { OnOk result (TellsDocument (option_map (λ f. f.now) field.entry) (held_view held.now) response.new) }
{
    let snapshot = held.snapshot();
    let tag = document_tag(alloc, snapshot.document, field)?;
    add_tag(alloc, tag.tag.as_str(), response)?;
    if tag.is_held {
        response.status = StatusCode::NOT_MODIFIED;
        return Ok(());
    }
    add_number(alloc, snapshot.number, response)?;
    let document = snapshot.document.as_bytes();
    finish(StatusCode::OK, Media::Json, document, response)
}

/// Fills a response with the tally of the site that a query names.
pub(crate) fn tell_record(
    alloc: Global,
    query: &str,
    held: &HeldSnapshot,
    files: &[LogFile<'_>],
    response: &mut Response,
) -> Result<(), AllocError>
    requires { IsBlank response.old }
    ensures { OnOk result (TellsRecord (record_of query.now) (held_view held.now) (files_view files.now) response.new) }
{
    match record_asked(alloc, query)? {
        Some(asked) => tell_tally(alloc, &asked, held, files, response),
        None => {
            respond(Reply::NoQuery, response);
            Ok(())
        }
    }
}

/// Fills a response with the tally of a site.
fn tell_tally(
    alloc: Global,
    asked: &RecordAsked,
    held: &HeldSnapshot,
    files: &[LogFile<'_>],
    response: &mut Response,
) -> Result<(), AllocError>
    requires { IsBlank response.old }
    ensures { OnOk result (TellsRecord (Some (asked_view asked.now)) (held_view held.now) (files_view files.now) response.new) }
{
    let flags = held.flags();
    match record_answer(alloc, flags, asked.flag.as_str(), asked.site, files) {
        Ok(text) => finish(StatusCode::OK, Media::Lines, text.as_bytes(), response),
        Err(refusal) => tell_refusal(alloc, "tally", &refusal, files, response),
    }
}

/// Fills a response with the plan of a request.
pub(crate) fn tell_plan(
    alloc: Global,
    request: &[u8],
    passed_over: &[String],
    held: &HeldSnapshot,
    files: &[LogFile<'_>],
    response: &mut Response,
) -> Result<(), AllocError>
    requires { IsBlank response.old }
    ensures { OnOk result (TellsPlan request.now (map string_bytes passed_over.now) (held_view held.now) (files_view files.now) response.new) }
{
    let request = request.to_vec(alloc)?;
    match plan_answer(alloc, &held.snapshot(), request, files) {
        Ok(body) => tell_object(alloc, passed_over, body, response),
        Err(refusal) => tell_refusal(alloc, "plan", &refusal, files, response),
    }
}

/// Fills a response with an object, and with the names of files that were passed over, where there are some.
fn tell_object(
    alloc: Global,
    passed_over: &[String],
    body: Vec<u8>,
    response: &mut Response,
) -> Result<(), AllocError>
    requires { IsBlank response.old }
    ensures { OnOk result (TellsObject [] (map string_bytes passed_over.now) (Ok body.items) response.new) }
{
    let body = with_passed_over(alloc, passed_over, body)?;
    finish(StatusCode::OK, Media::Json, body.as_slice(), response)
}

/// An object with the names of files that were passed over, where there are some.
#[tactic(auto, unfolding(crate::specs::Bodies::with_passed_over))]
fn with_passed_over(
    alloc: Global,
    passed_over: &[String],
    body: Vec<u8>,
) -> Result<Vec<u8>, AllocError>
    ensures { IfOk result (λ v. v.items ≡ with_passed_over (map string_bytes passed_over.now) body.items) }
{
    if passed_over.is_empty() {
        return Ok(body);
    }
    let names = names_text(alloc, passed_over)?;
    let mut body = body;
    body.truncate(body.len().saturating_sub(2));
    body.extend_from_slice(",\"passed_over\":[".as_bytes())?;
    body.extend_from_slice(names.as_bytes())?;
    body.extend_from_slice("]}\n".as_bytes())?;
    Ok(body)
}

/// Names as JSON texts, with commas between.
fn names_text(alloc: Global, names: &[String]) -> Result<String, AllocError>
    ensures { IfOk result (λ s. string_bytes s ≡ names_text false (map string_bytes names.now)) }
{
    let mut out = String::new(alloc);
    let mut later = false;
    for name in names {
        if later {
            out.push_str(",")?;
        }
        push_string(alloc, &mut out, name.as_str())?;
        later = true;
    }
    Ok(out)
}

/// Fills a response with whether the plan of a body is right for the request of it.
pub(crate) fn tell_check(
    alloc: Global,
    body: &[u8],
    passed_over: &[String],
    held: &HeldSnapshot,
    files: &[LogFile<'_>],
    response: &mut Response,
) -> Result<(), AllocError>
    requires { IsBlank response.old }
    ensures { OnOk result (TellsCheck body.now (map string_bytes passed_over.now) (held_view held.now) (files_view files.now) response.new) }
{
    let Some((plan, request)) = pair_in(alloc, body)? else {
        return tell_refusal(alloc, "verify", &ControlRefusal::BadToken, files, response);
    };
    match check_answer(alloc, held.flags(), request, plan, files) {
        Ok(text) => tell_object(alloc, passed_over, text.into_bytes(), response),
        Err(refusal) => tell_refusal(alloc, "verify", &refusal, files, response),
    }
}

/// The plan and the request of a body, as they stand there.
fn pair_in(alloc: Global, body: &[u8]) -> Result<Option<(&[u8], &[u8])>, AllocError>
    ensures { IfOk result (λ o. MatchOption o (IsNoPair body.now) (λ pair. IsPair body.now pair.0.now pair.1.now)) }
{
    let Ok(text) = basic::from_utf8(body) else {
        return Ok(None);
    };
    let Some(plan) = member(alloc, text, "plan")? else {
        return Ok(None);
    };
    let Some(request) = member(alloc, text, "request")? else {
        return Ok(None);
    };
    Ok(Some((plan, request)))
}

/// The bytes of a member of an object.
fn member<'a>(alloc: Global, text: &'a str, name: &str) -> Result<Option<&'a [u8]>, AllocError>
    ensures { IfOk result (λ o. MatchOption o (HasNoMember text.now name.now) (λ bytes. IsMember text.now name.now bytes.now)) }
{
    match find(alloc, text, [Step::Name(name)].as_slice())? {
        Some(span) => Ok(Some(&text.as_bytes()[span.start..span.end])),
        None => Ok(None),
    }
}

/// Fills a response with what was applied.
pub(crate) fn tell_history(
    alloc: Global,
    history: &[u8],
    response: &mut Response,
) -> Result<(), AllocError>
    requires { IsBlank response.old }
    ensures { OnOk result (TellsHistory history.now response.new) }
{
    let body = history_answer(alloc, history)?;
    finish(StatusCode::OK, Media::Json, body.as_slice(), response)
}
