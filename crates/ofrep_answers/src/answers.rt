//! The answer to any request.
ghost use Rattle.std.specs.Prelude.{◌≡◌, ◌≢◌, ◌<◌, ◌^◌, false, length, codes, IfOk, IsOk};
ghost use Rattle.flag_defs.specs.Flags.{flags_view};
ghost use Rattle.flag_defs.specs.Floats.{floats_view};
ghost use Rattle.ofrep_answers.specs.Answer.{allow_of, answer_at, answer_of, answer_view, answer_with, takes};
ghost use Rattle.flag_metadata.specs.View.{metadata_view};
ghost use Rattle.ofrep_answers.specs.Metadata.{metadata_of};
ghost use Rattle.ofrep_answers.specs.Request.{evaluates, request_view};
ghost use Rattle.ofrep_answers.specs.Context.{max_body};
ghost use Rattle.ofrep_requests.specs.Request.{place_of};

use crate::answer::{Answer, Content};
use crate::every::every_flag;
use crate::one::one_flag;
use crate::request::Request;
use flag_defs::Flags;
use flag_metadata::Metadata;
use http::StatusCode;
use json::Scratch;
use ofrep_requests::Place;
use std::alloc::{AllocError, Global};

/// The answer to a request, of these flags at the moment in seconds.
///
/// | request | status | body |
/// |---|---|---|
/// | `POST /ofrep/v1/evaluate/flags/KEY` | 200, 400, 404, 413 | the flag of the key |
/// | `POST /ofrep/v1/evaluate/flags` | 200, 304, 400, 413 | every flag, with the field `ETag` |
/// | `GET` or `HEAD /healthz`, `/readyz` | 200 | `ok` |
/// | `GET` or `HEAD /metrics` | 200 | what the service counts |
/// | another method there | 405 | with the field `Allow` |
/// | a key that can't be decoded | 404 | as of a flag that is unknown |
/// | another path | 404 | |
///
/// A body of more than 4,194,304 bytes is 413, one without a context 400. A flag that is unknown, disabled or leaves it to the
/// caller is 404, and has no body among every flag's; one that is broken or can't be evaluated is 400.
///
/// The condition is a moment of at most 2^53-1. It fails only where memory runs out, and never where no flag is evaluated.
/// Each flag costs three searches by its key and at most one evaluation. The value of a flag with floats is printed by its spelling.
pub fn answer_to(
    alloc: Global,
    flags: &Flags,
    moment: u64,
    request: &Request<'_>,
) -> Result<Answer, AllocError>
    requires moment { moment < 2 ^ 53 }
    ensures exact { IfOk result (λ a. answer_view a ≡ answer_of (flags_view flags.now, floats_view flags.now) moment (request_view request.now)) }
    ensures elsewhere { evaluates (place_of request.now.path.now) ≡ false → IsOk result }
    ensures method { request.now.method.now ≢ codes "POST" → IsOk result }
    ensures large { place_of request.now.path.now ≡ Place.EveryFlag → max_body < length request.now.body.now → IsOk result }
{
    answer_to_with(alloc, flags, moment, request, &mut Scratch::new(alloc))
}

/// As [`answer_to`], with room that the caller keeps from request to request. What the room holds makes no difference.
pub fn answer_to_with(
    alloc: Global,
    flags: &Flags,
    moment: u64,
    request: &Request<'_>,
    scratch: &mut Scratch,
) -> Result<Answer, AllocError>
    requires moment { moment < 2 ^ 53 }
    ensures exact { IfOk result (λ a. answer_view a ≡ answer_of (flags_view flags.now, floats_view flags.now) moment (request_view request.now)) }
    ensures elsewhere { evaluates (place_of request.now.path.now) ≡ false → IsOk result }
    ensures method { request.now.method.now ≢ codes "POST" → IsOk result }
    ensures large { place_of request.now.path.now ≡ Place.EveryFlag → max_body < length request.now.body.now → IsOk result }
{
    let none = Metadata::none(alloc);
    answer_with_metadata(alloc, flags, &none, moment, request, scratch)
}

/// As [`answer_to_with`], with the metadata of the documents that the flags are of: an answer has that of each flag, and the answer of
/// every flag has that of all documents together beside the flags, where one of them has a member.
pub fn answer_with_metadata(
    alloc: Global,
    flags: &Flags,
    metadata: &Metadata,
    moment: u64,
    request: &Request<'_>,
    scratch: &mut Scratch,
) -> Result<Answer, AllocError>
    requires moment { moment < 2 ^ 53 }
    ensures exact { IfOk result (λ a. answer_view a ≡ answer_with (metadata_of (metadata_view metadata.now)) (flags_view flags.now, floats_view flags.now) moment (request_view request.now)) }
    ensures elsewhere { evaluates (place_of request.now.path.now) ≡ false → IsOk result }
    ensures method { request.now.method.now ≢ codes "POST" → IsOk result }
    ensures large { place_of request.now.path.now ≡ Place.EveryFlag → max_body < length request.now.body.now → IsOk result }
{
    let place = Place::of(request.path);
    let Some(method) = place.method() else {
        return Ok(Answer::nothing_here(alloc));
    };
    if takes(method, request.method) {
        return answer_at(alloc, flags, metadata, moment, request, place, scratch);
    }
    Ok(Answer::not_allowed(alloc, allow_of(method)))
}

/// Whether a place that takes a method takes a request of this one: where `GET` is taken `HEAD` is.
fn takes(method: &str, requested: &str) -> bool
    ensures { result ≡ takes method.now requested.now }
{
    requested == method || method == "GET" && requested == "HEAD"
}

/// The methods that such a place takes, as the field `Allow` names them.
fn allow_of(method: &'static str) -> &'static str
    ensures { result.now ≡ allow_of method.now }
{
    if method == "GET" { "GET, HEAD" } else { method }
}

/// The answer to a request whose method its place takes.
fn answer_at(
    alloc: Global,
    flags: &Flags,
    metadata: &Metadata,
    moment: u64,
    request: &Request<'_>,
    place: Place,
    scratch: &mut Scratch,
) -> Result<Answer, AllocError>
    requires moment { moment < 2 ^ 53 }
    ensures exact { IfOk result (λ a. answer_view a ≡ answer_at (metadata_of (metadata_view metadata.now)) (flags_view flags.now, floats_view flags.now) moment (request_view request.now) place) }
    ensures elsewhere { evaluates place ≡ false → IsOk result }
    ensures large { place ≡ Place.EveryFlag → max_body < length request.now.body.now → IsOk result }
{
    match place {
        Place::OneFlag => one_flag(
            alloc,
            flags,
            metadata,
            moment,
            request.path,
            request.body,
            scratch,
        ),
        Place::EveryFlag => every_flag(
            alloc,
            flags,
            metadata,
            moment,
            request.if_none_match,
            request.body,
            scratch,
        ),
        Place::Health => Ok(Answer::bare(alloc, StatusCode::OK, Content::Plain("ok"))),
        Place::Metrics => Ok(Answer::bare(alloc, StatusCode::OK, Content::Counts)),
        Place::Nowhere => Ok(Answer::nothing_here(alloc)),
    }
}
