//! What a guard reads of a request.
ghost use Rattle.std.specs.Prelude.{◌≡◌, codes, option_copied};
ghost use Rattle.http.specs.Request.{head_of};
ghost use Rattle.http_header.specs.HeaderMap.{get};
ghost use Rattle.ofrep_guards.specs.Asked.{asked_of, evaluates, is_preflight, is_unsupported, page_of, value_of};

use crate::media_type::is_json;
use bytes::Bytes;
use http::header::{CONTENT_ENCODING, CONTENT_TYPE, ORIGIN};
use http::{HeaderValue, Request};
use ofrep_requests::Place;

/// Whether flags are evaluated at a place.
pub(crate) fn evaluates(place: Place) -> bool
    ensures { result ≡ evaluates place }
{
    match place {
        Place::OneFlag | Place::EveryFlag => true,
        Place::Health | Place::Metrics | Place::Nowhere => false,
    }
}

/// The origin of the page that an evaluation is for, where it is for one.
pub(crate) fn page_of(request: &Request<Bytes>) -> Option<&HeaderValue>
    ensures { value_of (option_copied result) ≡ page_of (asked_of request.now) }
{
    if evaluates(Place::of(request.uri().path())) {
        origin_of(request)
    } else {
        None
    }
}

/// The origin that a request names, where it names one.
pub(crate) fn origin_of(request: &Request<Bytes>) -> Option<&HeaderValue>
    ensures { option_copied result ≡ get (head_of request.now).headers (codes "origin") }
{
    request.headers().get(ORIGIN)
}

/// Whether a browser asks what a page may ask.
pub(crate) fn is_preflight(request: &Request<Bytes>) -> bool
    ensures { result ≡ is_preflight (asked_of request.now) }
{
    request.method().as_str() == "OPTIONS" && origin_of(request).is_some()
}

/// Whether a body says to be encoded, or to be no JSON.
pub(crate) fn is_unsupported(request: &Request<Bytes>) -> bool
    ensures { result ≡ is_unsupported (asked_of request.now) }
{
    let headers = request.headers();
    if headers.get(CONTENT_ENCODING).is_some() {
        return true;
    }
    match headers.get(CONTENT_TYPE) {
        Some(value) => !is_json(value.as_bytes()),
        None => false,
    }
}
