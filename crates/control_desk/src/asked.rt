//! What a desk reads of a request.
ghost use Rattle.std.specs.Prelude.{◌≡◌, codes, drop, option_copied, option_map, take, unwrap_or, []};
ghost use Rattle.http.specs.Request.{head_of};
ghost use Rattle.http_header.specs.HeaderMap.{get};
ghost use Rattle.control_desk.specs.Asked.{IsTextOf, asker_in, call_asked, field_view, value_of};

use bytes::Bytes;
use http::header::{AUTHORIZATION, FROM, IF_NONE_MATCH};
use http::{HeaderName, HeaderValue, Request};
use std::str;

/// How many bytes of a key tell whose it is.
const KEY_PREFIX: usize = 4;

/// The bytes before the key in a field `Authorization: Bearer KEY`.
const SCHEME: usize = 7;

/// The query of a request, empty where it has none.
pub(crate) fn query_of(request: &Request<Bytes>) -> &str
    ensures { result.now ≡ (call_asked request.now).query }
{
    match request.uri().query() {
        Some(query) => query,
        None => "",
    }
}

/// The value of the field `If-None-Match`, where a request has one.
pub(crate) fn held_of(request: &Request<Bytes>) -> Option<&[u8]>
    ensures { option_map (λ field. field.now) result ≡ (call_asked request.now).held }
{
    bytes_of(held_field(request))
}

fn held_field(request: &Request<Bytes>) -> Option<&HeaderValue>
    ensures { option_copied result ≡ get (head_of request.now).headers (codes "if-none-match") }
{
    request.headers().get(IF_NONE_MATCH)
}

fn bytes_of(value: Option<&HeaderValue>) -> Option<&[u8]>
    ensures { option_map (λ field. field.now) result ≡ value_of (option_copied value.entry) }
{
    match value {
        Some(value) => Some(value.as_bytes()),
        None => None,
    }
}

/// What tells who asks: the field `From` of the request, or else the first bytes of the key that it shows.
pub(crate) fn asker_of(request: &Request<Bytes>) -> &[u8]
    ensures { result.now ≡ (call_asked request.now).asker }
{
    asker_in(
        bytes_of(from_field(request)),
        bytes_of(key_field(request)),
        bytes_of(authorization_field(request)),
    )
}

fn from_field(request: &Request<Bytes>) -> Option<&HeaderValue>
    ensures { option_copied result ≡ get (head_of request.now).headers (codes "from") }
{
    request.headers().get(FROM)
}

fn key_field(request: &Request<Bytes>) -> Option<&HeaderValue>
    ensures { option_copied result ≡ get (head_of request.now).headers (codes "x-api-key") }
{
    request.headers().get(HeaderName::from_static("x-api-key"))
}

fn authorization_field(request: &Request<Bytes>) -> Option<&HeaderValue>
    ensures { option_copied result ≡ get (head_of request.now).headers (codes "authorization") }
{
    request.headers().get(AUTHORIZATION)
}

/// What tells who asks, by the values of the fields `From`, `X-API-Key` and `Authorization`.
fn asker_in<'a>(
    from: Option<&'a [u8]>,
    key: Option<&'a [u8]>,
    authorization: Option<&'a [u8]>,
) -> &'a [u8]
    ensures { result.now ≡ asker_in (field_view from.entry) (field_view key.entry) (field_view authorization.entry) }
{
    match (from, key, authorization) {
        (Some(from), _, _) => from,
        (None, Some(key), _) => first(KEY_PREFIX, key),
        (None, None, Some(value)) => first(KEY_PREFIX, behind(SCHEME, value)),
        (None, None, None) => &[],
    }
}

/// The first so many bytes, or all where there are fewer.
fn first(count: usize, bytes: &[u8]) -> &[u8]
    ensures { result.now ≡ take count bytes.now }
{
    if count < bytes.len() {
        &bytes[..count]
    } else {
        bytes
    }
}

/// What stands behind the first so many bytes.
fn behind(count: usize, bytes: &[u8]) -> &[u8]
    ensures { result.now ≡ drop count bytes.now }
{
    if count < bytes.len() {
        &bytes[count..]
    } else {
        &[]
    }
}

/// These bytes as a text, empty where they are none.
pub(crate) fn text_of(bytes: &[u8]) -> &str
    ensures { IsTextOf bytes.now result.now }
{
    match str::from_utf8(bytes) {
        Ok(text) => text,
        Err(_) => "",
    }
}
