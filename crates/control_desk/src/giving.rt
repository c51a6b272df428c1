//! Responses of a desk.
ghost use Rattle.std.specs.Prelude.{◌≡◌, ◌++◌, [], OnOk, codes, decimal};
ghost use Rattle.http_header.specs.FieldValue.{plain_value};
ghost use Rattle.http_server.specs.Response.{IsBlank, IsResponse, fields_of};
ghost use Rattle.control_desk.specs.Reply.{Replies, media_of, more_of, reply_text, status_of};
ghost use Rattle.control_desk.specs.Sent.{IsPage, field, fields_in, media_type, number_field, type_field};

use crate::page::ConsolePage;
use crate::reply::Reply;
use bytes::BufMut;
use http::header::{
    ALLOW, CONTENT_SECURITY_POLICY, CONTENT_TYPE, ETAG, RETRY_AFTER, WWW_AUTHENTICATE,
};
use http::{HeaderName, HeaderValue, StatusCode};
use http_header::HeaderValueError;
use http_server::Response;
use std::alloc::{AllocError, Global};

/// What a body is.
#[derive(Clone, Copy, Debug, PartialEq, Eq)]
pub(crate) enum Media {
    Html,
    Json,
    /// JSON Lines.
    Lines,
    Plain,
}

impl Media {
    /// As the field `Content-Type` names it.
    fn value(self) -> HeaderValue
        ensures { result ≡ plain_value (media_type self) }
    {
        match self {
            Media::Html => HeaderValue::from_static("text/html; charset=utf-8"),
            Media::Json => HeaderValue::from_static("application/json"),
            Media::Lines => HeaderValue::from_static("application/jsonl"),
            Media::Plain => HeaderValue::from_static("text/plain; charset=utf-8"),
        }
    }
}

/// Gives a response that has fields already its status, its type and its body.
pub(crate) fn finish(
    status: StatusCode,
    media: Media,
    body: &[u8],
    response: &mut Response,
) -> Result<(), AllocError>
    requires { response.old.body.items ≡ [] }
    ensures { OnOk result (IsResponse status (fields_of response.old ++ type_field media) body.now response.new) }
{
    response.status = status;
    add_type(media, response)?;
    response.body.put_slice(body)
}

/// Adds what the body of a response is.
fn add_type(media: Media, response: &mut Response) -> Result<(), AllocError>
    ensures fields { OnOk result (fields_of response.new ≡ fields_of response.old ++ type_field media) }
    ensures status { response.new.status ≡ response.old.status }
    ensures body { response.new.body ≡ response.old.body }
{
    response.add_header(CONTENT_TYPE, media.value())
}

/// Makes a response a reply. Where memory runs out it has the status alone.
pub(crate) fn respond(reply: Reply, response: &mut Response)
    ensures { Replies reply response.new }
{
    response.clear();
    if fill(reply, response).is_err() {
        response.clear();
        response.status = reply.status();
    }
}

/// Fills a response with a reply.
fn fill(reply: Reply, response: &mut Response) -> Result<(), AllocError>
    requires { IsBlank response.old }
    ensures { OnOk result (IsResponse (status_of reply) (more_of reply ++ type_field (media_of reply)) (reply_text reply) response.new) }
{
    add_more(reply, response)?;
    finish(
        reply.status(),
        reply.media(),
        reply.text().as_bytes(),
        response,
    )
}

/// Adds the field that a reply has beside its type.
fn add_more(reply: Reply, response: &mut Response) -> Result<(), AllocError>
    ensures fields { OnOk result (fields_of response.new ≡ fields_of response.old ++ more_of reply) }
    ensures body { response.new.body ≡ response.old.body }
{
    match more_of(reply) {
        Some((name, value)) => response.add_header(name, value),
        None => Ok(()),
    }
}

/// The field that a reply has beside its type.
fn more_of(reply: Reply) -> Option<(HeaderName, HeaderValue)>
    ensures { fields_in result ≡ more_of reply }
{
    match reply {
        Reply::OnlyGet => Some((ALLOW, HeaderValue::from_static("GET"))),
        Reply::OnlyPost => Some((ALLOW, HeaderValue::from_static("POST"))),
        Reply::Unauthorized => Some((WWW_AUTHENTICATE, HeaderValue::from_static("Bearer"))),
        Reply::Busy => Some((RETRY_AFTER, HeaderValue::from_static("1"))),
        Reply::Unserved | Reply::NoQuery | Reply::Unreadable | Reply::Unwritten | Reply::Leaves =>
            None,
    }
}

/// Makes a response one without a body, where memory ran out or there is no snapshot.
pub(crate) fn leave_empty(response: &mut Response)
    ensures { IsResponse 500 [] [] response.new }
{
    response.clear();
    response.status = StatusCode::INTERNAL_SERVER_ERROR;
}

/// Fills a response with the console.
pub(crate) fn give_page(page: &ConsolePage<'_>, response: &mut Response) -> Result<(), AllocError>
    requires { IsBlank response.old }
    ensures { OnOk result (IsPage page.now.text.now page.now.policy.bytes response.new) }
{
    response.add_header(CONTENT_SECURITY_POLICY, page.policy.clone()?)?;
    finish(StatusCode::OK, Media::Html, page.text.as_bytes(), response)
}

/// Adds the tag of a document.
pub(crate) fn add_tag(alloc: Global, tag: &str, response: &mut Response) -> Result<(), AllocError>
    ensures fields { OnOk result (fields_of response.new ≡ fields_of response.old ++ field (codes "etag") tag.now) }
    ensures status { response.new.status ≡ response.old.status }
    ensures body { response.new.body ≡ response.old.body }
{
    match HeaderValue::from_str(alloc, tag) {
        Ok(value) => response.add_header(ETAG, value),
        Err(HeaderValueError::Invalid) => Ok(()),
        Err(HeaderValueError::OutOfMemory) => Err(AllocError),
    }
}

/// Adds the number of a snapshot.
pub(crate) fn add_number(
    alloc: Global,
    number: u64,
    response: &mut Response,
) -> Result<(), AllocError>
    ensures fields { OnOk result (fields_of response.new ≡ fields_of response.old ++ number_field number) }
    ensures body { response.new.body ≡ response.old.body }
{
    let value = HeaderValue::from_u64(alloc, number)?;
    response.add_header(HeaderName::from_static("x-snapshot"), value)
}
