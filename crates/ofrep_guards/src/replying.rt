//! Responses of a guard.
ghost use Rattle.std.specs.Prelude.{◌≡◌, ◌++◌, OnOk, option_copied};
ghost use Rattle.http_server.specs.Response.{IsBlank, IsResponse, fields_of};
ghost use Rattle.ofrep_guards.specs.Asked.{value_of};
ghost use Rattle.ofrep_guards.specs.Reply.{Replies, Shares, challenge_fields, json_fields, origin_fields, page_fields, plain_fields, post_fields, preflight_fields, reply_fields, reply_text, status_of};

use crate::reply::Reply;
use bytes::BufMut;
use http::header::{
    ACCESS_CONTROL_ALLOW_HEADERS, ACCESS_CONTROL_ALLOW_METHODS, ACCESS_CONTROL_ALLOW_ORIGIN,
    ACCESS_CONTROL_EXPOSE_HEADERS, ACCESS_CONTROL_MAX_AGE, ALLOW, CONTENT_TYPE, VARY,
    WWW_AUTHENTICATE,
};
use http::{HeaderValue, StatusCode};
use http_server::Response;
use std::alloc::AllocError;

/// Fills a response with a reply. Where memory runs out it has the status alone.
pub(crate) fn respond(reply: Reply, page: Option<&HeaderValue>, response: &mut Response)
    requires { IsBlank response.old }
    ensures { Replies reply (value_of (option_copied page.entry)) response.new }
{
    if fill(reply, page, response).is_err() {
        response.clear();
        response.status = reply.status();
    }
}

/// Lets the page that a response is for read it. Where memory runs out for that the response tells nothing.
pub(crate) fn share(page: Option<&HeaderValue>, response: &mut Response)
    ensures { Shares (value_of (option_copied page.entry)) response.old response.new }
{
    let Some(origin) = page else {
        return;
    };
    if add_origin(origin, response).is_err() {
        response.clear();
        response.status = StatusCode::INTERNAL_SERVER_ERROR;
    }
}

fn fill(reply: Reply, page: Option<&HeaderValue>, response: &mut Response) -> Result<(), AllocError>
    requires { IsBlank response.old }
    ensures { OnOk result (IsResponse (status_of reply) (reply_fields reply (value_of (option_copied page.entry))) (reply_text reply) response.new) }
{
    response.status = reply.status();
    add_fields(reply, page, response)?;
    response.body.put_slice(reply.text().as_bytes())
}

/// Adds the fields of a reply.
fn add_fields(
    reply: Reply,
    page: Option<&HeaderValue>,
    response: &mut Response,
) -> Result<(), AllocError>
    ensures fields { OnOk result (fields_of response.new ≡ fields_of response.old ++ reply_fields reply (value_of (option_copied page.entry))) }
    ensures status { response.new.status ≡ response.old.status }
    ensures body { response.new.body ≡ response.old.body }
{
    match reply {
        Reply::Forbidden | Reply::Elsewhere | Reply::Foreign | Reply::Stops => add_json(response),
        Reply::Leaves => add_plain(response),
        Reply::OnlyPost => add_method(response),
        Reply::Preflight => {
            add_page(page, response)?;
            add_preflight(response)
        }
        Reply::Unauthorized => {
            add_page(page, response)?;
            add_challenge(response)
        }
        Reply::Unsupported => {
            add_page(page, response)?;
            add_json(response)
        }
    }
}

/// Adds the fields by which a page may read a response, where it is for one.
fn add_page(page: Option<&HeaderValue>, response: &mut Response) -> Result<(), AllocError>
    ensures fields { OnOk result (fields_of response.new ≡ fields_of response.old ++ page_fields (value_of (option_copied page.entry))) }
    ensures status { response.new.status ≡ response.old.status }
    ensures body { response.new.body ≡ response.old.body }
{
    match page {
        Some(origin) => add_origin(origin, response),
        None => Ok(()),
    }
}

/// Adds the fields by which the pages of an origin may read a response.
fn add_origin(origin: &HeaderValue, response: &mut Response) -> Result<(), AllocError>
    ensures fields { OnOk result (fields_of response.new ≡ fields_of response.old ++ origin_fields origin.now.bytes) }
    ensures status { response.new.status ≡ response.old.status }
    ensures body { response.new.body ≡ response.old.body }
{
    response.add_header(ACCESS_CONTROL_ALLOW_ORIGIN, origin.clone()?)?;
    let seen = HeaderValue::from_static("ETag");
    response.add_header(ACCESS_CONTROL_EXPOSE_HEADERS, seen)?;
    response.add_header(VARY, HeaderValue::from_static("Origin"))
}

/// Adds the fields that tell a browser what a page may ask.
fn add_preflight(response: &mut Response) -> Result<(), AllocError>
    ensures fields { OnOk result (fields_of response.new ≡ fields_of response.old ++ preflight_fields) }
    ensures status { response.new.status ≡ response.old.status }
    ensures body { response.new.body ≡ response.old.body }
{
    let post = HeaderValue::from_static("POST");
    response.add_header(ACCESS_CONTROL_ALLOW_METHODS, post)?;
    let fields = HeaderValue::from_static("content-type, if-none-match, authorization, x-api-key");
    response.add_header(ACCESS_CONTROL_ALLOW_HEADERS, fields)?;
    response.add_header(ACCESS_CONTROL_MAX_AGE, HeaderValue::from_static("600"))
}

/// Adds how a key is shown, and the media type of JSON.
fn add_challenge(response: &mut Response) -> Result<(), AllocError>
    ensures fields { OnOk result (fields_of response.new ≡ fields_of response.old ++ challenge_fields) }
    ensures status { response.new.status ≡ response.old.status }
    ensures body { response.new.body ≡ response.old.body }
{
    let scheme = HeaderValue::from_static("Bearer");
    response.add_header(WWW_AUTHENTICATE, scheme)?;
    response.add_header(CONTENT_TYPE, HeaderValue::from_static("application/json"))
}

/// Adds the media type of JSON.
fn add_json(response: &mut Response) -> Result<(), AllocError>
    ensures fields { OnOk result (fields_of response.new ≡ fields_of response.old ++ json_fields) }
    ensures status { response.new.status ≡ response.old.status }
    ensures body { response.new.body ≡ response.old.body }
{
    response.add_header(CONTENT_TYPE, HeaderValue::from_static("application/json"))
}

/// Adds the media type of plain text.
fn add_plain(response: &mut Response) -> Result<(), AllocError>
    ensures fields { OnOk result (fields_of response.new ≡ fields_of response.old ++ plain_fields) }
    ensures status { response.new.status ≡ response.old.status }
    ensures body { response.new.body ≡ response.old.body }
{
    let plain = HeaderValue::from_static("text/plain; charset=utf-8");
    response.add_header(CONTENT_TYPE, plain)
}

/// Adds the one method that is taken, and the media type of JSON.
fn add_method(response: &mut Response) -> Result<(), AllocError>
    ensures fields { OnOk result (fields_of response.new ≡ fields_of response.old ++ post_fields) }
    ensures status { response.new.status ≡ response.old.status }
    ensures body { response.new.body ≡ response.old.body }
{
    let post = HeaderValue::from_static("POST");
    response.add_header(ALLOW, post)?;
    response.add_header(CONTENT_TYPE, HeaderValue::from_static("application/json"))
}
