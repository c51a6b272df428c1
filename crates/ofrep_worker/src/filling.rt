//! From an answer to a response.
ghost use Rattle.std.specs.Prelude.{◌≡◌, ◌++◌, OnOk, option_copied};
ghost use Rattle.http_server.specs.Response.{IsBlank, IsResponse, fields_of};
ghost use Rattle.ofrep_answers.specs.Answer.{answer_view, bytes_of};
ghost use Rattle.ofrep_worker.specs.Sent.{field, fields};

use bytes::BufMut;
use http::header::{ALLOW, CONTENT_TYPE, ETAG};
use http::{HeaderName, HeaderValue};
use http_header::HeaderValueError;
use http_server::Response;
use ofrep_answers::Answer;
use std::alloc::{AllocError, Global};

/// Fills a response with an answer.
pub(crate) fn fill(
    alloc: Global,
    answer: &Answer,
    response: &mut Response,
) -> Result<(), AllocError>
    requires { IsBlank response.old }
    ensures { OnOk result (IsResponse (answer_view answer.now).status (fields (answer_view answer.now)) (bytes_of (answer_view answer.now).body) response.new) }
{
    response.status = answer.status;
    add_field(alloc, response, CONTENT_TYPE, answer.content.media_type())?;
    add_field(alloc, response, ALLOW, answer.allow)?;
    add_field(alloc, response, ETAG, tag_of(answer))?;
    response.body.put_slice(answer.content.as_bytes())?;
    Ok(())
}

fn tag_of(answer: &Answer) -> Option<&str>
    ensures { option_copied result ≡ (answer_view answer.now).tag }
{
    match &answer.tag {
        None => None,
        Some(tag) => Some(tag.as_str()),
    }
}

/// Adds a field, where there is a value for it.
fn add_field(
    alloc: Global,
    response: &mut Response,
    name: HeaderName,
    value: Option<&str>,
) -> Result<(), AllocError>
    ensures fields { OnOk result (fields_of response.new ≡ fields_of response.old ++ field name (option_copied value.entry)) }
    ensures status { response.new.status ≡ response.old.status }
    ensures body { response.new.body ≡ response.old.body }
{
    let Some(text) = value else {
        return Ok(());
    };
    match HeaderValue::from_str(alloc, text) {
        Ok(value) => response.add_header(name, value),
        Err(HeaderValueError::Invalid) => Ok(()),
        Err(HeaderValueError::OutOfMemory) => Err(AllocError),
    }
}
