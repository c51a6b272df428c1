//! The answer where notes can't be recorded.
ghost use Rattle.std.specs.Prelude.{◌≡◌, [], true, OnOk};
ghost use Rattle.http_server.specs.Response.{IsBlank, IsResponse};
ghost use Rattle.ofrep_answers.specs.Answer.{Answered};
ghost use Rattle.ofrep_worker.specs.Sent.{Fails, GivesIn, TellsFailure, TellsUnready, unready_text};

use bytes::BufMut;
use http::header::CONTENT_TYPE;
use http::{HeaderValue, StatusCode};
use http_server::Response;
use note_log::Trouble;
use std::alloc::AllocError;

const UNRECORDED: &[u8] = br#"{"errorDetails":"the log can't be written"}"#;

/// Leaves the response as it is where the answer is to be given, or it tells why the service is not ready; and else makes it one
/// that tells that the log failed.
pub(crate) fn give(unready: Option<Trouble>, is_given: bool, response: &mut Response)
    ensures { (a : Answered) → GivesIn unready true a response.old → GivesIn unready is_given a response.new }
{
    if unready.is_none() && !is_given {
        fail(response);
    }
}

/// Fills a response with why the service is not ready.
pub(crate) fn tell_unready(trouble: Trouble, response: &mut Response) -> Result<(), AllocError>
    requires { IsBlank response.old }
    ensures { OnOk result (TellsUnready trouble response.new) }
{
    response.status = StatusCode::SERVICE_UNAVAILABLE;
    let plain = HeaderValue::from_static("text/plain; charset=utf-8");
    response.add_header(CONTENT_TYPE, plain)?;
    response.body.put_slice(unready_text(trouble).as_bytes())
}

/// Why the service is not ready.
fn unready_text(trouble: Trouble) -> &'static str
    ensures { result.now ≡ unready_text trouble }
{
    match trouble {
        Trouble::Lost => "a log is lost, and its path can't be opened",
        Trouble::Unwritten => "a log can't be written",
    }
}

/// Makes the response one that tells of the failure, and of nothing else. Where memory runs out it has no body.
fn fail(response: &mut Response)
    ensures { Fails response.new }
{
    response.clear();
    if tell(response).is_err() {
        leave_empty(response);
    }
}

/// Makes the response one without a body, where memory ran out or there is no snapshot.
pub(crate) fn leave_empty(response: &mut Response)
    ensures { IsResponse 500 [] [] response.new }
{
    response.clear();
    response.status = StatusCode::INTERNAL_SERVER_ERROR;
}

fn tell(response: &mut Response) -> Result<(), AllocError>
    requires { IsBlank response.old }
    ensures { OnOk result (TellsFailure response.new) }
{
    response.status = StatusCode::INTERNAL_SERVER_ERROR;
    response.add_header(CONTENT_TYPE, HeaderValue::from_static("application/json"))?;
    response.body.put_slice(UNRECORDED)
}
