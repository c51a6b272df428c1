//! What a connection refuses by itself.
ghost use Rattle.std.specs.Prelude.{◌≡◌, IfOk, take, decimal, if◌then◌else◌, string_bytes};
ghost use Rattle.http_server.specs.Refusal.{bad_request, part_status, refusal_status, uri_too_long};
ghost use Rattle.httpdate.specs.Date.{date_text};
ghost use Rattle.ofrep_connections.specs.Refused.{closing_text, refusal_in, status_text};

use http_server::{Reason, Refusal, State};
use httpdate::HttpDate;
use std::alloc::{AllocError, Global};

/// Why a connection in this state has refused a request, where it has.
pub(crate) fn refusal_in(state: State) -> Option<Refusal>
    ensures { result ≡ refusal_in state }
{
    match state {
        State::Closing(Reason::Refused(why)) => Some(why),
        _ => None,
    }
}

/// The status of the answer that says so.
pub(crate) fn status_of(why: Refusal) -> u16
    ensures number { decimal result ≡ take 3 (refusal_status why) }
    ensures text { status_text result ≡ refusal_status why }
{
    match why {
        Refusal::Truncated => 400,
        Refusal::Unreadable(error) => error.status(),
        Refusal::BodyTooLarge => 413,
        Refusal::InvalidPart(error) => part_status(error),
        Refusal::InvalidHost => 400,
        Refusal::UnknownCoding => 501,
        Refusal::InvalidResponse(_) => 500,
    }
}

/// The status for a part of a request that the types of `http` do not hold.
fn part_status(error: http::Error) -> u16
    ensures number { decimal result ≡ take 3 (part_status error) }
    ensures text { status_text result ≡ part_status error }
{
    match error {
        http::Error::HeaderName => 431,
        http::Error::MaxSizeReached => 431,
        http::Error::Uri(uri) => uri_status(uri.is_too_long()),
        _ => 400,
    }
}

/// The status for a URI that is refused.
fn uri_status(is_too_long: bool) -> u16
    ensures number { decimal result ≡ take 3 (if is_too_long then uri_too_long else bad_request) }
    ensures text { status_text result ≡ (if is_too_long then uri_too_long else bad_request) }
{
    if is_too_long { 414 } else { 400 }
}

/// The answer of this status and date, which has no body and announces the close.
pub(crate) fn closing_text(alloc: Global, status: u16, date: HttpDate) -> Result<String, AllocError>
    ensures { IfOk result (λ text. string_bytes text ≡ closing_text (status_text status) (date_text date)) }
{
    closing_with(alloc, status_text(status), date)
}

/// The answer of a status with its reason phrase.
#[tactic(auto, unfolding(crate::specs::Refused::closing_text))]
fn closing_with(alloc: Global, status: &str, date: HttpDate) -> Result<String, AllocError>
    ensures { IfOk result (λ text. string_bytes text ≡ closing_text status.now (date_text date)) }
{
    format!(in alloc;
        "HTTP/1.1 {status}\r\ndate: {date}\r\nconnection: close\r\ncontent-length: 0\r\n\r\n"
    )
}

/// A status with its reason phrase.
pub(crate) fn status_text(status: u16) -> &'static str
    ensures { result.now ≡ status_text status }
{
    if status == 408 {
        "408 Request Timeout"
    } else if status == 413 {
        "413 Payload Too Large"
    } else if status == 414 {
        "414 URI Too Long"
    } else if status == 431 {
        "431 Request Header Fields Too Large"
    } else if status == 500 {
        "500 Internal Server Error"
    } else if status == 501 {
        "501 Not Implemented"
    } else {
        "400 Bad Request"
    }
}
