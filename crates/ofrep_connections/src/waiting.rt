//! What of a connection waits to be sent.
ghost use Rattle.std.specs.Prelude.{◌≡◌, ◌++◌, true, IfSome, Some};
ghost use Rattle.http_server.specs.Connection.{history};
ghost use Rattle.http_server.specs.Refusal.{refusal_text};
ghost use Rattle.ofrep_connections.specs.Refused.{refusal_in};
ghost use Rattle.ofrep_connections.specs.Waiting.{IsFront};

use crate::refusals::{refusal_in, status_of, status_text};
use http_server::{Connection, Refusal};

/// How the text of a refusal begins, before its status.
const START: &[u8] = b"HTTP/1.1 ";

/// How it ends.
const END: &[u8] = b"\r\nconnection: close\r\ncontent-length: 0\r\n\r\n";

/// The next bytes of a connection that are sent as they are: all but the text of a refusal, which gets its date.
pub(crate) fn next_answers(connection: &Connection) -> &[u8]
    ensures { IsFront result.now (history connection.now).pending }
{
    let waiting = connection.output();
    match refusal_in(connection.state()) {
        Some(why) => before_refusal(waiting, why).unwrap_or(waiting),
        None => waiting,
    }
}

/// Why a connection has refused a request, where nothing waits but the text that says so.
pub(crate) fn waiting_refusal(connection: &Connection) -> Option<Refusal>
    ensures state { IfSome result (λ why. refusal_in (history connection.now).state ≡ Some why) }
    ensures waits { IfSome result (λ why. IsFront (refusal_text why) (history connection.now).pending) }
{
    let why = refusal_in(connection.state())?;
    if is_refusal(connection.output(), why) {
        Some(why)
    } else {
        None
    }
}

/// Whether nothing more is sent as it is.
pub(crate) fn is_over(connection: &Connection) -> bool {
    connection.is_done() || waiting_refusal(connection).is_some()
}

/// Whether these bytes are the text of a refusal.
fn is_refusal(waiting: &[u8], why: Refusal) -> bool
    ensures { result ≡ true → waiting.now ≡ refusal_text why }
{
    match before_refusal(waiting, why) {
        Some(front) => front.is_empty(),
        None => false,
    }
}

/// The bytes before the text of a refusal, where that ends what waits.
fn before_refusal(waiting: &[u8], why: Refusal) -> Option<&[u8]>
    ensures front { IfSome result (λ front. IsFront front.now waiting.now) }
    ensures text { IfSome result (λ front. waiting.now ≡ front.now ++ refusal_text why) }
{
    let rest = waiting.strip_suffix(END)?;
    let rest = rest.strip_suffix(status_text(status_of(why)).as_bytes())?;
    rest.strip_suffix(START)
}
