//! The line of a request.
ghost use Rattle.std.specs.Prelude.{◌≡◌, ◌<◌, ◌++◌, IfOk, OnOk, decimal, option_map, string_bytes};
ghost use Rattle.httpdate.specs.Date.{date_text};
ghost use Rattle.flag_text.specs.Printing.{text_of};
ghost use Rattle.flag_text.specs.Shape.{text};
ghost use Rattle.service_layers.specs.Line.{answer_part, line_of, moment_text, month_number, request_part, three_digits, time_part, trace_part};
ghost use Rattle.service_layers.specs.View.{access_view};

use crate::access::Access;
use bytes::BufMut;
use flag_text::push_string;
use httpdate::HttpDate;
use std::alloc::{AllocError, Global};

/// The room that most lines need no more than.
const ROOM: usize = 192;

/// The line of what was seen of a request.
#[tactic(auto, using(crate::proofs::Parts::four))]
pub(crate) fn line_of(alloc: Global, access: &Access<'_>) -> Result<Vec<u8>, AllocError>
    requires { access.now.millis < 1000 }
    ensures { IfOk result (λ line. line.items ≡ line_of (access_view access.now)) }
{
    let mut line = Vec::with_capacity(alloc, ROOM)?;
    put_time(&mut line, access.date, access.millis)?;
    put_request(alloc, &mut line, access.method, access.path)?;
    put_answer(alloc, &mut line, access.status, access.micros)?;
    put_trace(&mut line, access.trace)?;
    Ok(line)
}

/// Adds when a request came.
fn put_time(line: &mut Vec<u8>, date: HttpDate, millis: u32) -> Result<(), AllocError>
    requires { millis < 1000 }
    ensures { OnOk result (line.new.items ≡ line.old.items ++ time_part (date_text date) millis) }
{
    line.put_slice(b"{\"time\":\"")?;
    put_date(line, date)?;
    line.put_slice(b".")?;
    put_millis(line, millis)?;
    line.put_slice(b"Z\"")
}

/// Adds a date.
fn put_date(line: &mut Vec<u8>, date: HttpDate) -> Result<(), AllocError>
    ensures { OnOk result (line.new.items ≡ line.old.items ++ moment_text (date_text date)) }
{
    put_moment(line, &date.to_bytes())
}

/// Adds thousandths.
fn put_millis(line: &mut Vec<u8>, millis: u32) -> Result<(), AllocError>
    requires { millis < 1000 }
    ensures { OnOk result (line.new.items ≡ line.old.items ++ three_digits millis) }
{
    line.put_slice(&three_digits(millis))
}

/// Adds a date, of which IMF-fixdate is given.
#[tactic(auto, using(crate::proofs::Parts::five), unfolding(crate::specs::Line::moment_text))]
fn put_moment(line: &mut Vec<u8>, date: &[u8; 29]) -> Result<(), AllocError>
    ensures { OnOk result (line.new.items ≡ line.old.items ++ moment_text date.now) }
{
    line.put_slice(&date[12..16])?;
    line.put_slice(month_number(&date[8..11]).as_bytes())?;
    line.put_slice(&date[5..7])?;
    line.put_slice(b"T")?;
    line.put_slice(&date[17..25])
}

/// The number of a month between hyphens, by its three letters.
fn month_number(name: &[u8]) -> &'static str
    ensures { result.now ≡ month_number name.now }
{
    if name == b"Jan".as_slice() {
        return "-01-";
    }
    if name == b"Feb".as_slice() {
        return "-02-";
    }
    if name == b"Mar".as_slice() {
        return "-03-";
    }
    if name == b"Apr".as_slice() {
        return "-04-";
    }
    if name == b"May".as_slice() {
        return "-05-";
    }
    if name == b"Jun".as_slice() {
        return "-06-";
    }
    if name == b"Jul".as_slice() {
        return "-07-";
    }
    if name == b"Aug".as_slice() {
        return "-08-";
    }
    if name == b"Sep".as_slice() {
        return "-09-";
    }
    if name == b"Oct".as_slice() {
        return "-10-";
    }
    if name == b"Nov".as_slice() {
        return "-11-";
    }
    "-12-"
}

/// A number below 1,000, in three digits.
#[tactic(auto, unfolding(crate::specs::Line::three_digits))]
fn three_digits(number: u32) -> [u8; 3]
    requires { number < 1000 }
    ensures { result ≡ three_digits number }
{
    [
        b'0' + (number / 100) as u8,
        b'0' + (number / 10 % 10) as u8,
        b'0' + (number % 10) as u8,
    ]
}

/// Adds the method and the path of a request.
#[tactic(auto, using(crate::proofs::Parts::four))]
fn put_request(
    alloc: Global,
    line: &mut Vec<u8>,
    method: &str,
    path: &str,
) -> Result<(), AllocError>
    ensures { OnOk result (line.new.items ≡ line.old.items ++ request_part method.now path.now) }
{
    line.put_slice(b",\"method\":")?;
    put_text(alloc, line, method)?;
    line.put_slice(b",\"path\":")?;
    put_text(alloc, line, path)
}

/// Adds a text as JSON has it.
fn put_text(alloc: Global, line: &mut Vec<u8>, content: &str) -> Result<(), AllocError>
    ensures { OnOk result (line.new.items ≡ line.old.items ++ text_of (text content.now)) }
{
    let mut quoted = String::new(alloc);
    push_string(alloc, &mut quoted, content)?;
    line.put_slice(quoted.as_bytes())
}

/// Adds the status of an answer, and the microseconds until it was made.
#[tactic(auto, using(crate::proofs::Parts::four))]
fn put_answer(alloc: Global, line: &mut Vec<u8>, status: u16, micros: u64) -> Result<(), AllocError>
    ensures { OnOk result (line.new.items ≡ line.old.items ++ answer_part status micros) }
{
    line.put_slice(b",\"status\":")?;
    put_number(alloc, line, u64::from(status))?;
    line.put_slice(b",\"microseconds\":")?;
    put_number(alloc, line, micros)
}

fn put_number(alloc: Global, line: &mut Vec<u8>, number: u64) -> Result<(), AllocError>
    ensures { OnOk result (line.new.items ≡ line.old.items ++ decimal number) }
{
    let digits = digits_of(alloc, number)?;
    line.put_slice(digits.as_bytes())
}

fn digits_of(alloc: Global, number: u64) -> Result<String, AllocError>
    ensures { IfOk result (λ digits. string_bytes digits ≡ decimal number) }
{
    format!(in alloc; "{number}")
}

/// Adds the identifier of a trace, where there is one, and ends the line.
#[tactic(auto, using(crate::proofs::Parts::three))]
fn put_trace(line: &mut Vec<u8>, trace: Option<&[u8]>) -> Result<(), AllocError>
    ensures { OnOk result (line.new.items ≡ line.old.items ++ trace_part (option_map (λ id. id.now) trace.entry)) }
{
    let Some(id) = trace else {
        return line.put_slice(b"}\n");
    };
    line.put_slice(b",\"trace\":\"")?;
    line.put_slice(id)?;
    line.put_slice(b"\"}\n")
}
