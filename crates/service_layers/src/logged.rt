//! A service whose requests are logged.
ghost use Rattle.std.specs.Prelude.{◌≡◌, ◌<◌, ◌++◌, IfSome, OnOk, codes, option_copied, option_map};
ghost use Rattle.http.specs.Request.{head_of};
ghost use Rattle.http_header.specs.HeaderMap.{get};
ghost use Rattle.service_layers.specs.Line.{Seen, line_of};
ghost use Rattle.service_layers.specs.Asked.{IsOf, trace_given, trace_of, value_of};
ghost use Rattle.service_layers.specs.View.{access_view};

use crate::Recording;
use crate::access::Access;
use crate::line::line_of;
use crate::lines::AccessLines;
use crate::trace::trace_in;
use bytes::{BufMut, Bytes};
use http::{HeaderName, HeaderValue, Request, StatusCode};
use http_server::{Response, Service};
use httpdate::HttpDate;
use std::alloc::{AllocError, Global};
use std::time::{Clock, Instant, SystemTime, UNIX_EPOCH};

/// A service around another, which answers just as that does, and keeps a line of each request where lines are wanted.
#[derive(Drop)]
pub struct LoggedService<'a, R, S> {
    rt: &'a R,
    alloc: Global,
    lines: Option<&'a AccessLines>,
    /// Its own lines, how many they are, and how many it has left out since it handed any over.
    own: Vec<u8>,
    count: u64,
    left_out: u64,
    service: S,
}

impl<'a, R, S> LoggedService<'a, R, S> {
    /// A service around this one, which hands its lines over to these, where lines are wanted.
    pub fn new(
        rt: &'a R,
        alloc: Global,
        lines: Option<&'a AccessLines>,
        service: S,
    ) -> LoggedService<'a, R, S>
        ensures { result.service ≡ service }
    {
        LoggedService {
            rt,
            alloc,
            lines,
            own: Vec::new(alloc),
            count: 0,
            left_out: 0,
            service,
        }
    }
}

impl<R: Clock, S> LoggedService<'_, R, S> {
    /// When a request comes, where lines are wanted and the system says so.
    fn begin(&self) -> Option<Instant> {
        if self.lines.is_none() {
            return None;
        }
        Instant::now(self.rt).ok()
    }

    /// Keeps the line of a request that came then, where lines are wanted.
    fn keep(&mut self, begun: Option<Instant>, request: &Request<Bytes>, status: StatusCode)
        ensures { self.new.service ≡ self.old.service }
    {
        let Some(begun) = begun else {
            return;
        };
        let micros = micros_since(self.rt, begun);
        let is_kept = match date_of(self.rt) {
            Some((date, millis)) => self
                .keep_line(date, millis, micros, request, status)
                .is_ok(),
            None => false,
        };
        if !is_kept {
            self.left_out = self.left_out.saturating_add(1);
        }
    }
}

impl<R, S> LoggedService<'_, R, S> {
    /// Adds the line of a request to those of its own.
    fn keep_line(
        &mut self,
        date: HttpDate,
        millis: u32,
        micros: u64,
        request: &Request<Bytes>,
        status: StatusCode,
    ) -> Result<(), AllocError>
        requires { millis < 1000 }
        ensures line { OnOk result ((seen : Seen) × IsOf request.now status seen × (self.new.own.items ≡ self.old.own.items ++ line_of seen)) }
        ensures service { self.new.service ≡ self.old.service }
    {
        let access = seen_of(date, millis, micros, request, status);
        let line = line_of(self.alloc, &access)?;
        self.own.put_slice(line.as_slice())?;
        self.count = self.count.saturating_add(1);
        Ok(())
    }

    /// Hands the lines of its own over to those of all.
    fn hand_over(&mut self)
        ensures { self.new.service ≡ self.old.service }
    {
        let Some(lines) = self.lines else {
            return;
        };
        if self.count == 0 && self.left_out == 0 {
            return;
        }
        if lines.hand_over(&mut self.own, self.count, self.left_out) {
            self.count = 0;
            self.left_out = 0;
        }
    }
}

/// How many microseconds have passed since then.
fn micros_since<R: Clock>(rt: &R, begun: Instant) -> u64 {
    match begun.elapsed(rt) {
        Ok(span) => span.as_micros().min(u128::from(u64::MAX)) as u64,
        Err(_) => 0,
    }
}

/// The second that it is, and its thousandths; none where the clock can't be read, or is set before 1970 or behind 9999.
fn date_of<R: Clock>(rt: &R) -> Option<(HttpDate, u32)>
    ensures { IfSome result (λ now. now.1 < 1000) }
{
    let now = SystemTime::now(rt).ok()?;
    let since = now.duration_since(UNIX_EPOCH).ok()?;
    let date = HttpDate::from_unix_secs(since.as_secs()).ok()?;
    Some((date, since.subsec_millis()))
}

/// What is seen of a request that was answered with this status.
fn seen_of(
    date: HttpDate,
    millis: u32,
    micros: u64,
    request: &Request<Bytes>,
    status: StatusCode,
) -> Access<'_>
    ensures is { IsOf request.now status (access_view result) }
    ensures millis { result.millis ≡ millis }
{
    Access {
        date,
        millis,
        method: request.method().as_str(),
        path: request.uri().path(),
        status: status.as_u16(),
        micros,
        trace: trace_of(request),
    }
}

/// The identifier of the trace that a request names.
fn trace_of(request: &Request<Bytes>) -> Option<&[u8]>
    ensures { option_map (λ id. id.now) result ≡ trace_of request.now }
{
    trace_given(parent_of(request))
}

/// The value of the field `traceparent` of a request, where it has one.
fn parent_of(request: &Request<Bytes>) -> Option<&HeaderValue>
    ensures { option_copied result ≡ get (head_of request.now).headers (codes "traceparent") }
{
    request
        .headers()
        .get(HeaderName::from_static("traceparent"))
}

/// The identifier that a value has, where there is one.
fn trace_given(value: Option<&HeaderValue>) -> Option<&[u8]>
    ensures { option_map (λ id. id.now) result ≡ trace_given (value_of (option_copied value.entry)) }
{
    match value {
        Some(value) => trace_in(value.as_bytes()),
        None => None,
    }
}

impl<R: Clock, S: Service> Service for LoggedService<'_, R, S> {
    ghost answers = { λ old request response new. S.answers old.service request response new.service };

    fn call(
        &mut self,
        request: &Request<Bytes>,
        response: &mut Response,
    ) -> Result<(), AllocError> {
        let begun = self.begin();
        self.service.call(request, response)?;
        self.keep(begun, request, response.status);
        Ok(())
    }
}

impl<R: Clock, S: Recording> Recording for LoggedService<'_, R, S> {
    ghost stands = { λ logged request response. S.stands logged.service request response };

    ghost looked = { λ old new. S.looked old.service new.service };

    fn look(&mut self) {
        self.hand_over();
        self.service.look();
    }

    ghost given = { λ old request response new is. S.given old.service request response new.service is };

    ghost stays = { λ old request response new is. S.stays old.service request response new.service is };

    ghost looked_stays = { λ old new is. S.looked_stays old.service new.service is };
}
