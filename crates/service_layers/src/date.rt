//! The date of answers.
ghost use Rattle.std.specs.Prelude.{◌≡◌, ◌<◌, ◌++◌, IfOk, OnOk, min};
ghost use Rattle.http_server.specs.Response.{fields_of};
ghost use Rattle.service_layers.specs.Date.{AreOfSecond, Dates, date_fields, fields_in};
ghost use Rattle.httpdate.specs.Date.{date_text, unix_secs};

use http::header::DATE;
use http::{HeaderValue, StatusCode};
use http_header::HeaderValueError;
use http_server::Response;
use httpdate::HttpDate;
use std::alloc::{AllocError, Global};
use std::time::{Clock, SystemTime, UNIX_EPOCH};

/// The first second of the year 10000, which has no date.
const END: u64 = 253_402_300_800;

/// The date of a second since 1970, or of the last one that has a date.
pub fn date_at(second: u64) -> HttpDate
    ensures { unix_secs result ≡ min second 253_402_300_799 }
{
    match HttpDate::from_unix_secs(second.min(END - 1)) {
        Ok(date) => date,
        Err(_) => unreachable!(),
    }
}

/// The second since 1970: 0 where the clock can't be read or is set before.
pub fn second_of<R: Clock>(rt: &R) -> u64 {
    let Ok(now) = SystemTime::now(rt) else {
        return 0;
    };
    match now.duration_since(UNIX_EPOCH) {
        Ok(since) => since.as_secs(),
        Err(_) => 0,
    }
}

/// The date of a second since 1970, as the value of a field.
#[derive(Drop)]
pub(crate) struct DateField {
    pub(crate) second: u64,
    pub(crate) value: Option<HeaderValue>,
    ghost shown: { ∥ AreOfSecond second (fields_in value) ∥₁ },
}

impl DateField {
    /// The date of a second, or of the last one that has a date.
    pub(crate) fn of(alloc: Global, second: u64) -> Result<DateField, AllocError> {
        date_of(alloc, second.min(END - 1))
    }

    /// Adds the date to a response. Where memory runs out for that the response tells nothing.
    pub(crate) fn add_to(&self, response: &mut Response)
        ensures { Dates (fields_in self.now.value) response.old response.new }
    {
        if self.add(response).is_err() {
            response.clear();
            response.status = StatusCode::INTERNAL_SERVER_ERROR;
        }
    }

    fn add(&self, response: &mut Response) -> Result<(), AllocError>
        ensures fields { OnOk result (fields_of response.new ≡ fields_of response.old ++ fields_in self.now.value) }
        ensures status { response.new.status ≡ response.old.status }
        ensures body { response.new.body ≡ response.old.body }
    {
        match &self.value {
            Some(value) => response.add_header(DATE, value.clone()?),
            None => Ok(()),
        }
    }
}

/// The date of a second before the year 10000.
fn date_of(alloc: Global, second: u64) -> Result<DateField, AllocError>
    requires { second < 253_402_300_800 }
    ensures { IfOk result (λ field. field.second ≡ second) }
{
    let date = match HttpDate::from_unix_secs(second) {
        Ok(date) => date,
        Err(_) => unreachable!(),
    };
    let value = value_of(alloc, date)?;
    Ok(DateField { second, value })
}

/// The value of the field for a date.
fn value_of(alloc: Global, date: HttpDate) -> Result<Option<HeaderValue>, AllocError>
    ensures { IfOk result (λ value. fields_in value ≡ date_fields (date_text date)) }
{
    let text = date.to_bytes();
    match HeaderValue::from_bytes(alloc, &text) {
        Ok(value) => Ok(Some(value)),
        Err(HeaderValueError::Invalid) => Ok(None),
        Err(HeaderValueError::OutOfMemory) => Err(AllocError),
    }
}
