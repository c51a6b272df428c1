//! What is seen of a request and its answer.

use httpdate::HttpDate;

/// When a request came, with the thousandths of a second; its method and path; the status of its answer, and the microseconds until
/// that was made; and the identifier of its trace, where it names one.
#[derive(Drop)]
pub(crate) struct Access<'a> {
    pub(crate) date: HttpDate,
    pub(crate) millis: u32,
    pub(crate) method: &'a str,
    pub(crate) path: &'a str,
    pub(crate) status: u16,
    pub(crate) micros: u64,
    pub(crate) trace: Option<&'a [u8]>,
}
