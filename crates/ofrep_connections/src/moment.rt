//! When something happens.
use httpdate::HttpDate;
use service_layers::{date_at, second_of};
use std::io;
use std::time::{Clock, Instant};

/// A moment, by a clock that runs evenly and by that of the calendar.
#[derive(Clone, Copy)]
pub(crate) struct Moment {
    pub(crate) instant: Instant,
    second: u64,
}

impl Moment {
    pub(crate) fn now<R: Clock>(rt: &R) -> io::Result<Moment> {
        let instant = Instant::now(rt)?;
        let second = second_of(rt);
        Ok(Moment { instant, second })
    }

    pub(crate) fn date(self) -> HttpDate {
        date_at(self.second)
    }
}
