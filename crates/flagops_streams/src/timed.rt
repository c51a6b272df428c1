//! A connection whose writes end in time.
use std::io;
use std::io::{ErrorKind, Write};
use std::net::TcpStream;
use std::time::{Clock, Duration};

/// Writes to a connection until its time is over. From then on no write waits, and each fails.
#[derive(Drop)]
pub(crate) struct Timed<'a, R: Clock> {
    rt: &'a R,
    stream: &'a TcpStream,
    /// When its time is over, by the monotonic clock, where it ever is.
    end: Option<Duration>,
}

impl<'a, R: Clock> Timed<'a, R> {
    /// From now on it has so many seconds, 0 for ever.
    pub(crate) fn new(rt: &'a R, stream: &'a TcpStream, wait: u64) -> io::Result<Timed<'a, R>> {
        let end = if wait == 0 {
            None
        } else {
            Some(rt.monotonic()?.saturating_add(Duration::from_secs(wait)))
        };
        Ok(Timed { rt, stream, end })
    }

    /// The next write waits no longer than the time that is left.
    fn limit(&self) -> io::Result<()> {
        let Some(end) = self.end else {
            return Ok(());
        };
        let left = end.saturating_sub(self.rt.monotonic()?);
        if left.is_zero() {
            return Err(io::Error::from(ErrorKind::TimedOut));
        }
        self.stream.set_write_timeout(Some(left))
    }
}

impl<R: Clock> Write for Timed<'_, R> {
    fn write(&mut self, buf: &[u8]) -> io::Result<usize> {
        self.limit()?;
        let mut writer = self.stream;
        writer.write(buf)
    }

    fn flush(&mut self) -> io::Result<()> {
        Ok(())
    }
}
