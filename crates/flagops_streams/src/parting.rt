//! How the connection of a subscriber ends: what it sends is read and dropped first, since a system resets a connection that
//! is closed with unread bytes, and what was sent last is lost then.
ghost use Rattle.std.specs.Prelude.{◌≡◌};
ghost use Rattle.flagops_streams.specs.Ending.{EndedAs};

use std::io::{ErrorKind, Read, Write};
use std::net::{Shutdown, TcpStream};
use std::time::{Clock, Duration};
use sync_server::StreamEnd;

/// The seconds in which a subscriber ends its connection, once it was sent all.
const PATIENCE: u64 = 5;

/// The most bytes that one read drops.
const READ_AT_MOST: usize = 4_096;

/// Closes the connection of a subscriber whose stream ended so, and says how it ended. A stream that ended before the last
/// snapshot is cut within a frame, by which the subscriber can tell; one that was reset while the subscriber had to end it
/// ended by a failed write.
pub(crate) fn part<R: Clock>(rt: &R, stream: TcpStream, end: StreamEnd) -> StreamEnd
    ensures { EndedAs end result }
{
    if end != StreamEnd::Closed {
        cut(&stream);
    }
    let is_taken = stream.shutdown(Shutdown::Write).is_ok() && is_drained(rt, &stream);
    if end == StreamEnd::Closed && !is_taken {
        StreamEnd::WriteFault
    } else {
        end
    }
}

/// Begins a frame that is not ended.
fn cut(stream: &TcpStream) {
    let mut writer = stream;
    if stream
        .set_write_timeout(Some(Duration::from_secs(PATIENCE)))
        .is_ok()
    {
        let _begun = writer.write(&[0]);
    }
}

/// Drops what a subscriber sends until it ends its connection, or its time is over; false where it reset the connection.
fn is_drained<R: Clock>(rt: &R, stream: &TcpStream) -> bool {
    let Ok(start) = rt.monotonic() else {
        return true;
    };
    let mut buffer = [0u8; READ_AT_MOST];
    for _read in 0..u64::MAX {
        match drop_some(rt, stream, start, &mut buffer) {
            None => {}
            Some(is_drained) => return is_drained,
        }
    }
    true
}

/// Drops what one read gives, and says at the end whether it was none by a reset.
fn drop_some<R: Clock>(
    rt: &R,
    stream: &TcpStream,
    start: Duration,
    buffer: &mut [u8],
) -> Option<bool> {
    let Ok(now) = rt.monotonic() else {
        return Some(true);
    };
    let left = Duration::from_secs(PATIENCE).saturating_sub(now.saturating_sub(start));
    if left.is_zero() || stream.set_read_timeout(Some(left)).is_err() {
        return Some(true);
    }
    let mut reader = stream;
    match reader.read(buffer) {
        Ok(0) => Some(matches!(stream.take_error(), Ok(None))),
        Ok(_) => None,
        Err(fault) => match fault.kind() {
            ErrorKind::Interrupted => None,
            ErrorKind::WouldBlock => Some(true),
            _ => Some(false),
        },
    }
}
