//! One subscriber of the stream.
ghost use Rattle.std.specs.Prelude.{◌≡◌, ◌<◌, false, IfSome};

use crate::board::Board;
use byte_streams::PersistentOutput;
use flag_text::WriteOutlet;
use snap_share::{Current, ReadSeat, ShareName};
use std::io;
use std::io::{ErrorKind, Read, Write};
use std::net::TcpStream;
use std::time::Duration;
use sync_server::{NextNumber, serve_stream};

/// The milliseconds between two looks for a later snapshot.
const PAUSE_MILLIS: u64 = 100;

/// A subscriber that takes no byte for so many seconds is left.
const PATIENCE_SECONDS: u64 = 60;

/// The most bytes that one read drops.
const READ_AT_MOST: usize = 4_096;

/// Serves a subscriber over its connection until it leaves, its connection fails, or all threads are to end.
pub(crate) fn attend<J: ShareName>(board: &Board, seat: &mut ReadSeat<J>, stream: &TcpStream) {
    if set_limits(stream).is_err() {
        return;
    }
    let mut numbers = Numbers::new(board, stream);
    send(seat, &mut numbers, stream);
}

/// A read ends after a pause, and a write once there is no patience left.
fn set_limits(stream: &TcpStream) -> io::Result<()> {
    stream.set_nodelay(true)?;
    stream.set_read_timeout(Some(Duration::from_millis(PAUSE_MILLIS)))?;
    stream.set_write_timeout(Some(Duration::from_secs(PATIENCE_SECONDS)))
}

/// Sends a subscriber its stream: frames of the snapshots that the seat reads, as numbers come.
fn send<C: Current, N: NextNumber, W: Write + Drop>(current: &mut C, numbers: &mut N, stream: W)
    requires { N.is_closed numbers.old ≡ false }
{
    let mut out = WriteOutlet::new(PersistentOutput::new(stream));
    let _ended = serve_stream(current, numbers, &mut out, u64::MAX);
}

/// The numbers of a subscriber's stream, from the board.
#[derive(Drop)]
struct Numbers<'a> {
    board: &'a Board,
    stream: &'a TcpStream,
    closed: bool,
}

impl<'a> Numbers<'a> {
    fn new(board: &'a Board, stream: &'a TcpStream) -> Numbers<'a>
        ensures { ⟦<Numbers<'a> as NextNumber>⟧.is_closed result ≡ false }
    {
        Numbers {
            board,
            stream,
            closed: false,
        }
    }

    /// The number that was published last, once it is above `after`; None once the subscriber has left or all threads are to
    /// end.
    fn wait_above(&self, after: u64) -> Option<u64>
        ensures { IfSome result (λ number. after < number) }
    {
        for _look in 0..u64::MAX {
            let number = self.board.published();
            if number > after {
                return Some(number);
            }
            if self.board.is_over() || has_left(self.stream) {
                return None;
            }
        }
        None
    }
}

impl NextNumber for Numbers<'_> {
    ghost is_closed = { λ n. n.closed };

    // The board changes meanwhile, so that no clause can tell what asking made of it.
    ghost asked = { λ old after new. Unit {0} };

    fn next(&mut self, after: u64) -> Option<u64> {
        let number = self.wait_above(after);
        if number.is_none() {
            self.closed = true;
        }
        number
    }
}

/// Waits for a moment for a subscriber to end its connection, and drops what it sends; true where it has left.
fn has_left(stream: &TcpStream) -> bool {
    let mut buffer = [0u8; READ_AT_MOST];
    let mut reader = stream;
    match reader.read(&mut buffer) {
        Ok(count) => count == 0,
        Err(fault) => match fault.kind() {
            ErrorKind::Interrupted | ErrorKind::WouldBlock | ErrorKind::TimedOut => false,
            _ => true,
        },
    }
}
