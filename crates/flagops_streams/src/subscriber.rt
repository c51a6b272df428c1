//! One subscriber: its seat, its numbers and its connection.
ghost use Rattle.std.specs.Prelude.{◌≡◌, false};
ghost use mathlib.Core.List.{IsPrefix};
ghost use Rattle.sync_server.specs.End.{is_closed_end};
ghost use Rattle.flagops_streams.specs.Sent.{WasAttended, WasSent, WasServed};

use crate::board::Board;
use crate::disconnected::{Disconnected, MOST_TURNS};
use crate::numbers::Numbers;
use crate::parting::part;
use crate::timed::Timed;
use byte_streams::PersistentOutput;
use flag_text::{Outlet, WriteOutlet};
use snap_share::{Current, ReadSeat, ShareFault, ShareName, Told};
use std::cell::Cell;
use std::io::Write;
use std::net::TcpStream;
use std::sync::Wait;
use std::time::Clock;
use sync_frames::SharedSnapshot;
use sync_server::{StreamEnd, serve_stream};

/// A seat that first learns what was told with the last number.
#[derive(Drop)]
struct Learning<'a, J: ShareName> {
    seat: ReadSeat<J>,
    told: &'a Cell<Option<Told<J>>>,
}

impl<J: ShareName> Current for Learning<'_, J> {
    ghost use Rattle.snap_share.specs.Known.{WasRead, snapshots_of};

    ghost known = { λ l. snapshots_of l.seat.known };

    ghost was_read = { λ old answer new. WasRead old.seat answer new.seat };

    fn current(&mut self) -> Result<SharedSnapshot, ShareFault> {
        self.learn();
        self.seat.current()
    }
}

impl<J: ShareName> Learning<'_, J> {
    /// The seat learns what was told since it last learned.
    #[tactic(auto, using(crate::proofs::Learned::prefix_self))]
    fn learn(&mut self)
        ensures forward { IsPrefix self.old.seat.known self.new.seat.known }
        ensures reads { self.new.seat.reads ≡ self.old.seat.reads }
    {
        match self.told.replace(None) {
            Some(told) => self.seat.learn(told),
            None => {}
        }
    }
}

/// Serves a subscriber over its connection, and says on the board how that ended.
pub(crate) fn attend<J: ShareName, R: Wait + Clock>(
    rt: &R,
    board: &Board<J>,
    place: usize,
    seat: ReadSeat<J>,
    stream: TcpStream,
) {
    let disconnected = attended(rt, board, seat, stream);
    board.leave(rt, place, Some(disconnected));
}

/// Serves a subscriber over its connection until its stream ends or its time is over, closes the connection, and says how
/// its stream ended.
fn attended<J: ShareName, R: Wait + Clock>(
    rt: &R,
    board: &Board<J>,
    seat: ReadSeat<J>,
    stream: TcpStream,
) -> Disconnected
    ensures { WasAttended MOST_TURNS seat result.end result.frames result.number }
{
    let sent = send_in_time(rt, board, seat, &stream);
    let end = part(rt, stream, sent.end);
    Disconnected {
        end,
        frames: sent.frames,
        number: sent.number,
    }
}

/// Sends a subscriber its stream over its connection, while its time lasts, and says how it ended.
#[tactic(auto, using(crate::proofs::Sending::failed))]
fn send_in_time<J: ShareName, R: Wait + Clock>(
    rt: &R,
    board: &Board<J>,
    seat: ReadSeat<J>,
    stream: &TcpStream,
) -> Disconnected
    ensures { WasAttended MOST_TURNS seat result.end result.frames result.number }
{
    let Ok(timed) = Timed::new(rt, stream, board.wait()) else {
        return Disconnected {
            end: StreamEnd::WriteFault,
            frames: 0,
            number: 0,
        };
    };
    send_over(rt, board, seat, timed)
}

/// Sends a subscriber its stream to a writer, and says how it ended.
fn send_over<J: ShareName, R: Wait, W: Write + Drop>(
    rt: &R,
    board: &Board<J>,
    seat: ReadSeat<J>,
    writer: W,
) -> Disconnected
    ensures { WasSent MOST_TURNS seat result.end result.frames result.number }
{
    let told = Cell::new(None);
    let mut current = Learning { seat, told: &told };
    let mut numbers = Numbers::new(rt, board, &told);
    let mut out = WriteOutlet::new(PersistentOutput::new(writer));
    send(&mut current, &mut numbers, &mut out)
}

/// Sends a subscriber its stream, and says how it ended.
fn send<J: ShareName, R: Wait, O: Outlet>(
    current: &mut Learning<'_, J>,
    numbers: &mut Numbers<'_, J, R>,
    out: &mut O,
) -> Disconnected
    requires open { numbers.old.closed ≡ false }
    requires first { numbers.old.after ≡ 0 }
    requires whole { O.is_broken out.old ≡ false }
    ensures served { WasServed MOST_TURNS current.old.seat current.new.seat (O.bytes out.old) (O.bytes out.new) result.end result.frames result.number }
    ensures sent { WasSent MOST_TURNS current.old.seat result.end result.frames result.number }
    ensures number { result.number ≡ numbers.new.after }
    ensures closed { numbers.new.closed ≡ is_closed_end result.end }
{
    let (end, frames) = serve_stream(current, numbers, out, MOST_TURNS);
    Disconnected {
        end,
        frames,
        number: numbers.after,
    }
}
