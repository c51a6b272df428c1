//! The command `follow`: what a stream of snapshots brings.
ghost use Rattle.std.specs.Prelude.{◌≡◌, ◌⊎◌, false, not, IfOk, Some, string_bytes};
ghost use Rattle.flag_text.specs.Outlet.{AppendsPart};
ghost use Rattle.std.specs.Bool.{MatchBool};
ghost use Rattle.std.specs.Io.KnownBytes.{Appends};
ghost use Rattle.sync_frames.specs.Snapshots.{snapshot_view};
ghost use Rattle.sync_server.specs.Reads.{ReadUpTo, ReadWithin};
ghost use Rattle.flagops_streams.specs.Printed.{Follows, Printed, PrintedWithin, last_line, snapshot_line, start_of, status_of, word_of};
ghost use Rattle.flagops_streams.specs.Report.{FindsNobody, Writes};
ghost use Rattle.flagops_streams.specs.Told.{TellsLate};

use crate::refusal::Refusal;
use crate::remark::{say_late, say_unreachable};
use crate::report::refuse;
use crate::timely::Timely;
use byte_streams::PersistentInput;
use core::mem::replace_with;
use flag_text::{Outlet, write_whole};
use flagops_shell::write_three;
use snap_core::Snapshot;
use std::alloc::{AllocError, Global};
use std::cell::Cell;
use std::net::{Net, OpenStream, SocketAddr, TcpStream};
use std::time::{Clock, Duration};
use std::{io, thread};
use sync_server::{Inlet, ReadEnd, ReadInlet, Sink, follow_stream};

/// How often a connection is tried.
const TRIES: u32 = 100;

/// The milliseconds between two tries.
const PAUSE: u64 = 50;

/// Follows the stream that somebody serves on a port of this host, as [`follow_lines`] does. A read that brings nothing for
/// `wait` seconds has failed, which is told; 0 is for ever. Where nobody listens, that is written and told.
#[tactic(auto, using(crate::proofs::Told::told_late))]
pub fn follow_port<R: AllocGlobal + Net + Clock, O: Outlet, E: Outlet>(
    rt: &R,
    port: u16,
    turns: u64,
    wait: u64,
    out: &mut O,
    err: &mut E,
) -> u8
    requires { O.is_broken out.old ≡ false }
    ensures { (Follows (O.bytes out.old) (O.bytes out.new) (O.is_broken out.new) result × TellsLate wait result (E.bytes err.old) (E.bytes err.new) (E.is_broken err.new))
        ⊎ FindsNobody port (O.bytes out.old) (O.bytes out.new) (O.is_broken out.new) (E.bytes err.old) (E.bytes err.new) (E.is_broken err.new) result }
{
    let alloc = rt.alloc();
    match connect(rt, port, wait) {
        Some(stream) => {
            let is_late = Cell::new(false);
            let status = follow_stream_to::<R, O>(alloc, stream, turns, &is_late, out);
            if status == 1 && is_late.get() {
                say_late(alloc, err, wait);
            }
            status
        }
        None => {
            say_unreachable(alloc, err, port);
            refuse(alloc, out, Refusal::Unreachable)
        }
    }
}

/// Follows a stream, as [`follow_lines`] does, and keeps in a cell whether a read brought nothing in its time.
fn follow_stream_to<R: Net, O: Outlet>(
    alloc: Global,
    stream: R::Stream,
    turns: u64,
    is_late: &Cell<bool>,
    out: &mut O,
) -> u8
    requires { O.is_broken out.old ≡ false }
    ensures { Follows (O.bytes out.old) (O.bytes out.new) (O.is_broken out.new) result }
{
    replace_with(
        out,
        (alloc, stream, turns, is_late),
        |out: O, given: (Global, R::Stream, u64, &Cell<bool>)| -> (O, u8)
            requires { O.is_broken out ≡ false }
            ensures { Follows (O.bytes out) (O.bytes result.0) (O.is_broken result.0) result.1 }
        {
            let (alloc, stream, turns, is_late) = given;
            let mut inlet = ReadInlet::new(Timely::new(PersistentInput::new(stream), is_late));
            follow_lines(alloc, &mut inlet, out, turns)
        },
    )
}

/// A connection to whoever listens on a port of this host, tried once more after each pause. Its reads wait for so many
/// seconds, 0 for ever.
fn connect<R: Net + Clock>(rt: &R, port: u16, wait: u64) -> Option<R::Stream> {
    let address = SocketAddr::from(([127, 0, 0, 1], port));
    for left in (0..TRIES).rev() {
        if let Ok(stream) = connect_once(rt, address, wait) {
            return Some(stream);
        }
        if left > 0 {
            thread::sleep(rt, Duration::from_millis(PAUSE));
        }
    }
    None
}

fn connect_once<R: Net + Clock>(rt: &R, address: SocketAddr, wait: u64) -> io::Result<R::Stream> {
    let stream = TcpStream::connect(rt, address)?;
    if wait > 0 {
        stream.set_read_timeout(Some(Duration::from_secs(wait)))?;
    }
    Ok(stream)
}

/// Prints a line for each snapshot of a stream when it has come: its number, and how many flags it has. The last line says
/// how the stream ended. The status is 0 where the stream ended behind a whole frame or all turns were taken, else 1; also 1
/// where the output failed, and then no more is read. The output is given back. The conditions are an inlet and an outlet
/// that are not broken.
pub fn follow_lines<I: Inlet, O: Outlet>(
    alloc: Global,
    inlet: &mut I,
    out: O,
    turns: u64,
) -> (O, u8)
    requires inlet { I.is_broken inlet.old ≡ false }
    requires outlet { O.is_broken out ≡ false }
    ensures printed { Printed (I.bytes inlet.old) (I.bytes inlet.new) (I.is_broken inlet.new) (O.bytes out) (O.bytes result.0) (O.is_broken result.0) result.1 }
    ensures within { PrintedWithin (λ end. ReadWithin I.was_read turns inlet.old inlet.new (Some end)) (I.bytes inlet.old) (I.bytes inlet.new) (I.is_broken inlet.new) (O.bytes out) (O.bytes result.0) (O.is_broken result.0) result.1 }
    ensures reads { ReadUpTo I.was_read turns inlet.old inlet.new }
{
    let mut printer = Printer {
        alloc,
        out,
        wants: false,
    };
    let end = follow_stream(alloc, inlet, &mut printer, turns);
    let Printer {
        alloc: _alloc,
        out,
        wants,
    } = printer;
    match end {
        Some(end) => finish(out, end),
        None if wants => finish(out, ReadEnd::WantOfMemory),
        None => (out, 1),
    }
}

/// Prints how a stream ended, and gives the output back with the status.
fn finish<O: Outlet>(out: O, end: ReadEnd) -> (O, u8)
    requires { O.is_broken out ≡ false }
    ensures { Writes (O.bytes out) (O.bytes result.0) (O.is_broken result.0) result.1 (last_line end) (status_of end) }
{
    let mut out = out;
    let status = print_end(&mut out, end);
    (out, status)
}

/// Prints how a stream ended, without taking memory, and gives the status.
#[tactic(auto, using(crate::proofs::Writes::good, crate::proofs::Writes::bad), unfolding(crate::specs::Printed::last_line))]
fn print_end<O: Outlet>(out: &mut O, end: ReadEnd) -> u8
    requires { O.is_broken out.old ≡ false }
    ensures { Writes (O.bytes out.old) (O.bytes out.new) (O.is_broken out.new) result (last_line end) (status_of end) }
{
    let (start, word) = (start_of(end), word_of(end));
    if write_three(out, start.as_bytes(), word.as_bytes(), b"\n") {
        status_of(end)
    } else {
        1
    }
}

/// How the last line begins.
fn start_of(end: ReadEnd) -> &'static str
    ensures { result.now ≡ start_of end }
{
    match end {
        ReadEnd::Ended => "",
        _ => "stopped ",
    }
}

/// The word that it has for the end.
fn word_of(end: ReadEnd) -> &'static str
    ensures { result.now ≡ word_of end }
{
    match end {
        ReadEnd::Ended => "ended",
        _ => end.name(),
    }
}

/// The status that a stream's end gives.
fn status_of(end: ReadEnd) -> u8
    ensures { result ≡ status_of end }
{
    match end {
        ReadEnd::Ended | ReadEnd::Limit => 0,
        _ => 1,
    }
}

/// Prints the line of each snapshot.
struct Printer<O: Outlet> {
    alloc: Global,
    out: O,
    /// Memory ran out for a line.
    wants: bool,
}

impl<O: Outlet> Sink for Printer<O> {
    ghost use Rattle.std.specs.Prelude.{◌≡◌, ◌||◌, true, false};
    ghost use Rattle.std.specs.Bool.{MatchBool};
    ghost use Rattle.std.specs.Io.KnownBytes.{Appends};
    ghost use Rattle.flag_text.specs.Outlet.{AppendsPart};
    ghost use Rattle.flagops_streams.specs.Printed.{snapshot_line};

    ghost took = { λ old s new. Appends (O.bytes old.out) (O.bytes new.out) (snapshot_line s) × (O.is_broken new.out ≡ false) };

    ghost refused = { λ old s new. MatchBool new.wants ((O.bytes new.out ≡ O.bytes old.out) × (O.is_broken new.out ≡ false)) (AppendsPart (O.bytes old.out) (O.bytes new.out) (snapshot_line s) × (O.is_broken new.out ≡ true)) };

    ghost is_full = { λ p. O.is_broken p.out || p.wants };

    fn take(&mut self, snapshot: Snapshot) -> bool {
        match line_of(self.alloc, &snapshot) {
            Ok(line) => write_whole(&mut self.out, line.as_bytes()),
            Err(AllocError) => {
                self.wants = true;
                false
            }
        }
    }
}

/// The line of a snapshot.
#[tactic(auto, unfolding(crate::specs::Printed::snapshot_line))]
fn line_of(alloc: Global, snapshot: &Snapshot) -> Result<String, AllocError>
    ensures { IfOk result (λ s. string_bytes s ≡ snapshot_line (snapshot_view snapshot.now)) }
{
    let number = snapshot.number;
    let count = snapshot.flags.len();
    format!(in alloc; "snapshot {number} flags {count}\n")
}
