//! Writing a stream of snapshots.
ghost use Rattle.std.specs.Prelude.{◌≡◌, ◌≤◌, ◌+◌, ◌<◌, ◌^◌, false, IfErr, IfNone, IfSome, MatchResult};
ghost use Rattle.sync_server.specs.End.{is_closed_end, is_limit_end, is_write_fault};
ghost use Rattle.snap_share.specs.Lists.{StartsWith};
ghost use Rattle.sync_server.specs.Served.{SendsLast, SendsOn, Serves, Wrote};

use crate::end::StreamEnd;
use crate::next::NextNumber;
use flag_text::{Outlet, write_whole};
use snap_share::{Current, ShareFault};

/// What was written of a stream: the last number, 0 at first, and how many frames.
#[derive(Clone, Copy)]
struct Progress {
    last: u64,
    count: u64,
}

/// Writes frames of the current snapshot until the numbers are closed, a write fails, the current snapshot can't be read,
/// memory runs out, or `limit` turns were taken, which is told before another number is asked for; answers why, and how many
/// whole frames were written. A turn asks for a number above the last one that was written, 0 at first, reads the current
/// snapshot, and writes its frame, which all who serve it share, where its number is above the last. The conditions are
/// numbers that are not closed and an outlet that is not broken.
pub fn serve_stream<C: Current, N: NextNumber, O: Outlet>(
    current: &mut C,
    next: &mut N,
    out: &mut O,
    limit: u64,
) -> (StreamEnd, u64)
    requires open { N.is_closed next.old ≡ false }
    requires whole { O.is_broken out.old ≡ false }
    ensures serves { Serves N.asked C.was_read next.old next.new current.old current.new limit (C.known current.new) (O.bytes out.old) (O.bytes out.new) result.1 result.0 }
    ensures closed { N.is_closed next.new ≡ is_closed_end result.0 }
    ensures broken { O.is_broken out.new ≡ is_write_fault result.0 }
{
    let mut progress = Progress { last: 0, count: 0 };
    for _turn in 0..limit {
        if next.next(progress.last).is_none() {
            return (StreamEnd::Closed, progress.count);
        }
        match take_turn(current, out, &mut progress) {
            None => {}
            Some(end) => return (end, progress.count),
        }
    }
    (StreamEnd::Limit, progress.count)
}

/// Writes the current snapshot where it is newer than the last, and says why the stream ends, if it does.
fn take_turn<C: Current, O: Outlet>(
    current: &mut C,
    out: &mut O,
    progress: &mut Progress,
) -> Option<StreamEnd>
    requires whole { O.is_broken out.old ≡ false }
    requires room { progress.old.count + 1 < 2 ^ 64 }
    ensures goes_on { IfNone result (SendsOn C.was_read current.old current.new (C.known current.old) (C.known current.new) (O.bytes out.old) (O.bytes out.new) progress.old progress.new) }
    ensures counts { IfNone result (progress.new.count ≤ progress.old.count + 1) }
    ensures works { IfNone result (O.is_broken out.new ≡ false) }
    ensures ends { IfSome result (λ end.
        SendsLast C.was_read current.old current.new (C.known current.old) (C.known current.new) (O.bytes out.old) (O.bytes out.new) progress.old progress.new end) }
    ensures closed { IfSome result (λ end. is_closed_end end ≡ false) }
    ensures limit { IfSome result (λ end. is_limit_end end ≡ false) }
    ensures broken { IfSome result (λ end. O.is_broken out.new ≡ is_write_fault end) }
{
    match write_newer(current, out, progress.last) {
        Ok(Some(number)) => {
            progress.last = number;
            progress.count += 1;
            None
        }
        Ok(None) => None,
        Err(end) => Some(end),
    }
}

/// Writes the frame of the current snapshot where its number is above the last, and answers that number.
fn write_newer<C: Current, O: Outlet>(
    current: &mut C,
    out: &mut O,
    last: u64,
) -> Result<Option<u64>, StreamEnd>
    requires { O.is_broken out.old ≡ false }
    ensures grows { StartsWith (C.known current.new) (C.known current.old) }
    ensures wrote { Wrote C.was_read current.old current.new (C.known current.new) last (O.bytes out.old) (O.bytes out.new) result }
    ensures closed { IfErr result (λ end. is_closed_end end ≡ false) }
    ensures limit { IfErr result (λ end. is_limit_end end ≡ false) }
    ensures broken { MatchResult result (λ _. O.is_broken out.new ≡ false) (λ end. O.is_broken out.new ≡ is_write_fault end) }
{
    let snapshot = match current.current() {
        Ok(snapshot) => snapshot,
        Err(ShareFault::WantOfMemory) => return Err(StreamEnd::WantOfMemory),
        Err(_) => return Err(StreamEnd::ReadSeatFault),
    };
    let number = snapshot.number();
    if number <= last {
        return Ok(None);
    }
    if write_whole(out, snapshot.frame()) {
        Ok(Some(number))
    } else {
        Err(StreamEnd::WriteFault)
    }
}
