//! The exports for streams.
ghost use Rattle.std.specs.Prelude.{◌≡◌, ◌↔◌, ℕ, List, true, false, is_some, if◌then◌else◌, Some, None, option_map, IfSome};
ghost use Rattle.sync_frames.specs.Feed.{waiting_in};
ghost use Rattle.sync_frames.specs.Frames.{IsDone};
ghost use Rattle.sync_frames.specs.declared.fault.FrameFault.{FrameFault as Fault};
ghost use Rattle.sync_frames.specs.declared.fault.FrameFault.TheVariants as frame;
ghost use Rattle.library_seat.specs.Connection.{HasGiven, ShowsNow, begun};
ghost use Rattle.library_seat.specs.Feeding.{Feeding, IsIdle};
ghost use Rattle.library_seat.specs.Refusal.{number_of, of_frame};
ghost use Rattle.library_seat.specs.Seat.{with_connection};
ghost use Rattle.flagops_c.specs.Calls.{Calls, result_number, standing};

use crate::handle::Handle;
use crate::numbers::number_of;
use library_seat::Refusal;
use std::alloc::Global;

/// Takes the next piece of a stream, cut anywhere. The newest snapshot that it makes whole, if it makes one whole, is told by
/// its number, and the seat has its flags. A piece without a byte takes no memory, and changes nothing where no fault waits.
#[unsafe(no_mangle)]
pub extern "C" fn flagops_feed(
    alloc: Global,
    handle: &mut Handle,
    piece: &[u8],
    number: &mut u64,
    came: &mut bool,
) -> u32
    ensures feeds { Calls result_number (λ answer old new. Feeding piece.now answer
        (record { seat = old; number = number.old; came = came.old })
        (record { seat = new; number = number.new; came = came.new }))
        result (standing handle.old.seat) (standing handle.new.seat) }
    // these need no memory
    ensures waiting { IfSome (standing handle.old.seat) (λ s. (fault : Fault) → waiting_in s.connection.stage ≡ Some fault → result ≡ number_of (of_frame fault)) }
    ensures length { IfSome (standing handle.old.seat) (λ s. ShowsNow s.connection piece.now frame.Length → result ≡ 41) }
    ensures stays { IfSome (standing handle.old.seat) (λ s. ShowsNow s.connection piece.now frame.NotRising → result ≡ 42) }
    ensures idle { IfSome (standing handle.old.seat) (λ s. IsIdle piece.now s.connection →
        (result ≡ 0) × (standing handle.new.seat ≡ Some s) × (number.new ≡ number.old) × (came.new ≡ false)) }
    ensures empty { handle.old.seat ≡ None → (number.new ≡ number.old) × (came.new ≡ came.old) }
{
    let Some(mut seat) = handle.take(alloc) else {
        return Refusal::Empty.number();
    };
    let fed = (*seat).feed(alloc, piece, number, came);
    handle.hold(alloc, seat);
    number_of(fed)
}

/// From now on the pieces are of a new connection. It takes no memory.
#[unsafe(no_mangle)]
pub extern "C" fn flagops_connect(alloc: Global, handle: &mut Handle) -> u32
    ensures number { result ≡ (if is_some handle.old.seat then 0 else 2) }
    ensures connects { standing handle.new.seat ≡ option_map (with_connection begun) (standing handle.old.seat) }
{
    let Some(mut seat) = handle.take(alloc) else {
        return Refusal::Empty.number();
    };
    (*seat).connect(alloc);
    handle.hold(alloc, seat);
    0
}

/// Whether the pieces of the connection are whole frames and nothing else. It takes no memory.
#[unsafe(no_mangle)]
pub extern "C" fn flagops_at_frame_end(alloc: Global, handle: &mut Handle, end: &mut bool) -> u32
    ensures number { result ≡ (if is_some handle.old.seat then 0 else 2) }
    ensures kept { standing handle.new.seat ≡ standing handle.old.seat }
    ensures end { IfSome (standing handle.old.seat) (λ s. (stream : List ℕ) → HasGiven s.connection stream → (end.new ≡ true ↔ IsDone stream)) }
    ensures empty { handle.old.seat ≡ None → end.new ≡ end.old }
{
    let Some(seat) = handle.take(alloc) else {
        return Refusal::Empty.number();
    };
    *end = (*seat).at_frame_end();
    handle.hold(alloc, seat);
    0
}
