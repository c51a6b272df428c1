//! The exports that do not resolve.
ghost use Rattle.std.specs.Prelude.{◌≡◌, ◌≢◌, ◌<◌, ◌≤◌, false, length, is_some, if◌then◌else◌, Some, None, Result, option_map, IfErr, IfOk, IfSome};
ghost use Rattle.std.specs.Str.{is_utf8};
ghost use Rattle.flag_defs.specs.Document.{max_bytes};
ghost use Rattle.library_seat.specs.Early.{text_refusal};
ghost use Rattle.library_seat.specs.Refusal.{number_of};
ghost use Rattle.library_seat.specs.Room.{Writes};
ghost use Rattle.library_seat.specs.Seat.{fresh, with_most};
ghost use Rattle.library_seat.specs.Told.{Opening, Reading, Takes};
ghost use Rattle.library_seat.specs.View.{seat_view};
ghost use Rattle.library_seat.specs.declared.refusal.Refusal.{Refusal as SeatRefusal};
ghost use Rattle.library_seat.specs.declared.refusal.Refusal.TheVariants as refusal;
ghost use Rattle.flagops_c.specs.About.{about_text};
ghost use Rattle.flagops_c.specs.Calls.{Calls, result_number, standing, taken_number};

use crate::about::about;
use crate::handle::Handle;
use crate::numbers::{number_of, number_of_taken};
use library_seat::{Refusal, Seat, put};
use std::alloc::Global;

/// A seat without flags, in the place of what the handle held.
#[unsafe(no_mangle)]
pub extern "C" fn flagops_new(alloc: Global, handle: &mut Handle) -> u32
    ensures made { result ≡ 0 → standing handle.new.seat ≡ Some fresh }
    ensures refused { result ≢ 0 → (result ≡ 1) × (handle.new.seat ≡ handle.old.seat) }
{
    match new_seat(alloc) {
        Ok(seat) => {
            handle.hold(alloc, seat);
            0
        }
        Err(refusal) => refusal.number(),
    }
}

/// A seat without flags.
fn new_seat(alloc: Global) -> Result<Box<Seat>, Refusal>
    ensures made { IfOk result (λ b. seat_view b.value ≡ fresh) }
    ensures refused { IfErr result (λ e. e ≡ refusal.WantOfMemory) }
{
    Ok(Box::new(alloc, Seat::new(alloc))?)
}

/// Frees the seat, where the handle holds one.
#[unsafe(no_mangle)]
pub extern "C" fn flagops_close(alloc: Global, handle: &mut Handle)
    ensures { handle.new.seat ≡ None }
{
    let _seat = handle.take(alloc);
}

/// The flags of a document, in the place of those that the seat had.
#[unsafe(no_mangle)]
pub extern "C" fn flagops_open(alloc: Global, handle: &mut Handle, document: &[u8]) -> u32
    ensures opens { Calls result_number (Opening document.now) result (standing handle.old.seat) (standing handle.new.seat) }
    ensures large { IfSome handle.old.seat (λ _. max_bytes < length document.now → result ≡ 13) }
    ensures no_text { IfSome handle.old.seat (λ _. length document.now ≤ max_bytes → is_utf8 document.now ≡ false → result ≡ 11) }
{
    let Some(mut seat) = handle.take(alloc) else {
        return Refusal::Empty.number();
    };
    let opened = (*seat).open(alloc, document);
    handle.hold(alloc, seat);
    number_of(opened)
}

/// Reads a context once, for the calls of [`flagops_resolve_kept`](crate::resolving::flagops_resolve_kept).
#[unsafe(no_mangle)]
pub extern "C" fn flagops_context(alloc: Global, handle: &mut Handle, context: &[u8]) -> u32
    ensures reads { Calls result_number (Reading context.now) result (standing handle.old.seat) (standing handle.new.seat) }
    ensures early { IfSome handle.old.seat (λ _. IfSome (text_refusal context.now) (λ e. result ≡ number_of (refusal.Context e))) }
{
    let Some(mut seat) = handle.take(alloc) else {
        return Refusal::Empty.number();
    };
    let read = (*seat).read_context(alloc, context);
    handle.hold(alloc, seat);
    number_of(read)
}

/// From now on note lines are kept up to so many bytes, or none where that is 0.
#[unsafe(no_mangle)]
pub extern "C" fn flagops_record(alloc: Global, handle: &mut Handle, most: usize) -> u32
    ensures number { result ≡ (if is_some handle.old.seat then 0 else 2) }
    ensures records { standing handle.new.seat ≡ option_map (with_most most) (standing handle.old.seat) }
{
    let Some(mut seat) = handle.take(alloc) else {
        return Refusal::Empty.number();
    };
    (*seat).record(most);
    handle.hold(alloc, seat);
    0
}

/// Takes the note lines that are kept. It takes no memory.
#[unsafe(no_mangle)]
pub extern "C" fn flagops_notes(
    alloc: Global,
    handle: &mut Handle,
    out: &mut [u8],
    written: &mut usize,
) -> u32
    ensures takes { Calls taken_number (λ taken old new. Takes taken old new (record { bytes = out.old; written = written.old }) (record { bytes = out.new; written = written.new }))
        result (standing handle.old.seat) (standing handle.new.seat) }
    ensures empty { handle.old.seat ≡ None → (out.new ≡ out.old) × (written.new ≡ written.old) }
{
    let Some(mut seat) = handle.take(alloc) else {
        return Refusal::Empty.number();
    };
    let taken = (*seat).notes(out, written);
    handle.hold(alloc, seat);
    number_of_taken(taken)
}

/// Writes the library's version, the kit that proves it and the sum of its sources. It takes no memory.
#[unsafe(no_mangle)]
pub extern "C" fn flagops_about(out: &mut [u8], written: &mut usize) -> u32
    ensures writes { (answer : Result (Unit {0}) SeatRefusal) × (result ≡ result_number answer) × Writes about_text answer (record { bytes = out.old; written = written.old }) (record { bytes = out.new; written = written.new }) }
    ensures memory { result ≢ 1 }
{
    number_of(put(about().as_bytes(), out, written))
}
