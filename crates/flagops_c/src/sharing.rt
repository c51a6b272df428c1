//! Seats that share flags.
ghost use Rattle.std.specs.Prelude.{◌≡◌, ◌≢◌, Some, None, OnOk, IfErr, IfOk, IfSome, IsOk};
ghost use Rattle.library_seat.specs.Seat.{Standing, fresh, sharing};
ghost use Rattle.library_seat.specs.View.{seat_view};
ghost use Rattle.library_seat.specs.declared.refusal.Refusal.TheVariants as refusal;
ghost use Rattle.flagops_c.specs.Calls.{or_fresh, standing};

use crate::handle::Handle;
use crate::numbers::number_of;
use library_seat::{Refusal, Seat};
use std::alloc::Global;

/// Gives `to` the flags that `from` has, which has them too. All else of `to` stays; where it held none it is a new seat.
#[unsafe(no_mangle)]
pub extern "C" fn flagops_share(alloc: Global, from: &mut Handle, to: &mut Handle) -> u32
    ensures kept { standing from.new.seat ≡ standing from.old.seat }
    ensures shared { result ≡ 0 → (s : Standing) × (standing from.old.seat ≡ Some s) × (standing to.new.seat ≡ Some (sharing s (or_fresh (standing to.old.seat)))) }
    ensures refused { result ≢ 0 → standing to.new.seat ≡ standing to.old.seat }
    ensures empty { from.old.seat ≡ None → result ≡ 2 }
    ensures number { from.old.seat ≢ None → result ≢ 0 → result ≡ 1 }
    // this needs no memory
    ensures no_flags { IfSome (standing from.old.seat) (λ s. s.flags ≡ None → to.old.seat ≢ None → result ≡ 0) }
{
    let Some(mut seat) = from.take(alloc) else {
        return Refusal::Empty.number();
    };
    let shared = share_to(alloc, &mut *seat, to);
    from.hold(alloc, seat);
    number_of(shared)
}

/// Gives `to` the flags of a seat.
fn share_to(alloc: Global, seat: &mut Seat, to: &mut Handle) -> Result<(), Refusal>
    ensures kept { seat_view seat.new ≡ seat_view seat.old }
    ensures shared { OnOk result (standing to.new.seat ≡ Some (sharing (seat_view seat.old) (or_fresh (standing to.old.seat)))) }
    ensures refused { IfErr result (λ e. (e ≡ refusal.WantOfMemory) × (standing to.new.seat ≡ standing to.old.seat)) }
    ensures no_flags { (seat_view seat.old).flags ≡ None → to.old.seat ≢ None → IsOk result }
{
    match to.take(alloc) {
        Some(mut other) => {
            let shared = (*other).share(alloc, seat);
            to.hold(alloc, other);
            shared
        }
        None => {
            to.hold(alloc, seat_beside(alloc, seat)?);
            Ok(())
        }
    }
}

/// A new seat with the flags of another.
fn seat_beside(alloc: Global, seat: &mut Seat) -> Result<Box<Seat>, Refusal>
    ensures kept { seat_view seat.new ≡ seat_view seat.old }
    ensures made { IfOk result (λ b. seat_view b.value ≡ sharing (seat_view seat.old) fresh) }
    ensures refused { IfErr result (λ e. e ≡ refusal.WantOfMemory) }
{
    let mut made = Seat::new(alloc);
    made.share(alloc, seat)?;
    Ok(Box::new(alloc, made)?)
}
