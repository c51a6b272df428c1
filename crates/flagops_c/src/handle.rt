//! What C holds.
ghost use Rattle.std.specs.Prelude.{◌≡◌, Option, Some, None, option_map};
ghost use Rattle.std.specs.Coded.{coded_option};
ghost use Rattle.flagops_c.specs.Held.{held_at, is_held};
ghost use Rattle.library_seat.specs.contracts.seat.Seat.{the_row as seat_row};
ghost use Rattle.library_seat.specs.declared.seat.Seat.{Seat as SeatValue};

use held_box::HeldBox;
use library_seat::Seat;
use std::alloc::Global;
use std::marker::Model;
use std::mem::replace;

/// A seat that C holds, or none: `{NULL, false}`.
#[repr(C)]
pub struct Handle {
    address: *mut u8,
    held: bool,
    pub ghost seat: { Option SeatValue } by { coded_option seat_row.coded },
    ghost flag: { held ≡ is_held seat },
}

impl Model for Handle {
    ghost also_owns = { λ h. held_at h.address h.seat };
}

impl Handle {
    /// Takes the seat, where one is held. None is held then.
    pub(crate) fn take(&mut self, alloc: Global) -> Option<Box<Seat>>
        ensures taken { option_map (λ b. b.value) result ≡ self.old.seat }
        ensures none { self.new.seat ≡ None }
    {
        replace(self, Handle::none()).into_box(alloc)
    }

    /// Holds a seat, in the place of what was held.
    pub(crate) fn hold(&mut self, alloc: Global, seat: Box<Seat>)
        ensures { self.new.seat ≡ Some seat.value }
    {
        let old = replace(self, Handle::of(HeldBox::of(seat)));
        let _old = old.into_box(alloc);
    }

    fn into_box(self, alloc: Global) -> Option<Box<Seat>>
        ensures { option_map (λ b. b.value) result ≡ self.seat }
    {
        match self.into_held(alloc) {
            Some(held) => Some(held.into_box()),
            None => None,
        }
    }

    // Each of these has a proof by hand.

    pub(crate) fn none() -> Handle
        ensures { result.seat ≡ None }
    {
        Handle {
            address: std::ptr::null_mut(),
            held: false,
        }
    }

    fn of(seat: HeldBox<Seat, Global>) -> Handle
        ensures { result.seat ≡ Some seat.value }
    {
        let HeldBox {
            address,
            allocator: _,
        } = seat;
        Handle {
            address: address as *mut u8,
            held: true,
        }
    }

    fn into_held(self, alloc: Global) -> Option<HeldBox<Seat, Global>>
        ensures { option_map (λ b. b.value) result ≡ self.seat }
    {
        let Handle { address, held } = self;
        if held {
            return Some(HeldBox {
                address: address as *mut Seat,
                allocator: alloc,
            });
        }
        None
    }
}

unsafe impl Send for Handle {}
