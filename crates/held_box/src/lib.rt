//! A box that leaves Rattle and comes back, as the address of its block.
#![tactic(auto)]

ghost use Rattle.std.specs.Prelude.{◌≡◌};
ghost use Rattle.std.specs.Box.Ownership.{box_owns};

use std::alloc::Allocator;
use std::marker::Model;

/// A box by the address of its block and its allocator. It owns what the box owned, and frees nothing by itself.
pub struct HeldBox<T, A: Allocator> {
    pub address: *mut T,
    pub allocator: A,
    pub ghost value: { T },
}

impl<T, A: Allocator> Model for HeldBox<T, A> {
    ghost also_owns = { λ h. box_owns (A.dealloc_token h.allocator) T.row h.address h.value };
}

impl<T: Drop, A: Allocator> HeldBox<T, A> {
    /// Takes a box apart.
    pub fn of(owner: Box<T, A>) -> HeldBox<T, A>
        ensures { result.value ≡ owner.value }
    {
        let (address, allocator) = Box::into_raw_with_allocator(owner);
        HeldBox { address, allocator }
    }

    /// Makes the box again, which frees its block when it is dropped.
    pub fn into_box(self) -> Box<T, A>
        ensures { result.value ≡ self.value }
    {
        let HeldBox { address, allocator } = self;
        unsafe { Box::from_raw(allocator, address) }
    }
}
