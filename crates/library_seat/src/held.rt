//! Flags that a seat has.
ghost use Rattle.std.specs.Prelude.{◌≡◌, None, Some, IfOk, IsOk, option_map};
ghost use Rattle.std.specs.Arc.{arc_value};
ghost use Rattle.flag_defs.specs.Floats.{marked_view};
ghost use Rattle.library_seat.specs.View.{held_view};

use flag_defs::Flags;
use std::alloc::{AllocError, AllocFailed, Global};
use std::sync::Arc;

/// Flags that a seat has: of its own, until they are first shared, so that a snapshot needs no memory but what reads it.
#[derive(Drop)]
pub(crate) enum HeldFlags {
    /// Its own.
    Own(Flags),
    /// Those that other seats may have too.
    Shared(Arc<Flags, Global>),
}

impl HeldFlags {
    /// The flags.
    pub(crate) fn get(&self) -> &Flags
        ensures { marked_view result.now ≡ held_view self.now }
    {
        match self {
            HeldFlags::Own(flags) => flags,
            HeldFlags::Shared(flags) => &**flags,
        }
    }
}

/// The flags once more, for another seat.
pub(crate) fn shared(
    alloc: Global,
    held: &mut Option<HeldFlags>,
) -> Result<Option<HeldFlags>, AllocError>
    ensures same { option_map held_view held.new ≡ option_map held_view held.old }
    ensures shared { IfOk result (λ other. option_map held_view other ≡ option_map held_view held.old) }
    // this needs no memory
    ensures none { held.old ≡ None → IsOk result }
{
    match held.take() {
        None => Ok(None),
        Some(HeldFlags::Own(flags)) => share_first(alloc, held, flags),
        Some(HeldFlags::Shared(flags)) => share_again(held, flags),
    }
}

/// Puts flags back that were nobody else's, shared if there is memory for that.
fn share_first(
    alloc: Global,
    held: &mut Option<HeldFlags>,
    flags: Flags,
) -> Result<Option<HeldFlags>, AllocError>
    ensures same { option_map held_view held.new ≡ Some (marked_view flags) }
    ensures shared { IfOk result (λ other. option_map held_view other ≡ Some (marked_view flags)) }
{
    match Arc::new(alloc, flags) {
        Ok(flags) => share_again(held, flags),
        Err(AllocFailed { value }) => {
            *held = Some(HeldFlags::Own(value));
            Err(AllocError)
        }
    }
}

/// Puts flags back that others have too, and gives them once more.
fn share_again(
    held: &mut Option<HeldFlags>,
    flags: Arc<Flags, Global>,
) -> Result<Option<HeldFlags>, AllocError>
    ensures same { option_map held_view held.new ≡ Some (marked_view (arc_value flags)) }
    ensures shared { IfOk result (λ other. option_map held_view other ≡ Some (marked_view (arc_value flags))) }
{
    let other = Arc::try_clone(&flags);
    *held = Some(HeldFlags::Shared(flags));
    Ok(Some(HeldFlags::Shared(other?)))
}
