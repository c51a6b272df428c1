//! A seat, and what it stands on.
ghost use Rattle.std.specs.Prelude.{◌≡◌, ◌<◌, ◌≤◌, false, length, option_map, None, IfErr, IsErrOf, IsOk, OnOk, IfSome};
ghost use Rattle.std.specs.Str.{is_utf8};
ghost use Rattle.flag_defs.specs.Document.{max_bytes};
ghost use Rattle.flag_defs.specs.Flags.{flags_view};
ghost use Rattle.flag_defs.specs.Floats.{marked_view};
ghost use Rattle.flag_defs.specs.declared.fault.DefFault.TheVariants as fault;
ghost use Rattle.library_seat.specs.Early.{text_refusal};
ghost use Rattle.library_seat.specs.Seat.{definitions_in, fresh, sharing, with_most};
ghost use Rattle.library_seat.specs.Told.{Opening, Reading};
ghost use Rattle.library_seat.specs.View.{seat_view};
ghost use Rattle.library_seat.specs.declared.refusal.Refusal.TheVariants as refusal;

use crate::KeptLines;
use crate::asked::ReadContext;
use crate::feeding::new_feed;
use crate::held::{HeldFlags, shared};
use crate::opening::flags_of;
use crate::question::context_of;
use crate::refusal::Refusal;
use crate::workspace::Workspace;
use flag_defs::Flags;
use std::alloc::Global;
use sync_frames::Feed;

/// What one thread of an application resolves with: flags, a context that was read, and note lines that are to be taken.
#[derive(Drop)]
pub struct Seat {
    pub(crate) flags: Option<HeldFlags>,
    pub(crate) context: Option<ReadContext>,
    pub(crate) notes: KeptLines,
    pub(crate) feed: Feed,
    pub(crate) workspace: Workspace,
}

impl Seat {
    /// A seat without flags, so that each flag resolves to the default and PROVIDER_NOT_READY. It keeps no note lines.
    pub fn new(alloc: Global) -> Seat
        ensures { seat_view result ≡ fresh }
    {
        Seat {
            flags: None,
            context: None,
            notes: KeptLines::new(alloc, 0),
            feed: new_feed(alloc),
            workspace: Workspace::new(alloc),
        }
    }

    /// From now on the seat has the flags of a document. Where the document is refused it has those that it had.
    pub fn open(&mut self, alloc: Global, document: &[u8]) -> Result<(), Refusal>
        ensures opening { Opening document.now result (seat_view self.old) (seat_view self.new) }
        // these need no memory
        ensures large { max_bytes < length document.now → IsErrOf result (refusal.Document fault.TooLarge) }
        ensures no_text { length document.now ≤ max_bytes → is_utf8 document.now ≡ false → IsErrOf result (refusal.Document fault.NotJson) }
    {
        let flags = flags_of(alloc, document)?;
        self.flags = Some(HeldFlags::Own(flags));
        Ok(())
    }

    /// From now on the seat has the flags of another, which has them too.
    pub fn share(&mut self, alloc: Global, other: &mut Seat) -> Result<(), Refusal>
        ensures kept { seat_view other.new ≡ seat_view other.old }
        ensures shared { OnOk result (seat_view self.new ≡ sharing (seat_view other.old) (seat_view self.old)) }
        ensures refused { IfErr result (λ e. (e ≡ refusal.WantOfMemory) × (seat_view self.new ≡ seat_view self.old)) }
        // this needs no memory
        ensures no_flags { (seat_view other.old).flags ≡ None → IsOk result }
    {
        let flags = shared(alloc, &mut other.flags)?;
        self.flags = flags;
        Ok(())
    }

    /// Reads a context for the calls of [`Seat::resolve_kept`]. Where it is refused the seat has the one that it had.
    pub fn read_context(&mut self, alloc: Global, bytes: &[u8]) -> Result<(), Refusal>
        ensures reading { Reading bytes.now result (seat_view self.old) (seat_view self.new) }
        // these need no memory
        ensures early { IfSome (text_refusal bytes.now) (λ e. IsErrOf result (refusal.Context e)) }
    {
        let context = context_of(alloc, bytes, &mut self.workspace)?;
        self.context = Some(context);
        Ok(())
    }

    /// From now on note lines are kept up to so many bytes, or none where that is 0. Those that are kept stay.
    pub fn record(&mut self, most: usize)
        ensures { seat_view self.new ≡ with_most most (seat_view self.old) }
    {
        self.notes.set_most(most);
    }

    /// Its flags.
    pub(crate) fn flags(&self) -> Option<&Flags>
        ensures flags { option_map (λ f. marked_view f.now) result ≡ (seat_view self.now).flags }
        ensures definitions { option_map (λ f. flags_view f.now) result ≡ definitions_in (seat_view self.now).flags }
    {
        match &self.flags {
            Some(flags) => Some(flags.get()),
            None => None,
        }
    }
}
