//! The two copies of the current stamp.
ghost use Rattle.std.specs.Prelude.{◌≡◌, true, IfErr};
ghost use Rattle.snap_share.specs.Fault.{is_of_current};

use crate::fault::ShareFault;
use crate::history::ShareName;
use crate::stamp::Stamp;
use crossbeam_utils::rule::Unruled;
use left_right::Absorb;
use left_right::reader::Reader;
use left_right::writer::Writer;
use std::alloc::AllocError;
use std::cell::Cell;
use std::rc::Rc;

/// The next stamp, once for each of the two copies. It is put there when nothing can go wrong any more.
#[derive(Drop)]
pub struct Places<J: ShareName> {
    pub(crate) first: Cell<Option<Stamp<J>>>,
    pub(crate) second: Cell<Option<Stamp<J>>>,
}

impl<J: ShareName> Places<J> {
    pub(crate) fn empty() -> Places<J> {
        Places {
            first: Cell::new(None),
            second: Cell::new(None),
        }
    }
}

/// An operation on the copies: the stamp of this number, once its places have it, is current.
#[derive(Drop)]
pub struct Handover<J: ShareName> {
    pub(crate) number: u64,
    pub(crate) places: Rc<Places<J>>,
}

// What the copies have in common is the number of their stamps. An operation without its stamp is not absorbed.
impl<J: ShareName> Absorb<Handover<J>> for Stamp<J> {
    type State = u64;

    ghost use Rattle.std.specs.Prelude.{length};

    ghost state = { λ stamp. length stamp };

    ghost applied = { λ before operation. operation.number };

    fn absorb_first(
        &mut self,
        operation: &Handover<J>,
        _other: &Stamp<J>,
    ) -> Result<(), AllocError> {
        if self.becomes(operation.places.first.replace(None), operation.number) {
            Ok(())
        } else {
            Err(AllocError)
        }
    }

    fn absorb_second(
        &mut self,
        operation: Handover<J>,
        _other: &Stamp<J>,
    ) -> Result<(), Handover<J>> {
        if self.becomes(operation.places.second.replace(None), operation.number) {
            Ok(())
        } else {
            Err(operation)
        }
    }
}

pub type StampReader<J> = Reader<Stamp<J>, (), Unruled>;

pub type StampWriter<J> = Writer<Stamp<J>, Handover<J>, (), Unruled>;

/// Reads the current stamp. It waits for nobody.
pub(crate) fn read<J: ShareName>(
    reader: StampReader<J>,
) -> (StampReader<J>, Result<Stamp<J>, ShareFault>)
    ensures { IfErr result.1 (λ fault. is_of_current fault ≡ true) }
{
    match reader.enter_as::<Unruled>() {
        Ok(reading) => {
            let stamp = reading.get().another();
            let reader = reading.leave();
            match stamp {
                Ok(stamp) => (reader, Ok(stamp)),
                Err(want) => (reader, Err(ShareFault::from(want))),
            }
        }
        Err(reader) => (reader, Err(ShareFault::Closed)),
    }
}
