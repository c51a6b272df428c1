ghost use Rattle.std.specs.Prelude.{◌≡◌};
ghost use Rattle.flagops_drive.specs.Plain.{of_value};
ghost use Rattle.flagops_drive.specs.declared.unplain.Unplain.TheVariants.{WantOfMemory as want};

use flag_text::TextFault;
use std::alloc::{AllocError, AllocFailed};

/// Why the asks of a text were not read token by token.
#[derive(Clone, Copy)]
pub(crate) enum Unplain {
    /// Memory ran out.
    WantOfMemory,
    /// The text has another form; its tree may be one of asks nevertheless.
    Otherwise,
}

impl From<AllocError> for Unplain {
    ghost from_gives = { λ _ e. e ≡ want };

    fn from(_e: AllocError) -> Unplain {
        Unplain::WantOfMemory
    }
}

impl<T: Drop> From<AllocFailed<T>> for Unplain {
    ghost from_gives = { λ _ e. e ≡ want };

    fn from(_e: AllocFailed<T>) -> Unplain {
        Unplain::WantOfMemory
    }
}

impl From<TextFault> for Unplain {
    ghost from_gives = { λ f e. e ≡ of_value f };

    fn from(fault: TextFault) -> Unplain {
        match fault {
            TextFault::WantOfMemory => Unplain::WantOfMemory,
            _ => Unplain::Otherwise,
        }
    }
}
