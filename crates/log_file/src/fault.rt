//! Why a log can't be opened.
ghost use Rattle.std.specs.Prelude.{◌≡◌};
ghost use Rattle.log_file.specs.Fault.{fault_name, fault_number};
ghost use Rattle.log_file.specs.declared.fault.LogFault.TheVariants.{WantOfMemory};

use std::alloc::{AllocError, AllocFailed};
use std::io::{Error, ErrorKind};

/// Why a log can't be opened.
#[derive(Clone, Copy, Debug, PartialEq, Eq)]
pub enum LogFault {
    WantOfMemory,
    /// The folder or the file can't be made, opened, read or cut.
    Unopened,
    /// Another process has the file open as a log.
    InUse,
}

impl LogFault {
    /// The number that a refusal is written with.
    pub fn number(&self) -> u32
        ensures { result ≡ fault_number self.now }
    {
        match self {
            LogFault::WantOfMemory => 0,
            LogFault::Unopened => 1,
            LogFault::InUse => 2,
        }
    }

    /// The name that a refusal is written with: the variant's.
    pub fn name(&self) -> &'static str
        ensures { result.now ≡ fault_name self.now }
    {
        match self {
            LogFault::WantOfMemory => "WantOfMemory",
            LogFault::Unopened => "Unopened",
            LogFault::InUse => "InUse",
        }
    }
}

/// Why something of the system can't be had: want of memory, or another reason.
pub(crate) fn fault_of(error: &Error) -> LogFault {
    match error.kind() {
        ErrorKind::OutOfMemory => LogFault::WantOfMemory,
        _ => LogFault::Unopened,
    }
}

impl From<AllocError> for LogFault {
    ghost from_gives = { λ _ e. e ≡ WantOfMemory };

    fn from(_: AllocError) -> LogFault {
        LogFault::WantOfMemory
    }
}

impl<T: Drop> From<AllocFailed<T>> for LogFault {
    ghost from_gives = { λ _ e. e ≡ WantOfMemory };

    fn from(_: AllocFailed<T>) -> LogFault {
        LogFault::WantOfMemory
    }
}
