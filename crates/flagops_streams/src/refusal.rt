//! Why `serve` and `follow` are refused, and the line that a refusal is written as.
ghost use Rattle.std.specs.Prelude.{◌≡◌, IfOk, string_bytes};
ghost use Rattle.flagops_streams.specs.declared.refusal.Refusal.TheVariants.{WantOfMemory};
ghost use Rattle.flagops_streams.specs.Refusal.{call_of, line_of, name_of, number_of, payload_of};

use snap_share::ShareFault;
use source_merge::SourceFault;
use std::alloc::{AllocError, AllocFailed, Global};

/// Why a command of streams is refused: the call that refused, with its fault.
#[derive(Clone, Copy, Debug)]
pub enum Refusal {
    /// There are more documents than sources.
    Add(SourceFault),
    /// The file of a document can't be read.
    Unreadable,
    /// Memory ran out while a file was read.
    Unloaded,
    /// The document at this place, from 1, is refused.
    Set(SourceFault, u64),
    /// The documents are too large together.
    Merged(SourceFault),
    /// The first documents were not shared.
    Share(ShareFault),
    /// Documents were not published.
    Publish(ShareFault),
    /// The port can't be listened on.
    Unbound,
    /// A subscriber's connection failed as it came.
    NoConnection,
    /// No thread can be made for a subscriber.
    NoThread,
    /// Nobody listens on the port.
    Unreachable,
    /// So many subscribers were not sent the last snapshot.
    Unserved(u64),
    /// `serve` ran out of memory between its calls.
    WantOfMemory,
}

impl Refusal {
    /// The name of the call that refused.
    pub fn call(&self) -> &'static str
        ensures { result.now ≡ call_of self.now }
    {
        match self {
            Refusal::Add(_) => "add",
            Refusal::Unreadable | Refusal::Unloaded => "load",
            Refusal::Set(_, _) => "set",
            Refusal::Merged(_) => "merged",
            Refusal::Share(_) => "share",
            Refusal::Publish(_) => "publish",
            Refusal::Unbound => "bind",
            Refusal::NoConnection => "accept",
            Refusal::NoThread => "spawn",
            Refusal::Unreachable => "connect",
            Refusal::Unserved(_) | Refusal::WantOfMemory => "serve",
        }
    }

    /// The number of the fault, from 0 for want of memory.
    pub fn number(&self) -> u32
        ensures { result ≡ number_of self.now }
    {
        match self {
            Refusal::Add(fault) | Refusal::Set(fault, _) | Refusal::Merged(fault) => fault.number(),
            Refusal::Share(fault) | Refusal::Publish(fault) => fault.number(),
            Refusal::Unreadable
            | Refusal::Unbound
            | Refusal::NoConnection
            | Refusal::NoThread
            | Refusal::Unreachable
            | Refusal::Unserved(_) => 1,
            Refusal::Unloaded | Refusal::WantOfMemory => 0,
        }
    }

    /// The name of the fault.
    pub fn name(&self) -> &'static str
        ensures { result.now ≡ name_of self.now }
    {
        match self {
            Refusal::Add(fault) | Refusal::Set(fault, _) | Refusal::Merged(fault) => fault.name(),
            Refusal::Share(fault) | Refusal::Publish(fault) => fault.name(),
            Refusal::Unreadable => "Unreadable",
            Refusal::Unbound => "Unbound",
            Refusal::NoConnection => "NoConnection",
            Refusal::NoThread => "NoThread",
            Refusal::Unreachable => "Unreachable",
            Refusal::Unserved(_) => "Unserved",
            Refusal::Unloaded | Refusal::WantOfMemory => "WantOfMemory",
        }
    }

    /// What the line says beyond the name, each behind a blank: the number and the name of a document's fault, or how many
    /// subscribers were not served.
    fn payload(&self, alloc: Global) -> Result<String, AllocError>
        ensures { IfOk result (λ s. string_bytes s ≡ payload_of self.now) }
    {
        match self {
            Refusal::Set(SourceFault::Refused(fault), _) => {
                let number = fault.number();
                let name = fault.name();
                format!(in alloc; " {number} {name}")
            }
            Refusal::Unserved(missed) => format!(in alloc; " {missed}"),
            _ => Ok(String::new(alloc)),
        }
    }

    /// The line that the refusal is written as.
    #[tactic(auto, unfolding(crate::specs::Refusal::line_of))]
    pub fn line(&self, alloc: Global) -> Result<String, AllocError>
        ensures { IfOk result (λ s. string_bytes s ≡ line_of self.now) }
    {
        let call = self.call();
        let number = self.number();
        let name = self.name();
        let payload = self.payload(alloc)?;
        format!(in alloc; "refused {call} {number} {name}{payload}\n")
    }
}

impl From<AllocError> for Refusal {
    ghost from_gives = { λ _ e. e ≡ WantOfMemory };

    fn from(_e: AllocError) -> Refusal {
        Refusal::WantOfMemory
    }
}

impl<T: Drop> From<AllocFailed<T>> for Refusal {
    ghost from_gives = { λ _ e. e ≡ WantOfMemory };

    fn from(_e: AllocFailed<T>) -> Refusal {
        Refusal::WantOfMemory
    }
}
