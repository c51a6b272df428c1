//! What becomes of the text of a document that is read again.
ghost use Rattle.std.specs.Prelude.{◌≡◌, ◌⊎◌, ◌+◌, IfOk, MatchOption, MatchResult, Err, Ok, decimal, string_bytes};
ghost use Rattle.flag_defs.specs.Flags.{flags_view};
ghost use Rattle.flag_defs.specs.Floats.{MeansWithFloats};
ghost use Rattle.flag_defs.specs.declared.fault.DefFault.{DefFault as Fault};
ghost use Rattle.source_merge.specs.View.{sources_view};
ghost use Rattle.flagops_service.specs.declared.taking.Unfit.TheVariants.{WantOfMemory};
ghost use Rattle.flagops_service.specs.Rereading.{Harms, IsUnfit, MayBeRefused, MayFollow, SetsFit, Spares};

use crate::asked::OnBroken;
use flag_defs::{DefFault, Flags, read_flags_with_floats};
use flag_doubts::{Regression, regression_in};
use source_merge::{SourceFault, Sources};
use std::alloc::{AllocError, Global};

/// What became of the text of a document that was read again.
#[derive(Clone, Copy, Debug, PartialEq, Eq)]
pub(crate) enum Taken {
    /// It was accepted in the place of the last one.
    Accepted,
    /// It was refused, and the last one stays.
    Refused,
    /// It is the one that was read last.
    Unchanged,
    /// It can't be read, or memory ran out. It is taken the next time.
    Unread,
}

/// Why the text of a document is not set.
#[derive(Debug, Drop)]
pub(crate) enum Unfit {
    WantOfMemory,
    /// It is no document.
    Refused(SourceFault),
    /// It breaks a flag that is good now, or loses one though it has its key.
    Harms(Regression),
}

impl From<AllocError> for Unfit {
    ghost from_gives = { λ _ e. e ≡ WantOfMemory };

    fn from(_fault: AllocError) -> Unfit {
        Unfit::WantOfMemory
    }
}

/// Sets the document of a number, which may have floats, unless it harms a flag of the text that was accepted last.
pub(crate) fn set_fit(
    alloc: Global,
    mode: OnBroken,
    sources: &mut Sources,
    number: u64,
    accepted: &[u8],
    text: &[u8],
) -> Result<(), Unfit>
    ensures { SetsFit mode number accepted.now text.now (sources_view sources.old) (sources_view sources.new) result }
{
    let name = name_of(alloc, number)?;
    spare(alloc, mode, accepted, text)?;
    match sources.set_with_floats(alloc, name.as_str(), text) {
        Ok(()) => Ok(()),
        Err(SourceFault::WantOfMemory) => Err(Unfit::WantOfMemory),
        Err(fault) => Err(Unfit::Refused(fault)),
    }
}

/// Whether the text may be set behind the one that was accepted last.
fn spare(alloc: Global, mode: OnBroken, accepted: &[u8], text: &[u8]) -> Result<(), Unfit>
    ensures { MatchResult result (λ _. MayFollow mode accepted.now text.now) (λ why. (why ≡ Unfit.WantOfMemory) ⊎ ((regression : Regression) × (why ≡ Unfit.Harms regression) × MayBeRefused mode accepted.now text.now)) }
{
    match mode {
        OnBroken::Serve => Ok(()),
        OnBroken::Keep | OnBroken::Refuse => match harm_in(alloc, accepted, text)? {
            Some(regression) => Err(Unfit::Harms(regression)),
            None => Ok(()),
        },
    }
}

/// What the text does to a flag of the one that was accepted last, where it harms one.
fn harm_in(alloc: Global, accepted: &[u8], text: &[u8]) -> Result<Option<Regression>, AllocError>
    ensures { IfOk result (λ o. MatchOption o (Spares accepted.now text.now) (λ _. Harms accepted.now text.now)) }
{
    let Some(now) = flags_or_none(alloc, accepted)? else {
        return Ok(None);
    };
    let Some(later) = flags_or_none(alloc, text)? else {
        return Ok(None);
    };
    regression_in(alloc, &now, &later, text)
}

/// The flags of a document; none where the bytes are none.
fn flags_or_none(alloc: Global, bytes: &[u8]) -> Result<Option<Flags>, AllocError>
    ensures { IfOk result (λ o. MatchOption o ((fault : Fault) × MeansWithFloats bytes.now (Err fault)) (λ flags. MeansWithFloats bytes.now (Ok (flags_view flags)))) }
{
    match read_flags_with_floats(alloc, bytes) {
        Ok(flags) => Ok(Some(flags)),
        Err(DefFault::WantOfMemory) => Err(AllocError),
        Err(_) => Ok(None),
    }
}

/// The name of the source of a number.
fn name_of(alloc: Global, number: u64) -> Result<String, AllocError>
    ensures { IfOk result (λ s. string_bytes s ≡ decimal number) }
{
    format!(in alloc; "{number}")
}
