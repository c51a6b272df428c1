//! From the bytes of a document to the list of its flags.
ghost use Rattle.std.specs.Prelude.{◌≡◌, ◌<◌, ◌≤◌, true, false, length, Some, IfOk, IsErrOf};
ghost use Rattle.std.specs.Cmp.Lexicographic.{slice_cmp};
ghost use Rattle.std.specs.List.Sorted.{IsStrictlySortedBy};
ghost use Rattle.std.specs.Map.{keys_of};
ghost use Rattle.std.specs.Ordering.{nat_cmp};
ghost use Rattle.std.specs.Str.{is_utf8};
ghost use Rattle.flag_text.specs.Shape.{is_tidy, members_are_tidy};
ghost use Rattle.flag_text.specs.View.{view, members_view};
ghost use Rattle.flag_defs.specs.Document.{AllMean, DocumentMeans, FlagsMean, evaluators_in, flags_in, max_bytes};
ghost use Rattle.flag_defs.specs.Entries.{AreMeant, HoldsLimited};
ghost use Rattle.flag_defs.specs.Fault.{of_text};
ghost use Rattle.flag_defs.specs.Flag.{entries_view};
ghost use Rattle.flag_defs.specs.Floats.{are_unmarked, entries_floats};
ghost use Rattle.flag_defs.specs.Foreseen.{AllForesee, least_sum};
ghost use Rattle.flag_defs.specs.Weighing.{AreLight};

use crate::definition::{definition_forecast, read_flag};
use crate::fault::DefFault;
use crate::flag::Flag;
use crate::forecast::Forecast;
use crate::parts::Parts;
use flag_references::{Evaluators, plus};
use flag_text::{TextFault, Tree, read_doc};
use limits::{FLAGS, TEXT_BYTES};
use std::alloc::{AllocError, Global};

/// The flags of a document in the order of their keys, before the limit on the bytes that they are printed in: a JSON object
/// with the member `flags`, an object from key to definition, and perhaps `$evaluators`, to which targetings refer. A
/// definition that breaks a rule makes a broken flag.
///
/// Refusals, in this order: `TooLarge` above 4,194,304 bytes, before anything is read; `NotJson`; `NoFlags`; `TooLarge` for
/// more than 10,000 flags, and for targetings that are printed in more than 4,194,304 bytes without their references. The
/// first, and `NotJson` of bytes that are no UTF-8, take no memory. No targeting is expanded before it is known that all of
/// them together have so few bytes. What is returned may still be printed in more.
pub(crate) fn read_entries(alloc: Global, bytes: &[u8]) -> Result<Vec<(String, Flag)>, DefFault>
    ensures means { HoldsLimited (DocumentMeans bytes.now) result }
    ensures rising { IfOk result (λ v. IsStrictlySortedBy (slice_cmp nat_cmp) (keys_of (entries_view v.items))) }
    ensures floats { IfOk result (λ v. are_unmarked (entries_floats v.items) ≡ true) }
    ensures large { max_bytes < length bytes.now → IsErrOf result DefFault.TooLarge }
    ensures no_text { length bytes.now ≤ max_bytes → is_utf8 bytes.now ≡ false → IsErrOf result DefFault.NotJson }
{
    match read_doc(alloc, bytes, TEXT_BYTES) {
        Ok(document) => read_document(alloc, document),
        Err(fault) => Err(of_text(fault)),
    }
}

/// The fault of a document whose text is refused.
pub(crate) fn of_text(fault: TextFault) -> DefFault
    ensures { result ≡ of_text fault }
{
    match fault {
        TextFault::WantOfMemory => DefFault::WantOfMemory,
        TextFault::TooLarge => DefFault::TooLarge,
        TextFault::NotJson | TextFault::NotWhole | TextFault::TooDeep => DefFault::NotJson,
    }
}

/// The document is consumed: what is not read of it is dropped at once, and each definition as its flag is made.
pub(crate) fn read_document(alloc: Global, document: Tree) -> Result<Vec<(String, Flag)>, DefFault>
    requires { is_tidy (view document) ≡ true }
    ensures means { HoldsLimited (FlagsMean (evaluators_in (view document)) (flags_in (view document))) result }
    ensures each { IfOk result (λ v. AreMeant (evaluators_in (view document)) (flags_in (view document)) (entries_view v.items)) }
    ensures rising { IfOk result (λ v. IsStrictlySortedBy (slice_cmp nat_cmp) (keys_of (entries_view v.items))) }
    ensures floats { IfOk result (λ v. are_unmarked (entries_floats v.items) ≡ true) }
{
    let Parts {
        definitions,
        evaluators,
    } = Parts::of(alloc, document);
    let Some(definitions) = definitions else {
        return Err(DefFault::NoFlags);
    };
    let evaluators = Evaluators::read(alloc, evaluators.as_slice())?;
    read_definitions(alloc, definitions, &evaluators)
}

fn read_definitions(
    alloc: Global,
    definitions: Vec<(String, Tree)>,
    evaluators: &Evaluators<'_>,
) -> Result<Vec<(String, Flag)>, DefFault>
    requires { members_are_tidy (members_view definitions.items) ≡ true }
    ensures means { HoldsLimited (FlagsMean (members_view evaluators.now) (Some (members_view definitions.items))) result }
    ensures each { IfOk result (λ v. AllMean (members_view evaluators.now) (members_view definitions.items) (entries_view v.items)) }
    ensures rising { IfOk result (λ v. IsStrictlySortedBy (slice_cmp nat_cmp) (keys_of (entries_view v.items))) }
    ensures floats { IfOk result (λ v. are_unmarked (entries_floats v.items) ≡ true) }
{
    let forecasts = forecasts_of(alloc, definitions.as_slice(), evaluators)?;
    let least = least_of_all(forecasts.as_slice());
    if definitions.len() > FLAGS {
        return Err(DefFault::TooLarge);
    }
    if least as usize > TEXT_BYTES {
        return Err(DefFault::TooLarge);
    }
    let flags = read_all(alloc, definitions, forecasts, evaluators)?;
    Ok(flags)
}

/// What is known of each definition before a reference is replaced.
fn forecasts_of(
    alloc: Global,
    definitions: &[(String, Tree)],
    evaluators: &Evaluators<'_>,
) -> Result<Vec<Forecast>, AllocError>
    requires { members_are_tidy (members_view definitions.now) ≡ true }
    ensures { IfOk result (λ v. AllForesee (members_view evaluators.now) (members_view definitions.now) v.items) }
{
    let mut forecasts = Vec::with_capacity(alloc, definitions.len())?;
    for (_, definition) in definitions {
        forecasts.push(definition_forecast(definition, evaluators))?;
    }
    Ok(forecasts)
}

/// In how many bytes the inlined forms of all targetings together are printed at least, up to the most that is counted.
fn least_of_all(forecasts: &[Forecast]) -> u32
    ensures { result ≡ least_sum forecasts.now }
{
    let mut least = 0;
    // From the back, as the definition adds them up: it folds from the right.
    for i in (0..forecasts.len()).rev() {
        least = plus(forecasts[i].bytes(), least);
    }
    least
}

/// The flags of all definitions, under their keys, of which this is foreseen. The condition is that they are few, and that
/// what their targetings take when they are expanded was added up and found small. Each definition is consumed as its flag is
/// made, so that the next flag takes its memory.
fn read_all(
    alloc: Global,
    definitions: Vec<(String, Tree)>,
    forecasts: Vec<Forecast>,
    evaluators: &Evaluators<'_>,
) -> Result<Vec<(String, Flag)>, AllocError>
    requires tidy { members_are_tidy (members_view definitions.items) ≡ true }
    requires foreseen { AllForesee (members_view evaluators.now) (members_view definitions.items) forecasts.items }
    requires light { AreLight (members_view evaluators.now) (members_view definitions.items) }
    ensures means { IfOk result (λ v. AllMean (members_view evaluators.now) (members_view definitions.items) (entries_view v.items)) }
    ensures floats { IfOk result (λ v. are_unmarked (entries_floats v.items) ≡ true) }
{
    let mut flags = Vec::with_capacity(alloc, definitions.len())?;
    for ((key, definition), forecast) in definitions.into_iter().zip(forecasts) {
        let flag = read_flag(alloc, definition, forecast, evaluators)?;
        flags.push((key, flag))?;
    }
    Ok(flags)
}
