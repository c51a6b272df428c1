//! The document of a snapshot with the rule of an answer.
ghost use Rattle.std.specs.Prelude.{◌≡◌, IfOk, is_ok, option_map, string_bytes, true};
ghost use Rattle.flag_defs.specs.Flags.{flags_view};
ghost use Rattle.kept_document.specs.Kept.{place_in};
ghost use Rattle.plan_text.specs.Answer.{planned_view};
ghost use Rattle.price_core.specs.Request.{asked_of};
ghost use Rattle.control_answers.specs.Kept.{IsChanged, IsEdited, IsKeptAt, MayBeChanged};
ghost use Rattle.control_answers.specs.Snapshot.{snapshot_view};
ghost use Rattle.control_answers.specs.Turns.{Gives};

use crate::refusal::{ControlRefusal, of_keep};
use crate::snapshot::Snapshot;
use bucket_core::Rule;
use flag_defs::Flags;
use kept_document::keep;
use plan_text::Planned;
use price_core::Request;
use rollout::{RequestFile, apply};
use std::alloc::{AllocError, Global};

/// The document with the rule of an answer at the site of its request, and all else as it was. The condition is a request that asks
/// something.
///
/// Refusals: `NoDocument`; those of `apply`; and those of `keep`.
pub(crate) fn changed(
    alloc: Global,
    snapshot: &Snapshot<'_>,
    request: &RequestFile,
    planned: &Planned,
) -> Result<String, ControlRefusal>
    requires { is_ok (asked_of request.now) ≡ true }
    ensures { Gives string_bytes (IsChanged (snapshot_view snapshot.now) request.now (planned_view planned.now)) result }
{
    match planned {
        Planned::Emit(rule, _) => match request.asked() {
            Ok(asked) => with_rule(alloc, snapshot, asked, rule),
            // The request asks something.
            Err(_) => unreachable!(),
        },
        Planned::NoneExists(_) => Err(ControlRefusal::NoDocument),
    }
}

/// The same, or nothing where it is refused.
pub(crate) fn changed_if_any(
    alloc: Global,
    snapshot: &Snapshot<'_>,
    request: &RequestFile,
    planned: &Planned,
) -> Result<Option<String>, AllocError>
    requires { is_ok (asked_of request.now) ≡ true }
    ensures { IfOk result (λ o. MayBeChanged (snapshot_view snapshot.now) request.now (planned_view planned.now) (option_map string_bytes o)) }
{
    match changed(alloc, snapshot, request, planned) {
        Ok(text) => Ok(Some(text)),
        Err(ControlRefusal::WantOfMemory) => Err(AllocError),
        Err(_) => Ok(None),
    }
}

/// The document with a rule.
fn with_rule(
    alloc: Global,
    snapshot: &Snapshot<'_>,
    asked: &Request,
    rule: &Rule,
) -> Result<String, ControlRefusal>
    ensures { Gives string_bytes (IsKeptAt (snapshot_view snapshot.now) asked.now rule.now) result }
{
    let key = asked.flag();
    let site = asked.site();
    match apply(alloc, snapshot.flags, key, site, rule) {
        Ok(wanted) => edited(alloc, snapshot, key, site, rule, &wanted),
        Err(fault) => Err(ControlRefusal::from(fault)),
    }
}

/// The same, which then means the flags that are wanted.
fn edited(
    alloc: Global,
    snapshot: &Snapshot<'_>,
    key: &str,
    site: u32,
    rule: &Rule,
    wanted: &Flags,
) -> Result<String, ControlRefusal>
    ensures { Gives string_bytes (IsEdited snapshot.now.document.now (place_in true snapshot.now.document.now (flags_view snapshot.now.flags.now) key.now site) rule.now (flags_view wanted.now)) result }
{
    let (document, flags) = (snapshot.document, snapshot.flags);
    // The documents of a service may have floats.
    match keep(alloc, document, flags, key, site, rule, wanted, true) {
        Ok(text) => match String::from_utf8(text) {
            Ok(text) => Ok(text),
            // Bytes that are no text mean no flags.
            Err(_) => unreachable!(),
        },
        Err(fault) => Err(of_keep(fault)),
    }
}
