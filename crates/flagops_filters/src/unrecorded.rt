//! Why nothing is recorded of any context.
ghost use Rattle.std.specs.Prelude.{◌≡◌, IfOk, string_bytes};
ghost use Rattle.flagops_filters.specs.Beside.{cause, causes, is_unrecorded, why_line};
ghost use Rattle.note_streams.specs.View.{outcomes_view};

use crate::start::Start;
use note_streams::{Counted, Outcomes};
use std::alloc::{AllocError, Global};

/// Whether a site could have been reached and lines were given, but no note came of one.
pub(crate) fn is_unrecorded(start: Start, counted: Counted) -> bool
    ensures { result ≡ is_unrecorded start counted.empty (outcomes_view counted.outcomes) }
{
    !start.is_siteless && !counted.empty && counted.outcomes.noted == 0
}

/// The line that says why not, with the number of contexts and of those of each cause.
pub(crate) fn why_line(alloc: Global, start: Start, counted: Counted) -> Result<String, AllocError>
    ensures { IfOk result (λ s. string_bytes s ≡ why_line start counted.empty (outcomes_view counted.outcomes)) }
{
    if !is_unrecorded(start, counted) {
        return Ok(String::new(alloc));
    }
    let contexts = counted.outcomes.contexts();
    let causes = causes(alloc, counted.outcomes)?;
    format!(in alloc; "record: nothing is recorded: contexts {contexts}{causes}\n")
}

/// The contexts of each cause.
fn causes(alloc: Global, outcomes: Outcomes) -> Result<String, AllocError>
    ensures { IfOk result (λ s. string_bytes s ≡ causes (outcomes_view outcomes)) }
{
    let keyless = cause(alloc, outcomes.keyless, " without a targetingKey")?;
    let unreached = cause(alloc, outcomes.unreached, " with no fractional reached")?;
    let parse_error = cause(alloc, outcomes.parse_error, " with PARSE_ERROR")?;
    let disabled = cause(alloc, outcomes.disabled, " with DISABLED")?;
    let too_long = cause(
        alloc,
        outcomes.too_long,
        " with inputs of more than 1024 bytes",
    )?;
    format!(in alloc; "{keyless}{unreached}{parse_error}{disabled}{too_long}")
}

/// The contexts of one cause, where there are any.
#[tactic(auto, unfolding(crate::specs::Beside::cause))]
fn cause(alloc: Global, count: u64, words: &str) -> Result<String, AllocError>
    ensures { IfOk result (λ s. string_bytes s ≡ cause count words.now) }
{
    if count > 0 {
        format!(in alloc; ", {count}{words}")
    } else {
        Ok(String::new(alloc))
    }
}
