//! The status of a flag's evaluation.
ghost use Rattle.std.specs.Prelude.{◌≡◌};
ghost use Rattle.flag_resolve.specs.Views.{resolution_view};
ghost use Rattle.ofrep_answers.specs.EvaluationBody as spec;

use crate::failure::{code_of, code_status};
use flag_resolve::Resolution;
use http::StatusCode;

/// The status of a flag's evaluation: 200 where it tells a variant, 404 where there is no flag for the caller, and else 400.
pub fn status_of(resolution: &Resolution) -> StatusCode
    ensures exact { result ≡ spec.status_of (resolution_view resolution.now) }
{
    match &resolution.variant {
        Some(_) => StatusCode::OK,
        None => code_status(code_of(resolution.code)),
    }
}
