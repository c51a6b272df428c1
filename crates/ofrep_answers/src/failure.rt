//! What an evaluation without a variant is answered with.
ghost use Rattle.std.specs.Prelude.{◌≡◌, true, IfOk, option_copied};
ghost use Rattle.flag_text.specs.Shape.{is_whole};
ghost use Rattle.flag_text.specs.View.{view};
ghost use Rattle.ofrep_answers.specs.Bodies.{failure};
ghost use Rattle.ofrep_answers.specs.Failure as spec;

use flag_resolve::{Code, Reason};
use flag_text::Tree;
use http::StatusCode;
use std::alloc::{AllocError, Global};

/// The error code that the caller is told: that of the resolution, and where it has none `FLAG_NOT_FOUND`.
pub fn code_of(code: Option<Code>) -> Code
    ensures exact { result ≡ spec.code_of code }
{
    match code {
        Some(code) => code,
        None => Code::FlagNotFound,
    }
}

/// The status that goes with an error code.
pub fn code_status(code: Code) -> StatusCode
    ensures exact { result ≡ spec.code_status code }
{
    match code {
        Code::FlagNotFound => StatusCode::NOT_FOUND,
        Code::ProviderNotReady => StatusCode::BAD_REQUEST,
        Code::InvalidContext => StatusCode::BAD_REQUEST,
        Code::ParseError => StatusCode::BAD_REQUEST,
        Code::General => StatusCode::BAD_REQUEST,
        Code::TypeMismatch => StatusCode::BAD_REQUEST,
    }
}

/// What failed, for people, by the code and the reason of a resolution without a variant.
pub fn details_of(code: Option<Code>, reason: Reason) -> &'static str
    ensures exact { result.now ≡ spec.details_of code reason }
{
    match code {
        None => default_details(reason),
        Some(code) => code_details(code),
    }
}

fn default_details(reason: Reason) -> &'static str
    ensures { result.now ≡ spec.default_details reason }
{
    match reason {
        Reason::Disabled => "the flag is disabled",
        Reason::Error => "the flag leaves it to the caller's default",
        Reason::Static => "the flag leaves it to the caller's default",
        Reason::Default => "the flag leaves it to the caller's default",
        Reason::TargetingMatch => "the flag leaves it to the caller's default",
    }
}

fn code_details(code: Code) -> &'static str
    ensures { result.now ≡ spec.code_details code }
{
    match code {
        Code::ProviderNotReady => "no flags are loaded yet",
        Code::InvalidContext => "the context is not an object",
        Code::FlagNotFound => "no flag has this key",
        Code::ParseError => {
            "the flag's definition breaks a rule, or its targeting can't be evaluated"
        }
        Code::General => "the flag's targeting does not result in the name of a variant",
        Code::TypeMismatch => "the variant's value is of another type",
    }
}

/// What failed, for the flag of a key, or as a whole where there is none.
pub fn failure_body(
    alloc: Global,
    key: Option<&str>,
    code: Code,
    details: &str,
) -> Result<Tree, AllocError>
    ensures exact { IfOk result (λ t. view t ≡ failure (option_copied key.entry) code details.now) }
    ensures whole { IfOk result (λ t. is_whole (view t) ≡ true) }
{
    let code = String::from_str(alloc, code.as_str())?;
    let details = String::from_str(alloc, details)?;
    let mut members = Vec::with_capacity(alloc, 3)?;
    members.push((String::from_str(alloc, "errorCode")?, Tree::Text(code)))?;
    members.push((
        String::from_str(alloc, "errorDetails")?,
        Tree::Text(details),
    ))?;
    if let Some(key) = key {
        let key = String::from_str(alloc, key)?;
        members.push((String::from_str(alloc, "key")?, Tree::Text(key)))?;
    }
    Ok(Tree::Object(members))
}
