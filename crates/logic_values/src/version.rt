//! `sem_ver`: two versions compared as an operator's text says (flagd; Semantic Versioning 2.0.0).
ghost use Rattle.std.specs.Prelude.{◌≡◌, ◌≢◌, ℕ, List, ◌∷◌, ◌++◌, ◌||◌, IfOk, count_by, option_map, string_bytes};
ghost use Rattle.std.specs.Char.{is_ascii_digit};
ghost use Rattle.std.specs.List.{list_all};
ghost use Rattle.semver.specs.Identifiers.{parts_of};
ghost use Rattle.logic_values.specs.Version.{without_v, completed, is_dot, version_of, matches, both_read, version_matches};
ghost use Rattle.logic_values.specs.Views.{seen_view};

use crate::seen::Seen;
use semver::{Error, Version};
use std::alloc::{AllocError, Global};

/// Whether the first version stands to the second as the operator says; false unless all are texts and readable.
pub fn version_matches(
    alloc: Global,
    version: Seen,
    operator: Seen,
    other: Seen,
) -> Result<bool, AllocError>
    ensures { IfOk result (λ b. b ≡ version_matches (seen_view version.entry) (seen_view operator.entry) (seen_view other.entry)) }
{
    match (version, operator, other) {
        (Seen::Text(version), Seen::Text(operator), Seen::Text(other)) => {
            texts_match(alloc, version, operator, other)
        }
        _ => Ok(false),
    }
}

fn texts_match(
    alloc: Global,
    version: &str,
    operator: &str,
    other: &str,
) -> Result<bool, AllocError>
    ensures { IfOk result (λ b. b ≡ both_read operator.now (version_of version.now) (version_of other.now)) }
{
    let version = version_of(alloc, version)?;
    let other = version_of(alloc, other)?;
    match (version, other) {
        (Some(version), Some(other)) => Ok(matches(operator, &version, &other)),
        _ => Ok(false),
    }
}

/// Whether the versions stand to one another as the operator says.
fn matches(operator: &str, version: &Version, other: &Version) -> bool
    ensures { result ≡ matches operator.now (parts_of version.now) (parts_of other.now) }
{
    let order = version.cmp_precedence(other);
    match operator {
        "=" => order.is_eq(),
        "!=" => order.is_ne(),
        "<" => order.is_lt(),
        "<=" => order.is_le(),
        ">" => order.is_gt(),
        ">=" => order.is_ge(),
        "^" => version.major == other.major,
        "~" => version.major == other.major && version.minor == other.minor,
        _ => false,
    }
}

/// The version that a text spells: a leading `v` dropped, and completed to three numbers.
fn version_of(alloc: Global, text: &str) -> Result<Option<Version>, AllocError>
    ensures { IfOk result (λ o. option_map parts_of o ≡ version_of text.now) }
{
    let text = completed(alloc, without_v(text))?;
    match Version::parse(alloc, text.as_str()) {
        Ok(version) => Ok(Some(version)),
        Err(error) if error == Error::from(AllocError) => Err(AllocError),
        Err(_) => Ok(None),
    }
}

/// The text without one leading `v` or `V`.
fn without_v(text: &str) -> &str
    ensures { result.now ≡ without_v text.now }
{
    match text.strip_prefix('v') {
        Some(rest) => rest,
        None => without_capital_v(text),
    }
}

fn without_capital_v(text: &str) -> &str
    requires { (rest : List ℕ) → text.now ≢ 118 ∷ rest }
    ensures { result.now ≡ without_v text.now }
{
    match text.strip_prefix('V') {
        Some(rest) => rest,
        None => text,
    }
}

/// A text of one or two dotted numbers completed by `.0` to three.
fn completed(alloc: Global, text: &str) -> Result<String, AllocError>
    ensures { IfOk result (λ s. string_bytes s ≡ completed text.now) }
{
    let mut completed = String::from_str(alloc, text)?;
    completed.push_str(missing_numbers(text.as_bytes()))?;
    Ok(completed)
}

/// What a text of dotted numbers lacks to three of them.
fn missing_numbers(text: &[u8]) -> &'static str
    ensures { completed text.now ≡ text.now ++ result.now }
{
    if !is_dotted(text) {
        return "";
    }
    match dots(text) {
        0 => ".0.0",
        1 => ".0",
        _ => "",
    }
}

fn is_dotted(text: &[u8]) -> bool
    ensures { result ≡ list_all (λ b. is_ascii_digit b || is_dot b) text.now }
{
    text.iter().all(|b| b.is_ascii_digit() || *b == b'.')
}

fn dots(text: &[u8]) -> usize
    ensures { result ≡ count_by is_dot text.now }
{
    text.iter().filter(|b| **b == b'.').count()
}
