//! The rule and the certificate that a text seems to hold, token by token. What is made is only a guess, since names of
//! members are not looked at: its caller compares what is printed of it with the text. A printed rule has no names but those
//! of its certificate, so each is kept once.
ghost use Rattle.std.specs.Prelude.{◌≡◌, ◌<◌, IfErr, IfOk, IfSome, length};
ghost use Rattle.bucket_core.specs.Rule.{AreNamed, names_view};
ghost use Rattle.plan_text.specs.declared.fault.PlanFileFault.TheVariants.{WantOfMemory};

use crate::fault::PlanFileFault;
use bucket_core::{Rule, RuleFault};
use json::{Reader, Scratch, Token};
use std::alloc::{AllocError, Global};
use transport_core::Certificate;

/// The rule and the certificate of a text that is laid out as a printed one.
pub(crate) fn scan(alloc: Global, text: &str) -> Result<Option<(Rule, Certificate)>, PlanFileFault>
    ensures { IfErr result (λ e. e ≡ WantOfMemory) }
{
    let mut scratch = Scratch::new(alloc);
    let mut reader = Reader::new(text, &mut scratch)?;
    let Some(certificate) = certificate(alloc, &mut reader)? else {
        return Ok(None);
    };
    if !passes_number(&mut reader) || !passes_key(&mut reader) {
        return Ok(None);
    }
    let names = names_of(alloc, certificate.beta.as_slice())?;
    let Some(entries) = entries(alloc, &mut reader, names.as_slice())? else {
        return Ok(None);
    };
    match Rule::of_places(alloc, names, entries) {
        Ok(rule) => Ok(Some((rule, certificate))),
        Err(RuleFault::WantOfMemory) => Err(PlanFileFault::WantOfMemory),
        Err(_) => Ok(None),
    }
}

/// The first three members, up to the key of the next.
fn certificate(alloc: Global, reader: &mut Reader<'_>) -> Result<Option<Certificate>, AllocError> {
    let Some(Token::BeginObject) = reader.next() else {
        return Ok(None);
    };
    if !passes_key(reader) {
        return Ok(None);
    }
    let Some(alpha) = alpha(alloc, reader)? else {
        return Ok(None);
    };
    if !passes_key(reader) {
        return Ok(None);
    }
    let Some(beta) = beta(alloc, reader)? else {
        return Ok(None);
    };
    if !passes_key(reader) {
        return Ok(None);
    }
    let Some(cost) = unsigned(reader) else {
        return Ok(None);
    };
    if !passes_key(reader) {
        return Ok(None);
    }
    Ok(Some(Certificate { alpha, beta, cost }))
}

fn alpha(
    alloc: Global,
    reader: &mut Reader<'_>,
) -> Result<Option<Vec<(String, u32, i64)>>, AllocError> {
    let Some(Token::BeginArray) = reader.next() else {
        return Ok(None);
    };
    let mut rows = Vec::new(alloc);
    for _ in 0..u64::MAX {
        if reader.take_end_array() {
            return Ok(Some(rows));
        }
        let Some(row) = alpha_row(alloc, reader)? else {
            return Ok(None);
        };
        rows.push(row)?;
    }
    Ok(None)
}

fn alpha_row(
    alloc: Global,
    reader: &mut Reader<'_>,
) -> Result<Option<(String, u32, i64)>, AllocError> {
    let Some(name) = row_name(reader) else {
        return Ok(None);
    };
    let Some(count) = unsigned(reader) else {
        return Ok(None);
    };
    let Some(n) = signed(reader) else {
        return Ok(None);
    };
    if count > u64::from(u32::MAX) || !reader.take_end_array() {
        return Ok(None);
    }
    Ok(Some((String::from_str(alloc, name)?, count as u32, n)))
}

fn beta(alloc: Global, reader: &mut Reader<'_>) -> Result<Option<Vec<(String, i64)>>, AllocError> {
    let Some(Token::BeginArray) = reader.next() else {
        return Ok(None);
    };
    let mut rows = Vec::new(alloc);
    for _ in 0..u64::MAX {
        if reader.take_end_array() {
            return Ok(Some(rows));
        }
        let Some(row) = beta_row(alloc, reader)? else {
            return Ok(None);
        };
        rows.push(row)?;
    }
    Ok(None)
}

fn beta_row(alloc: Global, reader: &mut Reader<'_>) -> Result<Option<(String, i64)>, AllocError> {
    let Some(name) = row_name(reader) else {
        return Ok(None);
    };
    let Some(n) = signed(reader) else {
        return Ok(None);
    };
    if !reader.take_end_array() {
        return Ok(None);
    }
    Ok(Some((String::from_str(alloc, name)?, n)))
}

/// The entries of a rule, each by the place of its name among these, which rise; none where it is no such name.
fn entries(
    alloc: Global,
    reader: &mut Reader<'_>,
    names: &[String],
) -> Result<Option<Vec<(usize, u64)>>, AllocError>
    ensures { IfOk result (λ o. IfSome o (λ v. AreNamed (names_view names.now) v.items)) }
{
    let Some(Token::BeginArray) = reader.next() else {
        return Ok(None);
    };
    let mut rows = Vec::new(alloc);
    for _ in 0..u64::MAX {
        if reader.take_end_array() {
            return Ok(Some(rows));
        }
        let Some(row) = entry(reader, names) else {
            return Ok(None);
        };
        rows.push(row)?;
    }
    Ok(None)
}

fn entry(reader: &mut Reader<'_>, names: &[String]) -> Option<(usize, u64)>
    ensures { IfSome result (λ e. e.0 < length (names_view names.now)) }
{
    let place = place_of(names, row_name(reader)?)?;
    let weight = unsigned(reader)?;
    if !reader.take_end_array() {
        return None;
    }
    Some((place, weight))
}

/// The place of a name among these, which rise.
fn place_of(names: &[String], name: &str) -> Option<usize>
    ensures { IfSome result (λ place. place < length (names_view names.now)) }
{
    let place = names.partition_point(|other| other.as_str() < name);
    match names.get(place) {
        Some(other) if other.as_str() == name => Some(place),
        _ => None,
    }
}

/// The names of the numbers of names.
fn names_of(alloc: Global, beta: &[(String, i64)]) -> Result<Vec<String>, AllocError> {
    let mut names = Vec::with_capacity(alloc, beta.len())?;
    for (name, _) in beta {
        names.push(name.clone()?)?;
    }
    Ok(names)
}

/// The name that a row begins with.
fn row_name<'a>(reader: &mut Reader<'a>) -> Option<&'a str> {
    let Some(Token::BeginArray) = reader.next() else {
        return None;
    };
    match reader.next() {
        Some(Token::String(name)) => Some(name),
        _ => None,
    }
}

fn unsigned(reader: &mut Reader<'_>) -> Option<u64> {
    match reader.next() {
        Some(Token::Number(text)) => text.parse::<u64>().ok(),
        _ => None,
    }
}

fn signed(reader: &mut Reader<'_>) -> Option<i64> {
    match reader.next() {
        Some(Token::Number(text)) => text.parse::<i64>().ok(),
        _ => None,
    }
}

fn passes_key(reader: &mut Reader<'_>) -> bool {
    matches!(reader.next(), Some(Token::Key(_)))
}

fn passes_number(reader: &mut Reader<'_>) -> bool {
    matches!(reader.next(), Some(Token::Number(_)))
}
