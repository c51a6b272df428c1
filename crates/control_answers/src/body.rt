//! The text of the answer to a request for a plan.
ghost use Rattle.std.specs.Prelude.{◌≡◌, ◌++◌, ◌≤◌, false, IfOk, OnOk, option_map, string_bytes, sum_by};
ghost use Rattle.limits.specs.Limits.{tally_inputs};
ghost use Rattle.rule_switches.specs.Switches.{row_view, rows_view};
ghost use Rattle.control_answers.specs.Body.{number_or_null, numbers_text, row_text, rows_text, switched_in, text_or_null, texts_text, told_text};
ghost use Rattle.control_answers.specs.View.{told_view};

use crate::Effect;
use crate::texts::comma_if;
use flag_text::push_string;
use rule_switches::Switch;
use std::alloc::{AllocError, Global};

/// What is told of a plan.
#[derive(Drop)]
pub(crate) struct Told {
    /// The number of the snapshot.
    pub(crate) snapshot: u64,
    /// The number of recorded inputs.
    pub(crate) inputs: u64,
    /// The plan file.
    pub(crate) plan: Vec<u8>,
    /// What the plan does to the inputs.
    pub(crate) effect: Effect,
    /// The new document.
    pub(crate) document: Option<String>,
    /// What a person is told of the plan.
    pub(crate) explained: String,
    /// The picture of the plan.
    pub(crate) picture: String,
    /// The token by which the plan is applied.
    pub(crate) token: Vec<u8>,
}

/// The body that tells it. The condition is that no more inputs switch than a tally has.
pub(crate) fn told_text(alloc: Global, told: &Told) -> Result<Vec<u8>, AllocError>
    requires { sum_by (λ r. r.1) (rows_view told.now.effect.switches.items) ≤ tally_inputs }
    ensures { IfOk result (λ v. v.items ≡ told_text (told_view told.now)) }
{
    let text = texts_text(alloc, told)?;
    let mut body = text.into_bytes();
    body.extend_from_slice(told.plan.as_slice())?;
    body.extend_from_slice(",\"token\":".as_bytes())?;
    body.extend_from_slice(told.token.as_slice())?;
    body.extend_from_slice("}\n".as_bytes())?;
    Ok(body)
}

/// What stands before the plan file.
fn texts_text(alloc: Global, told: &Told) -> Result<String, AllocError>
    requires { sum_by (λ r. r.1) (rows_view told.now.effect.switches.items) ≤ tally_inputs }
    ensures { IfOk result (λ s. string_bytes s ≡ texts_text (told_view told.now)) }
{
    let mut text = numbers_text(alloc, told)?;
    push_rows(alloc, &mut text, told.effect.switches.as_slice())?;
    text.push_str("],\"document\":")?;
    push_text_or_null(alloc, &mut text, &told.document)?;
    text.push_str(",\"explained\":")?;
    push_string(alloc, &mut text, told.explained.as_str())?;
    text.push_str(",\"picture\":")?;
    push_string(alloc, &mut text, told.picture.as_str())?;
    text.push_str(",\"plan\":")?;
    Ok(text)
}

/// What stands before the changes of name.
fn numbers_text(alloc: Global, told: &Told) -> Result<String, AllocError>
    requires { sum_by (λ r. r.1) (rows_view told.now.effect.switches.items) ≤ tally_inputs }
    ensures { IfOk result (λ s. string_bytes s ≡ numbers_text (told_view told.now)) }
{
    let by_hand = number_or_null(alloc, told.effect.by_hand)?;
    let (inputs, snapshot) = (told.inputs, told.snapshot);
    let switch = switched_in(told.effect.switches.as_slice());
    format!(in alloc;
        "{{\"by_hand\":{by_hand},\"inputs\":{inputs},\"snapshot\":{snapshot},\"switch\":{switch},\"switches\":["
    )
}

fn number_or_null(alloc: Global, number: Option<u64>) -> Result<String, AllocError>
    ensures { IfOk result (λ s. string_bytes s ≡ number_or_null number) }
{
    match number {
        None => String::from_str(alloc, "null"),
        Some(number) => format!(in alloc; "{number}"),
    }
}

/// How many inputs switch in all.
pub(crate) fn switched_in(switches: &[Switch]) -> u64
    requires { sum_by (λ r. r.1) (rows_view switches.now) ≤ tally_inputs }
    ensures { result ≡ switched_in (rows_view switches.now) }
{
    switches.iter().map(|switch| switch.users).sum()
}

/// Adds the objects of changes.
fn push_rows(alloc: Global, out: &mut String, rows: &[Switch]) -> Result<(), AllocError>
    ensures { OnOk result (string_bytes out.new ≡ string_bytes out.old ++ rows_text false (rows_view rows.now)) }
{
    let mut later = false;
    for row in rows {
        out.push_str(comma_if(later))?;
        push_row(alloc, out, row)?;
        later = true;
    }
    Ok(())
}

fn push_row(alloc: Global, out: &mut String, row: &Switch) -> Result<(), AllocError>
    ensures { OnOk result (string_bytes out.new ≡ string_bytes out.old ++ row_text (row_view row.now)) }
{
    let users = row.users;
    out.push_str("{\"from\":")?;
    push_string(alloc, out, row.from.as_str())?;
    write!(out, ",\"inputs\":{users},\"to\":")?;
    push_string(alloc, out, row.to.as_str())?;
    out.push_str("}")
}

fn push_text_or_null(
    alloc: Global,
    out: &mut String,
    text: &Option<String>,
) -> Result<(), AllocError>
    ensures { OnOk result (string_bytes out.new ≡ string_bytes out.old ++ text_or_null (option_map string_bytes text.now)) }
{
    match text {
        None => out.push_str("null"),
        Some(text) => push_string(alloc, out, text.as_str()),
    }
}
