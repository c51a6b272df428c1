//! Texts, and lists of them.
ghost use Rattle.std.specs.Prelude.{◌≡◌, ◌++◌, ◌∷◌, [], false, IfOk, OnOk, map, option_map, string_bytes};
ghost use Rattle.control_flags.specs.Joined.{comma_if, joined, names_text, number_or_null, pair_text, quoted, text_or_null};

use flag_text::push_string;
use std::alloc::{AllocError, Global};

/// A text as JSON has it.
pub(crate) fn quoted(alloc: Global, text: &str) -> Result<String, AllocError>
    ensures { IfOk result (λ s. string_bytes s ≡ quoted text.now) }
{
    let mut out = String::new(alloc);
    push_string(alloc, &mut out, text)?;
    Ok(out)
}

pub(crate) fn text_or_null(alloc: Global, text: &Option<String>) -> Result<String, AllocError>
    ensures { IfOk result (λ s. string_bytes s ≡ text_or_null (option_map string_bytes text.now)) }
{
    match text {
        None => String::from_str(alloc, "null"),
        Some(text) => quoted(alloc, text.as_str()),
    }
}

pub(crate) fn number_or_null(alloc: Global, number: Option<u64>) -> Result<String, AllocError>
    ensures { IfOk result (λ s. string_bytes s ≡ number_or_null number) }
{
    match number {
        None => String::from_str(alloc, "null"),
        Some(number) => format!(in alloc; "{number}"),
    }
}

/// A list of a key and a word about its flag.
fn pair_text(alloc: Global, key: &str, word: &str) -> Result<String, AllocError>
    ensures { IfOk result (λ s. string_bytes s ≡ pair_text key.now word.now) }
{
    let key = quoted(alloc, key)?;
    format!(in alloc; "[{key},\"{word}\"]")
}

/// Adds a row.
pub(crate) fn push_row(rows: &mut Vec<String>, row: String) -> Result<(), AllocError>
    ensures { OnOk result (map string_bytes rows.new.items ≡ map string_bytes rows.old.items ++ string_bytes row ∷ []) }
{
    rows.push(row)?;
    Ok(())
}

/// Adds the row of a key and a word about its flag.
pub(crate) fn push_pair(
    alloc: Global,
    rows: &mut Vec<String>,
    key: &str,
    word: &str,
) -> Result<(), AllocError>
    ensures { OnOk result (map string_bytes rows.new.items ≡ map string_bytes rows.old.items ++ pair_text key.now word.now ∷ []) }
{
    let row = pair_text(alloc, key, word)?;
    push_row(rows, row)
}

/// Rows with commas between.
pub(crate) fn joined(alloc: Global, rows: &[String]) -> Result<String, AllocError>
    ensures { IfOk result (λ s. string_bytes s ≡ joined (map string_bytes rows.now)) }
{
    rows.join(alloc, ",")
}

/// Names as JSON texts, with commas between.
pub(crate) fn names_text(alloc: Global, names: &[&str]) -> Result<String, AllocError>
    ensures { IfOk result (λ s. string_bytes s ≡ names_text false names.now) }
{
    let mut out = String::new(alloc);
    let mut later = false;
    for name in names {
        out.push_str(comma_if(later))?;
        push_string(alloc, &mut out, name)?;
        later = true;
    }
    Ok(out)
}

/// A comma, where it is not the first item.
pub(crate) fn comma_if(later: bool) -> &'static str
    ensures { result.now ≡ comma_if later }
{
    if later { "," } else { "" }
}
