//! Which flags of a document have such variants.
ghost use Rattle.std.specs.Prelude.{◌≡◌, map, IfOk};
ghost use Rattle.json.specs.Value.{members_view, value_view};
ghost use Rattle.spelled_numbers.specs.Marks.{are_floats_in, marks_among, marks_in, marks_of};
ghost use Rattle.spelled_numbers.specs.View.{mark_view};

use crate::variants::has_floats;
use json::Value;
use std::alloc::{AllocError, Global};

/// The key of a flag, and whether its variants have numbers that are not whole.
#[derive(Drop)]
pub struct Mark {
    pub key: String,
    pub has_floats: bool,
}

/// The marks of the flags of a document, in the order of the text.
pub(crate) fn marks_in(alloc: Global, document: &Value<'_>) -> Result<Vec<Mark>, AllocError>
    ensures { IfOk result (λ v. map mark_view v.items ≡ marks_in (value_view document.now)) }
{
    match document.get("flags") {
        Some(flags) => marks_among(alloc, flags),
        None => Ok(Vec::new(alloc)),
    }
}

fn marks_among(alloc: Global, flags: &Value<'_>) -> Result<Vec<Mark>, AllocError>
    ensures { IfOk result (λ v. map mark_view v.items ≡ marks_among (value_view flags.now)) }
{
    match flags {
        Value::Object(flags) => marks_of(alloc, flags),
        _ => Ok(Vec::new(alloc)),
    }
}

fn marks_of(alloc: Global, flags: &Vec<(&str, Value<'_>)>) -> Result<Vec<Mark>, AllocError>
    ensures { IfOk result (λ v. map mark_view v.items ≡ marks_of (members_view flags.now.items)) }
{
    let mut marks = Vec::with_capacity(alloc, flags.len())?;
    for (key, flag) in flags {
        let mark = Mark {
            key: String::from_str(alloc, key)?,
            has_floats: are_floats_in(flag),
        };
        marks.push(mark)?;
    }
    Ok(marks)
}

fn are_floats_in(flag: &Value<'_>) -> bool
    ensures { result ≡ are_floats_in (value_view flag.now) }
{
    match flag.get("variants") {
        Some(variants) => has_floats(variants),
        None => false,
    }
}
