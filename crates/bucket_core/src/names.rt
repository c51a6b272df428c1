//! Names apart from the entries that have them.
ghost use Rattle.std.specs.Prelude.{◌≡◌, IfOk};
ghost use Rattle.bucket_core.specs.Rule.{AreNamed, all_named, entries_view, names_view};

use std::alloc::{AllocError, Global};

/// The names of the entries, and the entries by their places.
pub(crate) fn numbered(
    alloc: Global,
    entries: Vec<(String, u64)>,
) -> Result<(Vec<String>, Vec<(usize, u64)>), AllocError>
    ensures named { IfOk result (λ r. AreNamed (names_view r.0.items) r.1.items) }
    ensures same { IfOk result (λ r. all_named (names_view r.0.items) r.1.items ≡ entries_view entries.items) }
{
    let mut names = Vec::with_capacity(alloc, entries.len())?;
    let mut places = Vec::with_capacity(alloc, entries.len())?;
    for (name, weight) in entries {
        places.push((names.len(), weight))?;
        names.push(name)?;
    }
    Ok((names, places))
}

/// Copies of names.
pub(crate) fn copied(alloc: Global, names: &[String]) -> Result<Vec<String>, AllocError>
    ensures { IfOk result (λ v. names_view v.items ≡ names_view names.now) }
{
    let mut copies = Vec::with_capacity(alloc, names.len())?;
    for name in names {
        copies.push(name.clone()?)?;
    }
    Ok(copies)
}
