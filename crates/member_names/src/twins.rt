//! Names that stand more than once among some.
ghost use Rattle.std.specs.Prelude.{◌≡◌, [], map, option_map, IfOk};
ghost use Rattle.std.specs.List.{list_any};
ghost use Rattle.std.specs.Str.{bytes_eq};
ghost use Rattle.member_names.specs.Places.{first_again};

use std::alloc::{AllocError, Global};
use std::collections::BTreeSet;

/// Up to so many names are compared with one another, without a set.
const FEW: usize = 16;

/// The first name that stands a second time.
pub(crate) fn twin_among<'a>(
    alloc: Global,
    names: &[&'a str],
) -> Result<Option<&'a str>, AllocError>
    ensures { IfOk result (λ o. option_map (λ n. n.now) o ≡ first_again [] (map (λ n. n.now) names.now)) }
{
    if names.len() <= FEW {
        Ok(twin_of_few(names))
    } else {
        twin_of_many(alloc, names)
    }
}

fn twin_of_few<'a>(names: &[&'a str]) -> Option<&'a str>
    ensures { option_map (λ n. n.now) result ≡ first_again [] (map (λ n. n.now) names.now) }
{
    for i in 0..names.len() {
        if is_among(names[i], &names[..i]) {
            return Some(names[i]);
        }
    }
    None
}

fn is_among(name: &str, names: &[&str]) -> bool
    ensures { result ≡ list_any (λ n. bytes_eq n.now name.now) names.now }
{
    names.iter().any(|other| *other == name)
}

fn twin_of_many<'a>(alloc: Global, names: &[&'a str]) -> Result<Option<&'a str>, AllocError>
    ensures { IfOk result (λ o. option_map (λ n. n.now) o ≡ first_again [] (map (λ n. n.now) names.now)) }
{
    let mut met = BTreeSet::new(alloc);
    for name in names {
        if !met.insert(*name)? {
            return Ok(Some(*name));
        }
    }
    Ok(None)
}
