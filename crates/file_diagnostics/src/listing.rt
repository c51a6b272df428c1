//! Lists of names, of which a diagnostic shows the first.
ghost use Rattle.std.specs.Prelude.{◌≡◌, ◌≤◌, IfOk, List, ℕ, Some, [], codes, if◌then◌else◌, length, map, nat_eq, option_map, slice_get, string_bytes, take};
ghost use Rattle.std.specs.List.{join_by};
ghost use Rattle.flag_defs.specs.Flags.{flags_view};
ghost use Rattle.file_diagnostics.specs.Named.{quoted};
ghost use Rattle.file_diagnostics.specs.Words.{list_words};

use crate::quoting::quoted_name;
use flag_defs::Flags;
use flag_text::Tree;
use std::alloc::{AllocError, Global};
use std::fmt;

/// The most names that are listed.
const MOST_NAMES: usize = 10;

/// Things that are listed by their names.
pub trait NameList {
    // the names in their order
    ghost names: { Self → List (List ℕ) };

    /// How many there are.
    fn count(&self) -> usize
        ensures { result ≡ length (names self.now) };

    /// The name of the one at a place, where there is one.
    fn name_at(&self, place: usize) -> Option<&str>
        ensures { option_map (λ n. n.now) result ≡ slice_get (names self.now) place };
}

impl NameList for &[String] {
    ghost names = { λ l. map string_bytes l.now };

    fn count(&self) -> usize {
        self.len()
    }

    fn name_at(&self, place: usize) -> Option<&str> {
        Some(self.get(place)?.as_str())
    }
}

impl NameList for &[(String, Tree)] {
    ghost names = { λ l. map (λ m. string_bytes m.0) l.now };

    fn count(&self) -> usize {
        self.len()
    }

    fn name_at(&self, place: usize) -> Option<&str> {
        let (name, _) = self.get(place)?;
        Some(name.as_str())
    }
}

impl NameList for &Flags {
    ghost names = { λ flags. map (λ m. m.0) (flags_view flags.now) };

    fn count(&self) -> usize {
        self.len()
    }

    fn name_at(&self, place: usize) -> Option<&str> {
        if place < self.len() {
            let (key, _) = self.at(place);
            Some(key)
        } else {
            None
        }
    }
}

/// Names, at most ten, or that there are none.
#[derive(Clone, Copy)]
pub struct Listed<L> {
    /// What its text takes memory from.
    pub alloc: Global,
    /// What is listed.
    pub names: L,
}

impl<L: NameList> fmt::Display for Listed<L> {
    ghost output = { λ l. Some (list_words (L.names l.names)) };

    fn fmt<W: fmt::Write>(&self, f: &mut fmt::Formatter<W>) -> fmt::Result {
        let text = listed_names(self.alloc, &self.names)?;
        f.write_str(text.as_str())
    }
}

/// The first names, and how many more there are.
fn listed_names<L: NameList>(alloc: Global, names: &L) -> Result<String, AllocError>
    ensures { IfOk result (λ s. string_bytes s ≡ list_words (L.names names.now)) }
{
    let count = names.count();
    if count == 0 {
        return String::from_str(alloc, "none");
    }
    let first = first_names(alloc, names, count.min(MOST_NAMES))?;
    if count <= MOST_NAMES {
        return Ok(first);
    }
    format!(in alloc; "{first} and {} more", count - MOST_NAMES)
}

/// The first names, with commas between them.
fn first_names<L: NameList>(alloc: Global, names: &L, count: usize) -> Result<String, AllocError>
    requires { count ≤ length (L.names names.now) }
    ensures { IfOk result (λ s. string_bytes s ≡ join_by quoted (codes ", ") (take count (L.names names.now))) }
{
    let mut text = String::new(alloc);
    for place in 0..count {
        if let Some(name) = names.name_at(place) {
            let (comma, name) = (comma_before(place), quoted_name(alloc, name)?);
            write!(text, "{comma}{name}")?;
        }
    }
    Ok(text)
}

/// What stands before the name at a place.
fn comma_before(place: usize) -> &'static str
    ensures { result.now ≡ (if nat_eq place 0 then [] else codes ", ") }
{
    if place == 0 { "" } else { ", " }
}
