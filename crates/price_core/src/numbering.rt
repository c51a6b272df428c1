//! Numbers for names, so that changes are told apart without comparing texts.
ghost use Rattle.std.specs.Prelude.{◌≡◌, ◌<◌, IfOk, Some, length, map, slice_index};
ghost use Rattle.std.specs.List.{All};
ghost use Rattle.std.specs.Map.{lookup};
ghost use Rattle.std.specs.Str.{bytes_eq};
ghost use Rattle.bucket_core.specs.Rule.{names_view};
ghost use Rattle.price_core.specs.Pricing.{change_view, entries_view};
ghost use Rattle.price_core.specs.Numbering.{IsNumbering, Keeps, AreNamesNumbers, AreNumbersOf, AreBetween, pair_of_numbers};

use crate::change::Change;
use bucket_core::Rule;
use std::alloc::{AllocError, Global};
use std::collections::HashMap;
use std::marker::Model;

/// A number for each of some names: equal names have one number, different names have two.
#[derive(Drop)]
pub(crate) struct Numbering<'a> {
    by_name: HashMap<&'a str, usize>,
}

impl<'a> Model for Numbering<'a> {
    ghost use Rattle.std.specs.Prelude.{ℕ, List};
    ghost use Rattle.price_core.specs.Numbering.{IsNumbering, numbers_view};

    ghost Value = { List (List ℕ × ℕ) };

    ghost view = { λ n. numbers_view n.by_name.entries };

    ghost invariant = { λ n. IsNumbering (numbers_view n.by_name.entries) };
}

impl<'a> Numbering<'a> {
    /// No names yet.
    pub(crate) fn new(alloc: Global) -> Numbering<'a> {
        Numbering {
            by_name: HashMap::new(alloc),
        }
    }

    /// The number of the name, if it has one.
    fn get(&self, name: &str) -> Option<usize>
        ensures { result ≡ lookup (bytes_eq name.now) self.now }
    {
        self.by_name.get(name).copied()
    }

    /// The numbers of the two names of the change, if both have one.
    fn pair(&self, change: &Change) -> Option<(usize, usize)>
        ensures { result ≡ pair_of_numbers self.now (change_view change.now) }
    {
        let from = self.get(change.from.as_str())?;
        let to = self.get(change.to.as_str())?;
        Some((from, to))
    }

    /// The number of the name, a new one where it has none.
    fn add(&mut self, name: &'a str) -> Result<usize, AllocError>
        ensures numbered { IfOk result (λ n. lookup (bytes_eq name.now) self.new ≡ Some n) }
        ensures keeps { Keeps self.old self.new }
    {
        if let Some(number) = self.get(name) {
            return Ok(number);
        }
        let number = self.by_name.len();
        self.by_name.insert(name, number)?;
        Ok(number)
    }

    /// The number of each entry's name, in the order of the entries.
    pub(crate) fn add_all(
        &mut self,
        alloc: Global,
        rule: &'a Rule,
    ) -> Result<Vec<usize>, AllocError>
        ensures numbered { IfOk result (λ v. AreNumbersOf self.new rule.now v.items) }
        ensures keeps { Keeps self.old self.new }
    {
        let (names, entries) = rule.by_places();
        let numbers = self.add_names(alloc, names)?;
        numbers_at(alloc, entries, numbers.as_slice())
    }

    /// The number of each name.
    fn add_names(&mut self, alloc: Global, names: &'a [String]) -> Result<Vec<usize>, AllocError>
        ensures numbered { IfOk result (λ v. AreNamesNumbers self.new (names_view names.now) v.items) }
        ensures keeps { Keeps self.old self.new }
    {
        let mut numbers = Vec::with_capacity(alloc, names.len())?;
        for name in names {
            numbers.push(self.add(name.as_str())?)?;
        }
        Ok(numbers)
    }

    /// What the entries say of changes between these names, by the names' numbers.
    pub(crate) fn between<X: Copy>(
        &self,
        alloc: Global,
        entries: &[(Change, X)],
    ) -> Result<HashMap<(usize, usize), X>, AllocError>
        ensures found { IfOk result (λ m. AreBetween self.now (entries_view entries.now) m) }
        ensures lawful { IsNumbering self.now }
    {
        // A look into the numbering, by which a proof learns what holds of its fields.
        let _ = &self.by_name;
        let mut by_numbers = HashMap::new(alloc);
        let mut left = entries.len();
        while left > 0 {
            left -= 1;
            let (change, said) = &entries[left];
            if let Some(pair) = self.pair(change) {
                by_numbers.insert(pair, *said)?;
            }
        }
        Ok(by_numbers)
    }
}

/// The number at the place of each entry's name.
fn numbers_at(
    alloc: Global,
    entries: &[(usize, u64)],
    numbers: &[usize],
) -> Result<Vec<usize>, AllocError>
    requires { All (λ e. e.0 < length numbers.now) entries.now }
    ensures { IfOk result (λ v. v.items ≡ map (λ e. slice_index numbers.now e.0) entries.now) }
{
    let mut found = Vec::with_capacity(alloc, entries.len())?;
    for (place, _) in entries {
        found.push(numbers[*place])?;
    }
    Ok(found)
}
