//! The entries of a rule, one after another.
ghost use Rattle.std.specs.Prelude.{◌≡◌, List, ℕ, length};
ghost use Rattle.std.specs.Iterator.{YieldsFirstBy, item_count};
ghost use Rattle.bucket_core.specs.Rule.{AreNamed, Entries, all_named, names_view};

use std::marker::Model;

/// The entries of a rule that are left, from the first on: each a name with its weight.
#[derive(Drop)]
pub struct RuleEntries<'a> {
    names: &'a [String],
    left: &'a [(usize, u64)],
}

impl<'a> Model for RuleEntries<'a> {
    ghost Value = { List (List ℕ × ℕ) };

    ghost view = { λ e. all_named (names_view e.names.now) e.left.now };

    ghost invariant = { λ e. AreNamed (names_view e.names.now) e.left.now };
}

impl<'a> RuleEntries<'a> {
    /// The entries of these places and weights.
    pub(crate) fn of(names: &'a [String], left: &'a [(usize, u64)]) -> RuleEntries<'a>
        requires { AreNamed (names_view names.now) left.now }
        ensures { result ≡ all_named (names_view names.now) left.now }
    {
        RuleEntries { names, left }
    }

    /// How many are left.
    pub fn len(&self) -> usize
        ensures { result ≡ length self.now }
    {
        self.left.len()
    }
}

impl<'a> Iterator for RuleEntries<'a> {
    type Item = (&'a str, u64);

    ghost next_gives = { YieldsFirstBy (λ e. (e.0.now, e.1)) (λ entries. entries) };

    ghost remaining = { item_count (λ entries. entries) };

    fn next(&mut self) -> Option<(&'a str, u64)> {
        let ((place, weight), rest) = self.left.split_first()?;
        self.left = rest;
        Some((self.names[*place].as_str(), *weight))
    }
}
