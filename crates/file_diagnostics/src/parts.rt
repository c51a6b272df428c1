//! What stands between the words of a diagnostic: names, steps and values.
ghost use Rattle.std.specs.Prelude.{Some};
ghost use Rattle.flag_text.specs.View.{view};
ghost use Rattle.file_diagnostics.specs.Named.{quoted, step};
ghost use Rattle.file_diagnostics.specs.Words.{value_words};

use crate::quoting::{quoted_name, quoted_step};
use flag_text::Tree;
use std::alloc::Global;
use std::fmt;

/// A name as a JSON text, cut where it is long.
#[derive(Clone, Copy)]
pub struct Name<'a> {
    /// What its text takes memory from.
    pub alloc: Global,
    /// The name.
    pub name: &'a str,
}

impl fmt::Display for Name<'_> {
    ghost output = { λ n. Some (quoted n.name.now) };

    fn fmt<W: fmt::Write>(&self, f: &mut fmt::Formatter<W>) -> fmt::Result {
        let name = quoted_name(self.alloc, self.name)?;
        f.write_str(name.as_str())
    }
}

/// The step from an object to its member: `.name`, or the name in brackets where it is no plain word.
#[derive(Clone, Copy)]
pub struct Step<'a> {
    /// What its text takes memory from.
    pub alloc: Global,
    /// The name of the member.
    pub name: &'a str,
}

impl fmt::Display for Step<'_> {
    ghost output = { λ s. Some (step s.name.now) };

    fn fmt<W: fmt::Write>(&self, f: &mut fmt::Formatter<W>) -> fmt::Result {
        let step = quoted_step(self.alloc, self.name)?;
        f.write_str(step.as_str())
    }
}

/// What a value is, in words: a scalar itself, else its kind.
#[derive(Clone, Copy)]
pub struct Value<'a> {
    /// What its text takes memory from.
    pub alloc: Global,
    /// The value.
    pub tree: &'a Tree,
}

impl fmt::Display for Value<'_> {
    ghost output = { λ v. Some (value_words (view v.tree.now)) };

    fn fmt<W: fmt::Write>(&self, f: &mut fmt::Formatter<W>) -> fmt::Result {
        match self.tree {
            Tree::Null => f.write_str("null"),
            Tree::Bool(value) => write!(f, "{value}"),
            Tree::Whole(n) => write!(f, "{n}"),
            Tree::Other => f.write_str("a number that is not whole"),
            Tree::Text(text) => {
                let text = quoted_name(self.alloc, text.as_str())?;
                f.write_str(text.as_str())
            }
            Tree::List(_) => f.write_str("a list"),
            Tree::Object(_) => f.write_str("an object"),
        }
    }
}
