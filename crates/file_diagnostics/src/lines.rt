//! The text of a diagnostic as it grows.
ghost use Rattle.std.specs.Prelude.{◌≡◌, ◌++◌, IfErr, IfOk, None, Some, [], codes, string_bytes};
ghost use Rattle.file_diagnostics.specs.Lines.{Grows, IsHeaded, text_so_far};
ghost use Rattle.file_diagnostics.specs.Named.{Names, NamesWord, opening_words, quoted};

use crate::listing::Listed;
use crate::parts::{Name, Step, Value};
use crate::quoting::quoted_name;
use flag_text::Tree;
use std::alloc::{AllocError, Global};
use std::fmt::Display;

/// The words before the name of what a diagnostic is about.
#[derive(Clone, Copy)]
pub enum Opening {
    /// What is no more than a file at a path.
    Error,
    /// A file that the system does not give or take.
    File,
    /// The request of a rollout.
    Request,
    /// The plan of a plan file.
    Plan,
    /// What is no fault.
    Note,
}

impl Opening {
    fn words(self) -> &'static str
        ensures { result.now ≡ opening_words self }
    {
        match self {
            Opening::Error => "error: ",
            Opening::File => "error: the file ",
            Opening::Request => "error: the request ",
            Opening::Plan => "error: the plan ",
            Opening::Note => "note: ",
        }
    }
}

/// The lines of a diagnostic. Once memory ran out they take nothing more, and `finish` gives that in place of the text.
#[derive(Drop)]
pub struct Lines {
    /// What the text takes its memory from.
    pub alloc: Global,
    text: String,
    short: Option<AllocError>,
}

impl Lines {
    /// No lines.
    pub fn new(alloc: Global) -> Lines
        ensures { text_so_far result ≡ Some [] }
    {
        let text = String::new(alloc);
        Lines {
            alloc,
            text,
            short: None,
        }
    }

    /// Appends a value to the lines: what `write!` calls.
    pub fn write_fmt<D: Display + Drop>(&mut self, value: D)
        ensures { Grows (text_so_far self.old) (D.output value) (text_so_far self.new) }
    {
        if self.short.is_none() {
            if let Err(want) = self.text.write(value) {
                self.short = Some(want);
            }
        }
    }

    /// The text of the lines, or that memory ran out.
    pub fn finish(self) -> Result<String, AllocError>
        ensures text { IfOk result (λ s. text_so_far self ≡ Some (string_bytes s)) }
        ensures short { IfErr result (λ _. text_so_far self ≡ None) }
    {
        match self.short {
            Some(want) => Err(want),
            None => Ok(self.text),
        }
    }

    /// The lines after an opening and the name of what they are about.
    #[tactic(auto, unfolding(crate::specs::Named::Names))]
    pub fn headed(self, opening: Opening, name: &str) -> Result<String, AllocError>
        ensures names { IfOk result (λ s. Names name.now (string_bytes s)) }
        ensures text { IfOk result (λ s. IsHeaded (opening_words opening ++ quoted name.now) (text_so_far self) (string_bytes s)) }
    {
        let alloc = self.alloc;
        let lines = self.finish()?;
        let name = quoted_name(alloc, name)?;
        let opening = opening.words();
        format!(in alloc; "{opening}{name}{lines}")
    }

    /// The lines of a refusal after the word of the command that they are about.
    #[tactic(auto, unfolding(crate::specs::Named::NamesWord))]
    pub fn after_word(self, word: &str) -> Result<String, AllocError>
        ensures names { IfOk result (λ s. NamesWord word.now (string_bytes s)) }
        ensures text { IfOk result (λ s. IsHeaded (codes "error: " ++ word.now) (text_so_far self) (string_bytes s)) }
    {
        let alloc = self.alloc;
        let lines = self.finish()?;
        format!(in alloc; "error: {word}{lines}")
    }

    /// A name as a JSON text, cut where it is long.
    pub fn name<'a>(&self, name: &'a str) -> Name<'a>
        ensures { result.name.now ≡ name.now }
    {
        Name {
            alloc: self.alloc,
            name,
        }
    }

    /// The step from an object to its member: `.name`, or the name in brackets where it is no plain word.
    pub fn step<'a>(&self, name: &'a str) -> Step<'a>
        ensures { result.name.now ≡ name.now }
    {
        Step {
            alloc: self.alloc,
            name,
        }
    }

    /// What a value is, in words: a scalar itself, else its kind.
    pub fn value<'a>(&self, tree: &'a Tree) -> Value<'a>
        ensures { result.tree.now ≡ tree.now }
    {
        Value {
            alloc: self.alloc,
            tree,
        }
    }

    /// Names, at most ten, or that there are none.
    pub fn listed<L>(&self, names: L) -> Listed<L>
        ensures { result.names ≡ names }
    {
        Listed {
            alloc: self.alloc,
            names,
        }
    }
}
