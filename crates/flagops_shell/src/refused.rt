//! A refusal with what a person is told of it.
ghost use Rattle.std.specs.Prelude.{◌≡◌, IfOk, OnErr};
ghost use Rattle.flagops_shell.specs.Diagnostic.{remark_text};
ghost use Rattle.flagops_shell.specs.declared.refused.Remark.TheVariants.{Lines, Short};

use std::alloc::AllocError;

/// What a person is told beside the output, in words of the program's own.
#[derive(Debug, Drop)]
pub enum Remark {
    /// There was no memory to say more than a fixed sentence.
    Short,
    /// Lines, each with its end.
    Lines(String),
}

impl Remark {
    /// The lines, or the fixed sentence where they could not be made.
    pub fn of(lines: Result<String, AllocError>) -> Remark
        ensures lines { IfOk lines (λ s. result ≡ Lines s) }
        ensures short { OnErr lines (result ≡ Short) }
    {
        match lines {
            Ok(lines) => Remark::Lines(lines),
            Err(AllocError) => Remark::Short,
        }
    }

    /// What is written of it.
    pub(crate) fn text(&self) -> &str
        ensures { result.now ≡ remark_text self.now }
    {
        match self {
            Remark::Lines(lines) => lines.as_str(),
            Remark::Short => "error: out of memory\n",
        }
    }
}

/// Why a command was refused, and what a person is told of it.
#[derive(Debug, Drop)]
pub struct Refused<R> {
    pub refusal: R,
    pub remark: Remark,
}

impl<R> Refused<R> {
    /// A refusal of another family of commands, as one of this family.
    pub fn of<T>(refused: Refused<T>) -> Refused<R>
    where
        R: From<T>,
        ensures refusal { R.from_gives refused.refusal result.refusal }
        ensures remark { result.remark ≡ refused.remark }
    {
        let Refused { refusal, remark } = refused;
        Refused {
            refusal: R::from(refusal),
            remark,
        }
    }
}
