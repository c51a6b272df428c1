//! The commands that the help of the program lists, as one command.
ghost use denote.Param.Send.{IsSync};
ghost use Rattle.std.specs.Prelude.{◌≡◌};
ghost use Rattle.flagops_words.specs.Asked as words;
ghost use Rattle.flagops_words.specs.Asked.{asked_view};
ghost use Rattle.flagops_commands.specs.Commands.{description};

use crate::commands::outcome;
use crate::refusal::{ListedRefusal, Refused};
use flagops_shell::{Command, FileSet, Outcome};
use flagops_words::{Asked, read_words};
use std::alloc::Global;
use std::convert::AsStr;
use std::sync::Wait;
use std::thread::Threads;

/// One of `bucket`, `price`, `resolve`, `plan`, `verify`, `apply`, `drive` and `completions`.
#[derive(Drop)]
pub struct Listed<'w> {
    asked: Asked<'w>,
}

impl<'w, R: Threads + Wait + Sync, F: FileSet> Command<'w, R, F> for Listed<'w> {
    type Refusal = ListedRefusal;

    ghost Asked = { words.Asked };

    ghost Needs = { IsSync R.row };

    ghost view = { λ c. asked_view c.asked };

    ghost description = { description };

    fn read<S: AsStr>(alloc: Global, words: &'w [S]) -> Result<Listed<'w>, clap::Error> {
        let asked = read_words(alloc, words)?;
        Ok(Listed { asked })
    }

    #[tactic(auto, using(crate::proofs::Described::remarks, crate::proofs::Described::wants))]
    fn answer(&self, rt: &R, alloc: Global, files: &mut F) -> Result<Outcome, Refused> {
        outcome(rt, alloc, files, &self.asked)
    }

    fn call_of(&self, refusal: &ListedRefusal) -> &'static str {
        refusal.call().name()
    }
}
