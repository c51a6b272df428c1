ghost use Rattle.std.specs.Prelude.{◌≡◌, IfSome, Some, false};
ghost use Rattle.flagops_shell.specs.Report.{outcome_view, refusal_report, status_number};

use crate::command_refusal::CommandRefusal;
use crate::refused::{Refused, Remark};
use std::alloc::{AllocError, Global};

/// How a run ended.
#[derive(Clone, Copy, Debug)]
pub enum Status {
    /// The command did what it was asked.
    Done,
    /// A call refused, or the output failed.
    Refused,
    /// The words ask for no command.
    Usage,
    /// The command did what it was asked, and there is no rule that fits.
    NoneExists,
}

impl Status {
    /// The number that the process ends with.
    pub fn number(self) -> u8
        ensures { result ≡ status_number self }
    {
        match self {
            Status::Done => 0,
            Status::Refused => 1,
            Status::Usage => 2,
            Status::NoneExists => 3,
        }
    }
}

/// The whole output of a command, and how it ended.
#[derive(Debug, Drop)]
pub struct Outcome {
    /// What goes to the output.
    pub text: Vec<u8>,
    /// The status where all of it was written.
    pub status: Status,
    /// What a person is told beside the output, where there is something to tell.
    pub remark: Option<Remark>,
}

impl Outcome {
    /// An outcome of which nothing is told beside the output.
    pub fn plain(text: Vec<u8>, status: Status) -> Outcome
        ensures { outcome_view result ≡ record { text = text.items; status = status_number status; is_told = false } }
    {
        Outcome {
            text,
            status,
            remark: None,
        }
    }

    /// The line of a refusal, beside which its remark is told; `None` where memory ran out, in the command or for the line.
    pub fn refused<R: CommandRefusal>(alloc: Global, refused: Refused<R>) -> Option<Outcome>
        ensures line { IfSome result (λ o. (R.is_want refused.refusal ≡ false) × (outcome_view o ≡ refusal_report (R.line_of refused.refusal))) }
        ensures remark { IfSome result (λ o. o.remark ≡ Some refused.remark) }
    {
        let Refused { refusal, remark } = refused;
        if refusal.is_want() {
            return None;
        }
        match refusal.line(alloc) {
            Ok(text) => Some(Outcome {
                text: text.into_bytes(),
                status: Status::Refused,
                remark: Some(remark),
            }),
            Err(AllocError) => None,
        }
    }
}
