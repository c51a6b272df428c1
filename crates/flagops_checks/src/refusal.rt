//! Why the command `check` refuses, and the line that each refusal is written as.
ghost use Rattle.std.specs.Prelude.{◌≡◌};
ghost use Rattle.flagops_checks.specs.FileLines.{file_line};
ghost use Rattle.flagops_checks.specs.Refusal.{call_name, call_of, is_unread, is_want, line_of};
ghost use Rattle.flagops_checks.specs.declared.refusal.CheckRefusal.TheVariants.{Load};
ghost use Rattle.flagops_shell.specs.declared.refused.Remark.TheVariants.{Short};

use flagops_files::{Call, Refusal};
use flagops_shell::{CommandRefusal, Remark};
use std::alloc::{AllocError, Global};

/// A call that can refuse, by the name that a refusal's line has.
#[derive(Clone, Copy, Debug)]
pub enum CheckCall {
    /// A call by which a file is read.
    Load(Call),
    /// The command `check` itself.
    Check,
}

impl CheckCall {
    /// The name of the call.
    pub fn name(self) -> &'static str
        ensures { result.now ≡ call_name self }
    {
        match self {
            CheckCall::Load(call) => call.name(),
            CheckCall::Check => "check",
        }
    }
}

/// Why the command `check` was refused.
#[derive(Debug, Drop)]
pub enum CheckRefusal {
    /// A file is refused as every other command refuses it.
    Load(Refusal),
    /// The command ran out of memory between its calls.
    WantOfMemory,
}

impl CheckRefusal {
    /// The call that refused.
    pub fn call(&self) -> CheckCall
        ensures { result ≡ call_of self.now }
    {
        match self {
            CheckRefusal::Load(refusal) => CheckCall::Load(refusal.call()),
            CheckRefusal::WantOfMemory => CheckCall::Check,
        }
    }
}

/// A refusal of the command `check`, with what a person is told of it.
pub type Refused = flagops_shell::Refused<CheckRefusal>;

/// The refusal of the command that ran out of memory.
pub(crate) fn out_of_memory() -> Refused
    ensures refusal { result.refusal ≡ CheckRefusal.WantOfMemory }
    ensures remark { result.remark ≡ Short }
{
    Refused {
        refusal: CheckRefusal::WantOfMemory,
        remark: Remark::Short,
    }
}

impl From<Refusal> for CheckRefusal {
    ghost from_gives = { λ r e. e ≡ Load r };

    fn from(refusal: Refusal) -> CheckRefusal {
        CheckRefusal::Load(refusal)
    }
}

impl CommandRefusal for CheckRefusal {
    ghost is_want = { is_want };

    ghost is_unread = { is_unread };

    ghost line_of = { line_of };

    fn is_want(&self) -> bool {
        match self {
            CheckRefusal::Load(refusal) => refusal.is_want(),
            CheckRefusal::WantOfMemory => true,
        }
    }

    fn line(&self, alloc: Global) -> Result<String, AllocError> {
        match self {
            CheckRefusal::Load(refusal) => refusal.line(alloc),
            CheckRefusal::WantOfMemory => {
                String::from_str(alloc, "refused check 0 WantOfMemory\n")
            }
        }
    }

    ghost unread_lines = { file_line };
}
