//! The request of a call.
ghost use Rattle.std.specs.Prelude.{◌<◌, ◌≤◌, ◌≡◌, false, length, IsErrOf};
ghost use Rattle.std.specs.Str.{is_utf8};
ghost use Rattle.flag_defs.specs.Flags.{flags_view};
ghost use Rattle.price_core.specs.Request.{max_request};
ghost use Rattle.control_answers.specs.Refusal.{bad_request};
ghost use Rattle.control_answers.specs.Turns.{IsQuestion};

use crate::place::target_of;
use crate::refusal::ControlRefusal;
use crate::target::Target;
use flag_defs::Flags;
use rollout::RequestFile;
use std::alloc::Global;

/// The file of a request, and what is tallied for it.
#[derive(Drop)]
pub(crate) struct Question {
    pub(crate) request: RequestFile,
    pub(crate) target: Target,
}

/// What is asked by the bytes of a request. A file above the limit of a request, or that is not UTF-8, is refused without memory.
pub(crate) fn question_of(
    alloc: Global,
    flags: &Flags,
    request: Vec<u8>,
) -> Result<Question, ControlRefusal>
    ensures exact { IsQuestion (flags_view flags.now) request.items result }
    ensures large { max_request < length request.items → IsErrOf result bad_request }
    ensures no_text { length request.items ≤ max_request → is_utf8 request.items ≡ false → IsErrOf result bad_request }
{
    let request = RequestFile::read(alloc, request)?;
    let target = target_of(alloc, flags, &request)?;
    Ok(Question { request, target })
}
