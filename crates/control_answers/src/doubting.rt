//! What is doubted of a request whose answer is right.
ghost use Rattle.std.specs.Prelude.{◌≡◌, IfOk};
ghost use Rattle.flag_text.specs.Reading.{tree_of};
ghost use Rattle.price_core.specs.Request.{max_request};
ghost use Rattle.control_answers.specs.Doubts.{doubt_of, has_unread, is_unread};

use crate::refusal::ControlRefusal;
use member_names::{Reader, repeated_place};
use note_tallies::PageTally;
use rollout::RequestFile;
use std::alloc::{AllocError, Global};

/// Why a right answer to a request is not applied: the request may not ask what was meant, or nobody is recorded.
pub(crate) fn doubt_of(
    alloc: Global,
    request: &RequestFile,
    tally: &PageTally,
) -> Result<Option<ControlRefusal>, AllocError>
    ensures { IfOk result (λ o. o ≡ doubt_of request.now tally.now) }
{
    if is_unread(alloc, request)? {
        return Ok(Some(ControlRefusal::Unread));
    }
    if tally.inputs == 0 {
        return Ok(Some(ControlRefusal::Unrecorded));
    }
    Ok(None)
}

/// Whether a request has a member that is passed over.
fn is_unread(alloc: Global, request: &RequestFile) -> Result<bool, AllocError>
    ensures { IfOk result (λ is. is ≡ is_unread request.now) }
{
    if has_unread(request) {
        return Ok(true);
    }
    let repeated = repeated_place(alloc, request.bytes())?;
    Ok(repeated.is_some())
}

/// Whether it has one of a name that is not read.
fn has_unread(request: &RequestFile) -> bool
    ensures { result ≡ has_unread (tree_of request.now max_request) }
{
    match request.tree() {
        Ok(tree) => Reader::Request.unread(tree).is_some(),
        Err(_) => false,
    }
}
