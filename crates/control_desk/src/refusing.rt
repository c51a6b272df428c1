//! What is told of calls that are refused, and of those that are not.
ghost use Rattle.std.specs.Prelude.{◌≡◌, ◌≢◌, OnOk};
ghost use Rattle.http_server.specs.Response.{IsBlank};
ghost use Rattle.control_answers.specs.Refusal.{status_of};
ghost use Rattle.control_answers.specs.declared.refusal.ControlRefusal.TheVariants.{WantOfMemory};
ghost use Rattle.control_desk.specs.Bodies.{IsRefusal};

use crate::giving::{Media, finish};
use control_answers::ControlRefusal;
use http::StatusCode;
use http_server::Response;
use note_streams::{LogFile, LogTallyFault};
use std::alloc::{AllocError, Global};

/// Fills a response with the refusal of a call that was asked by this name. Want of memory is passed on.
pub(crate) fn tell_refusal(
    alloc: Global,
    asked: &str,
    refusal: &ControlRefusal,
    files: &[LogFile<'_>],
    response: &mut Response,
) -> Result<(), AllocError>
    requires { IsBlank response.old }
    ensures refusal { OnOk result (IsRefusal asked.now refusal.now response.new) }
    ensures known { OnOk result (refusal.now ≢ WantOfMemory) }
{
    if let ControlRefusal::WantOfMemory = refusal {
        return Err(AllocError);
    }
    let details = details_of(alloc, refusal, files)?;
    let text = refusal.text(alloc, asked, details.as_str())?;
    finish(status_of(refusal), Media::Json, text.as_bytes(), response)
}

/// The status of a refusal.
fn status_of(refusal: &ControlRefusal) -> StatusCode
    ensures { result ≡ status_of refusal.now }
{
    match refusal {
        ControlRefusal::WantOfMemory => StatusCode::INTERNAL_SERVER_ERROR,
        ControlRefusal::NoRecord => StatusCode::CONFLICT,
        ControlRefusal::OtherDocument => StatusCode::CONFLICT,
        ControlRefusal::Rollout(_) => StatusCode::BAD_REQUEST,
        ControlRefusal::Logs(_) => StatusCode::BAD_REQUEST,
        ControlRefusal::ReadPlan(_) => StatusCode::BAD_REQUEST,
        ControlRefusal::PrintPlan(_) => StatusCode::BAD_REQUEST,
        ControlRefusal::Check(_) => StatusCode::BAD_REQUEST,
        ControlRefusal::BadToken => StatusCode::BAD_REQUEST,
        ControlRefusal::OtherTally => StatusCode::BAD_REQUEST,
        ControlRefusal::Keep(_) => StatusCode::BAD_REQUEST,
        ControlRefusal::Unread => StatusCode::BAD_REQUEST,
        ControlRefusal::Unrecorded => StatusCode::BAD_REQUEST,
        ControlRefusal::NoDocument => StatusCode::BAD_REQUEST,
    }
}

/// A refusal in words.
fn details_of(
    alloc: Global,
    refusal: &ControlRefusal,
    files: &[LogFile<'_>],
) -> Result<String, AllocError> {
    match refusal {
        ControlRefusal::Rollout(fault) => format!(in alloc; "{fault}"),
        ControlRefusal::Logs(fault) => details_of_logs(alloc, *fault, files),
        ControlRefusal::ReadPlan(fault) => format!(in alloc; "{fault}"),
        ControlRefusal::PrintPlan(fault) => format!(in alloc; "{fault}"),
        ControlRefusal::Check(fault) => format!(in alloc; "{fault}"),
        _ => String::from_str(alloc, sentence_of(refusal)),
    }
}

/// What is wrong with log files, in words.
fn details_of_logs(
    alloc: Global,
    fault: LogTallyFault,
    files: &[LogFile<'_>],
) -> Result<String, AllocError> {
    match fault {
        LogTallyFault::Line(place, line) => match files.get(place) {
            Some(file) => {
                let name = file.name;
                format!(in alloc; "line {line} of the log \"{name}\" is not a note line")
            }
            None => format!(in alloc; "{fault}"),
        },
        _ => format!(in alloc; "{fault}"),
    }
}

/// A refusal of the desk's own in words.
fn sentence_of(refusal: &ControlRefusal) -> &'static str {
    match refusal {
        ControlRefusal::NoRecord => "the service keeps no log: --log FOLDER names a folder for it",
        ControlRefusal::BadToken => "the body is not the token of a plan",
        ControlRefusal::OtherDocument => "the document has changed since this was planned",
        ControlRefusal::NoDocument => "the plan has no rule: none fits what was asked",
        ControlRefusal::OtherTally => "the site's rule has another total by now",
        ControlRefusal::Keep(_) => "the document does not take the rule at this site",
        ControlRefusal::Unread =>
            "a member of the request is passed over: it may ask something else than was meant",
        ControlRefusal::Unrecorded => "nothing is recorded of the site",
        ControlRefusal::WantOfMemory => "out of memory",
        // The fault of each of these says more.
        ControlRefusal::Rollout(_) => "the request is refused",
        ControlRefusal::Logs(_) => "the logs have no tally of the page",
        ControlRefusal::ReadPlan(_) => "the body has no valid plan",
        ControlRefusal::PrintPlan(_) => "the plan is too large for a file",
        ControlRefusal::Check(_) => "the plan is not right",
    }
}
