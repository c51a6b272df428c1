//! One answer, from one snapshot.
ghost use Rattle.std.specs.Prelude.{◌≡◌, ◌<◌, ◌^◌, true, is_some, IfOk, OnErr, OnOk};
ghost use Rattle.std.specs.Arc.{arc_value};
ghost use Rattle.http_server.specs.Response.{IsBlank, fields_of};
ghost use Rattle.ofrep_answers.specs.Answer.{answer_view};
ghost use Rattle.ofrep_worker.specs.Answers.{Answers, answer_for, kept_in, trouble_in};
ghost use Rattle.ofrep_worker.specs.Asked.{asked_of};
ghost use Rattle.ofrep_worker.specs.Counted.{EndsWithSizes};
ghost use Rattle.ofrep_worker.specs.Sent.{GivesIn, Sends, unready};

use crate::asked::tags_named;
use crate::counts::Counts;
use crate::failing::{give, tell_unready};
use crate::filling::fill;
use crate::moment::moment_of;
use crate::notes::tells;
use crate::recording::{record_answer, trouble_in};
use crate::unrecorded::WithoutRecord;
use bytes::{BufMut, Bytes};
use flag_defs::Flags;
use http::{Request, StatusCode};
use http_server::Response;
use json::Scratch;
use log_file::LogFile;
use note_log::{NoteLog, Trouble};
use ofrep_answers::{Answer, Content, answer_with_metadata};
use std::alloc::{AllocError, Global};
use std::time::Clock;
use sync_frames::SharedSnapshot;

/// What an answer is made with: the snapshot that it is of, what becomes of it where its notes can't be recorded, and what was
/// counted so far.
#[derive(Drop)]
pub(crate) struct Answering<'a, R> {
    pub(crate) rt: &'a R,
    pub(crate) alloc: Global,
    pub(crate) counts: &'a Counts,
    pub(crate) snapshot: &'a SharedSnapshot,
    pub(crate) without_record: WithoutRecord,
}

/// Answers a request of the flags of a snapshot, once the notes of the answer are recorded, where a log is kept. While a log can't
/// be written, who asks whether the service is ready is told so. Where memory runs out the log is as it was. A body is read in
/// `scratch`.
pub(crate) fn answer_from<R: Clock, F: LogFile>(
    with: &Answering<'_, R>,
    log: &mut Option<NoteLog<'_, F>>,
    scratch: &mut Scratch,
    request: &Request<Bytes>,
    response: &mut Response,
) -> Result<(), AllocError>
    requires { IsBlank response.old }
    ensures ok { OnOk result (Answers with.now.without_record (arc_value with.now.snapshot.now).flags request.now response.new (kept_in log.old) (kept_in log.new)) }
    ensures err { OnErr result (log.new ≡ log.old) }
{
    let moment = moment_of(with.rt);
    let answer = with.answer_at(moment, request, scratch)?;
    let cause = with.trouble(log);
    let why = unready(cause, request, &answer);
    with.tell_in(why, &answer, response)?;
    let recorded = record_answer(with.alloc, log, with.snapshot.flags(), &answer)?;
    let is_given = with.without_record.gives(recorded);
    give(why, is_given, response);
    with.counts.count_given(recorded, is_given);
    let has_notes = log.is_some() && tells(answer.status);
    with.counts.count_evaluations(answer.reasons, has_notes);
    Ok(())
}

impl<R> Answering<'_, R> {
    /// The answer to a request at a moment.
    fn answer_at(
        &self,
        moment: u64,
        request: &Request<Bytes>,
        scratch: &mut Scratch,
    ) -> Result<Answer, AllocError>
        requires { moment < 2 ^ 53 }
        ensures { IfOk result (λ answer. answer_view answer ≡ answer_for (arc_value self.now.snapshot.now).flags moment (asked_of request.now)) }
    {
        let tags = tags_named(self.alloc, request)?;
        let asked = ofrep_answers::Request {
            method: request.method().as_str(),
            path: request.uri().path(),
            if_none_match: tags.as_slice(),
            body: request.body().as_slice(),
        };
        let flags = self.snapshot.flags();
        answer_with_metadata(self.alloc, flags, flags.metadata(), moment, &asked, scratch)
    }

    /// Why a log can't be written, where one can't: the worker's own, or else another's.
    fn trouble<F: LogFile>(&self, log: &Option<NoteLog<'_, F>>) -> Option<Trouble>
        ensures { is_some (trouble_in (kept_in log.now)) ≡ true → is_some result ≡ true }
    {
        match trouble_in(log) {
            Some(trouble) => Some(trouble),
            None => self.counts.trouble(),
        }
    }

    /// Fills a response with an answer, or with why the service is not ready.
    fn tell_in(
        &self,
        unready: Option<Trouble>,
        answer: &Answer,
        response: &mut Response,
    ) -> Result<(), AllocError>
        requires { IsBlank response.old }
        ensures { OnOk result (GivesIn unready true (answer_view answer.now) response.new) }
    {
        match unready {
            Some(trouble) => tell_unready(trouble, response),
            None => self.tell(answer, response),
        }
    }

    /// Fills a response with an answer, and with what is counted where that is asked for.
    fn tell(&self, answer: &Answer, response: &mut Response) -> Result<(), AllocError>
        requires { IsBlank response.old }
        ensures { OnOk result (Sends (answer_view answer.now) response.new) }
    {
        fill(self.alloc, answer, response)?;
        if let Content::Counts = answer.content {
            self.put_counts(response)?;
        }
        Ok(())
    }

    /// Adds what is counted to a response.
    fn put_counts(&self, response: &mut Response) -> Result<(), AllocError>
        ensures counts { OnOk result (EndsWithSizes response.new.body.items) }
        ensures status { response.new.status ≡ response.old.status }
        ensures fields { fields_of response.new ≡ fields_of response.old }
    {
        let number = self.snapshot.number();
        let flags = self.snapshot.flags();
        let text = self
            .counts
            .text(self.alloc, number, flags.len(), broken_in(flags))?;
        response.body.put_slice(text.as_bytes())?;
        Ok(())
    }
}

/// How many of the flags are broken.
fn broken_in(flags: &Flags) -> usize {
    let mut broken: usize = 0;
    for i in 0..flags.len() {
        let (_, flag) = flags.at(i);
        if flag.is_broken() {
            broken = broken.saturating_add(1);
        }
    }
    broken
}

/// Why the service is not ready, where that is asked, and the answer would say that it is.
fn unready(trouble: Option<Trouble>, request: &Request<Bytes>, answer: &Answer) -> Option<Trouble>
    ensures { result ≡ unready trouble (asked_of request.now) (answer_view answer.now) }
{
    if request.uri().path() == "/readyz" && answer.status == StatusCode::OK {
        trouble
    } else {
        None
    }
}
