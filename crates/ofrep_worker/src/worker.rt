//! The worker.
ghost use Rattle.std.specs.Prelude.{◌≡◌, OnErr, OnOk};
ghost use Rattle.http_server.specs.Response.{IsBlank};
ghost use Rattle.snap_share.specs.Known.{IsReadOnce};
ghost use Rattle.ofrep_worker.specs.Answers.{LooksIn, Responds, RespondsFrom, Rises, kept_in, looks_in};

use crate::answering::{Answering, answer_from};
use crate::counts::Counts;
use crate::failing::leave_empty;
use crate::recording::{record_waiting, trouble_in};
use crate::unrecorded::WithoutRecord;
use bytes::Bytes;
use http::{Request, StatusCode};
use http_server::{Response, Service};
use json::Scratch;
use log_file::{LogFile, LogPaths};
use note_log::{NoteLog, Trouble};
use ofrep_guards::CountsStatus;
use snap_share::{Current, ReadSeat, ShareFault, ShareName};
use std::alloc::{AllocError, Global};
use std::sync::Wait;
use std::time::Clock;

/// Answers requests from the last snapshot that its seat knows, once what the answers rest on is recorded, where it keeps a log.
#[derive(Drop)]
pub struct OfrepWorker<'a, J: ShareName, R, F: LogFile> {
    rt: &'a R,
    alloc: Global,
    pub(crate) seat: ReadSeat<J>,
    pub(crate) log: Option<NoteLog<'a, F>>,
    counts: &'a Counts,
    pub(crate) without_record: WithoutRecord,
    /// The room in which bodies are read.
    scratch: Scratch,
    /// What was counted of its log: the notes that were written, the inputs that were too long for one, and why it can't be written.
    notes: u64,
    trouble: Option<Trouble>,
}

impl<'a, J: ShareName, R: Clock, F: LogFile> OfrepWorker<'a, J, R, F> {
    /// A worker that answers from the snapshots of a seat, and records in a log where it has one. The workers of a service count
    /// together. `without_record` says what becomes of answers that can't be recorded.
    pub fn new(
        rt: &'a R,
        alloc: Global,
        seat: ReadSeat<J>,
        log: Option<NoteLog<'a, F>>,
        counts: &'a Counts,
        without_record: WithoutRecord,
    ) -> OfrepWorker<'a, J, R, F>
        ensures seat { result.seat ≡ seat }
        ensures log { result.log ≡ log.entry }
        ensures without { result.without_record ≡ without_record }
    {
        OfrepWorker {
            rt,
            alloc,
            seat,
            log,
            counts,
            without_record,
            scratch: Scratch::new(alloc),
            notes: 0,
            trouble: None,
        }
    }

    /// Answers from the current snapshot. Where it fails the log has not changed.
    fn respond(
        &mut self,
        request: &Request<Bytes>,
        response: &mut Response,
    ) -> Result<(), ShareFault>
        requires { IsBlank response.old }
        ensures ok { OnOk result (RespondsFrom self.old.without_record self.old.seat self.new.seat request.now response.new (kept_in self.old.log) (kept_in self.new.log)) }
        ensures err { OnErr result (IsReadOnce self.old.seat self.new.seat × (self.new.log ≡ self.old.log)) }
        ensures without { self.new.without_record ≡ self.old.without_record }
    {
        let snapshot = self.seat.current()?;
        let answering = Answering {
            rt: self.rt,
            alloc: self.alloc,
            counts: self.counts,
            snapshot: &snapshot,
            without_record: self.without_record,
        };
        answer_from(
            &answering,
            &mut self.log,
            &mut self.scratch,
            request,
            response,
        )?;
        Ok(())
    }

    /// Answers from the current snapshot, or leaves the response empty where memory runs out.
    fn respond_or_leave(&mut self, request: &Request<Bytes>, response: &mut Response)
        requires { IsBlank response.old }
        ensures responds { Responds self.old.without_record self.old.seat self.new.seat request.now response.new (kept_in self.old.log) (kept_in self.new.log) }
        ensures without { self.new.without_record ≡ self.old.without_record }
    {
        match self.respond(request, response) {
            Ok(()) => {}
            Err(_) => leave_empty(response),
        }
    }
}

impl<J: ShareName, R: LogPaths + Wait, F: LogFile> OfrepWorker<'_, J, R, F> {
    /// Looks whether the file of its log, where it keeps one, stands at its path, and is as long as it was left. Where it is not
    /// the path is opened anew, and no line of the file that was lost counts as remembered. Then what waits is handed over.
    #[tactic(auto, using(crate::proofs::Recorded::looks_kept))]
    pub(crate) fn look_for_log(&mut self)
        ensures seat { self.new.seat ≡ self.old.seat }
        ensures without { self.new.without_record ≡ self.old.without_record }
        ensures log { LooksIn (kept_in self.old.log) (kept_in self.new.log) }
        ensures looks { Rises (looks_in self.old.log) (looks_in self.new.log) }
    {
        if let Some(log) = &mut self.log {
            let look = log.look(self.alloc, self.rt);
            self.counts.count_look(look);
            record_waiting(self.alloc, log);
        }
    }
}

impl<J: ShareName, R, F: LogFile> OfrepWorker<'_, J, R, F> {
    /// How many notes the log has taken.
    fn noted(&self) -> u64 {
        match &self.log {
            Some(log) => log.written(),
            None => 0,
        }
    }

    /// Counts what has become of its log since that was last counted.
    pub(crate) fn count_log(&mut self)
        ensures seat { self.new.seat ≡ self.old.seat }
        ensures log { self.new.log ≡ self.old.log }
        ensures without { self.new.without_record ≡ self.old.without_record }
    {
        let notes = self.noted();
        let trouble = trouble_in(&self.log);
        self.counts.count_notes(notes.saturating_sub(self.notes));
        self.counts.count_trouble(self.trouble, trouble);
        self.notes = notes;
        self.trouble = trouble;
    }
}

impl<J: ShareName, R, F: LogFile> CountsStatus for OfrepWorker<'_, J, R, F> {
    fn count_status(&self, status: StatusCode) {
        self.counts.count(status);
    }
}

impl<J: ShareName, R: Clock, F: LogFile> Service for OfrepWorker<'_, J, R, F> {
    ghost answers = { λ old request response new.
        (new.without_record ≡ old.without_record) × Responds old.without_record old.seat new.seat request response (kept_in old.log) (kept_in new.log) };

    fn call(
        &mut self,
        request: &Request<Bytes>,
        response: &mut Response,
    ) -> Result<(), AllocError> {
        self.respond_or_leave(request, response);
        self.counts.count(response.status);
        self.count_log();
        Ok(())
    }
}
