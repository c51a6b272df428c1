//! The calls of a desk.
ghost use Rattle.std.specs.Prelude.{◌≡◌, ◌≢◌, ◌≤◌, ◌⊎◌, OnErr, OnOk, Some, string_bytes};
ghost use Rattle.http_server.specs.Response.{IsBlank};
ghost use Rattle.note_streams.specs.LogLines.{files_view};
ghost use Rattle.control_desk.specs.Asked.{CallAsked, call_asked};
ghost use Rattle.control_desk.specs.Desk.{Answered, Answers, IsOnRecord, IsPutOff, RespondsApplied, RespondsOn, RespondsRecorded, TellsAlone, hindered, name_of, page_view};
ghost use Rattle.control_desk.specs.Held.{held_view, numbered_of};
ghost use Rattle.control_desk.specs.Logs.{bytes_of, passed_by};
ghost use Rattle.control_desk.specs.Obstacles.{met_by};
ghost use Rattle.control_desk.specs.Rules.{rules_view};

use crate::applying::{Applying, HISTORY, apply};
use crate::asked::{asker_of, held_of, query_of};
use crate::desk::ControlDesk;
use crate::files::DeskFiles;
use crate::giving::{give_page, leave_empty, respond};
use crate::held::HeldSnapshot;
use crate::logs::{Logs, Unread, handed, path_in, read_logs};
use crate::refusing::tell_refusal;
use crate::reply::Reply;
use crate::telling::{
    tell_check, tell_document, tell_flags, tell_flags_on, tell_history, tell_plan, tell_record,
};
use bytes::Bytes;
use control_answers::ControlRefusal;
use control_flags::ControlPlace;
use http::Request;
use http_server::Response;
use jiff::Timestamp;
use note_streams::LogFile;
use snap_share::{ShareFault, ShareName};
use std::alloc::{AllocError, Global};
use std::collections::BTreeMap;
use std::time::Clock;

impl<J: ShareName, R: Clock, F: DeskFiles, S> ControlDesk<'_, J, R, F, S> {
    /// Answers a call, or leaves the response empty where memory runs out or there is no snapshot.
    pub(crate) fn answer(
        &mut self,
        place: ControlPlace,
        request: &Request<Bytes>,
        response: &mut Response,
    )
        requires blank { IsBlank response.old }
        requires place { place ≢ ControlPlace.Elsewhere }
        ensures answers { Answers (F.naming self.old.files) (F.holding self.old.files) (F.holding self.new.files) (hindered (F.faults self.old.files) self.old.met) (hindered (F.faults self.new.files) self.new.met) (rules_view self.old.post.now.rules) (page_view self.old.page) self.old.seat self.new.seat (call_asked request.now) response.new place }
        ensures post { self.new.post ≡ self.old.post }
        ensures page { self.new.page ≡ self.old.page }
        ensures keys { self.new.keys ≡ self.old.keys }
        ensures service { self.new.service ≡ self.old.service }
    {
        if self.tell(place, request, response).is_err() {
            leave_empty(response);
        }
    }

    /// Answers a call.
    fn tell(
        &mut self,
        place: ControlPlace,
        request: &Request<Bytes>,
        response: &mut Response,
    ) -> Result<(), ShareFault>
        requires blank { IsBlank response.old }
        requires place { place ≢ ControlPlace.Elsewhere }
        ensures ok { OnOk result (Answered (F.naming self.old.files) (F.holding self.old.files) (F.holding self.new.files) (hindered (F.faults self.old.files) self.old.met) (hindered (F.faults self.new.files) self.new.met) (rules_view self.old.post.now.rules) (page_view self.old.page) self.old.seat self.new.seat (call_asked request.now) response.new place) }
        ensures err { OnErr result (F.holding self.new.files ≡ F.holding self.old.files) }
        ensures post { self.new.post ≡ self.old.post }
        ensures page { self.new.page ≡ self.old.page }
        ensures keys { self.new.keys ≡ self.old.keys }
        ensures service { self.new.service ≡ self.old.service }
    {
        match place {
            ControlPlace::Console => Ok(give_page(&self.page, response)?),
            ControlPlace::Flags => self.tell_flags(request, response),
            ControlPlace::Snapshot => self.tell_document(request, response),
            ControlPlace::History => Ok(self.tell_history(response)?),
            ControlPlace::Record => self.tell_recorded(ControlPlace::Record, request, response),
            ControlPlace::Plan => self.tell_recorded(ControlPlace::Plan, request, response),
            ControlPlace::Check => self.tell_recorded(ControlPlace::Check, request, response),
            ControlPlace::Apply => self.tell_recorded(ControlPlace::Apply, request, response),
            ControlPlace::Elsewhere => unreachable!(),
        }
    }

    /// Tells the flags of the snapshot, and what is recorded of their sites, where logs are kept.
    fn tell_flags(
        &mut self,
        request: &Request<Bytes>,
        response: &mut Response,
    ) -> Result<(), ShareFault>
        requires { IsBlank response.old }
        ensures ok { OnOk result (Answered (F.naming self.old.files) (F.holding self.old.files) (F.holding self.new.files) (hindered (F.faults self.old.files) self.old.met) (hindered (F.faults self.new.files) self.new.met) (rules_view self.old.post.now.rules) (page_view self.old.page) self.old.seat self.new.seat (call_asked request.now) response.new ControlPlace.Flags) }
        ensures err { OnErr result (F.holding self.new.files ≡ F.holding self.old.files) }
        ensures post { self.new.post ≡ self.old.post }
        ensures page { self.new.page ≡ self.old.page }
        ensures keys { self.new.keys ≡ self.old.keys }
        ensures service { self.new.service ≡ self.old.service }
    {
        let post = self.post;
        match &post.rules.folder {
            Some(folder) => {
                self.take_turn(ControlPlace::Flags, folder.as_str(), request, response)
            }
            None => self.tell_flags_alone(response),
        }
    }

    /// Tells the flags of the snapshot, where no logs are kept.
    fn tell_flags_alone(&mut self, response: &mut Response) -> Result<(), ShareFault>
        requires { IsBlank response.old }
        ensures ok { OnOk result (TellsAlone (met_by self.old.met) (met_by self.new.met) (rules_view self.old.post.now.rules) self.old.seat self.new.seat response.new) }
        ensures files { self.new.files ≡ self.old.files }
        ensures post { self.new.post ≡ self.old.post }
        ensures page { self.new.page ≡ self.old.page }
        ensures keys { self.new.keys ≡ self.old.keys }
        ensures service { self.new.service ≡ self.old.service }
    {
        let Some(held) = self.hold()? else {
            respond(Reply::Busy, response);
            return Ok(());
        };
        let none = BTreeMap::new(self.alloc);
        Ok(tell_flags(self.alloc, &self.post.rules, &held, &none, response)?)
    }

    /// Tells the document of the snapshot.
    fn tell_document(
        &mut self,
        request: &Request<Bytes>,
        response: &mut Response,
    ) -> Result<(), ShareFault>
        requires { IsBlank response.old }
        ensures ok { OnOk result (Answered (F.naming self.old.files) (F.holding self.old.files) (F.holding self.new.files) (hindered (F.faults self.old.files) self.old.met) (hindered (F.faults self.new.files) self.new.met) (rules_view self.old.post.now.rules) (page_view self.old.page) self.old.seat self.new.seat (call_asked request.now) response.new ControlPlace.Snapshot) }
        ensures err { OnErr result (F.holding self.new.files ≡ F.holding self.old.files) }
        ensures post { self.new.post ≡ self.old.post }
        ensures page { self.new.page ≡ self.old.page }
        ensures keys { self.new.keys ≡ self.old.keys }
        ensures service { self.new.service ≡ self.old.service }
    {
        match self.hold()? {
            Some(held) => Ok(tell_document(self.alloc, &held, held_of(request), response)?),
            None => {
                respond(Reply::Busy, response);
                Ok(())
            }
        }
    }

    /// Tells what was applied.
    fn tell_history(&mut self, response: &mut Response) -> Result<(), AllocError>
        requires { IsBlank response.old }
        ensures ok { OnOk result ((asked : CallAsked) → Answered (F.naming self.old.files) (F.holding self.old.files) (F.holding self.new.files) (hindered (F.faults self.old.files) self.old.met) (hindered (F.faults self.new.files) self.new.met) (rules_view self.old.post.now.rules) (page_view self.old.page) self.old.seat self.new.seat asked response.new ControlPlace.History) }
        ensures err { OnErr result (F.holding self.new.files ≡ F.holding self.old.files) }
        ensures post { self.new.post ≡ self.old.post }
        ensures page { self.new.page ≡ self.old.page }
        ensures keys { self.new.keys ≡ self.old.keys }
        ensures service { self.new.service ≡ self.old.service }
    {
        let post = self.post;
        let Some(folder) = &post.rules.folder else {
            let none = ControlRefusal::NoRecord;
            return tell_refusal(self.alloc, "history", &none, &[], response);
        };
        let path = path_in(self.alloc, folder.as_str(), HISTORY)?;
        match self.files.read_whole(self.alloc, path.as_str()) {
            Ok(Some(bytes)) => tell_history(self.alloc, bytes.as_slice(), response),
            Ok(None) => tell_history(self.alloc, &[], response),
            Err(_) => {
                respond(Reply::Unreadable, response);
                Ok(())
            }
        }
    }

    /// Tells what is asked of the record, once it is the desk's turn.
    fn tell_recorded(
        &mut self,
        place: ControlPlace,
        request: &Request<Bytes>,
        response: &mut Response,
    ) -> Result<(), ShareFault>
        requires blank { IsBlank response.old }
        requires place { IsOnRecord place }
        ensures ok { OnOk result (IsPutOff (F.naming self.old.files) (F.holding self.old.files) (F.holding self.new.files) (hindered (F.faults self.old.files) self.old.met) (hindered (F.faults self.new.files) self.new.met) (rules_view self.old.post.now.rules) (page_view self.old.page) self.old.seat self.new.seat (call_asked request.now) response.new ⊎ RespondsRecorded (F.naming self.old.files) (F.holding self.old.files) (F.holding self.new.files) (hindered (F.faults self.old.files) self.old.met) (hindered (F.faults self.new.files) self.new.met) (rules_view self.old.post.now.rules) (page_view self.old.page) self.old.seat self.new.seat (call_asked request.now) response.new place (rules_view self.old.post.now.rules).folder) }
        ensures err { OnErr result (F.holding self.new.files ≡ F.holding self.old.files) }
        ensures post { self.new.post ≡ self.old.post }
        ensures page { self.new.page ≡ self.old.page }
        ensures keys { self.new.keys ≡ self.old.keys }
        ensures service { self.new.service ≡ self.old.service }
    {
        let post = self.post;
        let Some(folder) = &post.rules.folder else {
            let none = ControlRefusal::NoRecord;
            let name = name_of(place);
            return Ok(tell_refusal(self.alloc, name, &none, &[], response)?);
        };
        self.take_turn(place, folder.as_str(), request, response)
    }

    /// The same where logs are kept in a folder.
    fn take_turn(
        &mut self,
        place: ControlPlace,
        folder: &str,
        request: &Request<Bytes>,
        response: &mut Response,
    ) -> Result<(), ShareFault>
        requires blank { IsBlank response.old }
        requires place { IsOnRecord place }
        ensures ok { OnOk result (IsPutOff (F.naming self.old.files) (F.holding self.old.files) (F.holding self.new.files) (hindered (F.faults self.old.files) self.old.met) (hindered (F.faults self.new.files) self.new.met) (rules_view self.old.post.now.rules) (page_view self.old.page) self.old.seat self.new.seat (call_asked request.now) response.new ⊎ RespondsRecorded (F.naming self.old.files) (F.holding self.old.files) (F.holding self.new.files) (hindered (F.faults self.old.files) self.old.met) (hindered (F.faults self.new.files) self.new.met) (rules_view self.old.post.now.rules) (page_view self.old.page) self.old.seat self.new.seat (call_asked request.now) response.new place (Some folder.now)) }
        ensures err { OnErr result (F.holding self.new.files ≡ F.holding self.old.files) }
        ensures post { self.new.post ≡ self.old.post }
        ensures page { self.new.page ≡ self.old.page }
        ensures keys { self.new.keys ≡ self.old.keys }
        ensures service { self.new.service ≡ self.old.service }
    {
        let post = self.post;
        let Some(_turn) = post.turn.take(self.rt, &mut self.met) else {
            respond(Reply::Busy, response);
            return Ok(());
        };
        self.tell_in_turn(place, folder, request, response)
    }

    /// The same in the desk's turn.
    fn tell_in_turn(
        &mut self,
        place: ControlPlace,
        folder: &str,
        request: &Request<Bytes>,
        response: &mut Response,
    ) -> Result<(), ShareFault>
        requires blank { IsBlank response.old }
        requires place { IsOnRecord place }
        ensures ok { OnOk result (IsPutOff (F.naming self.old.files) (F.holding self.old.files) (F.holding self.new.files) (hindered (F.faults self.old.files) self.old.met) (hindered (F.faults self.new.files) self.new.met) (rules_view self.old.post.now.rules) (page_view self.old.page) self.old.seat self.new.seat (call_asked request.now) response.new ⊎ RespondsRecorded (F.naming self.old.files) (F.holding self.old.files) (F.holding self.new.files) (hindered (F.faults self.old.files) self.old.met) (hindered (F.faults self.new.files) self.new.met) (rules_view self.old.post.now.rules) (page_view self.old.page) self.old.seat self.new.seat (call_asked request.now) response.new place (Some folder.now)) }
        ensures err { OnErr result (F.holding self.new.files ≡ F.holding self.old.files) }
        ensures post { self.new.post ≡ self.old.post }
        ensures page { self.new.page ≡ self.old.page }
        ensures keys { self.new.keys ≡ self.old.keys }
        ensures service { self.new.service ≡ self.old.service }
    {
        let Some(held) = self.hold()? else {
            respond(Reply::Busy, response);
            return Ok(());
        };
        match read_logs(&mut self.files, &mut self.met, self.alloc, folder) {
            Ok(logs) => Ok(self.tell_on(place, folder, request, &held, &logs, response)?),
            Err(Unread::WantOfMemory) => Err(ShareFault::WantOfMemory),
            Err(Unread::Failed) => {
                respond(Reply::Unreadable, response);
                Ok(())
            }
        }
    }

    /// The same of a snapshot, and of logs that were read.
    fn tell_on(
        &mut self,
        place: ControlPlace,
        folder: &str,
        request: &Request<Bytes>,
        held: &HeldSnapshot,
        logs: &Logs,
        response: &mut Response,
    ) -> Result<(), AllocError>
        requires blank { IsBlank response.old }
        requires place { IsOnRecord place }
        ensures ok { OnOk result (RespondsOn (F.naming self.old.files) (F.holding self.old.files) (F.holding self.new.files) (hindered (F.faults self.old.files) self.old.met) (hindered (F.faults self.new.files) self.new.met) (rules_view self.old.post.now.rules) (page_view self.old.page) self.old.seat self.new.seat (call_asked request.now) response.new place folder.now (numbered_of held.now) (string_bytes held.now.document) (bytes_of logs.now) (passed_by logs.now)) }
        ensures err { OnErr result (F.holding self.new.files ≡ F.holding self.old.files) }
        ensures post { self.new.post ≡ self.old.post }
        ensures page { self.new.page ≡ self.old.page }
        ensures keys { self.new.keys ≡ self.old.keys }
        ensures seat { self.new.seat ≡ self.old.seat }
        ensures service { self.new.service ≡ self.old.service }
    {
        let files = handed(self.alloc, logs.files.as_slice())?;
        let files = files.as_slice();
        let passed_over = logs.passed_over.as_slice();
        let body = request.body().as_slice();
        match place {
            ControlPlace::Flags => {
                tell_flags_on(self.alloc, &self.post.rules, held, files, response)
            }
            ControlPlace::Record => {
                tell_record(self.alloc, query_of(request), held, files, response)
            }
            ControlPlace::Plan => {
                tell_plan(self.alloc, body, passed_over, held, files, response)
            }
            ControlPlace::Check => {
                tell_check(self.alloc, body, passed_over, held, files, response)
            }
            ControlPlace::Apply => self.tell_applied(folder, request, held, files, response),
            ControlPlace::Console
            | ControlPlace::Snapshot
            | ControlPlace::History
            | ControlPlace::Elsewhere => unreachable!(),
        }
    }

    /// Applies a plan, where that may be.
    fn tell_applied(
        &mut self,
        folder: &str,
        request: &Request<Bytes>,
        held: &HeldSnapshot,
        logs: &[LogFile<'_>],
        response: &mut Response,
    ) -> Result<(), AllocError>
        requires { IsBlank response.old }
        ensures ok { OnOk result (RespondsApplied (F.naming self.old.files) (F.holding self.old.files) (F.holding self.new.files) (hindered (F.faults self.old.files) self.old.met) (hindered (F.faults self.new.files) self.new.met) (rules_view self.old.post.now.rules) (page_view self.old.page) self.old.seat self.new.seat (call_asked request.now) response.new (rules_view self.old.post.now.rules).applied_to folder.now (held_view held.now) (files_view logs.now)) }
        ensures err { OnErr result (F.holding self.new.files ≡ F.holding self.old.files) }
        ensures post { self.new.post ≡ self.old.post }
        ensures page { self.new.page ≡ self.old.page }
        ensures keys { self.new.keys ≡ self.old.keys }
        ensures seat { self.new.seat ≡ self.old.seat }
        ensures service { self.new.service ≡ self.old.service }
    {
        let post = self.post;
        let Some(path) = &post.rules.applied_to else {
            respond(Reply::Unserved, response);
            return Ok(());
        };
        let time = time_text(self.alloc, self.rt)?;
        let applying = Applying {
            alloc: self.alloc,
            folder,
            path: path.as_str(),
            time: time.as_str(),
            asker: asker_of(request),
        };
        let token = request.body().as_slice();
        apply(&mut self.files, applying, token, held, logs, response)
    }
}

/// When it is, as RFC 3339 has it; empty where the clock can't be read.
fn time_text<R: Clock>(alloc: Global, rt: &R) -> Result<String, AllocError> {
    match Timestamp::now(rt) {
        Ok(now) => format!(in alloc; "{now:.0}"),
        Err(_) => Ok(String::new(alloc)),
    }
}

/// The name by which the refusal of a call is told: that of the command which does the same.
fn name_of(place: ControlPlace) -> &'static str
    ensures { result.now ≡ name_of place }
{
    match place {
        ControlPlace::Plan => "plan",
        ControlPlace::Check => "verify",
        ControlPlace::Apply => "apply",
        ControlPlace::History => "history",
        ControlPlace::Record => "tally",
        ControlPlace::Console
        | ControlPlace::Flags
        | ControlPlace::Snapshot
        | ControlPlace::Elsewhere => "control",
    }
}
