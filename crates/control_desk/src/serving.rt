//! The desk as a service before another.
ghost use Rattle.std.specs.Prelude.{◌≡◌, OnErr, OnOk, is_some};
ghost use Rattle.http_server.specs.Response.{IsBlank};
ghost use Rattle.control_desk.specs.Desk.{Desks, Passes, Stands, hindered, keys_in, page_view};
ghost use Rattle.control_desk.specs.Laws.{desked, desked_stays, still};
ghost use Rattle.control_desk.specs.Reply.{Replies};
ghost use Rattle.control_desk.specs.Rules.{rules_view};

use crate::desk::ControlDesk;
use crate::files::DeskFiles;
use crate::giving::respond;
use crate::reply::Reply;
use crate::route::Route;
use bytes::Bytes;
use http::{Request, StatusCode};
use http_server::{Response, Service};
use ofrep_guards::CountsStatus;
use service_layers::Recording;
use snap_share::ShareName;
use std::alloc::AllocError;
use std::sync::atomic::Ordering;
use std::time::Clock;

impl<J: ShareName, R, F, S: CountsStatus> CountsStatus for ControlDesk<'_, J, R, F, S> {
    fn count_status(&self, status: StatusCode) {
        self.service.count_status(status);
    }
}

impl<J: ShareName, R, F, S: Service + CountsStatus> ControlDesk<'_, J, R, F, S> {
    /// Has the service behind answer; but while it is stopping, who asks whether it is ready is told so.
    fn pass_on(
        &mut self,
        request: &Request<Bytes>,
        response: &mut Response,
    ) -> Result<(), AllocError>
        requires { IsBlank response.old }
        ensures ok { OnOk result (Passes S.answers self.old.service request.now response.new self.new.service) }
        ensures err { OnErr result (self.new ≡ self.old) }
        ensures post { self.new.post ≡ self.old.post }
        ensures page { self.new.page ≡ self.old.page }
        ensures keys { self.new.keys ≡ self.old.keys }
        ensures seat { self.new.seat ≡ self.old.seat }
        ensures files { self.new.files ≡ self.old.files }
    {
        if request.uri().path() == "/readyz" && self.stop.load(Ordering::SeqCst) {
            self.reply(Reply::Leaves, response);
            return Ok(());
        }
        self.service.call(request, response)
    }

    /// Replies.
    fn reply(&self, reply: Reply, response: &mut Response)
        ensures { Replies reply response.new }
    {
        respond(reply, response);
        self.service.count_status(response.status);
    }
}

impl<J: ShareName, R: Clock, F: DeskFiles, S: Service + CountsStatus> Service
    for ControlDesk<'_, J, R, F, S> {
    ghost answers = { λ old request response new.
        (new.post ≡ old.post) × (new.page ≡ old.page) × (new.keys ≡ old.keys)
        × Desks S.answers (keys_in old.keys) (F.naming old.files) (F.holding old.files) (F.holding new.files) (hindered (F.faults old.files) old.met) (hindered (F.faults new.files) new.met) (rules_view old.post.now.rules) (page_view old.page) old.seat new.seat old.service request response new.service };

    fn call(
        &mut self,
        request: &Request<Bytes>,
        response: &mut Response,
    ) -> Result<(), AllocError> {
        match self.route(request) {
            Route::Forwarded => self.pass_on(request, response),
            Route::Replied(reply) => {
                self.reply(reply, response);
                Ok(())
            }
            Route::Called(place) => {
                self.answer(place, request, response);
                self.service.count_status(response.status);
                Ok(())
            }
        }
    }
}

impl<J: ShareName, R: Clock, F: DeskFiles, S: Recording + CountsStatus> Recording
    for ControlDesk<'_, J, R, F, S> {
    ghost stands = { λ desk request response. Stands S.stands desk.service request response };

    ghost looked = { λ old new.
        (new.post ≡ old.post) × (new.page ≡ old.page) × (is_some new.keys ≡ is_some old.keys) × (new.seat ≡ old.seat) × (new.files ≡ old.files) × S.looked old.service new.service };

    fn look(&mut self) {
        if let Some(held) = &mut self.keys {
            held.renew();
        }
        self.service.look();
    }

    ghost given = { λ old request response new is. desked S.answers S.stands S.given (keys_in old.keys) (F.naming old.files) (F.holding old.files) (F.holding new.files) (hindered (F.faults old.files) old.met) (hindered (F.faults new.files) new.met) (rules_view old.post.now.rules) (page_view old.page) old.seat new.seat old.service request response new.service is.3 };

    ghost stays = { λ old request response new is. desked_stays S.answers S.stands S.stays (keys_in old.keys) (F.naming old.files) (F.holding old.files) (F.holding new.files) (hindered (F.faults old.files) old.met) (hindered (F.faults new.files) new.met) (rules_view old.post.now.rules) (page_view old.page) old.seat new.seat old.service request response new.service is.3 };

    ghost looked_stays = { λ old new is. still S.answers S.stands old.service new.service (S.looked_stays old.service new.service is.5) };
}
