//! The guard.
ghost use Rattle.std.specs.Prelude.{◌≡◌, OnErr, OnOk, is_some, option_copied};
ghost use Rattle.http_server.specs.Response.{IsBlank};
ghost use Rattle.http_server.specs.declared.response.Response.{Response};
ghost use Rattle.ofrep_guards.specs.Asked.{asked_of, reply_to, rules_view, value_of};
ghost use Rattle.ofrep_guards.specs.Guard.{Guards, Stands};
ghost use Rattle.ofrep_guards.specs.Laws.{guarded, guarded_stays, looked_stays};
ghost use Rattle.ofrep_guards.specs.Reply.{Replies, Shares};

use crate::asked::page_of;
use crate::reply::Reply;
use crate::replying::{respond, share};
use crate::rules::Rules;
use bytes::Bytes;
use http::{HeaderValue, Request, StatusCode};
use http_server::{Response, Service};
use service_layers::Recording;
use std::alloc::AllocError;

/// What counts the statuses of answers.
pub trait CountsStatus {
    /// Counts an answer with this status.
    fn count_status(&self, status: StatusCode);
}

/// A guard before a service, which only requests reach that its rules let through.
#[derive(Drop)]
pub struct Guard<'a, S> {
    rules: Rules<'a>,
    service: S,
}

impl<'a, S> Guard<'a, S> {
    /// A guard before a service, with these rules.
    pub fn new(rules: Rules<'a>, service: S) -> Guard<'a, S>
        ensures rules { result.rules ≡ rules.entry }
        ensures service { result.service ≡ service }
    {
        Guard { rules, service }
    }
}

impl<S: Service> Guard<'_, S> {
    /// Has the service answer a request, and lets the page that it is for read the answer.
    fn pass_on(
        &mut self,
        page: Option<&HeaderValue>,
        request: &Request<Bytes>,
        response: &mut Response,
    ) -> Result<(), AllocError>
        requires { IsBlank response.old }
        ensures ok { OnOk result ((given : Response) × S.answers self.old.service request.now given self.new.service × Shares (value_of (option_copied page.entry)) given response.new) }
        ensures err { OnErr result (self.new ≡ self.old) }
        ensures rules { self.new.rules ≡ self.old.rules }
    {
        self.service.call(request, response)?;
        share(page, response);
        Ok(())
    }
}

impl<S: CountsStatus> Guard<'_, S> {
    /// Replies to a request that is not passed on.
    fn reply(&self, reply: Reply, page: Option<&HeaderValue>, response: &mut Response)
        requires { IsBlank response.old }
        ensures { Replies reply (value_of (option_copied page.entry)) response.new }
    {
        respond(reply, page, response);
        self.service.count_status(response.status);
    }
}

impl<S: Service + CountsStatus> Service for Guard<'_, S> {
    ghost answers = { λ old request response new.
        (new.rules ≡ old.rules) × Guards S.answers (reply_to (rules_view old.rules) (asked_of request)) old.service request response new.service };

    fn call(
        &mut self,
        request: &Request<Bytes>,
        response: &mut Response,
    ) -> Result<(), AllocError> {
        let page = page_of(request);
        match self.rules.reply_to(request) {
            Some(reply) => {
                self.reply(reply, page, response);
                Ok(())
            }
            None => self.pass_on(page, request, response),
        }
    }
}

impl<S: Recording + CountsStatus> Recording for Guard<'_, S> {
    ghost stands = { λ guard request response. Stands S.stands guard.service request response };

    ghost looked = { λ old new.
        (new.rules.origins ≡ old.rules.origins) × (is_some new.rules.keys ≡ is_some old.rules.keys) × (new.rules.paths ≡ old.rules.paths) × S.looked old.service new.service };

    fn look(&mut self) {
        self.rules.renew();
        self.service.look();
    }

    ghost given = { λ old request response new is. guarded S.answers S.stands S.given (reply_to (rules_view old.rules) (asked_of request)) old.service request response new.service is.1 };

    ghost stays = { λ old request response new is. guarded_stays S.answers S.stands S.stays (reply_to (rules_view old.rules) (asked_of request)) old.service request response new.service is.1 };

    ghost looked_stays = { λ old new is. looked_stays S.looked S.stands S.looked_stays old.service new.service is.3 };
}
