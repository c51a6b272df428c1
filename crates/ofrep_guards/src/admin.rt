//! The guard of a listener for operations.
ghost use Rattle.std.specs.Prelude.{◌≡◌, ◌||◌, false, OnErr, OnOk, Some, option_copied};
ghost use Rattle.http_server.specs.Response.{IsBlank};
ghost use Rattle.http_server.specs.declared.response.Response.{Response};
ghost use Rattle.ofrep_guards.specs.Admin.{admin_asked, admin_reply, admin_view, stops};
ghost use Rattle.ofrep_guards.specs.Asked.{value_of};
ghost use Rattle.ofrep_guards.specs.Guard.{Guards, Stands};
ghost use Rattle.ofrep_guards.specs.Laws.{guarded, guarded_stays, looked_stays};
ghost use Rattle.ofrep_guards.specs.Reply.{Replies, Shares};

use crate::admin_rules::AdminRules;
use crate::asked::page_of;
use crate::guard::CountsStatus;
use crate::reply::Reply;
use crate::replying::{respond, share};
use bytes::Bytes;
use http::{HeaderValue, Request};
use http_server::{Response, Service};
use service_layers::Recording;
use std::alloc::AllocError;
use std::sync::atomic::{AtomicBool, Ordering};

/// A guard before the service of a listener for operations. Once it is asked to stop the service, where it may be, it sets a flag,
/// and says from then on that the service is not ready.
#[derive(Drop)]
pub struct AdminGuard<'a, S> {
    pub(crate) rules: AdminRules<'a>,
    stop: &'a AtomicBool,
    pub(crate) is_stopping: bool,
    pub(crate) service: S,
}

impl<'a, S> AdminGuard<'a, S> {
    /// A guard before a service, with these rules and this flag. It was not asked to stop yet.
    pub fn new(rules: AdminRules<'a>, stop: &'a AtomicBool, service: S) -> AdminGuard<'a, S>
        ensures rules { result.rules ≡ rules.entry }
        ensures is_stopping { result.is_stopping ≡ false }
        ensures service { result.service ≡ service }
    {
        AdminGuard {
            rules,
            stop,
            is_stopping: false,
            service,
        }
    }
}

impl<S: Service> AdminGuard<'_, S> {
    /// Has the service answer a request, and lets the page that it is for read the answer.
    fn pass_on(
        &mut self,
        page: Option<&HeaderValue>,
        request: &Request<Bytes>,
        response: &mut Response,
    ) -> Result<(), AllocError>
        requires { IsBlank response.old }
        ensures ok { OnOk result ((given : Response) × S.answers self.old.service request.now given self.new.service × Shares (value_of (option_copied page.entry)) given response.new) }
        ensures err { OnErr result (self.new ≡ self.old) }
        ensures rules { self.new.rules ≡ self.old.rules }
        ensures is_stopping { self.new.is_stopping ≡ self.old.is_stopping }
    {
        self.service.call(request, response)?;
        share(page, response);
        Ok(())
    }
}

impl<S: CountsStatus> AdminGuard<'_, S> {
    /// Replies to a request that is not passed on.
    fn reply(&mut self, reply: Reply, page: Option<&HeaderValue>, response: &mut Response)
        requires { IsBlank response.old }
        ensures replies { Replies reply (value_of (option_copied page.entry)) response.new }
        ensures rules { self.new.rules ≡ self.old.rules }
        ensures is_stopping { self.new.is_stopping ≡ (self.old.is_stopping || stops (Some reply)) }
        ensures service { self.new.service ≡ self.old.service }
    {
        if is_stop(reply) {
            self.stop.store(true, Ordering::SeqCst);
            self.is_stopping = true;
        }
        respond(reply, page, response);
        self.service.count_status(response.status);
    }
}

/// Whether the service stops by a reply.
fn is_stop(reply: Reply) -> bool
    ensures { result ≡ stops (Some reply) }
{
    match reply {
        Reply::Stops => true,
        Reply::Forbidden
        | Reply::Elsewhere
        | Reply::Preflight
        | Reply::Unauthorized
        | Reply::Unsupported
        | Reply::Foreign
        | Reply::Leaves
        | Reply::OnlyPost => false,
    }
}

impl<S: Service + CountsStatus> Service for AdminGuard<'_, S> {
    ghost answers = { λ old request response new.
        (new.rules ≡ old.rules)
        × (new.is_stopping ≡ (old.is_stopping || stops (admin_reply (admin_view old.rules) old.is_stopping (admin_asked request))))
        × Guards S.answers (admin_reply (admin_view old.rules) old.is_stopping (admin_asked request)) old.service request response new.service };

    fn call(
        &mut self,
        request: &Request<Bytes>,
        response: &mut Response,
    ) -> Result<(), AllocError> {
        let page = page_of(request);
        match self.rules.reply_to(self.is_stopping, request) {
            Some(reply) => {
                self.reply(reply, page, response);
                Ok(())
            }
            None => self.pass_on(page, request, response),
        }
    }
}

impl<S: Recording + CountsStatus> Recording for AdminGuard<'_, S> {
    ghost stands = { λ guard request response. Stands S.stands guard.service request response };

    ghost looked = { λ old new. (new.rules ≡ old.rules) × (new.is_stopping ≡ old.is_stopping) × S.looked old.service new.service };

    fn look(&mut self) {
        self.service.look();
    }

    ghost given = { λ old request response new is. guarded S.answers S.stands S.given (admin_reply (admin_view old.rules) old.is_stopping (admin_asked request)) old.service request response new.service is.2 };

    ghost stays = { λ old request response new is. guarded_stays S.answers S.stands S.stays (admin_reply (admin_view old.rules) old.is_stopping (admin_asked request)) old.service request response new.service is.2 };

    ghost looked_stays = { λ old new is. looked_stays S.looked S.stands S.looked_stays old.service new.service is.2 };
}
