//! What the guard of a listener for operations goes by.
ghost use Rattle.std.specs.Prelude.{◌≡◌, Some, codes, option_copied};
ghost use Rattle.http.specs.Request.{head_of};
ghost use Rattle.http_header.specs.HeaderMap.{get};
ghost use Rattle.ofrep_guards.specs.Admin.{admin_asked, admin_reply, admin_view, is_of_own, operations_reply, own_reply, stop_reply};

use crate::asked::{evaluates, origin_of};
use crate::hosts::OwnHosts;
use crate::reply::Reply;
use bytes::Bytes;
use http::header::HOST;
use http::{HeaderValue, Request};
use ofrep_requests::Place;

/// What the guard of a listener for operations goes by: the listener's own hosts, and whether it may be asked to stop the service.
#[derive(Drop)]
pub struct AdminRules<'a> {
    pub(crate) hosts: &'a OwnHosts,
    pub(crate) may_stop: bool,
}

impl<'a> AdminRules<'a> {
    /// These rules.
    pub fn new(hosts: &'a OwnHosts, may_stop: bool) -> AdminRules<'a>
        ensures hosts { result.hosts.now ≡ hosts.now }
        ensures may_stop { result.may_stop ≡ may_stop }
    {
        AdminRules { hosts, may_stop }
    }

    /// What is replied to a request, where the service is stopping or is not; none where it is passed on. It takes no memory.
    pub(crate) fn reply_to(&self, is_stopping: bool, request: &Request<Bytes>) -> Option<Reply>
        ensures { result ≡ admin_reply (admin_view self.now) is_stopping (admin_asked request.now) }
    {
        if self.own(request) {
            self.reply_to_own(is_stopping, request)
        } else {
            Some(Reply::Foreign)
        }
    }

    /// Whether a request names the listener's own host, and no page but one of its own.
    fn own(&self, request: &Request<Bytes>) -> bool
        ensures { result ≡ is_of_own (admin_view self.now).hosts (admin_asked request.now) }
    {
        self.hosts.are_named(host_of(request)) && self.hosts.have_sent(origin_of(request))
    }

    /// What is replied to such a request.
    fn reply_to_own(&self, is_stopping: bool, request: &Request<Bytes>) -> Option<Reply>
        ensures { result ≡ own_reply (admin_view self.now) is_stopping (admin_asked request.now) }
    {
        if self.may_stop && request.uri().path() == "/stop" {
            return Some(stop_reply(request));
        }
        operations_reply(is_stopping, request)
    }
}

/// What is replied to a request for the service to stop.
fn stop_reply(request: &Request<Bytes>) -> Reply
    ensures { Some result ≡ stop_reply (admin_asked request.now) }
{
    if request.method().as_str() == "POST" {
        Reply::Stops
    } else {
        Reply::OnlyPost
    }
}

/// What is replied to any other request.
fn operations_reply(is_stopping: bool, request: &Request<Bytes>) -> Option<Reply>
    ensures { result ≡ operations_reply is_stopping (admin_asked request.now) }
{
    let path = request.uri().path();
    if is_stopping && path == "/readyz" {
        return Some(Reply::Leaves);
    }
    if evaluates(Place::of(path)) {
        return Some(Reply::Elsewhere);
    }
    None
}

/// The host that a request names, where it names one.
fn host_of(request: &Request<Bytes>) -> Option<&HeaderValue>
    ensures { option_copied result ≡ get (head_of request.now).headers (codes "host") }
{
    request.headers().get(HOST)
}
