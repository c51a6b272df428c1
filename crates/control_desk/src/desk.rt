//! The desk.
ghost use Rattle.std.specs.Prelude.{◌≡◌, IfNone, IfOk, IfSome, MatchOption, Some, is_some, length, string_bytes};
ghost use Rattle.ofrep_guards.specs.Asked.{asked_of, is_admitted};
ghost use Rattle.control_desk.specs.Asked.{call_asked};
ghost use Rattle.control_desk.specs.Desk.{keys_in};
ghost use Rattle.control_desk.specs.Held.{IsOfSnapshot, ReadsLast, numbered_of};
ghost use Rattle.control_desk.specs.Obstacles.{Grows, IsUnknown, met_by};
ghost use Rattle.control_desk.specs.Route.{route_of};
ghost use Rattle.control_desk.specs.Rules.{rules_view};

use crate::held::HeldSnapshot;
use crate::obstacles::Obstacles;
use crate::page::ConsolePage;
use crate::post::DeskPost;
use crate::route::{Route, route_of};
use crate::sources::{Absent, PublishedSources, SourceText};
use bytes::Bytes;
use http::Request;
use ofrep_guards::HeldKeys;
use snap_share::{Current, ReadSeat, ShareFault, ShareName};
use std::alloc::{AllocError, Global};
use std::sync::atomic::AtomicBool;
use std::thread;
use std::time::{Clock, Duration};

/// How often what is known of the documents of a snapshot is looked for, and the milliseconds between.
const LOOKS: u32 = 50;

const PAUSE_MILLIS: u64 = 20;

/// Answers the calls on rollouts, from the newest snapshot that its seat knows and from what its files hold, and leaves all else to the
/// service behind it.
#[derive(Drop)]
pub struct ControlDesk<'a, J: ShareName, R, F, S> {
    pub(crate) rt: &'a R,
    pub(crate) alloc: Global,
    pub(crate) post: &'a DeskPost,
    pub(crate) sources: &'a PublishedSources<J>,
    pub(crate) page: ConsolePage<'a>,
    /// Whether the service is stopping.
    pub(crate) stop: &'a AtomicBool,
    pub(crate) keys: Option<HeldKeys<'a>>,
    pub(crate) seat: ReadSeat<J>,
    pub(crate) files: F,
    pub(crate) service: S,
    pub(crate) met: Obstacles,
}

impl<'a, J: ShareName, R, F, S> ControlDesk<'a, J, R, F, S> {
    /// A desk at a post, with what is known of documents, this console, this flag by which the service stops, and these keys, where
    /// one is wanted; it answers from the snapshots of a seat and from these files, and all else goes to the service.
    pub fn new(
        rt: &'a R,
        alloc: Global,
        post: &'a DeskPost,
        sources: &'a PublishedSources<J>,
        page: ConsolePage<'a>,
        stop: &'a AtomicBool,
        keys: Option<HeldKeys<'a>>,
        seat: ReadSeat<J>,
        files: F,
        service: S,
    ) -> ControlDesk<'a, J, R, F, S>
        ensures post { result.post ≡ post.entry }
        ensures sources { result.sources ≡ sources.entry }
        ensures page { result.page ≡ page.entry }
        ensures keys { result.keys ≡ keys.entry }
        ensures seat { result.seat ≡ seat }
        ensures files { result.files ≡ files }
        ensures service { result.service ≡ service }
    {
        ControlDesk {
            rt,
            alloc,
            post,
            sources,
            page,
            stop,
            keys,
            seat,
            files,
            service,
            met: Obstacles::none(),
        }
    }
}

impl<J: ShareName, R, F, S> ControlDesk<'_, J, R, F, S> {
    /// Where a request leads.
    #[tactic(auto, using(crate::proofs::Seen::seen_alike))]
    pub(crate) fn route(&self, request: &Request<Bytes>) -> Route
        ensures { result ≡ route_of (is_some (rules_view self.now.post.now.rules).applied_to) (is_admitted (keys_in self.now.keys) (asked_of request.now)) (call_asked request.now).method (call_asked request.now).path }
    {
        route_of(
            self.post.rules.applied_to.is_some(),
            self.admits(request),
            request.method().as_str(),
            request.uri().path(),
        )
    }

    /// Whether a request shows one of the keys, or needs none.
    fn admits(&self, request: &Request<Bytes>) -> bool
        ensures { result ≡ is_admitted (keys_in self.now.keys) (asked_of request.now) }
    {
        match &self.keys {
            Some(held) => held.are_shown(request),
            None => true,
        }
    }
}

impl<J: ShareName, R: Clock, F, S> ControlDesk<'_, J, R, F, S> {
    /// The current snapshot with what is known of its documents; none where nothing is set of it in time, or a later one is published
    /// meanwhile.
    pub(crate) fn hold(&mut self) -> Result<Option<HeldSnapshot>, ShareFault>
        ensures read { IfOk result (λ o. IfSome o (λ held. ReadsLast self.old.seat (numbered_of held) self.new.seat)) }
        ensures document { IfOk result (λ o. IfSome o (λ held. IsOfSnapshot (numbered_of held) (string_bytes held.document))) }
        ensures none { IfOk result (λ o. IfNone o (IsUnknown (met_by self.old.met) (met_by self.new.met))) }
        ensures grows { Grows (met_by self.old.met) (met_by self.new.met) }
        ensures post { self.new.post ≡ self.old.post }
        ensures page { self.new.page ≡ self.old.page }
        ensures keys { self.new.keys ≡ self.old.keys }
        ensures files { self.new.files ≡ self.old.files }
        ensures service { self.new.service ≡ self.old.service }
    {
        let shared = self.seat.current()?;
        let Some(text) = self.text_of(shared.number())? else {
            return Ok(None);
        };
        let (told, document, remarks) = text.into_parts();
        self.seat.learn(told);
        Ok(Some(HeldSnapshot {
            shared,
            document,
            remarks,
        }))
    }

    /// What is known of the documents of the snapshot of a number. It is set a moment after the snapshot is published.
    fn text_of(&mut self, number: u64) -> Result<Option<SourceText<J>>, AllocError>
        ensures number { IfOk result (λ o. IfSome o (λ text. length text.published ≡ number)) }
        ensures none { IfOk result (λ o. IfNone o (IsUnknown (met_by self.old.met) (met_by self.new.met))) }
        ensures grows { Grows (met_by self.old.met) (met_by self.new.met) }
        ensures post { self.new.post ≡ self.old.post }
        ensures page { self.new.page ≡ self.old.page }
        ensures keys { self.new.keys ≡ self.old.keys }
        ensures seat { self.new.seat ≡ self.old.seat }
        ensures files { self.new.files ≡ self.old.files }
        ensures service { self.new.service ≡ self.old.service }
    {
        look_for(self.rt, self.alloc, self.sources, number, &mut self.met)
    }
}

/// What is known of the documents of the snapshot of a number, once it is set; none where that is not in time, or a later one is
/// published.
fn look_for<J: ShareName, R: Clock>(
    rt: &R,
    alloc: Global,
    sources: &PublishedSources<J>,
    number: u64,
    met: &mut Obstacles,
) -> Result<Option<SourceText<J>>, AllocError>
    ensures number { IfOk result (λ o. IfSome o (λ text. length text.published ≡ number)) }
    ensures none { IfOk result (λ o. IfNone o (IsUnknown (met_by met.old) (met_by met.new))) }
    ensures grows { Grows (met_by met.old) (met_by met.new) }
{
    for _look in 0..LOOKS {
        match sources.find(alloc, number) {
            Ok(text) => return Ok(Some(text)),
            Err(Absent::WantOfMemory) => return Err(AllocError),
            Err(Absent::Outdated) => {
                met.meet_outdated();
                return Ok(None);
            }
            Err(Absent::Unset) => met.meet_unset(),
        }
        thread::sleep(rt, Duration::from_millis(PAUSE_MILLIS));
    }
    Ok(None)
}
