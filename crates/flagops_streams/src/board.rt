//! What the publisher and the threads of the subscribers say to each other, under a lock. Each call but those that wait is one of
//! [`News`], and whoever changes what others may wait for wakes them.
ghost use Rattle.std.specs.Prelude.{◌≡◌, ◌<◌, length, IfOk, IfSome};

use crate::disconnected::Disconnected;
use crate::news::News;
use snap_share::{ShareName, Told};
use std::alloc::{AllocError, Global};
use std::sync::{Condvar, Mutex, Wait};

/// A board that the publisher and the threads share.
#[derive(Drop)]
pub(crate) struct Board<J: ShareName> {
    news: Mutex<News<J>>,
    changed: Condvar,
    /// The seconds in which a subscriber is to be served, 0 for ever.
    wait: u64,
}

impl<J: ShareName> Board<J> {
    /// A board for so many subscribers, of whom each is to be served in so many seconds, 0 for ever.
    pub(crate) fn new(
        alloc: Global,
        published: Told<J>,
        subscribers: usize,
        wait: u64,
    ) -> Result<Board<J>, AllocError>
        ensures { IfOk result (λ board. board.wait ≡ wait) }
    {
        let news = News::new(alloc, published, subscribers)?;
        Ok(Board {
            news: Mutex::new(news),
            changed: Condvar::new(),
            wait,
        })
    }

    /// The seconds in which a subscriber is to be served, 0 for ever.
    pub(crate) fn wait(&self) -> u64
        ensures { result ≡ self.now.wait }
    {
        self.wait
    }

    /// As [`News::publish`].
    pub(crate) fn publish<R: Wait>(&self, rt: &R, published: Told<J>) {
        self.news.lock(rt).publish(published);
        self.changed.notify_all();
    }

    /// As [`News::close`].
    pub(crate) fn close<R: Wait>(&self, rt: &R) {
        self.news.lock(rt).close();
        self.changed.notify_all();
    }

    /// As [`News::enter`].
    pub(crate) fn enter<R: Wait>(&self, rt: &R) {
        self.news.lock(rt).enter();
    }

    /// As [`News::leave`].
    pub(crate) fn leave<R: Wait>(&self, rt: &R, place: usize, disconnected: Option<Disconnected>) {
        self.news.lock(rt).leave(place, disconnected);
        self.changed.notify_all();
    }

    /// As [`News::take_end`], once a stream has ended or no thread is left.
    pub(crate) fn next_end<R: Wait>(&self, rt: &R) -> Option<(usize, Disconnected)> {
        self.changed
            .wait_while(rt, self.news.lock(rt), |news| news.awaits_end())
            .take_end()
    }

    /// As [`News::above`], once there is a number above this one or nothing more is published.
    pub(crate) fn next_above<R: Wait>(&self, rt: &R, after: u64) -> Option<Told<J>>
        ensures { IfSome result (λ told. after < length told) }
    {
        self.changed
            .wait_while(rt, self.news.lock(rt), |news| news.awaits_above(after))
            .above(after)
    }
}
