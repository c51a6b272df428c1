//! One connection over a socket that does not block.
ghost use Rattle.std.specs.Prelude.{◌≡◌, ◌<◌, List, None, length, take, IfOk, OnErr};
ghost use Rattle.std.specs.Io.KnownBytes.{append_known};
ghost use Rattle.http_server.specs.Connection.{config_of, history};
ghost use Rattle.http_server.specs.Exchange.{Call, Chain};
ghost use Rattle.http_server.specs.History.{IsServed, after_sent};
ghost use Rattle.http_server.specs.Refusal.{refusal_status};
ghost use Rattle.httpdate.specs.Date.{date_text};
ghost use Rattle.service_layers.specs.Stand.{AllStand};
ghost use Rattle.ofrep_connections.specs.Refused.{closing_text, status_text};
ghost use Rattle.ofrep_connections.specs.Waiting.{TellsRefusal};
ghost use Rattle.ofrep_connections.specs.Socket.{Exchanges};

use crate::refusals::{closing_text, status_of};
use crate::socket::Socket;
use crate::waiting::{is_over, next_answers, waiting_refusal};
use http_server::{Connection, Refusal};
use httpdate::HttpDate;
use mio::Registry;
use service_layers::Recording;
use std::alloc::Global;
use std::io;
use std::io::ErrorKind;
use std::time::Instant;

/// How often a connection is read or written before others have their turn.
const MOST_TURNS: u32 = 4;

/// The status of the answer to a request that did not come whole in time.
pub(crate) const LATE_STATUS: u16 = 408;

/// Once a request was refused, so many bytes are still read and dropped: a socket that is closed before they are may take the refusal
/// from its client.
const MOST_DROPPED: usize = 65_536;

/// A connection and its socket.
#[derive(Drop)]
pub(crate) struct Peer<T> {
    pub(crate) socket: T,
    pub(crate) connection: Connection,
    /// When it last had something to do.
    pub(crate) active: Instant,
    /// When the first byte of the request came that is not whole yet, where there is one.
    pub(crate) begun: Option<Instant>,
    /// How many bytes are still dropped, once a request was refused.
    pub(crate) dropping: Option<usize>,
}

/// Whether a peer stays.
#[derive(Clone, Copy, Debug, PartialEq, Eq)]
pub(crate) enum Stay {
    /// The socket has nothing for now.
    Waits,
    /// The socket may have more, and others come first.
    Yields,
    Leaves,
}

impl<T: Socket> Peer<T> {
    /// Reads, answers and writes until the socket has nothing for now, or others have to have their turn. A read of fewer bytes
    /// than `room` took all that had come, so that the socket tells of what comes later; where no answer came of it the socket is
    /// asked all the same.
    pub(crate) fn go_on<S: Recording>(&mut self, now: Instant, service: &mut S, room: usize) -> Stay
        requires { AllStand S.stands service.old (history self.old.connection).calls }
        ensures stand { AllStand S.stands service.new (history self.new.connection).calls }
        ensures chain { (calls : List Call) × Chain S.answers service.old calls service.new }
        ensures exchanges { Exchanges (history self.old.connection) (history self.new.connection) (T.remaining self.old.socket) (T.remaining self.new.socket) (T.contents self.old.socket) (T.contents self.new.socket) }
        ensures dropping { self.new.dropping ≡ self.old.dropping }
    {
        let mut is_read = false;
        for _ in 0..MOST_TURNS {
            if is_read && !self.connection.wants_write() {
                return Stay::Waits;
            }
            let reads = !self.connection.wants_write();
            let mut all = false;
            let mut comes = false;
            match self.move_bytes(service, room) {
                Ok(is_all) => {
                    all = is_all;
                    comes = reads;
                }
                Err(e) if e.kind() == ErrorKind::Interrupted => {}
                Err(e) if e.kind() == ErrorKind::WouldBlock => return Stay::Waits,
                Err(_) => return Stay::Leaves,
            }
            self.connection.advance(service);
            self.begun = begun_after(self.begun, comes, self.connection.wants_write(), now);
            if is_over(&self.connection) {
                return Stay::Leaves;
            }
            is_read = is_read || all && self.connection.wants_write();
        }
        Stay::Yields
    }

    /// Whether a request is under way, an answer is being sent, or what still comes is dropped.
    pub(crate) fn is_occupied(&self) -> bool {
        self.begun.is_some() || self.dropping.is_some() || self.connection.wants_write()
    }

    /// Tells that a request is refused, where that is not told yet, sends nothing more, and begins to drop what still comes. Where the
    /// socket takes nothing for now the peer waits.
    pub(crate) fn refuse(&mut self, alloc: Global, date: HttpDate) -> Stay
        ensures told { TellsRefusal (history self.old.connection) (date_text date) (T.contents self.old.socket) (T.contents self.new.socket) }
        ensures connection { self.new.connection ≡ self.old.connection }
        ensures contents { self.new.dropping ≡ None → T.contents self.new.socket ≡ T.contents self.old.socket }
        ensures dropping { self.new.dropping ≡ None → self.old.dropping ≡ None }
    {
        if self.tell_refusal(alloc, date) == Stay::Waits {
            return Stay::Waits;
        }
        self.dropping = Some(MOST_DROPPED);
        let _ = self.socket.end_output();
        Stay::Yields
    }

    /// Tells that a request is refused, where nothing else waits to be sent and the socket takes something.
    fn tell_refusal(&mut self, alloc: Global, date: HttpDate) -> Stay
        ensures told { TellsRefusal (history self.old.connection) (date_text date) (T.contents self.old.socket) (T.contents self.new.socket) }
        ensures waits { result ≡ Stay.Waits → T.contents self.new.socket ≡ T.contents self.old.socket }
        ensures connection { self.new.connection ≡ self.old.connection }
        ensures dropping { self.new.dropping ≡ self.old.dropping }
    {
        let Some(why) = waiting_refusal(&self.connection) else {
            return Stay::Yields;
        };
        match self.give_refusal(alloc, date, why) {
            Ok(_) => Stay::Yields,
            Err(e) if e.kind() == ErrorKind::WouldBlock => Stay::Waits,
            Err(_) => Stay::Yields,
        }
    }

    /// Tells why a request is refused.
    fn give_refusal(&mut self, alloc: Global, date: HttpDate, why: Refusal) -> io::Result<usize>
        ensures given { IfOk result (λ n. T.contents self.new.socket ≡ append_known (T.contents self.old.socket) (take n (closing_text (refusal_status why) (date_text date)))) }
        ensures ungiven { OnErr result (T.contents self.new.socket ≡ T.contents self.old.socket) }
        ensures connection { self.new.connection ≡ self.old.connection }
        ensures dropping { self.new.dropping ≡ self.old.dropping }
    {
        let text = closing_text(alloc, status_of(why), date)?;
        self.socket.give(text.as_bytes())
    }

    /// Drops what has come, as far as that is still done.
    pub(crate) fn drop_input(&mut self) -> Stay
        ensures connection { self.new.connection ≡ self.old.connection }
        ensures contents { T.contents self.new.socket ≡ T.contents self.old.socket }
        ensures dropping { self.new.dropping ≡ None → self.old.dropping ≡ None }
    {
        let left = self.dropping.unwrap_or(0);
        if left == 0 {
            return Stay::Waits;
        }
        match self.socket.drop_input() {
            Ok(0) => Stay::Leaves,
            Ok(count) => {
                self.dropping = Some(left.saturating_sub(count));
                Stay::Yields
            }
            Err(e) if e.kind() == ErrorKind::Interrupted => Stay::Yields,
            Err(e) if e.kind() == ErrorKind::WouldBlock => Stay::Waits,
            Err(_) => Stay::Leaves,
        }
    }

    /// Tells that a request did not come whole in time, where nothing else is being sent.
    pub(crate) fn give_late(&mut self, alloc: Global, date: HttpDate) -> io::Result<usize>
        ensures given { IfOk result (λ n. T.contents self.new.socket ≡ append_known (T.contents self.old.socket) (take n (closing_text (status_text 408) (date_text date)))) }
        ensures ungiven { OnErr result (T.contents self.new.socket ≡ T.contents self.old.socket) }
        ensures pending { 0 < length (history self.old.connection).pending → T.contents self.new.socket ≡ T.contents self.old.socket }
    {
        if self.connection.wants_write() {
            return Err(ErrorKind::WouldBlock.into());
        }
        let text = closing_text(alloc, LATE_STATUS, date)?;
        self.socket.give(text.as_bytes())
    }

    /// Has the system tell once more what the socket is ready for, where the peer yields to others.
    pub(crate) fn come_again(&mut self, registry: &Registry, key: usize, stay: Stay)
        ensures connection { self.new.connection ≡ self.old.connection }
        ensures contents { T.contents self.new.socket ≡ T.contents self.old.socket }
        ensures dropping { self.new.dropping ≡ self.old.dropping }
    {
        if stay == Stay::Yields {
            let _ = self.socket.register_again(registry, key);
        }
    }

    /// Writes once where bytes are pending, and reads once else, and says whether it read all that there was. A write that takes
    /// no byte is an error.
    fn move_bytes<S: Recording>(&mut self, service: &S, room: usize) -> io::Result<bool>
        requires served { ∥ IsServed (config_of self.old.connection) (history self.old.connection) ∥₁ }
        requires stand { AllStand S.stands service.now (history self.old.connection).calls }
        ensures calls { (history self.new.connection).calls ≡ (history self.old.connection).calls }
        ensures exchanges { Exchanges (history self.old.connection) (history self.new.connection) (T.remaining self.old.socket) (T.remaining self.new.socket) (T.contents self.old.socket) (T.contents self.new.socket) }
        ensures dropping { self.new.dropping ≡ self.old.dropping }
    {
        if !self.connection.wants_write() {
            let count = receive(&mut self.connection, &mut self.socket)?;
            return Ok(count < room);
        }
        let count = send(&mut self.connection, service, &mut self.socket)?;
        if count == 0 {
            return Err(ErrorKind::WriteZero.into());
        }
        Ok(false)
    }
}

/// When the first byte of the request came that is not whole yet, once bytes have been moved or not: a connection that has something
/// to send has taken the request that it had begun.
fn begun_after(
    begun: Option<Instant>,
    comes: bool,
    wants_write: bool,
    now: Instant,
) -> Option<Instant> {
    if wants_write {
        return None;
    }
    match begun {
        Some(since) => Some(since),
        None if comes => Some(now),
        None => None,
    }
}

/// Reads once.
#[tactic(auto, using(crate::proofs::Sockets::read_calls))]
fn receive<T: Socket>(connection: &mut Connection, socket: &mut T) -> io::Result<usize>
    ensures calls { (history connection.new).calls ≡ (history connection.old).calls }
    ensures exchanges { Exchanges (history connection.old) (history connection.new) (T.remaining socket.old) (T.remaining socket.new) (T.contents socket.old) (T.contents socket.new) }
{
    socket.receive(connection)
}

/// Writes once, all but the text of a refusal. What is pending answers calls of the connection, and what each of their answers rests on stands already.
#[tactic(auto, using(crate::proofs::Sockets::exchanges_none))]
fn send<S: Recording, T: Socket>(
    connection: &mut Connection,
    service: &S,
    socket: &mut T,
) -> io::Result<usize>
    requires served { ∥ IsServed (config_of connection.old) (history connection.old) ∥₁ }
    requires stand { AllStand S.stands service.now (history connection.old).calls }
    ensures ok { IfOk result (λ n. (history connection.new ≡ after_sent (history connection.old) n)
        × (T.contents socket.new ≡ append_known (T.contents socket.old) (take n (history connection.old).pending))) }
    ensures err { OnErr result ((connection.new ≡ connection.old) × (T.contents socket.new ≡ T.contents socket.old)) }
    ensures calls { (history connection.new).calls ≡ (history connection.old).calls }
    ensures exchanges { Exchanges (history connection.old) (history connection.new) (T.remaining socket.old) (T.remaining socket.new) (T.contents socket.old) (T.contents socket.new) }
{
    // The contract alone names the service.
    let _ = service;
    let count = socket.give(next_answers(connection))?;
    connection.sent(count);
    Ok(count)
}
