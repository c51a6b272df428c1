//! The loop of a worker.
ghost use Rattle.std.specs.Prelude.{◌≡◌, List};
ghost use Rattle.http_server.specs.Exchange.{Call, Chain};
ghost use Rattle.service_layers.specs.Stand.{Works};
ghost use Rattle.ofrep_connections.specs.Stand.{PeersStand};

use crate::admission::{MAX_PEERS, Queue, admit};
use crate::closing::{drop_input, is_dropping, leave_due, leave_free, part};
use crate::load::{Load, LoadShare};
use crate::moment::Moment;
use crate::patience::Patience;
use crate::peer::{Peer, Stay};
use crate::served::Served;
use crate::socket::Socket;
use http_server::Config;
use mio::event::Event;
use mio::net::{TcpListener, TcpStream};
use mio::{Events, Interest, Poll, Registry, Token};
use service_layers::{Recording, Traffic};
use slab::Slab;
use std::alloc::Global;
use std::hash::RandomState;
use std::net::Net;
use std::sync::atomic::{AtomicBool, Ordering};
use std::time::{Clock, Duration, Instant};
use std::{io, net};

/// The token of the listener; those of the peers are below.
const LISTENER: usize = MAX_PEERS;

/// A worker that is to end answers what is under way for so many seconds.
const END_SECONDS: u64 = 10;

/// How long a wait lasts meanwhile.
const END_MILLIS: u64 = 50;

/// What the connections of a worker are made with, how long they are kept, and where they are counted.
#[derive(Clone, Copy)]
pub(crate) struct Making<'a> {
    pub(crate) alloc: Global,
    pub(crate) keys: RandomState,
    pub(crate) config: Config,
    pub(crate) patience: Patience,
    pub(crate) traffic: &'a Traffic,
}

impl Making<'_> {
    /// The size of a read of this event's socket: one of fewer bytes has emptied the socket. 0 where that does not hold: after the
    /// end of input, which the system reports only once, after an error, and with urgent data, before which a read stops.
    fn room(&self, event: &Event) -> usize {
        if event.is_read_closed() || event.is_error() || event.is_priority() {
            return 0;
        }
        self.config.read_size
    }
}

/// As [`answer_connections_with`], with the usual patience, and counting nothing.
pub fn answer_connections<S: Recording, R: Net + Clock>(
    rt: &R,
    alloc: Global,
    keys: RandomState,
    config: Config,
    listener: net::TcpListener,
    load: &Load,
    stop: &AtomicBool,
    service: &mut S,
) -> io::Result<()>
    ensures { (turns : List (List Call)) × Works S.answers S.looked service.old turns service.new }
{
    let traffic = Traffic::new();
    let making = Making {
        alloc,
        keys,
        config,
        patience: Patience::default(),
        traffic: &traffic,
    };
    answer_made(rt, making, listener, load, stop, service).into_outcome()
}

/// Answers connections of a listener, which must not block, until the flag is set or the system fails. After each wait, which lasts
/// less than a second, the service looks whether what its answers rest on is still there. Workers that share a listener share its
/// load: one that holds more connections than others leaves those that wait to them for a moment. How long connections are kept
/// `patience` says; they, and the requests that reach no service, are counted in `traffic`.
///
/// Once the flag is set no further connection is taken, each is closed that has nothing under way, and the call ends when none is
/// left, or after ten seconds. What it returns says which limits the connections had.
pub fn answer_connections_with<S: Recording, R: Net + Clock>(
    rt: &R,
    alloc: Global,
    keys: RandomState,
    config: Config,
    patience: Patience,
    traffic: &Traffic,
    listener: net::TcpListener,
    load: &Load,
    stop: &AtomicBool,
    service: &mut S,
) -> Served
    ensures turns { (turns : List (List Call)) × Works S.answers S.looked service.old turns service.new }
    ensures config { result.config ≡ config }
    ensures patience { result.patience ≡ patience }
{
    let making = Making {
        alloc,
        keys,
        config,
        patience,
        traffic,
    };
    answer_made(rt, making, listener, load, stop, service)
}

/// Answers the connections that are made so.
fn answer_made<S: Recording, R: Net + Clock>(
    rt: &R,
    making: Making<'_>,
    listener: net::TcpListener,
    load: &Load,
    stop: &AtomicBool,
    service: &mut S,
) -> Served
    ensures turns { (turns : List (List Call)) × Works S.answers S.looked service.old turns service.new }
    ensures config { result.config ≡ making.entry.config }
    ensures patience { result.patience ≡ making.entry.patience }
{
    let outcome = answer_listener(rt, making, listener, load, stop, service);
    Served {
        config: making.config,
        patience: making.patience,
        outcome,
    }
}

fn answer_listener<S: Recording, R: Net + Clock>(
    rt: &R,
    making: Making<'_>,
    listener: net::TcpListener,
    load: &Load,
    stop: &AtomicBool,
    service: &mut S,
) -> io::Result<()>
    ensures { (turns : List (List Call)) × Works S.answers S.looked service.old turns service.new }
{
    let mut poll = Poll::new(rt)?;
    let mut listener = TcpListener::from_std(listener);
    poll.registry()
        .register(&mut listener, Token(LISTENER), Interest::READABLE)?;
    let mut events = Events::with_capacity(making.alloc, 256)?;
    let mut peers = Slab::new(making.alloc);
    let mut share = LoadShare::begin(load, making.traffic);
    let ended = answer_all(
        rt,
        making,
        &mut poll,
        &mut events,
        listener,
        &mut share,
        &mut peers,
        stop,
        service,
    );
    share.end();
    ended
}

/// Answers until the flag is set, and then what is under way.
fn answer_all<S: Recording, R: Clock>(
    rt: &R,
    making: Making<'_>,
    poll: &mut Poll,
    events: &mut Events,
    listener: TcpListener,
    share: &mut LoadShare<'_>,
    peers: &mut Slab<Peer<TcpStream>>,
    stop: &AtomicBool,
    service: &mut S,
) -> io::Result<()>
    requires { PeersStand S.stands ⟦<TcpStream as Socket>⟧.contents service.old peers.old }
    ensures { (turns : List (List Call)) × Works S.answers S.looked service.old turns service.new }
{
    turn(
        rt, making, poll, events, &listener, share, peers, stop, service,
    )?;
    let mut listener = listener;
    let _ = poll.registry().deregister(&mut listener);
    drop(listener);
    end(rt, making, poll, events, share, peers, service)
}

/// Answers until the flag is set.
fn turn<S: Recording, R: Clock>(
    rt: &R,
    making: Making<'_>,
    poll: &mut Poll,
    events: &mut Events,
    listener: &TcpListener,
    share: &mut LoadShare<'_>,
    peers: &mut Slab<Peer<TcpStream>>,
    stop: &AtomicBool,
    service: &mut S,
) -> io::Result<()>
    requires { PeersStand S.stands ⟦<TcpStream as Socket>⟧.contents service.old peers.old }
    ensures turns { (turns : List (List Call)) × Works S.answers S.looked service.old turns service.new }
    ensures stand { PeersStand S.stands ⟦<TcpStream as Socket>⟧.contents service.new peers.new }
{
    let mut swept = Instant::now(rt)?;
    let mut queue = Queue::Empty;
    for _ in 0..u64::MAX {
        if stop.load(Ordering::SeqCst) {
            return Ok(());
        }
        let pause = queue.pause_millis();
        let now = answer_ready(rt, making, poll, events, pause, &mut queue, peers, service)?;
        share.tell(peers.len());
        let registry = poll.registry();
        queue = admit(
            making,
            now.instant,
            registry,
            listener,
            share,
            queue,
            service,
            peers,
        );
        if now.instant.duration_since(swept).as_secs() > 0 {
            leave_due(making, now, registry, service, peers);
            swept = now.instant;
        }
    }
    Ok(())
}

/// Answers what is under way, and closes each connection that has nothing under way, until none is left, or for some seconds.
fn end<S: Recording, R: Clock>(
    rt: &R,
    making: Making<'_>,
    poll: &mut Poll,
    events: &mut Events,
    share: &mut LoadShare<'_>,
    peers: &mut Slab<Peer<TcpStream>>,
    service: &mut S,
) -> io::Result<()>
    requires { PeersStand S.stands ⟦<TcpStream as Socket>⟧.contents service.old peers.old }
    ensures { (turns : List (List Call)) × Works S.answers S.looked service.old turns service.new }
{
    let begun = Instant::now(rt)?;
    let mut queue = Queue::Empty;
    for _ in 0..u64::MAX {
        leave_free(poll.registry(), service, peers);
        share.tell(peers.len());
        if peers.is_empty() {
            return Ok(());
        }
        let now = answer_ready(
            rt, making, poll, events, END_MILLIS, &mut queue, peers, service,
        )?;
        if now.instant.duration_since(begun).as_secs() >= END_SECONDS {
            return Ok(());
        }
    }
    Ok(())
}

/// Waits for sockets, has the service look, and does what the sockets are ready for. Says when that was.
fn answer_ready<S: Recording, R: Clock>(
    rt: &R,
    making: Making<'_>,
    poll: &mut Poll,
    events: &mut Events,
    pause_millis: u64,
    queue: &mut Queue,
    peers: &mut Slab<Peer<TcpStream>>,
    service: &mut S,
) -> io::Result<Moment>
    requires { PeersStand S.stands ⟦<TcpStream as Socket>⟧.contents service.old peers.old }
    ensures turns { (turns : List (List Call)) × Works S.answers S.looked service.old turns service.new }
    ensures stand { PeersStand S.stands ⟦<TcpStream as Socket>⟧.contents service.new peers.new }
{
    poll.poll(events, Some(Duration::from_millis(pause_millis)))?;
    let now = Moment::now(rt)?;
    service.look();
    for event in events.iter() {
        answer_event(making, now, poll.registry(), queue, peers, event, service);
    }
    Ok(now)
}

/// Does what a socket is ready for.
fn answer_event<S: Recording, T: Socket + Drop>(
    making: Making<'_>,
    now: Moment,
    registry: &Registry,
    queue: &mut Queue,
    peers: &mut Slab<Peer<T>>,
    event: &Event,
    service: &mut S,
)
    requires { PeersStand S.stands T.contents service.old peers.old }
    ensures stand { PeersStand S.stands T.contents service.new peers.new }
    ensures chain { (calls : List Call) × Chain S.answers service.old calls service.new }
{
    let Token(key) = event.token();
    if key == LISTENER {
        *queue = queue.called(now.instant);
    } else {
        let room = making.room(event);
        attend(making, now, registry, peers, key, room, service);
    }
}

/// Goes on with one peer, and closes its connection where it leaves.
fn attend<S: Recording, T: Socket + Drop>(
    making: Making<'_>,
    now: Moment,
    registry: &Registry,
    peers: &mut Slab<Peer<T>>,
    key: usize,
    room: usize,
    service: &mut S,
)
    requires { PeersStand S.stands T.contents service.old peers.old }
    ensures stand { PeersStand S.stands T.contents service.new peers.new }
    ensures chain { (calls : List Call) × Chain S.answers service.old calls service.new }
{
    if is_dropping(peers.get(key)) {
        drop_input(registry, service, peers, key);
    } else if visit(now.instant, registry, peers, key, room, service) == Stay::Leaves {
        part(making, now, registry, service, peers, key);
    }
}

/// Goes on with one peer, and says whether it stays.
fn visit<S: Recording, T: Socket>(
    now: Instant,
    registry: &Registry,
    peers: &mut Slab<Peer<T>>,
    key: usize,
    room: usize,
    service: &mut S,
) -> Stay
    requires { PeersStand S.stands T.contents service.old peers.old }
    ensures stand { PeersStand S.stands T.contents service.new peers.new }
    ensures chain { (calls : List Call) × Chain S.answers service.old calls service.new }
{
    let Some(peer) = peers.get_mut(key) else {
        return Stay::Waits;
    };
    peer.active = now;
    let stay = peer.go_on(now, service, room);
    peer.come_again(registry, key, stay);
    stay
}
