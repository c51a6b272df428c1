//! Which connections a worker takes, and when.
ghost use Rattle.ofrep_connections.specs.Stand.{PeerStands, PeersStand};

use crate::closing::leave;
use crate::load::LoadShare;
use crate::peer::Peer;
use crate::socket::Socket;
use crate::work::Making;
use http_server::Connection;
use mio::Registry;
use mio::net::{TcpListener, TcpStream};
use service_layers::{Closing, Recording};
use slab::Slab;
use std::io::{Error, ErrorKind};
use std::time::Instant;

/// The most connections of a worker. For a further one the one is closed that has had nothing to do for the longest time.
pub(crate) const MAX_PEERS: usize = 1024;

/// How long a wait lasts before the flag is looked at.
const TURN_MILLIS: u64 = 200;

/// How long a wait lasts where connections are left to other workers.
const LEFT_MILLIS: u64 = 1;

/// How long a wait lasts where the system gave no connection of those that wait.
const FAILED_MILLIS: u64 = 10;

/// Connections are left to other workers for so long.
const PATIENCE_MILLIS: u128 = 4;

/// What a worker knows of the connections that wait. The system tells only once that some do, so it is kept until none does.
#[derive(Clone, Copy)]
pub(crate) enum Queue {
    /// None waits.
    Empty,
    /// Some may wait since then.
    Waits(Instant),
    /// Some may wait, and the system gave none.
    Failed,
}

impl Queue {
    /// The system tells that a connection waits.
    pub(crate) fn called(self, now: Instant) -> Queue {
        match self {
            Queue::Waits(since) => Queue::Waits(since),
            Queue::Empty | Queue::Failed => Queue::Waits(now),
        }
    }

    /// What is known once a connection could not be taken.
    fn without(fault: &Error) -> Queue {
        match fault.kind() {
            ErrorKind::WouldBlock => Queue::Empty,
            _ => Queue::Failed,
        }
    }

    /// The milliseconds after which a worker that has nothing to do looks again.
    pub(crate) fn pause_millis(self) -> u64 {
        match self {
            Queue::Empty => TURN_MILLIS,
            Queue::Waits(_) => LEFT_MILLIS,
            Queue::Failed => FAILED_MILLIS,
        }
    }

    fn is_empty(self) -> bool {
        match self {
            Queue::Empty => true,
            Queue::Waits(_) | Queue::Failed => false,
        }
    }

    /// How many connections a worker that holds `held` may reach whatever the others hold: 0 while those in the queue have waited
    /// for less than `PATIENCE_MILLIS`, else twice `held`.
    fn most(self, now: Instant, held: usize) -> usize {
        match self {
            Queue::Waits(since) if now.duration_since(since).as_millis() < PATIENCE_MILLIS => 0,
            Queue::Empty | Queue::Waits(_) | Queue::Failed => held.saturating_mul(2),
        }
    }
}

/// Accepts this worker's share of the waiting connections, and more where the other workers have left them waiting for long.
/// Returns the state of the queue afterwards.
pub(crate) fn admit<S: Recording>(
    making: Making<'_>,
    now: Instant,
    registry: &Registry,
    listener: &TcpListener,
    share: &mut LoadShare<'_>,
    queue: Queue,
    service: &S,
    peers: &mut Slab<Peer<TcpStream>>,
) -> Queue
    requires { PeersStand S.stands ⟦<TcpStream as Socket>⟧.contents service.now peers.old }
    ensures { PeersStand S.stands ⟦<TcpStream as Socket>⟧.contents service.now peers.new }
{
    if queue.is_empty() {
        return queue;
    }
    let most = queue.most(now, peers.len());
    let mut queue = queue;
    for _ in 0..MAX_PEERS {
        if peers.len() >= most && !share.is_next() {
            return queue;
        }
        match listener.accept() {
            Ok((stream, _address)) => {
                let _ = stream.set_nodelay(true);
                take(making, now, registry, stream, service, peers);
            }
            Err(fault) => return Queue::without(&fault),
        }
        share.tell(peers.len());
        queue = Queue::Waits(now);
    }
    queue
}

/// Makes a peer of a socket. Where the worker has as many as it may, another is closed for it.
fn take<S: Recording, T: Socket + Drop>(
    making: Making<'_>,
    now: Instant,
    registry: &Registry,
    socket: T,
    service: &S,
    peers: &mut Slab<Peer<T>>,
)
    requires { PeersStand S.stands T.contents service.now peers.old }
    ensures { PeersStand S.stands T.contents service.now peers.new }
{
    make_room(making, registry, service, peers);
    let key = peers.vacant_key();
    if key >= MAX_PEERS {
        return;
    }
    let connection = Connection::new(making.alloc, making.keys, making.config);
    let mut peer = Peer {
        socket,
        connection,
        active: now,
        begun: None,
        dropping: None,
    };
    let is_registered = peer.socket.register(registry, key).is_ok();
    making.traffic.count_taken();
    welcome(service, peers, peer, is_registered);
}

/// Closes the connection that has had nothing to do for the longest time, where the worker has as many as it may.
fn make_room<S: Recording, T: Socket + Drop>(
    making: Making<'_>,
    registry: &Registry,
    service: &S,
    peers: &mut Slab<Peer<T>>,
)
    requires { PeersStand S.stands T.contents service.now peers.old }
    ensures { PeersStand S.stands T.contents service.now peers.new }
{
    if peers.len() < MAX_PEERS {
        return;
    }
    if let Some(key) = longest_idle(peers) {
        making.traffic.count_closing(Closing::Displaced);
        leave(registry, service, peers, key);
    }
}

/// The peer that has had nothing to do for the longest time.
fn longest_idle<T>(peers: &Slab<Peer<T>>) -> Option<usize> {
    let mut longest = None;
    for key in 0..MAX_PEERS {
        longest = longer_idle(longest, key, peers.get(key));
    }
    match longest {
        Some((key, _active)) => Some(key),
        None => None,
    }
}

/// The one of two that has had nothing to do for longer, by when each last had something to do.
fn longer_idle<T>(
    longest: Option<(usize, Instant)>,
    key: usize,
    peer: Option<&Peer<T>>,
) -> Option<(usize, Instant)> {
    let Some(peer) = peer else {
        return longest;
    };
    match longest {
        Some((_key, active)) if active <= peer.active => longest,
        Some(_) | None => Some((key, peer.active)),
    }
}

/// Keeps a peer that is registered. Where memory runs out it is closed.
fn welcome<S: Recording, T: Socket + Drop>(
    service: &S,
    peers: &mut Slab<Peer<T>>,
    peer: Peer<T>,
    is_registered: bool,
)
    requires stand { PeersStand S.stands T.contents service.now peers.old }
    requires own { PeerStands S.stands T.contents service.now peer }
    ensures { PeersStand S.stands T.contents service.now peers.new }
{
    // The contract alone names the service.
    let _ = service;
    if !is_registered {
        return;
    }
    let _ = peers.insert(peer);
}
