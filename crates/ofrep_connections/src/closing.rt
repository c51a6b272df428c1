//! How connections end.
ghost use Rattle.ofrep_connections.specs.Stand.{PeersStand};

use crate::admission::MAX_PEERS;
use crate::moment::Moment;
use crate::patience::Patience;
use crate::peer::{LATE_STATUS, Peer, Stay};
use crate::refusals::{refusal_in, status_of};
use crate::socket::Socket;
use crate::waiting::is_over;
use crate::work::Making;
use http_server::Refusal;
use httpdate::HttpDate;
use mio::Registry;
use service_layers::{Closing, Recording};
use slab::Slab;
use std::alloc::Global;
use std::time::Instant;

/// Once a request was refused, its client has so many seconds to read the refusal.
const DROPPING_SECONDS: u64 = 2;

/// What becomes of a connection where nothing comes from its client.
#[derive(Clone, Copy)]
enum Expiry {
    /// It is kept.
    Kept,
    /// Its client had the time to read a refusal.
    Dropped,
    /// It had nothing to do for too long.
    Idle,
    /// A request is not whole after too long.
    Late,
}

/// Closes the connections that have had nothing to do for long, and those whose requests are late.
pub(crate) fn leave_due<S: Recording, T: Socket + Drop>(
    making: Making<'_>,
    now: Moment,
    registry: &Registry,
    service: &S,
    peers: &mut Slab<Peer<T>>,
)
    requires { PeersStand S.stands T.contents service.now peers.old }
    ensures { PeersStand S.stands T.contents service.now peers.new }
{
    for key in 0..MAX_PEERS {
        leave_if_due(making, now, registry, service, peers, key);
    }
}

/// Closes the connection of a peer where that is due.
fn leave_if_due<S: Recording, T: Socket + Drop>(
    making: Making<'_>,
    now: Moment,
    registry: &Registry,
    service: &S,
    peers: &mut Slab<Peer<T>>,
    key: usize,
)
    requires { PeersStand S.stands T.contents service.now peers.old }
    ensures { PeersStand S.stands T.contents service.now peers.new }
{
    match expiry_of(peers.get(key), now.instant, making.patience) {
        Expiry::Kept => {}
        Expiry::Dropped => leave(registry, service, peers, key),
        Expiry::Idle => {
            making.traffic.count_closing(Closing::Idle);
            leave(registry, service, peers, key);
        }
        Expiry::Late => {
            making.traffic.count_closing(Closing::Late);
            making.traffic.count_status(LATE_STATUS);
            leave_late(making.alloc, now.date(), registry, service, peers, key);
        }
    }
}

/// What has become of a peer.
fn expiry_of<T>(peer: Option<&Peer<T>>, now: Instant, patience: Patience) -> Expiry {
    let Some(peer) = peer else {
        return Expiry::Kept;
    };
    let idle = now.duration_since(peer.active).as_secs();
    if peer.dropping.is_some() {
        return if idle >= DROPPING_SECONDS {
            Expiry::Dropped
        } else {
            Expiry::Kept
        };
    }
    if is_late(peer.begun, now, patience) {
        return Expiry::Late;
    }
    if idle >= patience.idle_seconds {
        Expiry::Idle
    } else {
        Expiry::Kept
    }
}

/// Whether a request that began then is late.
fn is_late(begun: Option<Instant>, now: Instant, patience: Patience) -> bool {
    match begun {
        Some(begun) => now.duration_since(begun).as_secs() >= patience.request_seconds,
        None => false,
    }
}

/// Closes the connections that have nothing under way.
pub(crate) fn leave_free<S: Recording, T: Socket + Drop>(
    registry: &Registry,
    service: &S,
    peers: &mut Slab<Peer<T>>,
)
    requires { PeersStand S.stands T.contents service.now peers.old }
    ensures { PeersStand S.stands T.contents service.now peers.new }
{
    for key in 0..MAX_PEERS {
        leave_if_free(registry, service, peers, key);
    }
}

/// Closes the connection of a peer that has nothing under way.
fn leave_if_free<S: Recording, T: Socket + Drop>(
    registry: &Registry,
    service: &S,
    peers: &mut Slab<Peer<T>>,
    key: usize,
)
    requires { PeersStand S.stands T.contents service.now peers.old }
    ensures { PeersStand S.stands T.contents service.now peers.new }
{
    if !is_occupied(peers.get(key)) {
        leave(registry, service, peers, key);
    }
}

fn is_occupied<T: Socket>(peer: Option<&Peer<T>>) -> bool {
    match peer {
        Some(peer) => peer.is_occupied(),
        None => true,
    }
}

/// Whether what comes from a peer is dropped.
pub(crate) fn is_dropping<T>(peer: Option<&Peer<T>>) -> bool {
    match peer {
        Some(peer) => peer.dropping.is_some(),
        None => false,
    }
}

/// Closes the connection of a peer.
pub(crate) fn leave<S: Recording, T: Socket + Drop>(
    registry: &Registry,
    service: &S,
    peers: &mut Slab<Peer<T>>,
    key: usize,
)
    requires { PeersStand S.stands T.contents service.now peers.old }
    ensures { PeersStand S.stands T.contents service.now peers.new }
{
    // The contract alone names the service.
    let _ = service;
    if let Some(mut peer) = peers.try_remove(key) {
        let _ = peer.socket.deregister(registry);
    }
}

/// Tells a peer that its request did not come whole in time, and closes its connection.
fn leave_late<S: Recording, T: Socket + Drop>(
    alloc: Global,
    date: HttpDate,
    registry: &Registry,
    service: &S,
    peers: &mut Slab<Peer<T>>,
    key: usize,
)
    requires { PeersStand S.stands T.contents service.now peers.old }
    ensures { PeersStand S.stands T.contents service.now peers.new }
{
    // The contract alone names the service.
    let _ = service;
    if let Some(mut peer) = peers.try_remove(key) {
        let _ = peer.give_late(alloc, date);
        let _ = peer.socket.deregister(registry);
    }
}

/// Closes the connection of a peer that has left; where it is the service that refused a request, the client has a moment to read the
/// refusal.
pub(crate) fn part<S: Recording, T: Socket + Drop>(
    making: Making<'_>,
    now: Moment,
    registry: &Registry,
    service: &S,
    peers: &mut Slab<Peer<T>>,
    key: usize,
)
    requires { PeersStand S.stands T.contents service.now peers.old }
    ensures { PeersStand S.stands T.contents service.now peers.new }
{
    match refusal_of(peers.get(key)) {
        Some(why) => refuse(making, now, registry, service, peers, key, why),
        None => leave(registry, service, peers, key),
    }
}

/// Why a peer that has no more answers to send has refused a request, where it has.
fn refusal_of<T>(peer: Option<&Peer<T>>) -> Option<Refusal> {
    let peer = peer?;
    if is_over(&peer.connection) {
        refusal_in(peer.connection.state())
    } else {
        None
    }
}

/// Tells a peer that its request is refused, counts that, and begins to drop what still comes.
fn refuse<S: Recording, T: Socket>(
    making: Making<'_>,
    now: Moment,
    registry: &Registry,
    service: &S,
    peers: &mut Slab<Peer<T>>,
    key: usize,
    why: Refusal,
)
    requires { PeersStand S.stands T.contents service.now peers.old }
    ensures { PeersStand S.stands T.contents service.now peers.new }
{
    // The contract alone names the service.
    let _ = service;
    if let Some(peer) = peers.get_mut(key) {
        let stay = peer.refuse(making.alloc, now.date());
        count_refusal(making, stay, why);
        peer.come_again(registry, key, stay);
    }
}

/// Counts a refusal, unless the peer waits to be told of it.
fn count_refusal(making: Making<'_>, stay: Stay, why: Refusal) {
    if stay == Stay::Yields {
        making.traffic.count_status(status_of(why));
    }
}

/// Drops what has come from a peer, and closes its connection where nothing more comes.
pub(crate) fn drop_input<S: Recording, T: Socket + Drop>(
    registry: &Registry,
    service: &S,
    peers: &mut Slab<Peer<T>>,
    key: usize,
)
    requires { PeersStand S.stands T.contents service.now peers.old }
    ensures { PeersStand S.stands T.contents service.now peers.new }
{
    if drop_some(registry, service, peers, key) == Stay::Leaves {
        leave(registry, service, peers, key);
    }
}

/// Drops what has come from a peer, and says whether it stays.
fn drop_some<S: Recording, T: Socket>(
    registry: &Registry,
    service: &S,
    peers: &mut Slab<Peer<T>>,
    key: usize,
) -> Stay
    requires { PeersStand S.stands T.contents service.now peers.old }
    ensures { PeersStand S.stands T.contents service.now peers.new }
{
    // The contract alone names the service.
    let _ = service;
    let Some(peer) = peers.get_mut(key) else {
        return Stay::Waits;
    };
    let stay = peer.drop_input();
    peer.come_again(registry, key, stay);
    stay
}
