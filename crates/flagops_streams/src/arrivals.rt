//! Waiting for the subscribers.
ghost use Rattle.std.specs.Prelude.{◌≡◌, ◌+◌, ◌<◌, ◌≤◌, ◌^◌, ℕ, false, vec_len, IfErr, IfOk};
ghost use Rattle.flagops_streams.specs.Documents.{MayFail};
ghost use Rattle.flagops_streams.specs.Told.{TellsArrivals};

use crate::refusal::Refusal;
use crate::remark::{say_came, say_listening};
use flag_text::Outlet;
use std::alloc::Global;
use std::io::ErrorKind;
use std::net::{Net, SocketAddr, TcpListener, TcpStream};
use std::time::{Clock, Duration};
use std::{io, thread};

/// The milliseconds between two looks for one that has come.
const PAUSE: u64 = 10;

/// The subscribers that have come, by their connections in the order in which they came, how many have not come in time,
/// and the seconds in which each is to be served, 0 for ever. Where none has come, none was waited for.
#[derive(Drop)]
pub(crate) struct Arrived {
    pub(crate) streams: Vec<TcpStream>,
    pub(crate) absent: usize,
    pub(crate) wait: u64,
    pub(crate) ghost fits: { vec_len streams + absent < 2 ^ 64 },
    pub(crate) ghost some: { vec_len streams ≡ 0 → absent ≡ 0 },
}

/// Waits for so many subscribers on a port of this host, for so many seconds at most, 0 for ever. It is refused with Unbound
/// where the port can't be listened on, and with NoConnection where a connection failed or none has come in time.
pub(crate) fn arrivals<R, E>(
    rt: &R,
    alloc: Global,
    port: u16,
    subscribers: usize,
    wait: u64,
    err: &mut E,
) -> Result<Arrived, Refusal>
where
    R: Net<Listener = TcpListener, Stream = TcpStream> + Clock,
    E: Outlet,
    ensures came { IfOk result (λ arrived. vec_len arrived.streams + arrived.absent ≡ subscribers) }
    ensures refused { IfErr result (λ refusal. MayFail subscribers refusal) }
    ensures told { IfOk result (λ arrived. TellsArrivals port subscribers (vec_len arrived.streams) (E.bytes err.old) (E.bytes err.new) (E.is_broken err.new)) }
    ensures some { IfErr result (λ _. (came : ℕ) × (came ≤ subscribers) × TellsArrivals port subscribers came (E.bytes err.old) (E.bytes err.new) (E.is_broken err.new)) }
    ensures stays { E.is_broken err.new ≡ false → E.is_broken err.old ≡ false }
{
    let streams = match connections(rt, alloc, port, subscribers, wait, err) {
        Ok(streams) => streams,
        Err(refusal) => return Err(refusal),
    };
    let came = streams.len();
    let absent = subscribers - came;
    if came == 0 && absent > 0 {
        return Err(Refusal::NoConnection);
    }
    Ok(Arrived {
        streams,
        absent,
        wait,
    })
}

/// The connections of so many subscribers, or of those that have come in time, in the order in which they came.
fn connections<R, E>(
    rt: &R,
    alloc: Global,
    port: u16,
    subscribers: usize,
    wait: u64,
    err: &mut E,
) -> Result<Vec<TcpStream>, Refusal>
where
    R: Net<Listener = TcpListener, Stream = TcpStream> + Clock,
    E: Outlet,
    ensures few { IfOk result (λ streams. vec_len streams ≤ subscribers) }
    ensures refused { IfErr result (λ refusal. MayFail subscribers refusal) }
    ensures told { IfOk result (λ streams. TellsArrivals port subscribers (vec_len streams) (E.bytes err.old) (E.bytes err.new) (E.is_broken err.new)) }
    ensures some { IfErr result (λ _. (came : ℕ) × (came ≤ subscribers) × TellsArrivals port subscribers came (E.bytes err.old) (E.bytes err.new) (E.is_broken err.new)) }
    ensures stays { E.is_broken err.new ≡ false → E.is_broken err.old ≡ false }
{
    let address = SocketAddr::from(([127, 0, 0, 1], port));
    let Ok(listener) = TcpListener::bind(rt, address) else {
        return Err(Refusal::Unbound);
    };
    let Ok(end) = end_of(rt, &listener, wait) else {
        return Err(Refusal::Unbound);
    };
    say_listening(alloc, err, port, subscribers);
    let mut streams = Vec::with_capacity(alloc, subscribers)?;
    for place in 0..subscribers {
        let Ok(next) = accept_until(rt, &listener, end) else {
            return Err(Refusal::NoConnection);
        };
        let Some(stream) = next else {
            return Ok(streams);
        };
        streams.push(stream)?;
        say_came(alloc, err, place + 1, subscribers);
    }
    Ok(streams)
}

/// When the time to come is over, by the monotonic clock, where it ever is. Then accepting does not wait.
fn end_of<R: Clock>(rt: &R, listener: &TcpListener, wait: u64) -> io::Result<Option<Duration>> {
    if wait == 0 {
        return Ok(None);
    }
    listener.set_nonblocking(true)?;
    let now = rt.monotonic()?;
    Ok(Some(now.saturating_add(Duration::from_secs(wait))))
}

/// The next connection; none where no more came in time.
fn accept_until<R: Clock>(
    rt: &R,
    listener: &TcpListener,
    end: Option<Duration>,
) -> io::Result<Option<TcpStream>> {
    for _turn in 0..u64::MAX {
        match listener.accept() {
            Ok((stream, _address)) => return Ok(Some(stream)),
            Err(fault) => match fault.kind() {
                ErrorKind::Interrupted => {}
                ErrorKind::WouldBlock => {
                    if is_over(rt, end)? {
                        return Ok(None);
                    }
                    thread::sleep(rt, Duration::from_millis(PAUSE));
                }
                _ => return Err(fault),
            },
        }
    }
    Ok(None)
}

/// Whether the time is over.
fn is_over<R: Clock>(rt: &R, end: Option<Duration>) -> io::Result<bool> {
    match end {
        Some(end) => Ok(rt.monotonic()? >= end),
        None => Ok(false),
    }
}
