//! The threads that serve the stream.
ghost use denote.Param.Send.{IsSend, IsSync};
ghost use Rattle.std.specs.Prelude.{◌≡◌, IfOk, vec_len};

use crate::board::Board;
use crate::subscriber::attend;
use snap_share::{ReadSeat, ShareName};
use std::alloc::Global;
use std::net::{Net, SocketAddr, TcpListener, TcpStream};
use std::sync::Wait;
use std::thread::Threads;
use std::time::{Clock, Duration};
use std::{io, thread};

/// The milliseconds between two looks for a subscriber.
const PAUSE_MILLIS: u64 = 100;

/// Listens on a port of this host, once for each seat of the stream.
pub fn bind_stream<R: Net<Listener = TcpListener, Stream = TcpStream>>(
    rt: &R,
    alloc: Global,
    port: u16,
    seats: usize,
) -> io::Result<Vec<TcpListener>>
    ensures { IfOk result (λ listeners. vec_len listeners ≡ seats) }
{
    let listener = TcpListener::bind(rt, SocketAddr::from(([127, 0, 0, 1], port)))?;
    listener.set_nonblocking(true)?;
    let mut listeners = Vec::with_capacity(alloc, seats)?;
    for _seat in 0..seats {
        let listener = listener.try_clone()?;
        listeners.push(listener)?;
    }
    Ok(listeners)
}

/// Serves the stream on a thread for each listener, with the seat of the same place, and does `beside` meanwhile on its own.
/// The threads end once that has ended. Where a thread can't be made it answers None, and `beside` is not done.
pub(crate) fn stream_beside<J, R, B, T>(
    rt: &R,
    board: &Board,
    seats: Vec<ReadSeat<J>>,
    listeners: Vec<TcpListener>,
    beside: B,
) -> Option<T>
where
    J: ShareName + Send + Sync,
    R: Clock + Threads + Wait + Sync,
    B: FnOnce() -> Option<T> + Drop,
    requires { B.pre beside }
{
    thread::scope(
        thread::scope_env(),
        rt,
        move |scope| -> Option<T>
            requires { IsSend J.row × IsSync J.row × IsSync R.row × B.pre beside }
        {
            for (seat, listener) in seats.into_iter().zip(listeners) {
                let spawned = scope.spawn(move || serve_each(rt, board, seat, listener));
                if spawned.is_err() {
                    board.end();
                    return None;
                }
            }
            let done = beside();
            board.end();
            done
        },
    )
}

/// Serves one subscriber of a listener, which must not block, after the other, until all threads are to end.
fn serve_each<J: ShareName, R: Clock>(
    rt: &R,
    board: &Board,
    seat: ReadSeat<J>,
    listener: TcpListener,
) {
    let mut seat = seat;
    for _look in 0..u64::MAX {
        if board.is_over() {
            return;
        }
        match listener.accept() {
            Ok((stream, _address)) => attend(board, &mut seat, &stream),
            Err(_) => thread::sleep(rt, Duration::from_millis(PAUSE_MILLIS)),
        }
    }
}
