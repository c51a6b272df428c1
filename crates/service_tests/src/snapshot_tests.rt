//! Seats that read the current snapshot.
ghost use Rattle.std.specs.Prelude.{◌≡◌};

use flag_defs::read_flags;
use snap_share::{Current, History, Publisher, ReadSeat, ShareFault, ShareName, share};
use std::alloc::Global;
use std::marker::Brand;
use std::process::Abort;
use std::sync::Wait;

/// A document without flags.
const NONE: &[u8] = b"{\"flags\":{}}";

/// Shares no flags among so many seats, or gives the fault; none where there are no flags.
pub(crate) fn share_among<J: ShareName, R: Wait>(
    rt: &R,
    alloc: Global,
    history: History,
    seats: usize,
) -> Result<(Publisher<J>, Vec<ReadSeat<J>>), Option<ShareFault>>
    requires { history.seen.book ≡ J.book }
{
    match read_flags(alloc, NONE) {
        Ok(flags) => match share::<J, R>(rt, alloc, history, flags, seats) {
            Ok(shared) => Ok(shared),
            Err(fault) => Err(Some(fault)),
        },
        Err(_) => Err(None),
    }
}

/// Publishes no flags, and says whether they have this number.
pub(crate) fn publishes<J: ShareName, R: Wait>(
    rt: &R,
    alloc: Global,
    publisher: &mut Publisher<J>,
    number: u64,
) -> bool {
    match read_flags(alloc, NONE) {
        Ok(flags) => publisher.publish(rt, alloc, flags) == Ok(number),
        Err(_) => false,
    }
}

/// Whether each seat reads a snapshot of this number, or has this fault.
fn read<J: ShareName>(seats: &mut [ReadSeat<J>], want: Result<u64, ShareFault>) -> bool {
    for seat in seats.iter_mut() {
        let number = match seat.current() {
            Ok(snapshot) => Ok(snapshot.number()),
            Err(fault) => Err(fault),
        };
        if number != want {
            return false;
        }
    }
    true
}

/// Whether seats read what is published once they were told of it.
fn learn<J: ShareName, R: Wait>(
    rt: &R,
    alloc: Global,
    publisher: &mut Publisher<J>,
    seats: &mut [ReadSeat<J>],
) -> bool {
    if !read(seats, Ok(1)) || !publishes(rt, alloc, publisher, 2) {
        return false;
    }
    let told = publisher.tell();
    for seat in seats.iter_mut() {
        seat.learn(told.again());
    }
    told.number() == 2 && read(seats, Ok(2))
}

/// Whether this fault comes of sharing flags among so many seats: that of the refusal, or Closed where all seats read, learn,
/// and read no more once the publisher was given up.
fn comes_to<J: ShareName, R: Wait + Abort>(
    rt: &R,
    alloc: Global,
    history: History,
    seats: usize,
    want: ShareFault,
) -> bool
    requires { history.seen.book ≡ J.book }
{
    match share_among::<J, R>(rt, alloc, history, seats) {
        Ok((publisher, seats)) => {
            let mut publisher = publisher;
            let mut seats = seats;
            let has_learned = learn(rt, alloc, &mut publisher, &mut seats);
            publisher.close(rt);
            has_learned && read(&mut seats, Err(ShareFault::Closed)) && want == ShareFault::Closed
        }
        Err(fault) => fault == Some(want),
    }
}

/// The same under a name of its own.
fn is_shared<R: Wait + Abort>(rt: &R, alloc: Global, seats: usize, want: ShareFault) -> bool {
    comes_to::<Brand, R>(rt, alloc, History::new(), seats, want)
}

/// Numbers of seats, and what comes of them.
const SEATS: &[(usize, ShareFault)] = &[
    (2, ShareFault::Closed),
    (0, ShareFault::NoSeats),
    (65, ShareFault::TooManySeats),
    (1000, ShareFault::TooManySeats),
];

#[test]
fn seats_read_learn_and_are_closed(rt: HostRuntime) {
    for (seats, want) in SEATS {
        assert!(rt; is_shared(&rt, rt.alloc(), *seats, *want), "{seats} seats");
    }
}
