//! Seats in threads of their own.
ghost use Rattle.std.specs.Prelude.{◌≡◌};
ghost use denote.Param.Send.{IsSend, IsSync};

use super::snapshot_tests::{publishes, share_among};
use snap_share::{Current, History, Publisher, ReadSeat, ShareName};
use std::alloc::Global;
use std::marker::Brand;
use std::process::Abort;
use std::sync::Wait;
use std::sync::atomic::{AtomicU64, Ordering};
use std::thread;
use std::thread::Threads;

/// The last number that is published.
const LAST: u64 = 100;

#[test]
fn no_seat_goes_back(rt: HostRuntime) {
    let alloc = rt.alloc();
    assert!(rt; reads_of_eight::<Brand, _>(&rt, alloc, History::new()));
}

/// Whether of eight seats, which read in threads of their own while 100 numbers are published, none goes back, and each
/// sees the last one in the end.
fn reads_of_eight<J: ShareName + Send + Sync, R: Threads + Wait + Abort + Sync>(
    rt: &R,
    alloc: Global,
    history: History,
) -> bool
    requires { history.seen.book ≡ J.book }
{
    match share_among::<J, R>(rt, alloc, history, 8) {
        Ok((publisher, seats)) => {
            let mut publisher = publisher;
            let numbers = Numbers {
                rt,
                alloc,
                publisher: &mut publisher,
            };
            let good = read_beside(rt, seats, numbers);
            publisher.close(rt);
            good == Some(8)
        }
        Err(_) => false,
    }
}

/// What is done beside the threads.
trait Publishing {
    /// Publishes, and says whether all went well.
    fn publish(self) -> bool;
}

/// The numbers up to the last one.
#[derive(Drop)]
struct Numbers<'a, J: ShareName, R: Wait> {
    rt: &'a R,
    alloc: Global,
    publisher: &'a mut Publisher<J>,
}

impl<J: ShareName, R: Wait> Publishing for Numbers<'_, J, R> {
    fn publish(self) -> bool {
        for number in 2..=LAST {
            if !publishes(self.rt, self.alloc, self.publisher, number) {
                return false;
            }
        }
        true
    }
}

/// Publishes beside a thread for each seat, and counts the seats that went forward to the last number; None where not all
/// was published.
fn read_beside<J: ShareName + Send + Sync, R: Threads + Wait + Sync, P: Publishing + Drop>(
    rt: &R,
    seats: Vec<ReadSeat<J>>,
    publishing: P,
) -> Option<u64> {
    let good = AtomicU64::new(0);
    let shared = &good;
    let published = thread::scope(
        thread::scope_env(),
        rt,
        move |scope| -> bool
            requires { IsSend J.row × IsSync J.row }
        {
            for seat in seats {
                let _handle = scope.spawn(move || {
                    if goes_forward(seat) {
                        shared.fetch_add(1, Ordering::SeqCst);
                    }
                });
            }
            publishing.publish()
        },
    );
    if published {
        Some(good.load(Ordering::SeqCst))
    } else {
        None
    }
}

/// Reads until the last number has come, and says whether no number was below the one before.
fn goes_forward<J: ShareName>(seat: ReadSeat<J>) -> bool {
    let mut seat = seat;
    let mut last = 0;
    for _turn in 0..100_000_000 {
        let Ok(snapshot) = seat.current() else {
            return false;
        };
        let number = snapshot.number();
        if number < last {
            return false;
        }
        last = number;
        if last == LAST {
            return true;
        }
    }
    false
}
