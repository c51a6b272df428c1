//! Sharing flags.
ghost use Rattle.std.specs.Prelude.{◌≡◌, ◌≢◌, ◌<◌, ◌≤◌, ◌↔◌, ◌∷◌, [], true, All, vec_len, Err, IfErr, IfOk};
ghost use Rattle.snap_share.specs.Fault.{is_of_share};

use crate::cell::StampWriter;
use crate::fault::ShareFault;
use crate::front::HistoryPrefix;
use crate::history::{History, ShareName};
use crate::publisher::Publisher;
use crate::seat::ReadSeat;
use crate::stamp::Stamp;
use flag_defs::Flags;
use left_right::writer::Writer;
use limits::SEATS;
use snap_core::Snapshot;
use std::alloc::Global;
use std::sync::{Arc, Wait};
use sync_frames::FramedSnapshot;

/// Shares flags with number 1: a publisher, and so many seats that know them. Without seats it is refused with NoSeats, with
/// more than 64 with TooManySeats, then with NoReader where the copies gave no place for a reader. The condition is that
/// the name is the history's. It waits only to use the copies up where it refuses after making them.
pub fn share<J: ShareName, R: Wait>(
    rt: &R,
    alloc: Global,
    history: History,
    flags: Flags,
    seats: usize,
) -> Result<(Publisher<J>, Vec<ReadSeat<J>>), ShareFault>
    requires { history.seen.book ≡ J.book }
    ensures none { (result ≡ Err ShareFault.NoSeats) ↔ (seats ≡ 0) }
    ensures many { (result ≡ Err ShareFault.TooManySeats) ↔ (64 < seats) }
    ensures faults { IfErr result (λ fault. is_of_share fault ≡ true) }
    ensures published { IfOk result (λ r. r.0 ≡ flags ∷ []) }
    ensures seats { IfOk result (λ r. (vec_len r.1 ≡ seats) × All (λ seat. seat.known ≡ flags ∷ []) r.1.items) }
{
    if seats == 0 {
        return Err(ShareFault::NoSeats);
    }
    if seats > SEATS {
        return Err(ShareFault::TooManySeats);
    }
    share_among(rt, alloc, history, flags, seats)
}

/// Shares flags among a right number of seats.
#[tactic(auto, using(crate::proofs::Numbers::first_snapshot))]
fn share_among<J: ShareName, R: Wait>(
    rt: &R,
    alloc: Global,
    history: History,
    flags: Flags,
    seats: usize,
) -> Result<(Publisher<J>, Vec<ReadSeat<J>>), ShareFault>
    requires name { history.seen.book ≡ J.book }
    requires count { (0 < seats) × (seats ≤ 64) }
    ensures other { IfErr result (λ fault. (fault ≢ ShareFault.NoSeats) × (fault ≢ ShareFault.TooManySeats)) }
    ensures faults { IfErr result (λ fault. is_of_share fault ≡ true) }
    ensures published { IfOk result (λ r. r.0 ≡ flags ∷ []) }
    ensures seats { IfOk result (λ r. (vec_len r.1 ≡ seats) × All (λ seat. seat.known ≡ flags ∷ []) r.1.items) }
{
    let framed = FramedSnapshot::make(alloc, Snapshot { number: 1, flags })?;
    let first = Arc::new(alloc, framed)?;
    let second = Arc::try_clone(&first)?;
    let (head, mut front) = history.named::<J>();
    if !front.add(&head, first.flags()) {
        return Err(ShareFault::NoReader);
    }
    let first = Stamp::of(first, front.again());
    let second = Stamp::of(second, front.again());
    let writer: StampWriter<J> = Writer::new(alloc, first, second, seats)?;
    match seated(alloc, &writer, &front, seats) {
        Ok(all) => Ok((Publisher::of(writer, head), all)),
        Err(fault) => {
            writer.take(rt);
            Err(fault)
        }
    }
}

/// So many seats that know this much.
fn seated<J: ShareName>(
    alloc: Global,
    writer: &StampWriter<J>,
    known: &HistoryPrefix<J>,
    seats: usize,
) -> Result<Vec<ReadSeat<J>>, ShareFault>
    ensures other { IfErr result (λ fault. (fault ≢ ShareFault.NoSeats) × (fault ≢ ShareFault.TooManySeats)) }
    ensures faults { IfErr result (λ fault. is_of_share fault ≡ true) }
    ensures seats { IfOk result (λ all. (vec_len all ≡ seats) × All (λ seat. seat.known ≡ known.now) all.items) }
{
    let mut all = Vec::with_capacity(alloc, seats)?;
    for _seat in 0..seats {
        let Ok(reader) = writer.factory().reader() else {
            return Err(ShareFault::NoReader);
        };
        all.push(ReadSeat::of(reader, known.again()))?;
    }
    Ok(all)
}
