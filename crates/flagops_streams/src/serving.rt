//! The command `serve`: documents published to subscribers.
ghost use Rattle.std.specs.Prelude.{◌≡◌, ◌⊎◌, ◌+◌, ◌-◌, ◌^◌, ◌<◌, ◌≤◌, ◌∷◌, [], List, Option, Err, false, if◌then◌else◌, is_ok, length, map, vec_len, IfOk};
ghost use denote.Param.Send.{IsSend, IsSync};
ghost use Rattle.flag_defs.specs.Flags.{flags_view};
ghost use Rattle.flag_defs.specs.Floats.{MeansAs};
ghost use Rattle.source_merge.specs.View.{sources_view};
ghost use Rattle.flagops_streams.specs.Documents.{Answer, Counts, Gives, GivesSome, IsRefusedAt, ServesAll, ServesTo, count_of, documents_in, is_served, less_missed, missed_of, published_in, texts_of, told_view};
ghost use Rattle.flagops_streams.specs.Report.{Reports, Serves};
ghost use Rattle.flagops_streams.specs.Told.{MayForewarnAt, MayForewarnEach, TellsDepartures, TellsEnds, TellsGone, TellsOfSubscribers, TellsServing};

use crate::arrivals::{Arrived, arrivals};
use crate::board::Board;
use crate::disconnected::Disconnected;
use crate::documents::{Documents, merge_next};
use crate::refusal::Refusal;
use crate::remark::{path_at, say_forewarning, say_gone};
use crate::report::report_answer;
use crate::subscriber::attend;
use core::mem::replace_with;
use flag_defs::{DefFault, Flags, read_flags_as};
use flag_text::Outlet;
use snap_share::{History, Publisher, ReadSeat, ShareName, Told, share};
use source_merge::Sources;
use std::alloc::Global;
use std::marker::Brand;
use std::net::{Net, TcpListener, TcpStream};
use std::sync::Wait;
use std::thread;
use std::thread::Threads;
use std::time::Clock;
use sync_server::StreamEnd;

/// Publishes documents to so many subscribers, which it first waits for on a port of this host, and writes what came of it.
/// `wait` seconds are given to the subscribers to come, and to each to be served; 0 is for ever.
/// `floats` says whether the documents may have floats. `paths` are those of their files, by which a person is told of one that
/// is refused. The conditions are an output that is not broken and one document at least.
pub fn serve_documents<R, O, E>(
    rt: &R,
    port: u16,
    subscribers: usize,
    wait: u64,
    floats: bool,
    documents: Documents,
    paths: &[&str],
    out: &mut O,
    err: &mut E,
) -> u8
where
    R: AllocGlobal
        + Net<Listener = TcpListener, Stream = TcpStream>
        + Clock
        + Threads
        + Wait
        + Sync,
    O: Outlet,
    E: Outlet + Drop,
    requires whole { O.is_broken out.old ≡ false }
    requires some { 0 < documents_in documents }
    ensures serves { Serves (map (λ path. path.now) paths.now) (TellsServing (map (λ path. path.now) paths.now) (IsRefusedAt floats (texts_of documents.texts.items)) (documents_in documents) port subscribers) (documents_in documents) (O.bytes out.old) (O.bytes out.new) (O.is_broken out.new) (E.bytes err.old) (E.bytes err.new) (E.is_broken err.new) result }
    ensures documents { (answer : Answer) × ServesAll floats subscribers documents answer × Reports (map (λ path. path.now) paths.now) (TellsServing (map (λ path. path.now) paths.now) (IsRefusedAt floats (texts_of documents.texts.items)) (documents_in documents) port subscribers) (count_of answer) (O.bytes out.old) (O.bytes out.new) (O.is_broken out.new) (E.bytes err.old) (E.bytes err.new) (E.is_broken err.new) result }
{
    let alloc = rt.alloc();
    let Documents { sources, texts } = documents;
    let texts = texts.as_slice();
    forewarn(alloc, paths, floats, texts, err);
    let answer = publish_in_turn(rt, port, subscribers, wait, floats, sources, texts, err);
    report_answer(alloc, out, err, paths, texts, answer)
}

/// Tells of each document behind the first that will be refused once its turn comes, and why.
fn forewarn<E: Outlet>(alloc: Global, paths: &[&str], floats: bool, texts: &[Vec<u8>], err: &mut E)
    ensures told { MayForewarnEach (map (λ path. path.now) paths.now) (IsRefusedAt floats (texts_of texts.now)) (length texts.now - 1) (E.bytes err.old) (E.bytes err.new) (E.is_broken err.new) }
    ensures stays { E.is_broken err.new ≡ false → E.is_broken err.old ≡ false }
{
    for behind in 0..texts.len().saturating_sub(1) {
        let place = behind as u64 + 2;
        forewarn_of(
            alloc,
            paths,
            place,
            floats,
            texts[behind + 1].as_slice(),
            err,
        );
    }
}

/// The same of one document, by its place, from 1.
fn forewarn_of<E: Outlet>(
    alloc: Global,
    paths: &[&str],
    place: u64,
    floats: bool,
    text: &[u8],
    err: &mut E,
)
    ensures told { MayForewarnAt (map (λ path. path.now) paths.now) (λ _. (fault : DefFault) × MeansAs floats text.now (Err fault)) place (E.bytes err.old) (E.bytes err.new) (E.is_broken err.new) }
    ensures stays { E.is_broken err.new ≡ false → E.is_broken err.old ≡ false }
{
    let Some(path) = path_at(paths, place) else {
        return;
    };
    let Err(fault) = read_flags_as(alloc, text, floats) else {
        return;
    };
    match fault {
        DefFault::WantOfMemory => {}
        _ => say_forewarning(alloc, err, path, place, text, fault),
    }
}

/// Publishes documents, of which there is one at least, one after the other, to so many subscribers, which it first waits for
/// on a port of this host. It answers how many were published. `sources` has a source without a document for each of them,
/// named by its place from 1. The refusals are that of the first document, before anybody is waited for, then those of the network
/// (`Unbound`, `NoConnection`), of the next document that is not accepted (`Set`, with its place) or whose merge with those before
/// it is too large (`Merged`), of the seats
/// (`Share`: no subscribers, or more than 64), and of the threads (`NoThread`). What was published before a document that is
/// refused stays with the subscribers. Those who have not come in time are counted as not served (`Unserved`).
fn publish_in_turn<R, E>(
    rt: &R,
    port: u16,
    subscribers: usize,
    wait: u64,
    floats: bool,
    sources: Sources,
    texts: &[Vec<u8>],
    err: &mut E,
) -> Result<u64, Refusal>
where
    R: AllocGlobal
        + Net<Listener = TcpListener, Stream = TcpStream>
        + Clock
        + Threads
        + Wait
        + Sync,
    E: Outlet + Drop,
    requires { 0 < length texts.now }
    ensures serves { Counts (ServesTo floats subscribers (sources_view sources) (texts_of texts.now) []) result }
    ensures told { TellsOfSubscribers port subscribers (is_ok result) (E.bytes err.old) (E.bytes err.new) (E.is_broken err.new) }
    ensures stays { E.is_broken err.new ≡ false → E.is_broken err.old ≡ false }
{
    let alloc = rt.alloc();
    let [first, others @ ..] = texts else {
        unreachable!()
    };
    let mut sources = sources;
    let flags = merge_next(alloc, &mut sources, 1, first.as_slice(), floats)?;
    let arrived = arrivals(rt, alloc, port, subscribers, wait, err)?;
    let history = History::new();
    publish_to::<Brand, R, E>(
        rt, alloc, history, flags, floats, sources, others, arrived, err,
    )
}

/// Shares flags, and publishes the other documents to a thread for each connection. It answers how many were published with
/// the flags. All threads have ended when it answers.
fn publish_to<J: ShareName + Send + Sync, R: Clock + Threads + Wait + Sync, E: Outlet + Drop>(
    rt: &R,
    alloc: Global,
    history: History,
    flags: Flags,
    floats: bool,
    sources: Sources,
    texts: &[Vec<u8>],
    arrived: Arrived,
    err: &mut E,
) -> Result<u64, Refusal>
    requires { history.seen.book ≡ J.book }
    ensures serves { Counts (ServesTo floats (vec_len arrived.streams + arrived.absent) (sources_view sources) (texts_of texts.now) (flags_view flags ∷ [])) result }
    ensures told { TellsDepartures (is_ok result) (vec_len arrived.streams) arrived.absent (E.bytes err.old) (E.bytes err.new) (E.is_broken err.new) }
    ensures stays { E.is_broken err.new ≡ false → E.is_broken err.old ≡ false }
{
    let (mut publisher, seats) = match share::<J, R>(
        rt,
        alloc,
        history,
        flags,
        arrived.streams.len(),
    ) {
        Ok(shared) => shared,
        Err(fault) => return Err(Refusal::Share(fault)),
    };
    let outcome = publish_shared(
        rt,
        alloc,
        &mut publisher,
        seats,
        floats,
        sources,
        texts,
        arrived,
        err,
    );
    publisher.close(rt);
    match outcome {
        Ok(told) => Ok(told.number()),
        Err(refusal) => Err(refusal),
    }
}

/// Publishes the documents behind the first, which was shared, to a thread for each connection, and answers all that were
/// published.
fn publish_shared<J: ShareName + Send + Sync, R: Clock + Threads + Wait + Sync, E: Outlet + Drop>(
    rt: &R,
    alloc: Global,
    publisher: &mut Publisher<J>,
    seats: Vec<ReadSeat<J>>,
    floats: bool,
    sources: Sources,
    texts: &[Vec<u8>],
    arrived: Arrived,
    err: &mut E,
) -> Result<Told<J>, Refusal>
    requires { length publisher.old ≡ 1 }
    ensures serves { ServesTo floats (vec_len arrived.streams + arrived.absent) (sources_view sources) (texts_of texts.now) (map flags_view publisher.old) (told_view result) }
    ensures told { TellsDepartures (is_ok result) (vec_len arrived.streams) arrived.absent (E.bytes err.old) (E.bytes err.new) (E.is_broken err.new) }
    ensures stays { E.is_broken err.new ≡ false → E.is_broken err.old ≡ false }
{
    let told = publisher.tell();
    let board = Board::new(alloc, told, arrived.streams.len(), arrived.wait)?;
    let others = Others {
        rt,
        alloc,
        board: &board,
        publisher,
        floats,
        sources,
        texts,
    };
    serve_beside(rt, alloc, &board, seats, arrived, others, err)
}

/// What is done beside the threads of the subscribers.
trait Publishing<J: ShareName> {
    ghost use Rattle.flagops_streams.specs.Documents.{Answer, told_view};

    // What it may answer.
    ghost gives: { Self → Answer → Type 0 };

    /// Publishes, and answers all that were published.
    fn publish(self) -> Result<Told<J>, Refusal>
        ensures { gives self (told_view result) };
}

/// The documents but the first, which was shared, with all that it takes to publish them.
#[derive(Drop)]
struct Others<'a, J: ShareName, R: Wait> {
    rt: &'a R,
    alloc: Global,
    board: &'a Board<J>,
    publisher: &'a mut Publisher<J>,
    floats: bool,
    sources: Sources,
    texts: &'a [Vec<u8>],
    ghost shared: { length publisher.now ≡ 1 },
}

impl<J: ShareName, R: Wait> Publishing<J> for Others<'_, J, R> {
    ghost use Rattle.std.specs.Prelude.{map};
    ghost use Rattle.flag_defs.specs.Flags.{flags_view};
    ghost use Rattle.source_merge.specs.View.{sources_view};
    ghost use Rattle.flagops_streams.specs.Documents.{Gives, texts_of};

    ghost gives = { λ o answer. Gives o.floats (sources_view o.sources) (texts_of o.texts.now) (map flags_view o.publisher.now) answer };

    fn publish(self) -> Result<Told<J>, Refusal> {
        let Others {
            rt,
            alloc,
            board,
            publisher,
            floats,
            sources,
            texts,
        } = self;
        publish_others(rt, alloc, board, publisher, floats, sources, texts)
    }
}

/// Publishes the documents behind the first, which was shared, each merged over those before it, and answers all that were
/// published.
fn publish_others<J: ShareName, R: Wait>(
    rt: &R,
    alloc: Global,
    board: &Board<J>,
    publisher: &mut Publisher<J>,
    floats: bool,
    sources: Sources,
    texts: &[Vec<u8>],
) -> Result<Told<J>, Refusal>
    requires { length publisher.old ≡ 1 }
    ensures gives { Gives floats (sources_view sources) (texts_of texts.now) (map flags_view publisher.old) (told_view result) }
    ensures published { IfOk result (λ told. told ≡ publisher.new) }
{
    let mut sources = sources;
    let mut number = 1;
    for text in texts {
        let flags = merge_next(alloc, &mut sources, number + 1, text.as_slice(), floats)?;
        number = match publisher.publish(rt, alloc, flags) {
            Ok(number) => number,
            Err(fault) => return Err(Refusal::Publish(fault)),
        };
        board.publish(rt, publisher.tell());
    }
    Ok(publisher.tell())
}

/// Publishes beside a thread for each connection, and tells a person of each that has ended. All have ended when it answers.
fn serve_beside<
    J: ShareName + Send + Sync,
    R: Clock + Threads + Wait + Sync,
    P: Publishing<J> + Drop,
    E: Outlet + Drop,
>(
    rt: &R,
    alloc: Global,
    board: &Board<J>,
    seats: Vec<ReadSeat<J>>,
    arrived: Arrived,
    publishing: P,
    err: &mut E,
) -> Result<Told<J>, Refusal>
    ensures gives { (result ≡ Err Refusal.NoThread) ⊎ GivesSome (vec_len arrived.streams + arrived.absent) (P.gives publishing) (told_view result) }
    ensures told { TellsDepartures (is_ok result) (vec_len arrived.streams) arrived.absent (E.bytes err.old) (E.bytes err.new) (E.is_broken err.new) }
    ensures stays { E.is_broken err.new ≡ false → E.is_broken err.old ≡ false }
{
    replace_with(
        err,
        publishing,
        |err: E, publishing: P| -> (E, Result<Told<J>, Refusal>)
            requires { IsSend J.row × IsSync J.row × IsSync R.row }
            ensures gives { (result.1 ≡ Err Refusal.NoThread) ⊎ GivesSome (vec_len arrived.streams + arrived.absent) (P.gives publishing) (told_view result.1) }
            ensures told { TellsDepartures (is_ok result.1) (vec_len arrived.streams) arrived.absent (E.bytes err) (E.bytes result.0) (E.is_broken result.0) }
            ensures stays { E.is_broken result.0 ≡ false → E.is_broken err ≡ false }
        { serve_in_scope(rt, alloc, board, seats, arrived, publishing, err) },
    )
}

/// The same with an outlet of its own, which it gives back: one that is lent to the scope may be anything after it.
fn serve_in_scope<
    J: ShareName + Send + Sync,
    R: Clock + Threads + Wait + Sync,
    P: Publishing<J> + Drop,
    E: Outlet + Drop,
>(
    rt: &R,
    alloc: Global,
    board: &Board<J>,
    seats: Vec<ReadSeat<J>>,
    arrived: Arrived,
    publishing: P,
    err: E,
) -> (E, Result<Told<J>, Refusal>)
    ensures gives { (result.1 ≡ Err Refusal.NoThread) ⊎ GivesSome (vec_len arrived.streams + arrived.absent) (P.gives publishing) (told_view result.1) }
    ensures told { TellsDepartures (is_ok result.1) (vec_len arrived.streams) arrived.absent (E.bytes err) (E.bytes result.0) (E.is_broken result.0) }
    ensures stays { E.is_broken result.0 ≡ false → E.is_broken err ≡ false }
{
    thread::scope(
        thread::scope_env(),
        rt,
        move |scope| -> (E, Result<Told<J>, Refusal>)
            requires { IsSend J.row × IsSync J.row × IsSync R.row × (vec_len arrived.streams + arrived.absent < 2 ^ 64) }
            ensures gives { (result.1 ≡ Err Refusal.NoThread) ⊎ GivesSome (vec_len arrived.streams + arrived.absent) (P.gives publishing) (told_view result.1) }
            ensures told { TellsDepartures (is_ok result.1) (vec_len arrived.streams) arrived.absent (E.bytes err) (E.bytes result.0) (E.is_broken result.0) }
            ensures stays { E.is_broken result.0 ≡ false → E.is_broken err ≡ false }
        {
            let Arrived {
                streams,
                absent,
                wait: _wait,
            } = arrived;
            let count = streams.len();
            let mut all = true;
            for (place, (seat, stream)) in seats.into_iter().zip(streams).enumerate() {
                board.enter(rt);
                let spawned = scope.spawn(move || attend(rt, board, place, seat, stream));
                if spawned.is_err() {
                    board.leave(rt, place, None);
                    all = false;
                    break;
                }
            }
            let outcome = publish_if(all, publishing);
            board.close(rt);
            let published = published_in(&outcome);
            let mut err = err;
            let unserved = tell_gone(rt, alloc, board, count, published, &mut err);
            let missed = unserved + absent;
            (err, unless_missed(outcome, missed))
        },
    )
}

/// Publishes where every subscriber has a thread.
fn publish_if<J: ShareName, P: Publishing<J> + Drop>(
    all: bool,
    publishing: P,
) -> Result<Told<J>, Refusal>
    ensures { (result ≡ Err Refusal.NoThread) ⊎ P.gives publishing (told_view result) }
{
    if all {
        publishing.publish()
    } else {
        Err(Refusal::NoThread)
    }
}

/// How many were published.
fn published_in<J: ShareName>(outcome: &Result<Told<J>, Refusal>) -> u64
    ensures { result ≡ published_in (told_view outcome.now) }
{
    match outcome {
        Ok(told) => told.number(),
        Err(_) => 0,
    }
}

/// Tells a person of each subscriber that goes, as it goes, and answers how many were not sent so many publications.
fn tell_gone<J: ShareName, R: Wait, E: Outlet>(
    rt: &R,
    alloc: Global,
    board: &Board<J>,
    count: usize,
    published: u64,
    err: &mut E,
) -> usize
    ensures few { result ≤ count }
    ensures ends { (ends : List (Option Disconnected)) × (length ends ≡ count) × (result ≡ missed_of published ends) × TellsEnds ends (E.bytes err.old) (E.bytes err.new) (E.is_broken err.new) }
    ensures stays { E.is_broken err.new ≡ false → E.is_broken err.old ≡ false }
{
    let mut missed = 0;
    for _subscriber in 0..count {
        missed += tell_next(rt, alloc, board, published, err);
    }
    missed
}

/// Tells a person of the next subscriber that goes, and counts it if it was not sent so many publications, or if there is none.
fn tell_next<J: ShareName, R: Wait, E: Outlet>(
    rt: &R,
    alloc: Global,
    board: &Board<J>,
    published: u64,
    err: &mut E,
) -> usize
    ensures end { (end : Option Disconnected) × (result ≡ (if is_served published end then 0 else 1)) × TellsGone end (E.bytes err.old) (E.bytes err.new) (E.is_broken err.new) }
    ensures stays { E.is_broken err.new ≡ false → E.is_broken err.old ≡ false }
{
    match board.next_end(rt) {
        Some((place, gone)) => {
            say_gone(alloc, err, place.saturating_add(1), gone);
            missed_by(Some(gone), published)
        }
        None => missed_by(None, published),
    }
}

/// 1 where a stream ended before so many publications were sent, or no end of it is known.
fn missed_by(end: Option<Disconnected>, published: u64) -> usize
    ensures { result ≡ (if is_served published end then 0 else 1) }
{
    let Some(gone) = end else {
        return 1;
    };
    match gone.end {
        StreamEnd::Closed => usize::from(gone.number < published),
        StreamEnd::Limit
        | StreamEnd::WriteFault
        | StreamEnd::ReadSeatFault
        | StreamEnd::WantOfMemory => 1,
    }
}

/// What was published; or, where some subscribers were not sent the last snapshot, how many.
fn unless_missed<J: ShareName>(
    outcome: Result<Told<J>, Refusal>,
    missed: usize,
) -> Result<Told<J>, Refusal>
    ensures { told_view result ≡ less_missed missed (told_view outcome) }
{
    match outcome {
        Ok(told) => {
            if missed == 0 {
                Ok(told)
            } else {
                Err(Refusal::Unserved(missed as u64))
            }
        }
        Err(refusal) => Err(refusal),
    }
}
